//! A pattern that is asked for.

ghost use Rattle.std.specs.Prelude.{◌≡◌, ◌+◌, IfOk, OnOk};
ghost use Rattle.piece_form.specs.declared.piece.Piece.{Piece as a_piece};
ghost use Rattle.piece_form.specs.Identity.{IsSamePiece};
ghost use Rattle.piece_match.specs.Pieces.{IsPieceMember, known_piece};
ghost use Rattle.tree_match.specs.Leaf.{IsLeaf};

use file_match::ReadyPattern;
use node_tree::{Memory, Pattern, Steps};
use piece_match::{ReadyPiece, match_ready_piece};
use std::alloc::Global;
use std::marker::Model;
use std::sync::ledger::Ledger;
use tree_match::Leaf;

/// A pattern that is asked for, and made ready as soon as it is matched in a piece. Contracts see the pattern.
#[derive(Drop)]
pub struct AskedPattern<'p> {
    pattern: &'p Pattern,
    ready: Option<ReadyPattern<'p>>,
}

impl<'p> Model for AskedPattern<'p> {
    ghost use Rattle.node_tree.specs.declared.view.Pattern.{Pattern as pattern_value};
    ghost use Rattle.node_tree.specs.contracts.view.Pattern as patterns;

    ghost Value = { pattern_value };

    ghost coded = { patterns.the_row.coded };

    ghost use Rattle.kept_leaves.specs.Ready.{IsAskedPattern};

    ghost view = { λ a. a.pattern.now };

    ghost invariant = { λ a. IsAskedPattern a.pattern.now a.ready };
}

impl<'p> AskedPattern<'p> {
    /// A pattern that is not made ready yet.
    pub fn of(pattern: &'p Pattern) -> AskedPattern<'p>
        ensures { result ≡ pattern.now }
    {
        AskedPattern {
            pattern,
            ready: None,
        }
    }

    /// The pattern.
    pub fn pattern(&self) -> &'p Pattern
        ensures { result.now ≡ self.now }
    {
        self.pattern
    }

    /// What the pattern has in a piece. It is one step.
    pub fn match_in<L: Ledger>(
        &mut self,
        alloc: Global,
        piece: &ReadyPiece<'_>,
        steps: &mut Steps<L>,
    ) -> Result<Leaf, Memory>
        ensures same { self.new ≡ self.old }
        ensures alike { (p : a_piece) → IsSamePiece piece.now p →
            IfOk result (IsLeaf (IsPieceMember self.old (known_piece p))) }
        ensures cost { OnOk result (steps.new ≡ steps.old + 1) }
    {
        if self.ready.is_none() {
            self.ready = Some(ReadyPattern::of(alloc, self.pattern)?);
        }
        let Some(ready) = &self.ready else {
            return Err(Memory);
        };
        match_ready_piece(alloc, piece, ready, steps)
    }
}
