//! A part of a file that is ready to be looked up.

ghost use Rattle.std.specs.Prelude.{◌≡◌, ◌+◌, IfOk, OnOk};
ghost use Rattle.file_parts.specs.Parts.{seen_part, is_needed as needs};
ghost use Rattle.piece_form.specs.declared.piece.Piece.{Piece as a_piece};
ghost use Rattle.piece_form.specs.Identity.{IsSamePiece};
ghost use Rattle.piece_match.specs.Pieces.{IsPieceMember, known_piece};
ghost use Rattle.tree_match.specs.Leaf.{IsLeaf};

use crate::asked::AskedPattern;
use file_parts::Part;
use node_tree::{Memory, Pattern, Steps};
use piece_form::PieceKey;
use piece_match::ReadyPiece;
use std::alloc::Global;
use std::marker::Model;
use std::rc::Rc;
use std::sync::ledger::Ledger;
use tree_match::Leaf;

/// A part of a file with the key of its piece, and the piece made ready as soon as a pattern is matched in it. Contracts see the
/// part.
#[derive(Drop)]
pub struct ReadyPart<'p> {
    pub(crate) part: Part<'p>,
    pub(crate) key: Rc<PieceKey>,
    ready: Option<ReadyPiece<'p>>,
}

impl<'p> Model for ReadyPart<'p> {
    ghost use Rattle.file_parts.specs.Parts.{SeenPart as a_part, seen_part as as_seen};
    ghost use Rattle.kept_leaves.specs.Ready.{IsReadyPart};
    ghost use Rattle.piece_form.specs.contracts.piece.Placed as placeds;
    ghost use Rattle.std.specs.Coded.{codes};

    ghost Value = { a_part };

    ghost coded = { Prim.hlevel (codes, placeds.the_row.coded) };

    ghost view = { λ r. as_seen r.part };

    ghost invariant = { λ r. IsReadyPart (as_seen r.part) r.key r.ready };
}

impl<'p> ReadyPart<'p> {
    /// Makes the key of the part's piece.
    pub fn of(alloc: Global, part: Part<'p>) -> Result<ReadyPart<'p>, Memory>
        ensures { IfOk result (λ ready. ready ≡ seen_part part.entry) }
    {
        let key = Rc::new(alloc, PieceKey::of(alloc, &part.placed.piece)?)?;
        Ok(ReadyPart {
            part,
            key,
            ready: None,
        })
    }

    /// Whether a pattern is matched in the part.
    pub fn is_needed(&self, pattern: &Pattern) -> bool
        ensures { result ≡ needs pattern.now self.now }
    {
        self.part.is_needed(pattern)
    }

    /// Whether the part is one of the file with its names resolved.
    pub fn is_resolved(&self) -> bool
        ensures { result ≡ self.now.resolved }
    {
        self.part.resolved
    }

    /// What a pattern has in the part's piece. It is one step.
    pub fn match_in<L: Ledger>(
        &mut self,
        alloc: Global,
        pattern: &mut AskedPattern<'_>,
        steps: &mut Steps<L>,
    ) -> Result<Leaf, Memory>
        ensures same { self.new ≡ self.old }
        ensures pattern { pattern.new ≡ pattern.old }
        ensures alike { (p : a_piece) → IsSamePiece self.old.placed.piece p →
            IfOk result (IsLeaf (IsPieceMember pattern.old (known_piece p))) }
        ensures cost { OnOk result (steps.new ≡ steps.old + 1) }
    {
        if self.ready.is_none() {
            self.ready = Some(ReadyPiece::of(alloc, &self.part.placed.piece)?);
        }
        let Some(ready) = &self.ready else {
            return Err(Memory);
        };
        pattern.match_in(alloc, ready, steps)
    }
}
