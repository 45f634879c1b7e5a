//! What a pattern has in a piece.

ghost use Rattle.std.specs.Prelude.{◌≡◌, ◌+◌, true, IfOk};
ghost use Rattle.node_tree.specs.declared.view.FileView.{FileView as a_view};
ghost use Rattle.node_tree.specs.Numbers.{Numbered, kids_at, root_of};
ghost use Rattle.node_tree.specs.Tree.{span_of};
ghost use Rattle.node_match.specs.Sets.{Among};
ghost use Rattle.piece_form.specs.declared.piece.Piece.{Piece as a_piece};
ghost use Rattle.piece_form.specs.Cut.{piece_at};
ghost use Rattle.piece_form.specs.Identity.{IsSamePiece};
ghost use Rattle.tree_match.specs.Leaf.{IsLeaf};
ghost use Rattle.piece_match.specs.Moved.{moved_leaf};
ghost use Rattle.piece_match.specs.Pieces.{is_cut as cut, stands_alone, known_piece, IsPieceMember, IsMemberUnder};

use crate::apart::{falls_apart, is_root};
use file_match::{ReadyPattern, ReadyTree, match_own_runs, match_tree};
use node_match::Constants;
use node_tree::{Memory, Pattern, Shape, Steps};
use piece_form::Piece;
use std::alloc::Global;
use std::marker::Model;
use std::sync::ledger::Ledger;
use tree_match::{Leaf, LeafSet};

/// A piece that is ready for the search of many patterns. Contracts see the piece.
#[derive(Drop)]
pub struct ReadyPiece<'p> {
    piece: &'p Piece,
    tree: ReadyTree<'p>,
    apart: bool,
}

impl<'p> Model for ReadyPiece<'p> {
    ghost use Rattle.piece_form.specs.declared.piece.Piece.{Piece as piece_value};
    ghost use Rattle.piece_form.specs.contracts.piece.Piece as pieces;

    ghost Value = { piece_value };

    ghost coded = { pieces.the_row.coded };

    ghost use Rattle.piece_match.specs.Ready.{IsReadyPiece};

    ghost view = { λ r. r.piece.now };

    ghost invariant = { λ r. IsReadyPiece r.piece.now r.tree r.apart };
}

impl<'p> ReadyPiece<'p> {
    /// Makes the piece ready.
    pub fn of(alloc: Global, piece: &'p Piece) -> Result<ReadyPiece<'p>, Memory>
        ensures { IfOk result (λ ready. ready ≡ piece.now) }
    {
        Ok(ReadyPiece {
            piece,
            tree: ReadyTree::of(alloc, &piece.tree)?,
            apart: falls_apart(&piece.tree)?,
        })
    }
}

// Whether the pattern is looked for in each statement of the piece by itself.
fn is_cut(piece: &ReadyPiece<'_>, pattern: &ReadyPattern<'_>) -> bool
    ensures { result ≡ cut pattern.now piece.now.tree }
{
    if is_root(pattern.pattern().tree.kind) {
        return false;
    }
    piece.apart
}

// The members of a pattern in a piece.
fn leaf_in(
    alloc: Global,
    piece: &ReadyPiece<'_>,
    pattern: &ReadyPattern<'_>,
) -> Result<Leaf, Memory>
    ensures { IfOk result (λ leaf. IsLeaf (IsPieceMember pattern.now (known_piece piece.now)) leaf) }
{
    let known = Constants {
        names: piece.piece.known.as_slice(),
    };
    if !is_cut(piece, pattern) {
        return match_tree(alloc, &piece.tree, known, pattern);
    }
    match pattern.pattern().shape {
        Shape::Expr => Ok(Leaf::Full(LeafSet::empty(alloc))),
        Shape::Run => match_own_runs(alloc, &piece.tree, known, pattern),
    }
}

/// The members of a pattern in a piece, which are both ready. Of a whole file they are the runs of its statements alone, since what is
/// in these has pieces of its own. Equal pieces have the same members; where one stands as a statement in a file, its members
/// are those of the file there, as much later as the statement begins. It is one step, whatever it answers.
pub fn match_ready_piece<L: Ledger>(
    alloc: Global,
    piece: &ReadyPiece<'_>,
    pattern: &ReadyPattern<'_>,
    steps: &mut Steps<L>,
) -> Result<Leaf, Memory>
    ensures exact { IfOk result (λ leaf. IsLeaf (IsPieceMember pattern.now (known_piece piece.now)) leaf) }
    ensures alike { (p : a_piece) → IsSamePiece piece.now p → IfOk result (λ leaf. IsLeaf (IsPieceMember pattern.now (known_piece p)) leaf) }
    ensures stands { (view : a_view) (n : Numbered) → Among (kids_at (root_of view.tree)) n → stands_alone n.node ≡ true → IsSamePiece piece.now (piece_at view n.at n.node).piece
        → IfOk result (λ leaf. IsLeaf (IsMemberUnder pattern.now view n) (moved_leaf (span_of n.node).from leaf)) }
    ensures cost { steps.new ≡ steps.old + 1 }
{
    steps.tick();
    leaf_in(alloc, piece, pattern)
}

/// The same of a piece for one pattern alone.
pub fn match_piece<L: Ledger>(
    alloc: Global,
    piece: &Piece,
    pattern: &Pattern,
    steps: &mut Steps<L>,
) -> Result<Leaf, Memory>
    ensures exact { IfOk result (λ leaf. IsLeaf (IsPieceMember pattern.now (known_piece piece.now)) leaf) }
    ensures alike { (p : a_piece) → IsSamePiece piece.now p → IfOk result (λ leaf. IsLeaf (IsPieceMember pattern.now (known_piece p)) leaf) }
    ensures stands { (view : a_view) (n : Numbered) → Among (kids_at (root_of view.tree)) n → stands_alone n.node ≡ true → IsSamePiece piece.now (piece_at view n.at n.node).piece
        → IfOk result (λ leaf. IsLeaf (IsMemberUnder pattern.now view n) (moved_leaf (span_of n.node).from leaf)) }
    ensures cost { steps.new ≡ steps.old + 1 }
{
    steps.tick();
    let ready = ReadyPiece::of(alloc, piece)?;
    let pattern = ReadyPattern::of(alloc, pattern)?;
    leaf_in(alloc, &ready, &pattern)
}
