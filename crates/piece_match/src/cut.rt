//! The pieces of a file.

ghost use Rattle.std.specs.Prelude.{◌≡◌, ◌+◌, ◌++◌, ◌<◌, ◌≤◌, ℕ, length, take, slice_range, All, IfOk, OnOk};
ghost use Rattle.node_tree.specs.KnownNames.{AreInOrder};
ghost use Rattle.node_tree.specs.Spans.{SpansLieIn};
ghost use Rattle.node_tree.specs.Numbers.{count_of};
ghost use Rattle.piece_match.specs.Names.{counted_name};
ghost use Rattle.piece_form.specs.Cut.{known_between, piece_at as piece_value, pieces_of, root_piece_of};

use node_tree::{Bytes, FileView, Known, List, Memory, Node, Shift, Span, Twin};
use piece_form::{KnownNames, Piece, Placed};
use std::alloc::Global;

// Known names of a piece, and how many of the file's are behind then.
#[derive(Drop)]
struct Names {
    kept: KnownNames,
    next: usize,
}

// Adds a known name, counted from that number, where it isn't below it.
fn add_name(kept: &mut List<Known>, one: &Known, first: usize) -> Result<(), Memory>
    ensures { OnOk result (kept.new ≡ kept.old ++ counted_name first one.now) }
{
    let at = one.at as usize;
    if first <= at {
        kept.push(Known {
            at: (at - first) as u32,
            literal: one.literal.copy()?,
        })?;
    }
    Ok(())
}

// The known names of the nodes from one number up to another, where those before `next` have numbers below the first.
fn names_between(
    alloc: Global,
    known: &[Known],
    next: usize,
    first: usize,
    end: usize,
) -> Result<Names, Memory>
    requires ordered { AreInOrder known.now }
    requires behind { All (λ k. k.at < first) (take next known.now) }
    requires further { first ≤ end }
    ensures kept { IfOk result (λ names. names.kept ≡ known_between first end known.now) }
    ensures behind { IfOk result (λ names. All (λ k. k.at < end) (take names.next known.now)) }
{
    let mut kept = List::new(alloc);
    for i in next..known.len() {
        let one = &known[i];
        if end <= one.at as usize {
            return Ok(Names {
                kept: KnownNames::of(kept),
                next: i,
            });
        }
        add_name(&mut kept, one, first)?;
    }
    Ok(Names {
        kept: KnownNames::of(kept),
        next: known.len(),
    })
}

// The bytes of a range.
fn bytes_in(bytes: &[u8], span: Span) -> &[u8]
    requires ordered { span.from ≤ span.to }
    requires within { span.to ≤ length bytes.now }
    ensures { result.now ≡ slice_range bytes.now span.from span.to }
{
    &bytes[span.from as usize..span.to as usize]
}

// The piece of a statement, with these known names.
fn piece_at(view: &FileView, node: &Node, known: KnownNames) -> Result<Placed, Memory>
    requires { SpansLieIn view.now.bytes node.now }
    ensures { IfOk result (λ placed. (number : ℕ) → known ≡ known_between number (number + count_of node.now) view.now.known → placed ≡ piece_value view.now number node.now) }
{
    let alloc = node.kids.alloc();
    let start = node.span.from;
    let bytes = bytes_in(view.bytes.as_slice(), node.span);
    Ok(Placed {
        start,
        piece: Piece {
            lang: view.lang,
            bytes: Bytes::from_slice(alloc, bytes)?,
            tree: node.copy_shifted(Shift::Earlier(start))?,
            known,
        },
    })
}

/// The pieces of a file: one for each statement at its top level, in order, with places counted from its start and known names
/// by numbers from its first node.
pub fn pieces(view: &FileView) -> Result<List<Placed>, Memory>
    ensures { IfOk result (λ placed. placed ≡ pieces_of view.now) }
{
    let alloc = view.tree.kids.alloc();
    let mut placed = List::new(alloc);
    let mut number: usize = 1;
    let mut next: usize = 0;
    for kid in view.tree.kids.as_slice() {
        let Some(count) = kid.count() else {
            return Err(Memory);
        };
        let Some(end) = number.checked_add(count as usize) else {
            return Err(Memory);
        };
        let names = names_between(alloc, view.known.as_slice(), next, number, end)?;
        next = names.next;
        placed.push(piece_at(view, kid, names.kept)?)?;
        number = end;
    }
    Ok(placed)
}

/// The whole file as a piece, for runs of its statements.
pub fn root_piece(view: &FileView) -> Result<Piece, Memory>
    ensures { IfOk result (λ piece. piece ≡ root_piece_of view.now) }
{
    Ok(Piece {
        lang: view.lang,
        bytes: view.bytes.copy()?,
        tree: view.tree.copy()?,
        known: KnownNames::of(view.known.copy()?),
    })
}
