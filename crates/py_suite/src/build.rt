//! The nodes of statements.

ghost use Rattle.std.specs.Prelude.{◌≡◌, ◌<◌, ◌≤◌, [], length, IfOk};
ghost use Rattle.py_expr.specs.Parts.{node};
ghost use Rattle.py_expr.specs.Build.{token_at};
ghost use Rattle.py_suite.specs.Build as spec;

use node_tree::{Kind, List, Memory, Node, Text};
use py_expr::{Item, Word, absent, end_before, node_of, one, start_at, word_at};
use std::alloc::Global;

/// Whether a word belongs to no node: the end of a line, indentation, or the `;` between statements.
fn is_layout(word: Word) -> bool
    ensures { result ≡ spec.is_layout word }
{
    matches!(
        word,
        Word::Newline | Word::Indent | Word::Dedent | Word::Semicolon
    )
}

/// Where the last token before this one ends that belongs to a node.
#[tactic(auto, using(crate::proofs::Ends::code_end_start, crate::proofs::Ends::code_end_here))]
fn code_end(items: &[Item<'_>], at: usize) -> u32
    requires { at ≤ length items.now }
    ensures { result ≡ spec.code_end items.now at }
{
    for back in 0..at {
        let end = at - back;
        if !is_layout(word_at(items, end - 1)) {
            return end_before(items, end);
        }
    }
    0
}

/// Where a node ends that goes from a token up to another.
fn end_from(items: &[Item<'_>], at: usize, end: usize) -> u32
    requires { end ≤ length items.now }
    ensures { result ≡ spec.end_from items.now at end }
{
    start_at(items, at).max(code_end(items, end))
}

/// How many kids a statement of the kind has where that is fixed.
fn arity(kind: Kind) -> usize
    ensures { result ≡ spec.arity kind }
{
    match kind {
        Kind::Return => 1,
        Kind::Raise | Kind::Assert | Kind::Alias | Kind::WithItem => 2,
        Kind::AnnAssign | Kind::If | Kind::While => 3,
        Kind::For | Kind::Try => 4,
        _ => 0,
    }
}

/// The kids of a statement that begins there, with what is absent at their end.
#[tactic(auto, using(crate::proofs::Ends::padded_laws))]
fn padded(alloc: Global, kind: Kind, from: u32, mut kids: List<Node>) -> Result<List<Node>, Memory>
    ensures { IfOk result (λ ns. ns ≡ spec.padded kind from kids) }
{
    for at in kids.len()..arity(kind) {
        kids.push(absent(alloc, from))?;
    }
    Ok(kids)
}

/// A statement of the kind with this text, from a token up to another; what lacks at its end is absent.
pub fn statement(
    alloc: Global,
    items: &[Item<'_>],
    kind: Kind,
    text: Text,
    at: usize,
    end: usize,
    kids: List<Node>,
) -> Result<Node, Memory>
    requires { end ≤ length items.now }
    ensures { IfOk result (λ n. n ≡ node kind text (token_at items.now at).span.from (spec.end_from items.now at end) (spec.padded kind (token_at items.now at).span.from kids)) }
{
    let from = start_at(items, at);
    let kids = padded(alloc, kind, from, kids)?;
    Ok(node_of(kind, text, from, end_from(items, at, end), kids))
}

/// The same without text.
pub fn plain(
    alloc: Global,
    items: &[Item<'_>],
    kind: Kind,
    at: usize,
    end: usize,
    kids: List<Node>,
) -> Result<Node, Memory>
    requires { end ≤ length items.now }
    ensures { IfOk result (λ n. n ≡ node kind [] (token_at items.now at).span.from (spec.end_from items.now at end) (spec.padded kind (token_at items.now at).span.from kids)) }
{
    statement(alloc, items, kind, Text::new(alloc), at, end, kids)
}

/// Whether a kind is that of `...` or `$...NAME` in a pattern.
fn is_dots(kind: Kind) -> bool
    ensures { result ≡ spec.is_dots kind }
{
    matches!(kind, Kind::Dots | Kind::MetaDots)
}

/// A statement or an item of the kind over one node; dots that stand alone are no more than dots.
pub fn unless_dots(
    alloc: Global,
    items: &[Item<'_>],
    kind: Kind,
    at: usize,
    end: usize,
    node: Node,
) -> Result<Node, Memory>
    requires here { at ≤ length items.now }
    requires within { end ≤ length items.now }
    ensures { IfOk result (λ n. spec.item kind (spec.alone at end) (token_at items.now at).span.from (spec.end_from items.now at end) (spec.whole_of node) ≡ spec.whole_of n) }
{
    if end == at + 1 {
        if is_dots(node.kind) {
            return Ok(node);
        }
    }
    plain(alloc, items, kind, at, end, one(alloc, node)?)
}
