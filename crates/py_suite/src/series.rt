//! Items in a row, with marks before the further ones.

ghost use Rattle.std.specs.Prelude.{◌≡◌, ◌<◌, ◌≤◌, true, length, IfOk};
ghost use Rattle.node_tree.specs.Gives.{Gives};
ghost use Rattle.py_suite.specs.reader.Reading as reading;

use crate::build::plain;
use crate::expression::{expression, value};
use crate::imports::alias;
use crate::items::{decorator, with_item};
use node_tree::{Kind, List, Node, ReadFault};
use py_expr::{Item, PyLevel, Word, ident, is, is_comma, is_name, one};
use std::alloc::Global;

/// What stands in a row.
#[derive(Clone, Copy, Debug, PartialEq, Eq)]
pub enum Series {
    /// The values of an assignment.
    Values,
    Names,
    Aliases,
    /// The items of a `with` statement.
    Items,
    Decorators,
}

/// Whether a further item of a row begins there.
fn goes_on(items: &[Item<'_>], series: Series, at: usize) -> bool
    ensures test { result ≡ reading.goes_on items.now series at }
    ensures within { result ≡ true → at < length items.now }
{
    match series {
        Series::Values => is(items, at, Word::Equal),
        Series::Decorators => is(items, at, Word::At),
        _ => is_comma(items, at),
    }
}

/// A further item of a row, with its mark, which stands there.
fn one_more(
    alloc: Global,
    items: &[Item<'_>],
    series: Series,
    room: u32,
    at: usize,
) -> Result<(Node, usize), ReadFault>
    requires here { at < length items.now }
    requires some { 0 < room }
    requires mark { reading.goes_on items.now series at ≡ true }
    ensures within { IfOk result (λ x. x.1 ≤ length items.now) }
    ensures gives { Gives reading.one result (reading.row items.now room (reading.row_of series) at) }
{
    match series {
        Series::Values => value(alloc, items, room, at + 1),
        Series::Aliases => alias(alloc, items, room, at + 1),
        Series::Items => with_item(alloc, items, room, at + 1),
        Series::Decorators => decorator(alloc, items, room, at),
        Series::Names => {
            if !is_name(items, at + 1) {
                return Err(ReadFault::NoTree);
            }
            Ok((ident(alloc, items, at + 1)?, at + 2))
        }
    }
}

/// The items of a row, of which some are known, and the further ones from there on.
#[tactic(auto, using(crate::proofs::Rounds::further_rest, crate::proofs::Rounds::series_end))]
pub fn further(
    alloc: Global,
    items: &[Item<'_>],
    series: Series,
    room: u32,
    mut kids: List<Node>,
    at: usize,
) -> Result<(List<Node>, usize), ReadFault>
    requires here { at ≤ length items.now }
    requires some { 0 < room }
    ensures within { IfOk result (λ x. x.1 ≤ length items.now) }
    ensures gives { Gives reading.all result (reading.along kids (reading.further items.now room series at)) }
{
    let mut end = at;
    for turn in 0..=items.len() {
        if !goes_on(items, series, end) {
            return Ok((kids, end));
        }
        let (kid, next) = one_more(alloc, items, series, room, end)?;
        kids.push(kid)?;
        end = next;
    }
    Err(ReadFault::NoTree)
}

/// `keyword NAME {"," NAME}`
#[tactic(auto, using(crate::proofs::Forms::declared_read, crate::proofs::Forms::stated_laws))]
pub fn declared(
    alloc: Global,
    items: &[Item<'_>],
    kind: Kind,
    room: u32,
    at: usize,
) -> Result<(Node, usize), ReadFault>
    requires here { at < length items.now }
    requires some { 0 < room }
    ensures within { IfOk result (λ x. x.1 ≤ length items.now) }
    ensures gives { Gives reading.one result (reading.declared items.now room kind at) }
{
    if !is_name(items, at + 1) {
        return Err(ReadFault::NoTree);
    }
    let kids = one(alloc, ident(alloc, items, at + 1)?)?;
    let (kids, end) = further(alloc, items, Series::Names, room, kids, at + 2)?;
    Ok((plain(alloc, items, kind, at, end, kids)?, end))
}
