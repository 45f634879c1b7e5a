//! Lists with commas, targets, subscripts and yields.

ghost use Rattle.std.specs.Prelude.{◌+◌, ◌<◌, ◌≤◌, length, IfOk};
ghost use Rattle.node_tree.specs.Gives.{Gives};
ghost use Rattle.py_expr.specs.reader.Reading as reading;
ghost use Rattle.py_expr.specs.Table.{Exprs, Star, Targs, Target, Index, Piece, SliceEnd, Bound, Yield};

use crate::build::{After, absent, grouped, one, over, slice};
use crate::item::Item;
use crate::level::{Binary, Place};
use crate::look::{
    end_before, is, is_comma, is_name, start_at, starts_for, starts_item, starts_star, starts_test,
    takes_clauses,
};
use crate::read::arguments::{arg, param};
use crate::read::displays::comprehension;
use crate::read::operators::{assigned, binary, named, test};
use crate::word::Word;
use node_tree::{Kind, List, Node, ReadFault};
use std::alloc::Global;

/// `star {"," star} [","]`, a star itself where there is one without comma.
#[cycle(reader)]
#[tactic(auto, using(crate::proofs::Steps::exprs_step, crate::proofs::Steps::level_none))]
pub fn exprs(
    alloc: Global,
    items: &[Item<'_>],
    room: u32,
    at: usize,
) -> Result<(Node, usize), ReadFault>
    requires { at ≤ length items.now }
    ensures within { IfOk result (λ x. x.1 ≤ length items.now) }
    ensures gives { Gives reading.one result (reading.level items.now room Exprs at) }
{
    if room == 0 {
        return Err(ReadFault::NoTree);
    }

    let (first, end) = star(alloc, items, room, at)?;
    let (after, end) = after(alloc, items, Place::Star, room, end)?;
    let from = start_at(items, at);
    let to = end_before(items, end);
    Ok((grouped(alloc, from, to, first, after)?, end))
}

/// As `exprs`, with targets.
#[cycle(reader)]
#[tactic(auto, using(crate::proofs::Steps::targs_step, crate::proofs::Steps::level_none))]
pub fn targs(
    alloc: Global,
    items: &[Item<'_>],
    room: u32,
    at: usize,
) -> Result<(Node, usize), ReadFault>
    requires { at ≤ length items.now }
    ensures within { IfOk result (λ x. x.1 ≤ length items.now) }
    ensures gives { Gives reading.one result (reading.level items.now room Targs at) }
{
    if room == 0 {
        return Err(ReadFault::NoTree);
    }

    let (first, end) = target(alloc, items, room, at)?;
    let (after, end) = after(alloc, items, Place::Target, room, end)?;
    let from = start_at(items, at);
    let to = end_before(items, end);
    Ok((grouped(alloc, from, to, first, after)?, end))
}

/// As `exprs`, with slices.
#[cycle(reader)]
#[tactic(auto, using(crate::proofs::Steps::index_step, crate::proofs::Steps::level_none))]
pub fn index(
    alloc: Global,
    items: &[Item<'_>],
    room: u32,
    at: usize,
) -> Result<(Node, usize), ReadFault>
    requires { at ≤ length items.now }
    ensures within { IfOk result (λ x. x.1 ≤ length items.now) }
    ensures gives { Gives reading.one result (reading.level items.now room Index at) }
{
    if room == 0 {
        return Err(ReadFault::NoTree);
    }

    let (first, end) = piece(alloc, items, room, at)?;
    let (after, end) = after(alloc, items, Place::Piece, room, end)?;
    let from = start_at(items, at);
    let to = end_before(items, end);
    Ok((grouped(alloc, from, to, first, after)?, end))
}

/// `"*" bor | named`
#[cycle(reader)]
#[tactic(auto, using(crate::proofs::Steps::star_step, crate::proofs::Steps::level_none))]
pub fn star(
    alloc: Global,
    items: &[Item<'_>],
    room: u32,
    at: usize,
) -> Result<(Node, usize), ReadFault>
    requires { at ≤ length items.now }
    ensures within { IfOk result (λ x. x.1 ≤ length items.now) }
    ensures gives { Gives reading.one result (reading.level items.now room Star at) }
{
    if room == 0 {
        return Err(ReadFault::NoTree);
    }

    if is(items, at, Word::Times) {
        return starred(alloc, items, room, at);
    }
    named(alloc, items, room, at)
}

/// `"*" bor`
#[cycle(reader)]
pub fn starred(
    alloc: Global,
    items: &[Item<'_>],
    room: u32,
    at: usize,
) -> Result<(Node, usize), ReadFault>
    requires here { at ≤ length items.now }
    requires some { 0 < room }
    ensures within { IfOk result (λ x. x.1 ≤ length items.now) }
    ensures gives { Gives reading.one result (reading.starred items.now room at) }
{
    if !is(items, at, Word::Times) {
        return Err(ReadFault::NoTree);
    }
    let (kid, end) = binary(alloc, items, Binary::Bar, room, at + 1)?;
    let kids = one(alloc, kid)?;
    let from = start_at(items, at);
    Ok((
        over(alloc, Kind::Star, from, end_before(items, end), kids),
        end,
    ))
}

/// `"**" bor`
#[cycle(reader)]
pub fn double_starred(
    alloc: Global,
    items: &[Item<'_>],
    room: u32,
    at: usize,
) -> Result<(Node, usize), ReadFault>
    requires here { at ≤ length items.now }
    requires some { 0 < room }
    ensures within { IfOk result (λ x. x.1 ≤ length items.now) }
    ensures gives { Gives reading.one result (reading.double_starred items.now room at) }
{
    if !is(items, at, Word::Power) {
        return Err(ReadFault::NoTree);
    }
    let (kid, end) = binary(alloc, items, Binary::Bar, room, at + 1)?;
    let kids = one(alloc, kid)?;
    let from = start_at(items, at);
    Ok((
        over(alloc, Kind::Star2, from, end_before(items, end), kids),
        end,
    ))
}

/// `["*"] bor`
#[cycle(reader)]
#[tactic(auto, using(crate::proofs::Steps::target_step, crate::proofs::Steps::level_none))]
pub fn target(
    alloc: Global,
    items: &[Item<'_>],
    room: u32,
    at: usize,
) -> Result<(Node, usize), ReadFault>
    requires { at ≤ length items.now }
    ensures within { IfOk result (λ x. x.1 ≤ length items.now) }
    ensures gives { Gives reading.one result (reading.level items.now room Target at) }
{
    if room == 0 {
        return Err(ReadFault::NoTree);
    }

    if is(items, at, Word::Times) {
        return starred(alloc, items, room, at);
    }
    binary(alloc, items, Binary::Bar, room, at)
}

/// A slice, or another item of a subscript.
#[cycle(reader)]
#[tactic(auto, using(crate::proofs::Steps::piece_step, crate::proofs::Steps::level_none))]
pub fn piece(
    alloc: Global,
    items: &[Item<'_>],
    room: u32,
    at: usize,
) -> Result<(Node, usize), ReadFault>
    requires { at ≤ length items.now }
    ensures within { IfOk result (λ x. x.1 ≤ length items.now) }
    ensures gives { Gives reading.one result (reading.level items.now room Piece at) }
{
    if room == 0 {
        return Err(ReadFault::NoTree);
    }

    if is(items, at, Word::Times) {
        return starred(alloc, items, room, at);
    }
    let from = start_at(items, at);
    if is(items, at, Word::Colon) {
        let (high, step, end) = slice_end(alloc, items, room, at)?;
        let low = absent(alloc, from);
        let to = end_before(items, end);
        return Ok((slice(alloc, from, to, low, high, step)?, end));
    }
    if is_name(items, at) {
        if is(items, at + 1, Word::Walrus) {
            return assigned(alloc, items, Kind::Walrus, room, at);
        }
    }
    let (low, end) = test(alloc, items, room, at)?;
    if !is(items, end, Word::Colon) {
        return Ok((low, end));
    }
    let (high, step, end) = slice_end(alloc, items, room, end)?;
    let to = end_before(items, end);
    Ok((slice(alloc, from, to, low, high, step)?, end))
}

/// `":" [test] [":" [test]]`
#[cycle(reader)]
#[tactic(auto, using(crate::proofs::Steps::slice_end_step, crate::proofs::Steps::level_none))]
fn slice_end(
    alloc: Global,
    items: &[Item<'_>],
    room: u32,
    at: usize,
) -> Result<(Option<Node>, Option<Node>, usize), ReadFault>
    requires { at ≤ length items.now }
    ensures within { IfOk result (λ x. x.2 ≤ length items.now) }
    ensures gives { Gives reading.one_bounds result (reading.level items.now room SliceEnd at) }
{
    if room == 0 {
        return Err(ReadFault::NoTree);
    }

    let (high, end) = bound(alloc, items, room, at)?;
    if !is(items, end, Word::Colon) {
        return Ok((high, None, end));
    }
    let (step, end) = bound(alloc, items, room, end)?;
    Ok((high, step, end))
}

/// `":" [test]`
#[cycle(reader)]
#[tactic(auto, using(crate::proofs::Steps::bound_step, crate::proofs::Steps::level_none))]
fn bound(
    alloc: Global,
    items: &[Item<'_>],
    room: u32,
    at: usize,
) -> Result<(Option<Node>, usize), ReadFault>
    requires { at ≤ length items.now }
    ensures within { IfOk result (λ x. x.1 ≤ length items.now) }
    ensures gives { Gives reading.optional result (reading.level items.now room Bound at) }
{
    if room == 0 {
        return Err(ReadFault::NoTree);
    }

    if !is(items, at, Word::Colon) {
        return Err(ReadFault::NoTree);
    }
    if !starts_test(items, at + 1) {
        return Ok((None, at + 1));
    }
    let (node, end) = test(alloc, items, room, at + 1)?;
    Ok((Some(node), end))
}

/// `"yield" ["from" test | exprs]`
#[cycle(reader)]
#[tactic(auto, using(crate::proofs::Steps::yield_step, crate::proofs::Steps::level_none))]
pub fn yields(
    alloc: Global,
    items: &[Item<'_>],
    room: u32,
    at: usize,
) -> Result<(Node, usize), ReadFault>
    requires { at ≤ length items.now }
    ensures within { IfOk result (λ x. x.1 ≤ length items.now) }
    ensures gives { Gives reading.one result (reading.level items.now room Yield at) }
{
    if room == 0 {
        return Err(ReadFault::NoTree);
    }

    if !is(items, at, Word::Yield) {
        return Err(ReadFault::NoTree);
    }
    let from = start_at(items, at);
    if is(items, at + 1, Word::From) {
        let (kid, end) = test(alloc, items, room, at + 2)?;
        let kids = one(alloc, kid)?;
        return Ok((
            over(alloc, Kind::YieldFrom, from, end_before(items, end), kids),
            end,
        ));
    }
    if !starts_star(items, at + 1) {
        let kids = one(alloc, absent(alloc, from))?;
        return Ok((
            over(alloc, Kind::Yield, from, end_before(items, at + 1), kids),
            at + 1,
        ));
    }
    let (kid, end) = exprs(alloc, items, room, at + 1)?;
    let kids = one(alloc, kid)?;
    Ok((
        over(alloc, Kind::Yield, from, end_before(items, end), kids),
        end,
    ))
}

/// What comes after a first item: further ones, or the clauses of a comprehension.
#[cycle(reader)]
#[tactic(auto, using(crate::proofs::Steps::after_step, crate::proofs::Steps::level_none, crate::proofs::Steps::list_laws, crate::proofs::Measures::takes_more))]
pub fn after(
    alloc: Global,
    items: &[Item<'_>],
    place: Place,
    room: u32,
    at: usize,
) -> Result<(After, usize), ReadFault>
    requires { at ≤ length items.now }
    ensures within { IfOk result (λ x. x.1 ≤ length items.now) }
    ensures gives { Gives reading.after result (reading.level items.now room (reading.after_of place) at) }
{
    if room == 0 {
        return Err(ReadFault::NoTree);
    }

    if takes_clauses(place) {
        if starts_for(items, at) {
            let (clauses, end) = comprehension(alloc, items, room, at)?;
            return Ok((After::Clauses(clauses), end));
        }
    }
    if !is_comma(items, at) {
        return Ok((After::Nothing, at));
    }
    let (kids, end) = further(alloc, items, place, room, at + 1)?;
    Ok((After::Further(kids), end))
}

/// `[item {"," item} [","]]`
#[cycle(reader)]
#[tactic(auto, using(crate::proofs::Steps::further_step, crate::proofs::Steps::further_turn, crate::proofs::Steps::further_turned, crate::proofs::Steps::level_none, crate::proofs::Steps::list_laws))]
fn further(
    alloc: Global,
    items: &[Item<'_>],
    place: Place,
    room: u32,
    at: usize,
) -> Result<(List<Node>, usize), ReadFault>
    requires { at ≤ length items.now }
    ensures within { IfOk result (λ x. x.1 ≤ length items.now) }
    ensures gives { Gives reading.all result (reading.level items.now room (reading.further_of place) at) }
{
    if room == 0 {
        return Err(ReadFault::NoTree);
    }

    let mut kids = List::new(alloc);
    if !starts_item(items, at, place) {
        return Ok((kids, at));
    }
    let (first, mut end) = one_item(alloc, items, place, room, at)?;
    kids.push(first)?;
    for turn in 0..=items.len() {
        if !is_comma(items, end) {
            return Ok((kids, end));
        }
        if !starts_item(items, end + 1, place) {
            return Ok((kids, end + 1));
        }
        let (kid, next) = one_item(alloc, items, place, room, end + 1)?;
        kids.push(kid)?;
        end = next;
    }
    Err(ReadFault::NoTree)
}

/// An item at a place.
#[cycle(reader)]
#[tactic(auto, using(crate::proofs::Steps::level_none))]
fn one_item(
    alloc: Global,
    items: &[Item<'_>],
    place: Place,
    room: u32,
    at: usize,
) -> Result<(Node, usize), ReadFault>
    requires { at ≤ length items.now }
    ensures within { IfOk result (λ x. x.1 ≤ length items.now) }
    ensures gives { Gives reading.one result (reading.level items.now room (reading.item_of place) at) }
{
    if room == 0 {
        return Err(ReadFault::NoTree);
    }

    match place {
        Place::Star | Place::Item => star(alloc, items, room, at),
        Place::Target => target(alloc, items, room, at),
        Place::Piece => piece(alloc, items, room, at),
        Place::Arg | Place::FirstArg => arg(alloc, items, room, at),
        Place::Param => param(alloc, items, true, room, at),
        Place::LambdaParam => param(alloc, items, false, room, at),
    }
}
