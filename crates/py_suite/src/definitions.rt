//! Functions and classes, and what may stand before them.

ghost use Rattle.std.specs.Prelude.{◌≡◌, ◌+◌, ◌*◌, ◌<◌, ◌≤◌, [], ◌∷◌, ◌++◌, length, IfOk};
ghost use Rattle.node_tree.specs.Gives.{Gives};
ghost use Rattle.py_suite.specs.reader.Reading as reading;
ghost use Rattle.py_suite.specs.Table.{Def, DefRest, Class, ClassRest, Async, Decorated};

use crate::blocks::suite;
use crate::build::{plain, statement};
use crate::compound::{body, for_rest, with_rest};
use crate::expression::expression;
use crate::items::{bases, decorators, parameters};
use node_tree::{Kind, List, Node, ReadFault};
use py_expr::{
    Item, PyLevel, Word, absent, empty_list, ident, is, is_name, one, start_at, text_at,
};
use std::alloc::Global;

/// `"def" rest`
#[cycle(blocks)]
#[tactic(auto, using(crate::proofs::Steps::def_step, crate::proofs::Steps::level_none))]
pub fn function(
    alloc: Global,
    items: &[Item<'_>],
    room: u32,
    at: usize,
) -> Result<(Node, usize), ReadFault>
    requires { at ≤ length items.now }
    ensures within { IfOk result (λ x. x.1 ≤ length items.now) }
    ensures gives { Gives reading.one result (reading.level items.now room Def at) }
{
    if room == 0 {
        return Err(ReadFault::NoTree);
    }

    if !is(items, at, Word::Def) {
        return Err(ReadFault::NoTree);
    }
    let from = start_at(items, at);
    let kids = one(alloc, empty_list(alloc, from))?;
    let (kids, end) = def_rest(alloc, items, room, from, kids, at + 1)?;
    Ok((plain(alloc, items, Kind::FunctionDef, at, end, kids)?, end))
}

/// `NAME "(" [params] ")" ["->" test] ":" suite`, of a function that begins there, behind its kids so far.
#[cycle(blocks)]
#[tactic(auto, using(crate::proofs::Steps::def_rest_step, crate::proofs::Steps::level_none))]
fn def_rest(
    alloc: Global,
    items: &[Item<'_>],
    room: u32,
    from: u32,
    mut kids: List<Node>,
    at: usize,
) -> Result<(List<Node>, usize), ReadFault>
    requires { at ≤ length items.now }
    ensures within { IfOk result (λ x. x.1 ≤ length items.now) }
    ensures gives { Gives reading.kids_alone result (reading.kids_behind kids (reading.heads items.now room from DefRest at)) }
{
    if room == 0 {
        return Err(ReadFault::NoTree);
    }

    if !is_name(items, at) {
        return Err(ReadFault::NoTree);
    }
    kids.push(ident(alloc, items, at)?)?;
    let (list, end) = parameters(alloc, items, room, from, at + 1)?;
    kids.push(list)?;
    let (returns, end) = returns(alloc, items, room, from, end)?;
    kids.push(returns)?;
    let (block, end) = body(alloc, items, room, end)?;
    kids.push(block)?;
    Ok((kids, end))
}

/// `["->" test]`, of a function that begins there.
fn returns(
    alloc: Global,
    items: &[Item<'_>],
    room: u32,
    from: u32,
    at: usize,
) -> Result<(Node, usize), ReadFault>
    requires here { at ≤ length items.now }
    requires some { 0 < room }
    ensures within { IfOk result (λ x. x.1 ≤ length items.now) }
    ensures gives { Gives reading.one_kid result (reading.returns items.now room from at) }
{
    if !is(items, at, Word::Arrow) {
        return Ok((absent(alloc, from), at));
    }
    expression(alloc, items, PyLevel::Test, room, at + 1)
}

/// `"class" rest`
#[cycle(blocks)]
#[tactic(auto, using(crate::proofs::Steps::class_step, crate::proofs::Steps::level_none))]
pub fn class(
    alloc: Global,
    items: &[Item<'_>],
    room: u32,
    at: usize,
) -> Result<(Node, usize), ReadFault>
    requires { at ≤ length items.now }
    ensures within { IfOk result (λ x. x.1 ≤ length items.now) }
    ensures gives { Gives reading.one result (reading.level items.now room Class at) }
{
    if room == 0 {
        return Err(ReadFault::NoTree);
    }

    if !is(items, at, Word::Class) {
        return Err(ReadFault::NoTree);
    }
    let from = start_at(items, at);
    let kids = one(alloc, empty_list(alloc, from))?;
    let (kids, end) = class_rest(alloc, items, room, from, kids, at + 1)?;
    Ok((plain(alloc, items, Kind::ClassDef, at, end, kids)?, end))
}

/// `NAME ["(" args ")"] ":" suite`, of a class that begins there, behind its kids so far.
#[cycle(blocks)]
#[tactic(auto, using(crate::proofs::Steps::class_rest_step, crate::proofs::Steps::level_none))]
fn class_rest(
    alloc: Global,
    items: &[Item<'_>],
    room: u32,
    from: u32,
    mut kids: List<Node>,
    at: usize,
) -> Result<(List<Node>, usize), ReadFault>
    requires { at ≤ length items.now }
    ensures within { IfOk result (λ x. x.1 ≤ length items.now) }
    ensures gives { Gives reading.kids_alone result (reading.kids_behind kids (reading.heads items.now room from ClassRest at)) }
{
    if room == 0 {
        return Err(ReadFault::NoTree);
    }

    if !is_name(items, at) {
        return Err(ReadFault::NoTree);
    }
    kids.push(ident(alloc, items, at)?)?;
    let (list, end) = bases(alloc, items, room, from, at + 1)?;
    kids.push(list)?;
    let (block, end) = body(alloc, items, room, end)?;
    kids.push(block)?;
    Ok((kids, end))
}

/// `"async" ("for" rest | "with" rest | "def" rest)`
#[cycle(blocks)]
#[tactic(auto, using(crate::proofs::Steps::async_step, crate::proofs::Steps::async_rest_step, crate::proofs::Steps::level_none))]
pub fn waited(
    alloc: Global,
    items: &[Item<'_>],
    room: u32,
    at: usize,
) -> Result<(Node, usize), ReadFault>
    requires { at ≤ length items.now }
    ensures within { IfOk result (λ x. x.1 ≤ length items.now) }
    ensures gives { Gives reading.one result (reading.level items.now room Async at) }
{
    if room == 0 {
        return Err(ReadFault::NoTree);
    }

    if !is(items, at, Word::Async) {
        return Err(ReadFault::NoTree);
    }
    let text = text_at(alloc, items, at)?;
    if is(items, at + 1, Word::For) {
        let (kids, end) = for_rest(alloc, items, room, at + 2)?;
        return Ok((
            statement(alloc, items, Kind::For, text, at, end, kids)?,
            end,
        ));
    }
    if is(items, at + 1, Word::With) {
        let (kids, end) = with_rest(alloc, items, room, at + 2)?;
        return Ok((
            statement(alloc, items, Kind::With, text, at, end, kids)?,
            end,
        ));
    }
    if !is(items, at + 1, Word::Def) {
        return Err(ReadFault::NoTree);
    }
    let from = start_at(items, at);
    let kids = one(alloc, empty_list(alloc, from))?;
    let (kids, end) = def_rest(alloc, items, room, from, kids, at + 2)?;
    Ok((
        statement(alloc, items, Kind::FunctionDef, text, at, end, kids)?,
        end,
    ))
}

/// Decorators, and the function or the class that they stand before.
#[cycle(blocks)]
#[tactic(auto, using(crate::proofs::Steps::decorated_step, crate::proofs::Steps::decorated_rest_step, crate::proofs::Steps::level_none))]
pub fn decorated(
    alloc: Global,
    items: &[Item<'_>],
    room: u32,
    at: usize,
) -> Result<(Node, usize), ReadFault>
    requires { at ≤ length items.now }
    ensures within { IfOk result (λ x. x.1 ≤ length items.now) }
    ensures gives { Gives reading.one result (reading.level items.now room Decorated at) }
{
    if room == 0 {
        return Err(ReadFault::NoTree);
    }

    let from = start_at(items, at);
    let (list, end) = decorators(alloc, items, room, at)?;
    let kids = one(alloc, list)?;
    if is(items, end, Word::Async) {
        if !is(items, end + 1, Word::Def) {
            return Err(ReadFault::NoTree);
        }
        let text = text_at(alloc, items, end)?;
        let (kids, end) = def_rest(alloc, items, room, from, kids, end + 2)?;
        return Ok((
            statement(alloc, items, Kind::FunctionDef, text, at, end, kids)?,
            end,
        ));
    }
    if is(items, end, Word::Def) {
        let (kids, end) = def_rest(alloc, items, room, from, kids, end + 1)?;
        return Ok((plain(alloc, items, Kind::FunctionDef, at, end, kids)?, end));
    }
    if !is(items, end, Word::Class) {
        return Err(ReadFault::NoTree);
    }
    let (kids, end) = class_rest(alloc, items, room, from, kids, end + 1)?;
    Ok((plain(alloc, items, Kind::ClassDef, at, end, kids)?, end))
}
