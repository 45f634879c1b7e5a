//! Parts of compound statements that hold no statements.

ghost use Rattle.std.specs.Prelude.{◌≡◌, ◌<◌, ◌≤◌, [], ◌∷◌, length, IfOk};
ghost use Rattle.node_tree.specs.Gives.{Gives};
ghost use Rattle.py_suite.specs.reader.Reading as reading;
ghost use Rattle.py_suite.specs.Table.{WithItem, WithItems, Decorator, Decorators, Caught, Parameters, Bases};

use crate::build::{plain, unless_dots};
use crate::expression::{expression, marked};
use crate::series::{Series, further};
use node_tree::{Kind, Node, ReadFault};
use py_expr::{
    Item, PyLevel, Word, absent, empty_list, ident, is, is_name, one, starts_arg, starts_param,
    starts_test, two,
};
use std::alloc::Global;

/// `item {"," item}`, of a `with` statement.
#[tactic(auto, using(crate::proofs::Steps::with_items_step, crate::proofs::Steps::level_none))]
pub fn with_items(
    alloc: Global,
    items: &[Item<'_>],
    room: u32,
    at: usize,
) -> Result<(Node, usize), ReadFault>
    requires { at ≤ length items.now }
    ensures within { IfOk result (λ x. x.1 ≤ length items.now) }
    ensures gives { Gives reading.one result (reading.level items.now room WithItems at) }
{
    if room == 0 {
        return Err(ReadFault::NoTree);
    }

    let (first, end) = with_item(alloc, items, room, at)?;
    let kids = one(alloc, first)?;
    let (kids, end) = further(alloc, items, Series::Items, room, kids, end)?;
    Ok((plain(alloc, items, Kind::List, at, end, kids)?, end))
}

/// `test ["as" target]`
#[tactic(auto, using(crate::proofs::Steps::with_item_step, crate::proofs::Steps::level_none))]
pub fn with_item(
    alloc: Global,
    items: &[Item<'_>],
    room: u32,
    at: usize,
) -> Result<(Node, usize), ReadFault>
    requires { at ≤ length items.now }
    ensures within { IfOk result (λ x. x.1 ≤ length items.now) }
    ensures gives { Gives reading.one result (reading.level items.now room WithItem at) }
{
    if room == 0 {
        return Err(ReadFault::NoTree);
    }

    let (value, end) = expression(alloc, items, PyLevel::Test, room, at)?;
    let (target, end) = marked(alloc, items, Word::As, PyLevel::Target, room, end)?;
    match target {
        None => {
            let node = unless_dots(alloc, items, Kind::WithItem, at, end, value)?;
            Ok((node, end))
        }
        Some(target) => {
            let kids = two(alloc, value, target)?;
            Ok((plain(alloc, items, Kind::WithItem, at, end, kids)?, end))
        }
    }
}

/// Decorators, of which there is at least one.
#[tactic(auto, using(crate::proofs::Steps::decorators_step, crate::proofs::Steps::level_none))]
pub fn decorators(
    alloc: Global,
    items: &[Item<'_>],
    room: u32,
    at: usize,
) -> Result<(Node, usize), ReadFault>
    requires { at ≤ length items.now }
    ensures within { IfOk result (λ x. x.1 ≤ length items.now) }
    ensures gives { Gives reading.one result (reading.level items.now room Decorators at) }
{
    if room == 0 {
        return Err(ReadFault::NoTree);
    }

    let (first, end) = decorator(alloc, items, room, at)?;
    let kids = one(alloc, first)?;
    let (kids, end) = further(alloc, items, Series::Decorators, room, kids, end)?;
    Ok((plain(alloc, items, Kind::List, at, end, kids)?, end))
}

/// `"@" named Newline`
#[tactic(auto, using(crate::proofs::Steps::decorator_step, crate::proofs::Steps::level_none))]
pub fn decorator(
    alloc: Global,
    items: &[Item<'_>],
    room: u32,
    at: usize,
) -> Result<(Node, usize), ReadFault>
    requires { at ≤ length items.now }
    ensures within { IfOk result (λ x. x.1 ≤ length items.now) }
    ensures gives { Gives reading.one result (reading.level items.now room Decorator at) }
{
    if room == 0 {
        return Err(ReadFault::NoTree);
    }

    if !is(items, at, Word::At) {
        return Err(ReadFault::NoTree);
    }
    let (node, end) = expression(alloc, items, PyLevel::Named, room, at + 1)?;
    if !is(items, end, Word::Newline) {
        return Err(ReadFault::NoTree);
    }
    Ok((node, end + 1))
}

/// `[test ["as" NAME]] ":"`, of a handler that begins there: the type and the name, or that they are absent.
#[tactic(auto, using(crate::proofs::Steps::caught_step, crate::proofs::Steps::level_none))]
pub fn caught(
    alloc: Global,
    items: &[Item<'_>],
    room: u32,
    from: u32,
    at: usize,
) -> Result<(Node, Node, usize), ReadFault>
    requires { at ≤ length items.now }
    ensures within { IfOk result (λ x. x.2 ≤ length items.now) }
    ensures gives { Gives reading.two_kids result (reading.heads items.now room from Caught at) }
{
    if room == 0 {
        return Err(ReadFault::NoTree);
    }

    if !starts_test(items, at) {
        if !is(items, at, Word::Colon) {
            return Err(ReadFault::NoTree);
        }
        return Ok((absent(alloc, from), absent(alloc, from), at + 1));
    }
    let (kind, end) = expression(alloc, items, PyLevel::Test, room, at)?;
    let (name, end) = caught_name(alloc, items, from, end)?;
    if !is(items, end, Word::Colon) {
        return Err(ReadFault::NoTree);
    }
    Ok((kind, name, end + 1))
}

/// `["as" NAME]`, of a handler that begins there.
fn caught_name(
    alloc: Global,
    items: &[Item<'_>],
    from: u32,
    at: usize,
) -> Result<(Node, usize), ReadFault>
    requires { at ≤ length items.now }
    ensures within { IfOk result (λ x. x.1 ≤ length items.now) }
    ensures gives { Gives reading.one_kid result (reading.caught_name items.now from at) }
{
    if !is(items, at, Word::As) {
        return Ok((absent(alloc, from), at));
    }
    if !is_name(items, at + 1) {
        return Err(ReadFault::NoTree);
    }
    Ok((ident(alloc, items, at + 1)?, at + 2))
}

/// `"(" [params] ")"`, of a definition that begins there.
#[tactic(auto, using(crate::proofs::Steps::parameters_step, crate::proofs::Steps::level_none))]
pub fn parameters(
    alloc: Global,
    items: &[Item<'_>],
    room: u32,
    from: u32,
    at: usize,
) -> Result<(Node, usize), ReadFault>
    requires { at ≤ length items.now }
    ensures within { IfOk result (λ x. x.1 ≤ length items.now) }
    ensures gives { Gives reading.one_kid result (reading.heads items.now room from Parameters at) }
{
    if room == 0 {
        return Err(ReadFault::NoTree);
    }

    if !is(items, at, Word::LeftRound) {
        return Err(ReadFault::NoTree);
    }
    if !starts_param(items, at + 1) {
        if !is(items, at + 1, Word::RightRound) {
            return Err(ReadFault::NoTree);
        }
        return Ok((empty_list(alloc, from), at + 2));
    }
    let (list, end) = expression(alloc, items, PyLevel::Params, room - 1, at + 1)?;
    if !is(items, end, Word::RightRound) {
        return Err(ReadFault::NoTree);
    }
    Ok((list, end + 1))
}

/// `["(" args ")"]`, of a definition that begins there.
#[tactic(auto, using(crate::proofs::Steps::bases_step, crate::proofs::Steps::level_none))]
pub fn bases(
    alloc: Global,
    items: &[Item<'_>],
    room: u32,
    from: u32,
    at: usize,
) -> Result<(Node, usize), ReadFault>
    requires { at ≤ length items.now }
    ensures within { IfOk result (λ x. x.1 ≤ length items.now) }
    ensures gives { Gives reading.one_kid result (reading.heads items.now room from Bases at) }
{
    if room == 0 {
        return Err(ReadFault::NoTree);
    }

    if !is(items, at, Word::LeftRound) {
        return Ok((empty_list(alloc, from), at));
    }
    if !starts_arg(items, at + 1) {
        if !is(items, at + 1, Word::RightRound) {
            return Err(ReadFault::NoTree);
        }
        return Ok((empty_list(alloc, from), at + 2));
    }
    let (list, end) = expression(alloc, items, PyLevel::Args, room - 1, at + 1)?;
    if !is(items, end, Word::RightRound) {
        return Err(ReadFault::NoTree);
    }
    Ok((list, end + 1))
}
