//! Conditions, loops, `with` and `try`.

ghost use Rattle.std.specs.Prelude.{◌≡◌, ◌+◌, ◌*◌, ◌<◌, ◌≤◌, [], ◌∷◌, ◌++◌, length, IfOk};
ghost use Rattle.node_tree.specs.Gives.{Gives};
ghost use Rattle.py_suite.specs.reader.Reading as reading;
ghost use Rattle.py_suite.specs.Table.{If, Branches, ElsePart, While, For, ForRest, With, WithRest, Try, TryRest, Handlers, Handler, FinallyPart};

use crate::blocks::suite;
use crate::build::plain;
use crate::expression::expression;
use crate::items::{caught, with_items};
use crate::look::starts_branches;
use node_tree::{Kind, List, Memory, Node, ReadFault};
use py_expr::{Item, PyLevel, Word, absent, empty_list, is, one, start_at, three, two};
use std::alloc::Global;

/// A block behind a colon.
#[cycle(blocks)]
pub fn body(
    alloc: Global,
    items: &[Item<'_>],
    room: u32,
    at: usize,
) -> Result<(Node, usize), ReadFault>
    requires here { at ≤ length items.now }
    requires some { 0 < room }
    ensures within { IfOk result (λ x. x.1 ≤ length items.now) }
    ensures gives { Gives reading.one result (reading.body items.now room at) }
{
    if !is(items, at, Word::Colon) {
        return Err(ReadFault::NoTree);
    }
    suite(alloc, items, room, at + 1)
}

/// `named ":" suite`, and a list of both.
#[cycle(blocks)]
fn condition(
    alloc: Global,
    items: &[Item<'_>],
    room: u32,
    at: usize,
) -> Result<(List<Node>, usize), ReadFault>
    requires here { at ≤ length items.now }
    requires some { 0 < room }
    ensures within { IfOk result (λ x. x.1 ≤ length items.now) }
    ensures gives { Gives reading.all result (reading.condition items.now room at) }
{
    let (test, end) = expression(alloc, items, PyLevel::Named, room, at)?;
    let (block, end) = body(alloc, items, room, end)?;
    Ok((two(alloc, test, block)?, end))
}

/// `"if" named ":" suite [branches]`
#[cycle(blocks)]
#[tactic(auto, using(crate::proofs::Steps::if_step, crate::proofs::Steps::level_none))]
pub fn if_statement(
    alloc: Global,
    items: &[Item<'_>],
    room: u32,
    at: usize,
) -> Result<(Node, usize), ReadFault>
    requires { at ≤ length items.now }
    ensures within { IfOk result (λ x. x.1 ≤ length items.now) }
    ensures gives { Gives reading.one result (reading.level items.now room If at) }
{
    if room == 0 {
        return Err(ReadFault::NoTree);
    }

    if !is(items, at, Word::If) {
        return Err(ReadFault::NoTree);
    }
    let (mut kids, end) = condition(alloc, items, room, at + 1)?;
    if !starts_branches(items, end) {
        return Ok((plain(alloc, items, Kind::If, at, end, kids)?, end));
    }
    let (other, end) = branches(alloc, items, room, end)?;
    kids.push(other)?;
    Ok((plain(alloc, items, Kind::If, at, end, kids)?, end))
}

/// `"elif" named ":" suite [branches] | "else" ":" suite`
#[cycle(blocks)]
#[tactic(auto, using(crate::proofs::Steps::branches_step, crate::proofs::Steps::level_none))]
fn branches(
    alloc: Global,
    items: &[Item<'_>],
    room: u32,
    at: usize,
) -> Result<(Node, usize), ReadFault>
    requires { at ≤ length items.now }
    ensures within { IfOk result (λ x. x.1 ≤ length items.now) }
    ensures gives { Gives reading.one result (reading.level items.now room Branches at) }
{
    if room == 0 {
        return Err(ReadFault::NoTree);
    }

    if !is(items, at, Word::Elif) {
        return else_part(alloc, items, room, at);
    }
    let (mut kids, end) = condition(alloc, items, room, at + 1)?;
    if !starts_branches(items, end) {
        return Ok((plain(alloc, items, Kind::If, at, end, kids)?, end));
    }
    let (other, end) = branches(alloc, items, room - 1, end)?;
    kids.push(other)?;
    Ok((plain(alloc, items, Kind::If, at, end, kids)?, end))
}

/// `"else" ":" suite`
#[cycle(blocks)]
#[tactic(auto, using(crate::proofs::Steps::else_step, crate::proofs::Steps::level_none))]
fn else_part(
    alloc: Global,
    items: &[Item<'_>],
    room: u32,
    at: usize,
) -> Result<(Node, usize), ReadFault>
    requires { at ≤ length items.now }
    ensures within { IfOk result (λ x. x.1 ≤ length items.now) }
    ensures gives { Gives reading.one result (reading.level items.now room ElsePart at) }
{
    if room == 0 {
        return Err(ReadFault::NoTree);
    }

    if !is(items, at, Word::Else) {
        return Err(ReadFault::NoTree);
    }
    body(alloc, items, room, at + 1)
}

/// `"finally" ":" suite`
#[cycle(blocks)]
#[tactic(auto, using(crate::proofs::Steps::finally_step, crate::proofs::Steps::level_none))]
fn finally_part(
    alloc: Global,
    items: &[Item<'_>],
    room: u32,
    at: usize,
) -> Result<(Node, usize), ReadFault>
    requires { at ≤ length items.now }
    ensures within { IfOk result (λ x. x.1 ≤ length items.now) }
    ensures gives { Gives reading.one result (reading.level items.now room FinallyPart at) }
{
    if room == 0 {
        return Err(ReadFault::NoTree);
    }

    if !is(items, at, Word::Finally) {
        return Err(ReadFault::NoTree);
    }
    body(alloc, items, room, at + 1)
}

/// The kids of a statement, with an `else` part where one follows.
#[cycle(blocks)]
fn some_else(
    alloc: Global,
    items: &[Item<'_>],
    room: u32,
    mut kids: List<Node>,
    at: usize,
) -> Result<(List<Node>, usize), ReadFault>
    requires here { at ≤ length items.now }
    requires some { 0 < room }
    ensures within { IfOk result (λ x. x.1 ≤ length items.now) }
    ensures gives { Gives reading.all result (reading.along kids (reading.some_else items.now room at)) }
{
    if !is(items, at, Word::Else) {
        return Ok((kids, at));
    }
    let (block, end) = else_part(alloc, items, room, at)?;
    kids.push(block)?;
    Ok((kids, end))
}

/// `"while" named ":" suite ["else" ":" suite]`
#[cycle(blocks)]
#[tactic(auto, using(crate::proofs::Steps::while_step, crate::proofs::Steps::level_none))]
pub fn while_loop(
    alloc: Global,
    items: &[Item<'_>],
    room: u32,
    at: usize,
) -> Result<(Node, usize), ReadFault>
    requires { at ≤ length items.now }
    ensures within { IfOk result (λ x. x.1 ≤ length items.now) }
    ensures gives { Gives reading.one result (reading.level items.now room While at) }
{
    if room == 0 {
        return Err(ReadFault::NoTree);
    }

    if !is(items, at, Word::While) {
        return Err(ReadFault::NoTree);
    }
    let (kids, end) = condition(alloc, items, room, at + 1)?;
    let (kids, end) = some_else(alloc, items, room, kids, end)?;
    Ok((plain(alloc, items, Kind::While, at, end, kids)?, end))
}

/// `"for" rest`
#[cycle(blocks)]
#[tactic(auto, using(crate::proofs::Steps::for_step, crate::proofs::Steps::level_none))]
pub fn for_loop(
    alloc: Global,
    items: &[Item<'_>],
    room: u32,
    at: usize,
) -> Result<(Node, usize), ReadFault>
    requires { at ≤ length items.now }
    ensures within { IfOk result (λ x. x.1 ≤ length items.now) }
    ensures gives { Gives reading.one result (reading.level items.now room For at) }
{
    if room == 0 {
        return Err(ReadFault::NoTree);
    }

    if !is(items, at, Word::For) {
        return Err(ReadFault::NoTree);
    }
    let (kids, end) = for_rest(alloc, items, room, at + 1)?;
    Ok((plain(alloc, items, Kind::For, at, end, kids)?, end))
}

/// `targs "in" exprs ":" suite ["else" ":" suite]`
#[cycle(blocks)]
#[tactic(auto, using(crate::proofs::Steps::for_rest_step, crate::proofs::Steps::level_none))]
pub fn for_rest(
    alloc: Global,
    items: &[Item<'_>],
    room: u32,
    at: usize,
) -> Result<(List<Node>, usize), ReadFault>
    requires { at ≤ length items.now }
    ensures within { IfOk result (λ x. x.1 ≤ length items.now) }
    ensures gives { Gives reading.all result (reading.level items.now room ForRest at) }
{
    if room == 0 {
        return Err(ReadFault::NoTree);
    }

    let (target, end) = expression(alloc, items, PyLevel::Targs, room, at)?;
    if !is(items, end, Word::In) {
        return Err(ReadFault::NoTree);
    }
    let (iterable, end) = expression(alloc, items, PyLevel::Exprs, room, end + 1)?;
    let (block, end) = body(alloc, items, room, end)?;
    let kids = three(alloc, target, iterable, block)?;
    some_else(alloc, items, room, kids, end)
}

/// `"with" rest`
#[cycle(blocks)]
#[tactic(auto, using(crate::proofs::Steps::with_step, crate::proofs::Steps::level_none))]
pub fn with_block(
    alloc: Global,
    items: &[Item<'_>],
    room: u32,
    at: usize,
) -> Result<(Node, usize), ReadFault>
    requires { at ≤ length items.now }
    ensures within { IfOk result (λ x. x.1 ≤ length items.now) }
    ensures gives { Gives reading.one result (reading.level items.now room With at) }
{
    if room == 0 {
        return Err(ReadFault::NoTree);
    }

    if !is(items, at, Word::With) {
        return Err(ReadFault::NoTree);
    }
    let (kids, end) = with_rest(alloc, items, room, at + 1)?;
    Ok((plain(alloc, items, Kind::With, at, end, kids)?, end))
}

/// `item {"," item} ":" suite`
#[cycle(blocks)]
#[tactic(auto, using(crate::proofs::Steps::with_rest_step, crate::proofs::Steps::level_none))]
pub fn with_rest(
    alloc: Global,
    items: &[Item<'_>],
    room: u32,
    at: usize,
) -> Result<(List<Node>, usize), ReadFault>
    requires { at ≤ length items.now }
    ensures within { IfOk result (λ x. x.1 ≤ length items.now) }
    ensures gives { Gives reading.all result (reading.level items.now room WithRest at) }
{
    if room == 0 {
        return Err(ReadFault::NoTree);
    }

    let (list, end) = with_items(alloc, items, room, at)?;
    let (block, end) = body(alloc, items, room, end)?;
    Ok((two(alloc, list, block)?, end))
}

/// `"try" ":" suite rest`
#[cycle(blocks)]
#[tactic(auto, using(crate::proofs::Steps::try_step, crate::proofs::Steps::level_none))]
pub fn tried(
    alloc: Global,
    items: &[Item<'_>],
    room: u32,
    at: usize,
) -> Result<(Node, usize), ReadFault>
    requires { at ≤ length items.now }
    ensures within { IfOk result (λ x. x.1 ≤ length items.now) }
    ensures gives { Gives reading.one result (reading.level items.now room Try at) }
{
    if room == 0 {
        return Err(ReadFault::NoTree);
    }

    if !is(items, at, Word::Try) {
        return Err(ReadFault::NoTree);
    }
    let from = start_at(items, at);
    let (block, end) = body(alloc, items, room, at + 1)?;
    let kids = one(alloc, block)?;
    let (kids, end) = try_rest(alloc, items, room, from, kids, end)?;
    Ok((plain(alloc, items, Kind::Try, at, end, kids)?, end))
}

/// What follows the block of a `try` statement that begins there: a handler or a `finally` part, behind its kids so far.
#[cycle(blocks)]
#[tactic(auto, using(crate::proofs::Steps::try_rest_step, crate::proofs::Steps::level_none))]
fn try_rest(
    alloc: Global,
    items: &[Item<'_>],
    room: u32,
    from: u32,
    mut kids: List<Node>,
    at: usize,
) -> Result<(List<Node>, usize), ReadFault>
    requires { at ≤ length items.now }
    ensures within { IfOk result (λ x. x.1 ≤ length items.now) }
    ensures gives { Gives reading.kids_alone result (reading.kids_behind kids (reading.heads items.now room from TryRest at)) }
{
    if room == 0 {
        return Err(ReadFault::NoTree);
    }

    if !is(items, at, Word::Except) {
        kids.push(empty_list(alloc, from))?;
        let (other, end) = else_or_absent(alloc, items, room, from, at)?;
        kids.push(other)?;
        let (last, end) = finally_part(alloc, items, room, end)?;
        kids.push(last)?;
        return Ok((kids, end));
    }
    let (list, end) = handlers(alloc, items, room, at)?;
    kids.push(list)?;
    let (other, end) = else_or_absent(alloc, items, room, from, end)?;
    kids.push(other)?;
    if !is(items, end, Word::Finally) {
        return Ok((kids, end));
    }
    let (last, end) = finally_part(alloc, items, room, end)?;
    kids.push(last)?;
    Ok((kids, end))
}

/// `["else" ":" suite]` of a statement that begins there.
#[cycle(blocks)]
fn else_or_absent(
    alloc: Global,
    items: &[Item<'_>],
    room: u32,
    from: u32,
    at: usize,
) -> Result<(Node, usize), ReadFault>
    requires here { at ≤ length items.now }
    requires some { 0 < room }
    ensures within { IfOk result (λ x. x.1 ≤ length items.now) }
    ensures gives { Gives reading.one_kid result (reading.else_or_absent items.now room from at) }
{
    if !is(items, at, Word::Else) {
        return Ok((absent(alloc, from), at));
    }
    else_part(alloc, items, room, at)
}

/// Handlers, of which there is at least one.
#[cycle(blocks)]
#[tactic(auto, using(crate::proofs::Steps::handlers_step, crate::proofs::Steps::level_none))]
fn handlers(
    alloc: Global,
    items: &[Item<'_>],
    room: u32,
    at: usize,
) -> Result<(Node, usize), ReadFault>
    requires { at ≤ length items.now }
    ensures within { IfOk result (λ x. x.1 ≤ length items.now) }
    ensures gives { Gives reading.one result (reading.level items.now room Handlers at) }
{
    if room == 0 {
        return Err(ReadFault::NoTree);
    }

    let (first, end) = handler(alloc, items, room, at)?;
    let kids = one(alloc, first)?;
    let (kids, end) = more_handlers(alloc, items, room, kids, end)?;
    Ok((plain(alloc, items, Kind::List, at, end, kids)?, end))
}

/// Further handlers, behind some.
#[cycle(blocks)]
#[tactic(auto, using(crate::proofs::Rounds::handlers_rest))]
fn more_handlers(
    alloc: Global,
    items: &[Item<'_>],
    room: u32,
    mut kids: List<Node>,
    at: usize,
) -> Result<(List<Node>, usize), ReadFault>
    requires here { at ≤ length items.now }
    requires some { 0 < room }
    ensures within { IfOk result (λ x. x.1 ≤ length items.now) }
    ensures gives { Gives reading.all result (reading.along kids (reading.more_handlers items.now room at)) }
{
    let mut end = at;
    for turn in 0..=items.len() {
        if !is(items, end, Word::Except) {
            return Ok((kids, end));
        }
        let (kid, next) = handler(alloc, items, room, end)?;
        kids.push(kid)?;
        end = next;
    }
    Err(ReadFault::NoTree)
}

/// `"except" caught suite`
#[cycle(blocks)]
#[tactic(auto, using(crate::proofs::Steps::handler_step, crate::proofs::Steps::level_none))]
fn handler(
    alloc: Global,
    items: &[Item<'_>],
    room: u32,
    at: usize,
) -> Result<(Node, usize), ReadFault>
    requires { at ≤ length items.now }
    ensures within { IfOk result (λ x. x.1 ≤ length items.now) }
    ensures gives { Gives reading.one result (reading.level items.now room Handler at) }
{
    if room == 0 {
        return Err(ReadFault::NoTree);
    }

    if !is(items, at, Word::Except) {
        return Err(ReadFault::NoTree);
    }
    let (kind, name, end) = caught(alloc, items, room, start_at(items, at), at + 1)?;
    let (block, end) = suite(alloc, items, room, end)?;
    let kids = three(alloc, kind, name, block)?;
    Ok((plain(alloc, items, Kind::Handler, at, end, kids)?, end))
}
