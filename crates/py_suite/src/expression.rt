//! Expressions within statements.

ghost use Rattle.std.specs.Prelude.{◌≢◌, ◌≤◌, length, IfOk};
ghost use Rattle.py_expr.specs.declared.word.Word.TheVariants.{Other};
ghost use Rattle.node_tree.specs.Gives.{Gives};
ghost use Rattle.py_expr.specs.Runs.{level_at};
ghost use Rattle.py_suite.specs.reader.Reading as reading;
ghost use Rattle.py_suite.specs.Table.{Expression, Value};

use node_tree::{Node, ReadFault};
use py_expr::{Item, PyLevel, Word, is, read_level, starts_star};
use std::alloc::Global;

/// An expression of a level.
#[tactic(auto, using(crate::proofs::Steps::expression_step))]
pub fn expression(
    alloc: Global,
    items: &[Item<'_>],
    level: PyLevel,
    room: u32,
    at: usize,
) -> Result<(Node, usize), ReadFault>
    requires { at ≤ length items.now }
    ensures within { IfOk result (λ x. x.1 ≤ length items.now) }
    ensures gives { Gives reading.one result (reading.level items.now room (Expression (level_at level)) at) }
{
    read_level(alloc, items, level, room, at)
}

/// `[exprs]`
pub fn some_exprs(
    alloc: Global,
    items: &[Item<'_>],
    room: u32,
    at: usize,
) -> Result<(Option<Node>, usize), ReadFault>
    requires { at ≤ length items.now }
    ensures within { IfOk result (λ x. x.1 ≤ length items.now) }
    ensures gives { Gives reading.optional result (reading.some_exprs items.now room at) }
{
    if !starts_star(items, at) {
        return Ok((None, at));
    }
    let (node, end) = expression(alloc, items, PyLevel::Exprs, room, at)?;
    Ok((Some(node), end))
}

/// `[mark level]`
pub fn marked(
    alloc: Global,
    items: &[Item<'_>],
    mark: Word,
    level: PyLevel,
    room: u32,
    at: usize,
) -> Result<(Option<Node>, usize), ReadFault>
    requires here { at ≤ length items.now }
    requires mark { mark ≢ Other }
    ensures within { IfOk result (λ x. x.1 ≤ length items.now) }
    ensures gives { Gives reading.optional result (reading.marked items.now room mark level at) }
{
    if !is(items, at, mark) {
        return Ok((None, at));
    }
    let (node, end) = expression(alloc, items, level, room, at + 1)?;
    Ok((Some(node), end))
}

/// `exprs | yield`
#[tactic(auto, using(crate::proofs::Steps::value_step, crate::proofs::Steps::level_none))]
pub fn value(
    alloc: Global,
    items: &[Item<'_>],
    room: u32,
    at: usize,
) -> Result<(Node, usize), ReadFault>
    requires { at ≤ length items.now }
    ensures within { IfOk result (λ x. x.1 ≤ length items.now) }
    ensures gives { Gives reading.one result (reading.level items.now room Value at) }
{
    if room == 0 {
        return Err(ReadFault::NoTree);
    }

    if is(items, at, Word::Yield) {
        return expression(alloc, items, PyLevel::Yield, room, at);
    }
    expression(alloc, items, PyLevel::Exprs, room, at)
}

/// `["=" value]`
pub fn assigned(
    alloc: Global,
    items: &[Item<'_>],
    room: u32,
    at: usize,
) -> Result<(Option<Node>, usize), ReadFault>
    requires { at ≤ length items.now }
    ensures within { IfOk result (λ x. x.1 ≤ length items.now) }
    ensures gives { Gives reading.optional result (reading.assigned items.now room at) }
{
    if !is(items, at, Word::Equal) {
        return Ok((None, at));
    }
    let (node, end) = value(alloc, items, room, at + 1)?;
    Ok((Some(node), end))
}
