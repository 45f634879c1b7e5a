//! Statements one after another, and what they stand in.

ghost use Rattle.std.specs.Prelude.{◌≡◌, ◌++◌, ◌<◌, ◌≤◌, length, reverse, IfOk};
ghost use Rattle.node_tree.specs.Gives.{Gives};
ghost use Rattle.py_suite.specs.reader.Reading as reading;
ghost use Rattle.py_suite.specs.Table.{Stmts, Stmt, Suite, Compound};

use crate::build::plain;
use crate::compound::{for_loop, if_statement, tried, while_loop, with_block};
use crate::definitions::{class, decorated, function, waited};
use crate::line::line;
use crate::look::{starts_compound, starts_statement};
use node_tree::{Kind, List, Memory, Node, ReadFault};
use py_expr::{Item, Word, is, one};
use std::alloc::Global;

/// Statements, of which there is at least one.
#[cycle(blocks)]
#[tactic(auto, using(crate::proofs::Steps::stmts_step, crate::proofs::Steps::level_none))]
pub fn statements(
    alloc: Global,
    items: &[Item<'_>],
    room: u32,
    at: usize,
) -> Result<(List<Node>, usize), ReadFault>
    requires { at ≤ length items.now }
    ensures within { IfOk result (λ x. x.1 ≤ length items.now) }
    ensures gives { Gives reading.all result (reading.level items.now room Stmts at) }
{
    if room == 0 {
        return Err(ReadFault::NoTree);
    }

    let (kids, end) = statement(alloc, items, room, at)?;
    more_statements(alloc, items, room, kids, end)
}

/// Further statements, behind some.
#[cycle(blocks)]
fn more_statements(
    alloc: Global,
    items: &[Item<'_>],
    room: u32,
    mut kids: List<Node>,
    at: usize,
) -> Result<(List<Node>, usize), ReadFault>
    requires here { at ≤ length items.now }
    requires some { 0 < room }
    ensures within { IfOk result (λ x. x.1 ≤ length items.now) }
    ensures gives { Gives reading.all result (reading.along kids (reading.more_statements items.now room at)) }
{
    let mut end = at;
    for turn in 0..=items.len() {
        if !starts_statement(items, end) {
            return Ok((kids, end));
        }
        let (more, next) = statement(alloc, items, room, end)?;
        kids = append(kids, more)?;
        end = next;
    }
    Err(ReadFault::NoTree)
}

/// A compound statement, or a line of simple ones.
#[cycle(blocks)]
#[tactic(auto, using(crate::proofs::Steps::stmt_step, crate::proofs::Steps::level_none))]
fn statement(
    alloc: Global,
    items: &[Item<'_>],
    room: u32,
    at: usize,
) -> Result<(List<Node>, usize), ReadFault>
    requires { at ≤ length items.now }
    ensures within { IfOk result (λ x. x.1 ≤ length items.now) }
    ensures gives { Gives reading.all result (reading.level items.now room Stmt at) }
{
    if room == 0 {
        return Err(ReadFault::NoTree);
    }

    if starts_compound(items, at) {
        let (node, end) = compound(alloc, items, room, at)?;
        return Ok((one(alloc, node)?, end));
    }
    line(alloc, items, room, at)
}

/// A line, or the statements of deeper lines: the block that they make.
#[cycle(blocks)]
#[tactic(auto, using(crate::proofs::Steps::suite_step, crate::proofs::Steps::level_none))]
pub fn suite(
    alloc: Global,
    items: &[Item<'_>],
    room: u32,
    at: usize,
) -> Result<(Node, usize), ReadFault>
    requires { at ≤ length items.now }
    ensures within { IfOk result (λ x. x.1 ≤ length items.now) }
    ensures gives { Gives reading.one result (reading.level items.now room Suite at) }
{
    if room == 0 {
        return Err(ReadFault::NoTree);
    }

    if !is(items, at, Word::Newline) {
        let (kids, end) = line(alloc, items, room, at)?;
        return Ok((plain(alloc, items, Kind::Block, at, end, kids)?, end));
    }
    if !is(items, at + 1, Word::Indent) {
        return Err(ReadFault::NoTree);
    }
    let (kids, end) = statements(alloc, items, room - 1, at + 2)?;
    if !is(items, end, Word::Dedent) {
        return Err(ReadFault::NoTree);
    }
    Ok((
        plain(alloc, items, Kind::Block, at + 2, end, kids)?,
        end + 1,
    ))
}

/// A compound statement.
#[cycle(blocks)]
#[tactic(auto, using(crate::proofs::Steps::compound_step, crate::proofs::Steps::level_none))]
fn compound(
    alloc: Global,
    items: &[Item<'_>],
    room: u32,
    at: usize,
) -> Result<(Node, usize), ReadFault>
    requires { at ≤ length items.now }
    ensures within { IfOk result (λ x. x.1 ≤ length items.now) }
    ensures gives { Gives reading.one result (reading.level items.now room Compound at) }
{
    if room == 0 {
        return Err(ReadFault::NoTree);
    }

    if is(items, at, Word::If) {
        return if_statement(alloc, items, room, at);
    }
    if is(items, at, Word::While) {
        return while_loop(alloc, items, room, at);
    }
    if is(items, at, Word::Try) {
        return tried(alloc, items, room, at);
    }
    if is(items, at, Word::For) {
        return for_loop(alloc, items, room, at);
    }
    if is(items, at, Word::With) {
        return with_block(alloc, items, room, at);
    }
    if is(items, at, Word::Def) {
        return function(alloc, items, room, at);
    }
    if is(items, at, Word::Class) {
        return class(alloc, items, room, at);
    }
    if is(items, at, Word::Async) {
        return waited(alloc, items, room, at);
    }
    decorated(alloc, items, room, at)
}

/// The nodes of a list and then those of another from its end on.
#[tactic(auto, using(crate::proofs::Orders::order_laws))]
fn push_reversed(mut front: List<Node>, mut back: List<Node>) -> Result<List<Node>, Memory>
    ensures { IfOk result (λ ns. ns ≡ front ++ reverse back) }
{
    'kids: while let Some(kid) = back.pop() {
        front.push(kid)?;
    }
    Ok(front)
}

/// The nodes of two lists, in order.
#[tactic(auto, using(crate::proofs::Orders::order_laws, crate::proofs::Suites::stmts_read))]
fn append(front: List<Node>, mut back: List<Node>) -> Result<List<Node>, Memory>
    ensures { IfOk result (λ ns. ns ≡ front ++ back) }
{
    back.reverse();
    push_reversed(front, back)
}
