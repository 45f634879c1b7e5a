//! Files: statements up to the end of a text.

ghost use Rattle.std.specs.Prelude.{◌≤◌, length, IfOk};
ghost use Rattle.node_tree.specs.Gives.{Gives};
ghost use Rattle.grammar.specs.Rule.{ref, opt};
ghost use Rattle.py_suite.specs.reader.Reading as reading;
ghost use Rattle.py_suite.specs.Table.{File, Stmts};

use crate::blocks::statements;
use crate::look::starts_statement;
use node_tree::{List, Node, ReadFault};
use py_expr::{Item, Word, is};
use std::alloc::Global;

/// Statements, of which there may be none.
fn some_statements(
    alloc: Global,
    items: &[Item<'_>],
    room: u32,
    at: usize,
) -> Result<(List<Node>, usize), ReadFault>
    requires { at ≤ length items.now }
    ensures within { IfOk result (λ x. x.1 ≤ length items.now) }
    ensures gives { Gives reading.all result (reading.row items.now room (opt (ref Stmts)) at) }
{
    if !starts_statement(items, at) {
        return Ok((List::new(alloc), at));
    }
    statements(alloc, items, room, at)
}

/// The statements of a file and the end behind them: `file_input` of the reference's grammar.
#[tactic(auto, using(crate::proofs::Files::file_step, crate::proofs::Steps::level_none))]
pub fn file_input(
    alloc: Global,
    items: &[Item<'_>],
    room: u32,
    at: usize,
) -> Result<(List<Node>, usize), ReadFault>
    requires { at ≤ length items.now }
    ensures within { IfOk result (λ x. x.1 ≤ length items.now) }
    ensures gives { Gives reading.all result (reading.level items.now room File at) }
{
    if room == 0 {
        return Err(ReadFault::NoTree);
    }

    let (kids, end) = some_statements(alloc, items, room, at)?;
    if !is(items, end, Word::End) {
        return Err(ReadFault::NoTree);
    }
    Ok((kids, end + 1))
}
