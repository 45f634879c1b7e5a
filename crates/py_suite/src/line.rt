//! Lines of simple statements.

ghost use Rattle.std.specs.Prelude.{◌<◌, ◌≤◌, length, IfOk};
ghost use Rattle.node_tree.specs.Gives.{Gives};
ghost use Rattle.py_suite.specs.reader.Reading as reading;
ghost use Rattle.py_suite.specs.Table.{Line};

use crate::look::starts_simple;
use crate::simple::simple;
use node_tree::{List, Node, ReadFault};
use py_expr::{Item, Word, is, one};
use std::alloc::Global;

/// `simple {";" simple} [";"] Newline`
#[tactic(auto, using(crate::proofs::Forms::line_laws, crate::proofs::Steps::level_none))]
pub fn line(
    alloc: Global,
    items: &[Item<'_>],
    room: u32,
    at: usize,
) -> Result<(List<Node>, usize), ReadFault>
    requires { at ≤ length items.now }
    ensures within { IfOk result (λ x. x.1 ≤ length items.now) }
    ensures gives { Gives reading.all result (reading.level items.now room Line at) }
{
    if room == 0 {
        return Err(ReadFault::NoTree);
    }

    let (first, end) = simple(alloc, items, room, at)?;
    let kids = one(alloc, first)?;
    let (kids, end) = more_simples(alloc, items, room, kids, end)?;
    if !is(items, end, Word::Newline) {
        return Err(ReadFault::NoTree);
    }
    Ok((kids, end + 1))
}

/// `{";" simple} [";"]`, behind some statements.
#[tactic(auto, using(crate::proofs::Rounds::simples_rest, crate::proofs::Rounds::parted_end, crate::proofs::Rounds::parted_last))]
fn more_simples(
    alloc: Global,
    items: &[Item<'_>],
    room: u32,
    mut kids: List<Node>,
    at: usize,
) -> Result<(List<Node>, usize), ReadFault>
    requires here { at ≤ length items.now }
    requires some { 0 < room }
    ensures within { IfOk result (λ x. x.1 ≤ length items.now) }
    ensures gives { Gives reading.all result (reading.along kids (reading.more_simples items.now room at)) }
{
    let mut end = at;
    for turn in 0..=items.len() {
        if !is(items, end, Word::Semicolon) {
            return Ok((kids, end));
        }
        if !starts_simple(items, end + 1) {
            return Ok((kids, end + 1));
        }
        let (kid, next) = simple(alloc, items, room, end + 1)?;
        kids.push(kid)?;
        end = next;
    }
    Err(ReadFault::NoTree)
}
