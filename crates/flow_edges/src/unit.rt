//! The edges of a unit.

ghost use Rattle.std.specs.Prelude.{◌≡◌, ◌↔◌, IfOk, OnOk};
ghost use Rattle.flow_edges.specs.declared.transfer.Transfer.{Transfer as way_of};
ghost use Rattle.flow_edges.specs.Flow.{IsEdge, Into, whole_unit, first, firsts};
ghost use Rattle.flow_edges.specs.Grows.{Adds};
ghost use Rattle.graph_form.specs.Sets.{Among};

use crate::around::Around;
use crate::first_points::firsts_of;
use crate::parts::alone;
use crate::statement::Statement;
use crate::surroundings::straight;
use crate::transfer::{Transfer, into};
use crate::traversal::walk_row;
use graph_form::Point;
use node_tree::{List, Memory};
use std::alloc::Global;

// Around the statements of a unit.
fn around_unit(alloc: Global, exit: Point) -> Result<Around, Memory>
    ensures { IfOk result (λ whole. whole ≡ whole_unit exit) }
{
    let end = alone(alloc, exit)?;
    Ok(Around {
        break_to: straight(alloc, end.as_slice())?,
        continue_to: straight(alloc, end.as_slice())?,
        raise_to: straight(alloc, end.as_slice())?,
        finals: List::new(alloc),
        exit,
        next: end,
    })
}

// The edges from the entry.
fn enter(
    alloc: Global,
    depth: u32,
    around: &Around,
    entry: Point,
    body: &[Statement],
    out: &mut List<Transfer>,
) -> Result<(), Memory>
    ensures { OnOk result (Adds out.old out.new (Into entry (firsts (first depth) body.now around.now.next))) }
{
    let start = firsts_of(alloc, depth, body, around.next.as_slice())?;
    into(entry, start.as_slice(), out)?;
    Ok(())
}

/// The edges of a unit with this body, whose statements are at most so deep.
pub fn transfers(
    alloc: Global,
    depth: u32,
    entry: Point,
    exit: Point,
    body: &[Statement],
) -> Result<List<Transfer>, Memory>
    ensures { IfOk result (λ transfers. (transfer : way_of) → Among transfers transfer ↔ IsEdge depth entry exit body.now transfer.from transfer.to) }
{
    let whole = around_unit(alloc, exit)?;
    let mut out = List::new(alloc);
    enter(alloc, depth, &whole, entry, body, &mut out)?;
    walk_row(alloc, depth, &whole, body, &mut out)?;
    Ok(out)
}
