//! The points of statements.

ghost use Rattle.std.specs.Prelude.{◌≡◌, ◌++◌, OnOk};
ghost use Rattle.std.specs.List.{flat_map};
ghost use Rattle.flow_edges.specs.Flow.{or_else, Cross, kids_of, part, form_of, firsts, points, points_by};
ghost use Rattle.flow_edges.specs.Grows.{Adds};

use crate::first_points::{Firsts, or_next};
use crate::parts::{at_role, head_of, part_of};
use crate::statement::{Form, Statement};
use crate::transfer::{Transfer, cross};
use graph_form::{Point, Role};
use node_tree::{List, Memory};
use std::alloc::Global;

// The points of a statement.
#[cycle(points)]
fn points_of(depth: u32, statement: &Statement, into: &mut List<Point>) -> Result<(), Memory>
    ensures { OnOk result (into.new ≡ into.old ++ points depth statement.now) }
{
    if depth == 0 {
        return Ok(());
    }
    points_over(depth - 1, statement, into)
}

#[cycle(points)]
fn points_over(depth: u32, statement: &Statement, into: &mut List<Point>) -> Result<(), Memory>
    ensures { OnOk result (into.new ≡ into.old ++ points_by (flat_map (points depth) (kids_of statement.now)) statement.now (form_of statement.now)) }
{
    match statement.form {
        Form::Row => points_each(depth, statement.kids.as_slice(), into),
        Form::Absent => points_each(depth, statement.kids.as_slice(), into),
        Form::ForC => {
            into.push(at_role(statement, Role::Init))?;
            into.push(at_role(statement, Role::Test))?;
            into.push(at_role(statement, Role::Step))?;
            points_each(depth, statement.kids.as_slice(), into)
        }
        _ => {
            into.push(head_of(statement))?;
            points_each(depth, statement.kids.as_slice(), into)
        }
    }
}

#[cycle(points)]
pub fn points_each(
    depth: u32,
    statements: &[Statement],
    into: &mut List<Point>,
) -> Result<(), Memory>
    ensures { OnOk result (into.new ≡ into.old ++ flat_map (points depth) statements.now) }
{
    for statement in statements {
        points_of(depth, statement, into)?;
    }
    Ok(())
}

/// The edges from each point of the body of a Try.
pub fn escapes(
    alloc: Global,
    depth: u32,
    statement: &Statement,
    firsts: &Firsts,
    out: &mut List<Transfer>,
) -> Result<(), Memory>
    ensures { OnOk result (Adds out.old out.new (Cross (flat_map (points depth) (part 0 (kids_of statement.now))) (or_else firsts.now.heads firsts.now.final_part))) }
{
    let mut inside = List::new(alloc);
    points_each(depth, part_of(statement.kids.as_slice(), 0), &mut inside)?;
    let escape = or_next(&firsts.heads, &firsts.final_part)?;
    cross(inside.as_slice(), escape.as_slice(), out)?;
    Ok(())
}
