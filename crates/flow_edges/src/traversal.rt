//! The edges of statements.

ghost use Rattle.std.specs.Prelude.{◌≡◌, ◌++◌, ◌∷◌, [], OnOk, IfOk};
ghost use Rattle.std.specs.List.{flat_map};
ghost use Rattle.flow_edges.specs.Flow.{row_kids, head, kids_of, part, form_of, first, points, before, hop, Into, InRow, InEach, Line, Flow};
ghost use Rattle.flow_edges.specs.declared.statement.Form.TheVariants.{If, Loop, With, DoWhile, ForC, Switch, Try};
ghost use Rattle.flow_edges.specs.Grows.{Adds};

use crate::around::Around;
use crate::first_points::{
    body_first, body_of_try, first_of, firsts_of, firsts_of_try, side_of_try,
};
use crate::own_cases::{Cases, cases_each};
use crate::own_points::escapes;
use crate::parts::{alone, at_role, head_of, kids_of_part, part_of, push_all, same};
use crate::pending_jumps::pend_inside;
use crate::statement::{Form, Statement};
use crate::surroundings::{around_loop, around_switch, before_these, first_hop};
use crate::transfer::{Transfer, into, to_each};
use graph_form::{Point, Role};
use node_tree::{List, Memory, Twin};
use std::alloc::Global;

// A jump that leaves all finally parts around it.
fn jump_out(
    alloc: Global,
    around: &Around,
    statement: &Statement,
    target: Point,
    out: &mut List<Transfer>,
) -> Result<(), Memory>
    ensures { OnOk result (Adds out.old out.new (Into (head statement.now) (hop (around.now.finals ++ (target ∷ []) ∷ [])))) }
{
    let mut route = around.finals.copy()?;
    route.push(alone(alloc, target)?)?;
    into(head_of(statement), first_hop(&route), out)
}

// The points that follow a finally part: the next ones, and the first ones of each route.
fn follow(
    next: &[Point],
    routes: &[List<List<Point>>],
    alloc: Global,
) -> Result<List<Point>, Memory>
    ensures { IfOk result (λ points. points ≡ next.now ++ flat_map hop routes.now) }
{
    let mut points = same(alloc, next)?;
    for route in routes {
        push_all(first_hop(route), &mut points)?;
    }
    Ok(points)
}

// Around the finally part of a Try.
fn last_of_try(
    alloc: Global,
    around: &Around,
    inside: &List<List<List<Point>>>,
) -> Result<Around, Memory>
    ensures { IfOk result (λ inner. inner ≡ before (around.now.next ++ flat_map hop inside.now) around.now) }
{
    before_these(
        around,
        follow(around.next.as_slice(), inside.as_slice(), alloc)?,
    )
}

/// Adds the edges of a statement.
#[cycle(walk)]
fn walk(
    alloc: Global,
    depth: u32,
    around: &Around,
    statement: &Statement,
    out: &mut List<Transfer>,
) -> Result<(), Memory>
    ensures { OnOk result (Adds out.old out.new (Flow depth around.now statement.now)) }
{
    if depth == 0 {
        return Ok(());
    }
    walk_over(alloc, depth - 1, around, statement, out)
}

#[cycle(walk)]
fn walk_over(
    alloc: Global,
    depth: u32,
    around: &Around,
    statement: &Statement,
    out: &mut List<Transfer>,
) -> Result<(), Memory>
    ensures { OnOk result (Adds out.old out.new (Line depth around.now statement.now (form_of statement.now))) }
{
    match statement.form {
        Form::Plain => into(head_of(statement), around.next.as_slice(), out),
        Form::Absent => Ok(()),
        Form::Row => walk_row(alloc, depth, around, statement.kids.as_slice(), out),
        Form::If => walk_if(alloc, depth, around, statement, out),
        Form::Loop => walk_loop(alloc, depth, around, statement, out),
        Form::With => walk_with(alloc, depth, around, statement, out),
        Form::Break => into(head_of(statement), first_hop(&around.break_to), out),
        Form::Continue => into(head_of(statement), first_hop(&around.continue_to), out),
        Form::Raise => into(head_of(statement), first_hop(&around.raise_to), out),
        Form::Case | Form::Default => into(head_of(statement), around.next.as_slice(), out),
        Form::DoWhile => walk_do(alloc, depth, around, statement, out),
        Form::ForC => walk_for(alloc, depth, around, statement, out),
        Form::Handler => walk_with(alloc, depth, around, statement, out),
        Form::Switch => walk_switch(alloc, depth, around, statement, out),
        Form::Try => walk_try(alloc, depth, around, statement, out),
        Form::Return => jump_out(alloc, around, statement, around.exit, out),
        Form::Goto => jump_out(alloc, around, statement, statement.target, out),
    }
}

#[cycle(walk)]
fn walk_do(
    alloc: Global,
    depth: u32,
    around: &Around,
    statement: &Statement,
    out: &mut List<Transfer>,
) -> Result<(), Memory>
    ensures { OnOk result (Adds out.old out.new (Line depth around.now statement.now DoWhile)) }
{
    let inner = around_loop(alloc, around, head_of(statement))?;
    let body_first = firsts_of(
        alloc,
        depth,
        statement.kids.as_slice(),
        inner.next.as_slice(),
    )?;
    into(head_of(statement), body_first.as_slice(), out)?;
    into(head_of(statement), around.next.as_slice(), out)?;
    walk_row(alloc, depth, &inner, statement.kids.as_slice(), out)
}

#[cycle(walk)]
fn walk_for(
    alloc: Global,
    depth: u32,
    around: &Around,
    statement: &Statement,
    out: &mut List<Transfer>,
) -> Result<(), Memory>
    ensures { OnOk result (Adds out.old out.new (Line depth around.now statement.now ForC)) }
{
    let test = alone(alloc, at_role(statement, Role::Test))?;
    let inner = around_loop(alloc, around, at_role(statement, Role::Step))?;
    let body_first = firsts_of(
        alloc,
        depth,
        statement.kids.as_slice(),
        inner.next.as_slice(),
    )?;
    into(at_role(statement, Role::Init), test.as_slice(), out)?;
    into(at_role(statement, Role::Test), body_first.as_slice(), out)?;
    into(at_role(statement, Role::Test), around.next.as_slice(), out)?;
    into(at_role(statement, Role::Step), test.as_slice(), out)?;
    walk_row(alloc, depth, &inner, statement.kids.as_slice(), out)
}

#[cycle(walk)]
fn walk_switch(
    alloc: Global,
    depth: u32,
    around: &Around,
    statement: &Statement,
    out: &mut List<Transfer>,
) -> Result<(), Memory>
    ensures { OnOk result (Adds out.old out.new (Line depth around.now statement.now Switch)) }
{
    let inner = around_switch(alloc, around)?;
    let mut found = Cases {
        heads: List::new(alloc),
        default: false,
    };
    cases_each(depth, statement.kids.as_slice(), &mut found)?;
    into(head_of(statement), found.heads.as_slice(), out)?;
    if !found.default {
        into(head_of(statement), around.next.as_slice(), out)?;
    }
    walk_row(alloc, depth, &inner, statement.kids.as_slice(), out)
}

#[cycle(walk)]
fn walk_if(
    alloc: Global,
    depth: u32,
    around: &Around,
    statement: &Statement,
    out: &mut List<Transfer>,
) -> Result<(), Memory>
    ensures { OnOk result (Adds out.old out.new (Line depth around.now statement.now If)) }
{
    let then_part = part_of(statement.kids.as_slice(), 0);
    let else_part = part_of(statement.kids.as_slice(), 1);
    let then_first = firsts_of(alloc, depth, then_part, around.next.as_slice())?;
    let else_first = firsts_of(alloc, depth, else_part, around.next.as_slice())?;
    into(head_of(statement), then_first.as_slice(), out)?;
    into(head_of(statement), else_first.as_slice(), out)?;
    walk_row(alloc, depth, around, then_part, out)?;
    walk_row(alloc, depth, around, else_part, out)
}

#[cycle(walk)]
fn walk_loop(
    alloc: Global,
    depth: u32,
    around: &Around,
    statement: &Statement,
    out: &mut List<Transfer>,
) -> Result<(), Memory>
    ensures { OnOk result (Adds out.old out.new (Line depth around.now statement.now Loop)) }
{
    let body = part_of(statement.kids.as_slice(), 0);
    let else_part = part_of(statement.kids.as_slice(), 1);
    let inner = around_loop(alloc, around, head_of(statement))?;
    let body_first = firsts_of(alloc, depth, body, inner.next.as_slice())?;
    let else_first = firsts_of(alloc, depth, else_part, around.next.as_slice())?;
    into(head_of(statement), body_first.as_slice(), out)?;
    into(head_of(statement), else_first.as_slice(), out)?;
    walk_row(alloc, depth, &inner, body, out)?;
    walk_row(alloc, depth, around, else_part, out)
}

#[cycle(walk)]
fn walk_with(
    alloc: Global,
    depth: u32,
    around: &Around,
    statement: &Statement,
    out: &mut List<Transfer>,
) -> Result<(), Memory>
    ensures { OnOk result (Adds out.old out.new (Line depth around.now statement.now With)) }
{
    let body_first = firsts_of(
        alloc,
        depth,
        statement.kids.as_slice(),
        around.next.as_slice(),
    )?;
    into(head_of(statement), body_first.as_slice(), out)?;
    walk_row(alloc, depth, around, statement.kids.as_slice(), out)
}

/// Adds the edges of statements in a row.
#[cycle(walk)]
pub fn walk_row(
    alloc: Global,
    depth: u32,
    around: &Around,
    statements: &[Statement],
    out: &mut List<Transfer>,
) -> Result<(), Memory>
    ensures { OnOk result (Adds out.old out.new (InRow (Flow depth) (first depth) around.now statements.now)) }
{
    let mut next = same(alloc, around.next.as_slice())?;
    let mut left = statements.len();
    while left > 0 {
        left -= 1;
        let before_next = first_of(alloc, depth, &statements[left], next.as_slice())?;
        let inner = before_these(around, next)?;
        walk(alloc, depth, &inner, &statements[left], out)?;
        next = before_next;
    }
    Ok(())
}

// Adds the edges of statements that aren't in a row.
#[cycle(walk)]
fn walk_each(
    alloc: Global,
    depth: u32,
    around: &Around,
    statements: &[Statement],
    out: &mut List<Transfer>,
) -> Result<(), Memory>
    ensures { OnOk result (Adds out.old out.new (InEach (Flow depth) around.now statements.now)) }
{
    let mut left = statements.len();
    while left > 0 {
        left -= 1;
        walk(alloc, depth, around, &statements[left], out)?;
    }
    Ok(())
}

#[cycle(walk)]
fn walk_part(
    alloc: Global,
    depth: u32,
    around: &Around,
    statement: &Statement,
    k: usize,
    out: &mut List<Transfer>,
) -> Result<(), Memory>
    ensures { OnOk result (Adds out.old out.new (InRow (Flow depth) (first depth) around.now (part k (kids_of statement.now)))) }
{
    walk_row(
        alloc,
        depth,
        around,
        part_of(statement.kids.as_slice(), k),
        out,
    )
}

#[cycle(walk)]
fn walk_handlers(
    alloc: Global,
    depth: u32,
    around: &Around,
    statement: &Statement,
    out: &mut List<Transfer>,
) -> Result<(), Memory>
    ensures { OnOk result (Adds out.old out.new (InEach (Flow depth) around.now (row_kids (part 1 (kids_of statement.now))))) }
{
    walk_each(
        alloc,
        depth,
        around,
        kids_of_part(part_of(statement.kids.as_slice(), 1)),
        out,
    )
}

#[cycle(walk)]
fn walk_try(
    alloc: Global,
    depth: u32,
    around: &Around,
    statement: &Statement,
    out: &mut List<Transfer>,
) -> Result<(), Memory>
    ensures { OnOk result (Adds out.old out.new (Line depth around.now statement.now Try)) }
{
    let firsts = firsts_of_try(alloc, depth, around, statement)?;
    let body = body_of_try(around, &firsts)?;
    let side = side_of_try(around, &firsts)?;
    let start = body_first(alloc, depth, statement, &firsts)?;
    let mut inside = List::new(alloc);
    pend_inside(alloc, depth, around, statement, &firsts, &mut inside)?;
    let last = last_of_try(alloc, around, &inside)?;
    to_each(statement, &start, out)?;
    walk_part(alloc, depth, &body, statement, 0, out)?;
    walk_handlers(alloc, depth, &side, statement, out)?;
    walk_part(alloc, depth, &side, statement, 2, out)?;
    escapes(alloc, depth, statement, &firsts, out)?;
    walk_part(alloc, depth, &last, statement, 3, out)?;
    Ok(())
}
