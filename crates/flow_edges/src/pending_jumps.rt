//! Jumps that go on behind a finally part.

ghost use Rattle.std.specs.Prelude.{◌≡◌, ◌++◌, ◌∷◌, [], OnOk};
ghost use Rattle.std.specs.List.{flat_map};
ghost use Rattle.flow_edges.specs.Flow.{lasting, later, laters, row_kids, tried, Pended, Inside, kids_of, part, form_of, first, firsts, pending, firsts as rows_first};
ghost use Rattle.flow_edges.specs.declared.statement.Form.TheVariants.{Loop, Try};
ghost use Rattle.flow_edges.specs.Tries.{IsFirsts};

use crate::around::Around;
use crate::first_points::{Firsts, body_of_try, firsts_of_try, side_of_try};
use crate::parts::{alone, at_role, head_of, kids_of_part, part_of};
use crate::statement::{Form, Statement};
use crate::surroundings::{around_loop, around_switch};
use graph_form::{Point, Role};
use node_tree::{List, Memory, Twin, copy_all};
use std::alloc::Global;

// What is left of a route behind its first points, unless it ends there.
fn push_later(route: &List<List<Point>>, routes: &mut List<List<List<Point>>>) -> Result<(), Memory>
    ensures { OnOk result (routes.new ≡ routes.old ++ lasting (later route.now)) }
{
    if route.len() < 2 {
        return Ok(());
    }
    routes.push(copy_all(route.alloc(), &route.as_slice()[1..])?)?;
    Ok(())
}

// The same for each of the routes.
fn push_laters(
    from: &[List<List<Point>>],
    routes: &mut List<List<List<Point>>>,
) -> Result<(), Memory>
    ensures { OnOk result (routes.new ≡ routes.old ++ laters from.now) }
{
    for route in from {
        push_later(route, routes)?;
    }
    Ok(())
}

/// The routes of the jumps in a statement that go on behind the innermost finally part around it.
#[cycle(pend)]
fn pend(
    alloc: Global,
    depth: u32,
    around: &Around,
    statement: &Statement,
    routes: &mut List<List<List<Point>>>,
) -> Result<(), Memory>
    ensures { OnOk result (routes.new ≡ routes.old ++ pending depth around.now statement.now) }
{
    if depth == 0 {
        return Ok(());
    }
    pend_over(alloc, depth - 1, around, statement, routes)
}

#[cycle(pend)]
fn pend_over(
    alloc: Global,
    depth: u32,
    around: &Around,
    statement: &Statement,
    routes: &mut List<List<List<Point>>>,
) -> Result<(), Memory>
    ensures { OnOk result (routes.new ≡ routes.old ++ Pended depth around.now statement.now (form_of statement.now)) }
{
    match statement.form {
        Form::Row | Form::If | Form::With | Form::Handler => {
            pend_each(alloc, depth, around, statement.kids.as_slice(), routes)
        }
        Form::Loop => pend_loop(alloc, depth, around, statement, routes),
        Form::DoWhile => {
            let inner = around_loop(alloc, around, head_of(statement))?;
            pend_each(alloc, depth, &inner, statement.kids.as_slice(), routes)
        }
        Form::ForC => {
            let inner = around_loop(alloc, around, at_role(statement, Role::Step))?;
            pend_each(alloc, depth, &inner, statement.kids.as_slice(), routes)
        }
        Form::Switch => {
            let inner = around_switch(alloc, around)?;
            pend_each(alloc, depth, &inner, statement.kids.as_slice(), routes)
        }
        Form::Try => pend_try(alloc, depth, around, statement, routes),
        Form::Raise => push_later(&around.raise_to, routes),
        Form::Break => push_later(&around.break_to, routes),
        Form::Continue => push_later(&around.continue_to, routes),
        Form::Return => push_out(alloc, around, around.exit, routes),
        Form::Goto => push_out(alloc, around, statement.target, routes),
        Form::Plain | Form::Absent | Form::Case | Form::Default => Ok(()),
    }
}

// What is left of the route of a jump that leaves all finally parts around it.
fn push_out(
    alloc: Global,
    around: &Around,
    target: Point,
    routes: &mut List<List<List<Point>>>,
) -> Result<(), Memory>
    ensures { OnOk result (routes.new ≡ routes.old ++ lasting (later (around.now.finals ++ (target ∷ []) ∷ []))) }
{
    let mut route = around.finals.copy()?;
    route.push(alone(alloc, target)?)?;
    push_later(&route, routes)
}

#[cycle(pend)]
fn pend_loop(
    alloc: Global,
    depth: u32,
    around: &Around,
    statement: &Statement,
    routes: &mut List<List<List<Point>>>,
) -> Result<(), Memory>
    ensures { OnOk result (routes.new ≡ routes.old ++ Pended depth around.now statement.now Loop) }
{
    let inner = around_loop(alloc, around, head_of(statement))?;
    pend_each(
        alloc,
        depth,
        &inner,
        part_of(statement.kids.as_slice(), 0),
        routes,
    )?;
    pend_each(
        alloc,
        depth,
        around,
        part_of(statement.kids.as_slice(), 1),
        routes,
    )
}

#[cycle(pend)]
fn pend_part(
    alloc: Global,
    depth: u32,
    around: &Around,
    statement: &Statement,
    k: usize,
    routes: &mut List<List<List<Point>>>,
) -> Result<(), Memory>
    ensures { OnOk result (routes.new ≡ routes.old ++ flat_map (pending depth around.now) (part k (kids_of statement.now))) }
{
    pend_each(
        alloc,
        depth,
        around,
        part_of(statement.kids.as_slice(), k),
        routes,
    )
}

#[cycle(pend)]
fn pend_handlers(
    alloc: Global,
    depth: u32,
    around: &Around,
    statement: &Statement,
    routes: &mut List<List<List<Point>>>,
) -> Result<(), Memory>
    ensures { OnOk result (routes.new ≡ routes.old ++ flat_map (pending depth around.now) (row_kids (part 1 (kids_of statement.now)))) }
{
    pend_each(
        alloc,
        depth,
        around,
        kids_of_part(part_of(statement.kids.as_slice(), 1)),
        routes,
    )
}

/// The routes out of the parts of a Try that its finally part follows.
#[cycle(pend)]
pub fn pend_inside(
    alloc: Global,
    depth: u32,
    around: &Around,
    statement: &Statement,
    firsts: &Firsts,
    routes: &mut List<List<List<Point>>>,
) -> Result<(), Memory>
    requires { IsFirsts (tried (rows_first (first depth)) around.now (kids_of statement.now)) firsts.now }
    ensures { OnOk result (routes.new ≡ routes.old ++ Inside depth around.now (tried (rows_first (first depth)) around.now (kids_of statement.now))) }
{
    let body = body_of_try(around, firsts)?;
    let side = side_of_try(around, firsts)?;
    pend_part(alloc, depth, &body, statement, 0, routes)?;
    pend_handlers(alloc, depth, &side, statement, routes)?;
    pend_part(alloc, depth, &side, statement, 2, routes)?;
    Ok(())
}

#[cycle(pend)]
fn pend_try(
    alloc: Global,
    depth: u32,
    around: &Around,
    statement: &Statement,
    routes: &mut List<List<List<Point>>>,
) -> Result<(), Memory>
    ensures { OnOk result (routes.new ≡ routes.old ++ Pended depth around.now statement.now Try) }
{
    let firsts = firsts_of_try(alloc, depth, around, statement)?;
    if firsts.final_part.is_empty() {
        pend_inside(alloc, depth, around, statement, &firsts, routes)?;
        return Ok(());
    }
    let mut inside = List::new(alloc);
    pend_inside(alloc, depth, around, statement, &firsts, &mut inside)?;
    push_laters(inside.as_slice(), routes)?;
    pend_part(alloc, depth, around, statement, 3, routes)?;
    Ok(())
}

#[cycle(pend)]
fn pend_each(
    alloc: Global,
    depth: u32,
    around: &Around,
    statements: &[Statement],
    routes: &mut List<List<List<Point>>>,
) -> Result<(), Memory>
    ensures { OnOk result (routes.new ≡ routes.old ++ flat_map (pending depth around.now) statements.now) }
{
    for statement in statements {
        pend(alloc, depth, around, statement, routes)?;
    }
    Ok(())
}
