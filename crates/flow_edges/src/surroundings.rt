//! What stands around the parts of statements.

ghost use Rattle.std.specs.Prelude.{◌≡◌, ◌∷◌, [], IfOk};
ghost use Rattle.flow_edges.specs.Flow.{points, before, in_loop, in_switch, in_side, in_body, via, caught, hop};

use crate::around::Around;
use crate::parts::{alone, same};
use graph_form::Point;
use node_tree::{List, Memory, Twin};
use std::alloc::Global;

/// The same around, but something else follows.
pub fn before_these(around: &Around, next: List<Point>) -> Result<Around, Memory>
    ensures { IfOk result (λ inner. inner ≡ before next around.now) }
{
    Ok(Around {
        next,
        break_to: around.break_to.copy()?,
        continue_to: around.continue_to.copy()?,
        raise_to: around.raise_to.copy()?,
        finals: around.finals.copy()?,
        exit: around.exit,
    })
}

/// A route without finally parts.
pub fn straight(alloc: Global, points: &[Point]) -> Result<List<List<Point>>, Memory>
    ensures { IfOk result (λ route. route ≡ points.now ∷ []) }
{
    let mut route = List::new(alloc);
    route.push(same(alloc, points)?)?;
    Ok(route)
}

/// Around the body of a loop, whose end goes to a point.
pub fn around_loop(alloc: Global, around: &Around, again: Point) -> Result<Around, Memory>
    ensures { IfOk result (λ inner. inner ≡ in_loop around.now (again ∷ [])) }
{
    let points = alone(alloc, again)?;
    Ok(Around {
        break_to: straight(alloc, around.next.as_slice())?,
        continue_to: straight(alloc, points.as_slice())?,
        next: points,
        raise_to: around.raise_to.copy()?,
        finals: around.finals.copy()?,
        exit: around.exit,
    })
}

/// Around the body of a switch.
pub fn around_switch(alloc: Global, around: &Around) -> Result<Around, Memory>
    ensures { IfOk result (λ inner. inner ≡ in_switch around.now) }
{
    Ok(Around {
        next: around.next.copy()?,
        break_to: straight(alloc, around.next.as_slice())?,
        continue_to: around.continue_to.copy()?,
        raise_to: around.raise_to.copy()?,
        finals: around.finals.copy()?,
        exit: around.exit,
    })
}

/// The first points to which a jump goes.
pub fn first_hop(route: &List<List<Point>>) -> &[Point]
    ensures { result.now ≡ hop route.now }
{
    match route.get(0) {
        Some(points) => points.as_slice(),
        None => &[],
    }
}

// Through a finally part, where there is one.
fn through(final_part: &[Point], route: &List<List<Point>>) -> Result<List<List<Point>>, Memory>
    ensures { IfOk result (λ passed. passed ≡ via final_part.now route.now) }
{
    let mut passed = route.copy()?;
    if !final_part.is_empty() {
        passed.insert(0, same(route.alloc(), final_part)?)?;
    }
    Ok(passed)
}

/// Around a part of a Try that the finally part follows.
pub fn around_side(
    around: &Around,
    final_part: &[Point],
    next: List<Point>,
) -> Result<Around, Memory>
    ensures { IfOk result (λ inner. inner ≡ in_side around.now final_part.now next) }
{
    Ok(Around {
        next,
        break_to: through(final_part, &around.break_to)?,
        continue_to: through(final_part, &around.continue_to)?,
        raise_to: through(final_part, &around.raise_to)?,
        finals: through(final_part, &around.finals)?,
        exit: around.exit,
    })
}

// Where a raise goes in the body of a Try.
fn catch(handlers: &[Point], route: &List<List<Point>>) -> Result<List<List<Point>>, Memory>
    ensures { IfOk result (λ to. to ≡ caught handlers.now route.now) }
{
    if handlers.is_empty() {
        return route.copy();
    }
    straight(route.alloc(), handlers)
}

/// Around the body of a Try.
pub fn around_body(
    around: &Around,
    final_part: &[Point],
    handlers: &[Point],
    next: List<Point>,
) -> Result<Around, Memory>
    ensures { IfOk result (λ inner. inner ≡ in_body around.now final_part.now handlers.now next) }
{
    let side = around_side(around, final_part, next)?;
    Ok(Around {
        next: side.next,
        break_to: side.break_to,
        continue_to: side.continue_to,
        raise_to: catch(handlers, &side.raise_to)?,
        finals: side.finals,
        exit: side.exit,
    })
}
