//! The points and parts of statements, and lists of points.

ghost use Rattle.std.specs.Prelude.{◌≡◌, ◌++◌, ◌∷◌, [], OnOk, IfOk, map};
ghost use Rattle.flow_edges.specs.Flow.{row_kids, head, at, part, points};

use crate::statement::Statement;
use graph_form::{Point, Role};
use node_tree::{List, Memory};
use std::alloc::Global;

/// The point of a statement.
pub fn head_of(statement: &Statement) -> Point
    ensures { result ≡ head statement.now }
{
    Point {
        node: statement.number,
        role: Role::Head,
    }
}

/// A point of a statement in another role.
pub fn at_role(statement: &Statement, role: Role) -> Point
    ensures { result ≡ at role statement.now }
{
    Point {
        node: statement.number,
        role,
    }
}

/// The k-th part.
pub fn part_of(kids: &[Statement], k: usize) -> &[Statement]
    ensures { result.now ≡ part k kids.now }
{
    if k < kids.len() {
        &kids[k..k + 1]
    } else {
        &kids[kids.len()..]
    }
}

/// The kids of the one part, if it is there.
pub fn kids_of_part(part: &[Statement]) -> &[Statement]
    ensures { result.now ≡ row_kids part.now }
{
    match part.first() {
        Some(row) => row.kids.as_slice(),
        None => &[],
    }
}

/// One point alone.
pub fn alone(alloc: Global, point: Point) -> Result<List<Point>, Memory>
    ensures { IfOk result (λ points. points ≡ point ∷ []) }
{
    let mut points = List::new(alloc);
    points.push(point)?;
    Ok(points)
}

/// The same points.
pub fn same(alloc: Global, points: &[Point]) -> Result<List<Point>, Memory>
    ensures { IfOk result (λ copies. copies ≡ points.now) }
{
    let mut copies = List::new(alloc);
    for point in points {
        copies.push(*point)?;
    }
    Ok(copies)
}

/// Adds these points.
pub fn push_all(more: &[Point], points: &mut List<Point>) -> Result<(), Memory>
    ensures { OnOk result (points.new ≡ points.old ++ more.now) }
{
    for point in more {
        points.push(*point)?;
    }
    Ok(())
}

/// The points of statements.
pub fn heads_of(alloc: Global, statements: &[Statement]) -> Result<List<Point>, Memory>
    ensures { IfOk result (λ heads. heads ≡ map head statements.now) }
{
    let mut heads = List::new(alloc);
    for statement in statements {
        heads.push(head_of(statement))?;
    }
    Ok(heads)
}
