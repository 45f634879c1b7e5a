//! The points at which statements begin.

ghost use Rattle.std.specs.Prelude.{◌≡◌, IfOk};
ghost use Rattle.flow_edges.specs.Flow.{or_else, tried, kids_of, part, form_of, first, firsts, first_by, points, in_side, in_body, firsts as rows_first};
ghost use Rattle.flow_edges.specs.Tries.{IsFirsts};

use crate::around::Around;
use crate::parts::{alone, head_of, heads_of, kids_of_part, part_of, same};
use crate::statement::{Form, Statement};
use crate::surroundings::{around_body, around_side};
use graph_form::{Point, Role};
use node_tree::{List, Memory, Twin};
use std::alloc::Global;

/// The first points of a statement, or what follows it.
#[cycle(first)]
pub fn first_of(
    alloc: Global,
    depth: u32,
    statement: &Statement,
    next: &[Point],
) -> Result<List<Point>, Memory>
    ensures { IfOk result (λ points. points ≡ first depth statement.now next.now) }
{
    if depth == 0 {
        return same(alloc, next);
    }
    first_over(alloc, depth - 1, statement, next)
}

#[cycle(first)]
fn first_over(
    alloc: Global,
    depth: u32,
    statement: &Statement,
    next: &[Point],
) -> Result<List<Point>, Memory>
    ensures { IfOk result (λ points. points ≡ first_by (firsts (first depth)) statement.now (form_of statement.now) next.now) }
{
    match statement.form {
        Form::Row => firsts_of(alloc, depth, statement.kids.as_slice(), next),
        Form::Absent => same(alloc, next),
        Form::DoWhile => {
            let again = alone(alloc, head_of(statement))?;
            firsts_of(alloc, depth, statement.kids.as_slice(), again.as_slice())
        }
        Form::ForC => alone(
            alloc,
            Point {
                node: statement.number,
                role: Role::Init,
            },
        ),
        _ => alone(alloc, head_of(statement)),
    }
}

/// The first points of statements in a row, or what follows them.
#[cycle(first)]
pub fn firsts_of(
    alloc: Global,
    depth: u32,
    statements: &[Statement],
    next: &[Point],
) -> Result<List<Point>, Memory>
    ensures { IfOk result (λ points. points ≡ firsts (first depth) statements.now next.now) }
{
    let mut points = same(alloc, next)?;
    let mut left = statements.len();
    while left > 0 {
        left -= 1;
        points = first_of(alloc, depth, &statements[left], points.as_slice())?;
    }
    Ok(points)
}

/// The first points of the parts of a Try.
#[derive(Drop)]
pub struct Firsts {
    pub final_part: List<Point>,
    pub after: List<Point>,
    pub after_body: List<Point>,
    pub heads: List<Point>,
}

/// The points, or where there is none the next ones.
pub fn or_next(points: &List<Point>, next: &List<Point>) -> Result<List<Point>, Memory>
    ensures { IfOk result (λ these. these ≡ or_else points.now next.now) }
{
    if points.is_empty() {
        return next.copy();
    }
    points.copy()
}

pub fn firsts_of_try(
    alloc: Global,
    depth: u32,
    around: &Around,
    statement: &Statement,
) -> Result<Firsts, Memory>
    ensures { IfOk result (IsFirsts (tried (rows_first (first depth)) around.now (kids_of statement.now))) }
{
    let kids = statement.kids.as_slice();
    let final_part = firsts_of(alloc, depth, part_of(kids, 3), &[])?;
    let after = or_next(&final_part, &around.next)?;
    let after_body = firsts_of(alloc, depth, part_of(kids, 2), after.as_slice())?;
    let heads = heads_of(alloc, kids_of_part(part_of(kids, 1)))?;
    Ok(Firsts {
        final_part,
        after,
        after_body,
        heads,
    })
}

/// The first points of the body of a Try.
pub fn body_first(
    alloc: Global,
    depth: u32,
    statement: &Statement,
    firsts: &Firsts,
) -> Result<List<Point>, Memory>
    ensures { IfOk result (λ these. these ≡ rows_first (first depth) (part 0 (kids_of statement.now)) firsts.now.after_body) }
{
    firsts_of(
        alloc,
        depth,
        part_of(statement.kids.as_slice(), 0),
        firsts.after_body.as_slice(),
    )
}

/// Around the body of a Try.
pub fn body_of_try(around: &Around, firsts: &Firsts) -> Result<Around, Memory>
    ensures { IfOk result (λ inner. inner ≡ in_body around.now firsts.now.final_part firsts.now.heads firsts.now.after_body) }
{
    around_body(
        around,
        firsts.final_part.as_slice(),
        firsts.heads.as_slice(),
        firsts.after_body.copy()?,
    )
}

/// Around the handlers and the else part of a Try.
pub fn side_of_try(around: &Around, firsts: &Firsts) -> Result<Around, Memory>
    ensures { IfOk result (λ inner. inner ≡ in_side around.now firsts.now.final_part firsts.now.after) }
{
    around_side(around, firsts.final_part.as_slice(), firsts.after.copy()?)
}
