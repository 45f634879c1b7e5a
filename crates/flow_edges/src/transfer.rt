//! Transfers of control, gathered in a list.

ghost use Rattle.std.specs.Prelude.{OnOk};
ghost use Rattle.flow_edges.specs.Flow.{Cross, head, points, Into};
ghost use Rattle.flow_edges.specs.Grows.{Adds};

use crate::parts::head_of;
use crate::statement::Statement;
use graph_form::Point;
use node_tree::{List, Memory};

/// An edge between two points.
#[derive(Clone, Copy)]
pub struct Transfer {
    pub from: Point,
    pub to: Point,
}

/// Adds an edge to each of these.
pub fn into(from: Point, targets: &[Point], out: &mut List<Transfer>) -> Result<(), Memory>
    ensures { OnOk result (Adds out.old out.new (Into from targets.now)) }
{
    for to in targets {
        out.push(Transfer { from, to: *to })?;
    }
    Ok(())
}

/// Adds an edge from each of the points to each of the targets.
pub fn cross(points: &[Point], targets: &[Point], out: &mut List<Transfer>) -> Result<(), Memory>
    ensures { OnOk result (Adds out.old out.new (Cross points.now targets.now)) }
{
    for point in points {
        into(*point, targets, out)?;
    }
    Ok(())
}

/// Adds an edge from the point of a statement to each of these.
pub fn to_each(
    statement: &Statement,
    targets: &List<Point>,
    out: &mut List<Transfer>,
) -> Result<(), Memory>
    ensures { OnOk result (Adds out.old out.new (Into (head statement.now) targets.now)) }
{
    into(head_of(statement), targets.as_slice(), out)
}
