//! The trace in one unit.

ghost use Rattle.std.specs.Prelude.{◌≡◌, ◌<◌, Some, length, IfOk, MatchOption, slice_get};
ghost use Rattle.node_tree.specs.declared.span.Span.{Span as a_span};
ghost use Rattle.flow_graph.specs.Units.{points_of, Goes, IsGraphOf};
ghost use Rattle.taint_trace.specs.Trace.{IsLeastPath, HasNoPath, IsSmall};

use crate::places::{goals_at, points_at};
use crate::sets::TraceSets;
use flow_reach::ReachFault;
use graph_form::Point;
use node_tree::{List, Memory, Span};
use std::alloc::Global;
use taint_judge::FlowTree;
use trace_path::shortest;
use unit_names::Scope;

/// The least of the shortest paths of the unit on which the source hits the sink with that place.
pub fn least_path(
    alloc: Global,
    flow: &FlowTree<'_>,
    unit: &Scope,
    sets: &TraceSets,
    source: Span,
    sink: u64,
) -> Result<Option<List<Point>>, Memory>
    requires graph { IsGraphOf (points_of flow.now unit.now.unit) (Goes flow.now unit.now.unit)
        unit.now.graph }
    requires small { IsSmall flow.now unit.now.unit }
    requires sink { sink < length sets.now.ranges.sinks }
    ensures { (range : a_span) → slice_get sets.now.ranges.sinks sink ≡ Some range →
        IfOk result (λ found. MatchOption found
        (HasNoPath flow.now sets.now.ranges source range unit.now.unit)
        (IsLeastPath flow.now sets.now.ranges source range unit.now.unit)) }
{
    let moves = sets.moves(alloc, flow, unit, source)?;
    let goals = goals_at(alloc, moves.goals.as_slice(), sink)?;
    match shortest(alloc, &unit.graph, &moves.moves, &goals) {
        Ok(Some(places)) => Ok(Some(points_at(
            alloc,
            unit.graph.points.as_slice(),
            places.as_slice(),
        )?)),
        Ok(None) => Ok(None),
        Err(ReachFault::TooLarge) => unreachable!(),
        Err(ReachFault::Memory) => Err(Memory),
    }
}
