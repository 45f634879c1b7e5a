//! Places in lists, and what stands there.

ghost use Rattle.std.specs.Prelude.{◌≡◌, ◌<◌, ◌∷◌, [], ◌++◌, ℕ, Some, IfOk, OnOk, MatchOption, length, map, slice_get};
ghost use Rattle.std.specs.List.Sorted.{IsSorted};
ghost use Rattle.node_tree.specs.Span.{span_cmp};
ghost use Rattle.graph_form.specs.Sets.{Among};
ghost use Rattle.taint_flow.specs.Traces.{goals_of};

use graph_form::Point;
use node_tree::{List, Memory, Span};
use std::alloc::Global;
use taint_flow::Goal;

/// The place of a range, where they stand in order.
pub fn place_of(ranges: &[Span], range: Span) -> Option<u64>
    requires { IsSorted span_cmp ranges.now }
    ensures { MatchOption result (Among ranges.now range → ⊥)
        (λ at. slice_get ranges.now at ≡ Some range) }
{
    match ranges.binary_search(&range) {
        Ok(at) => Some(at as u64),
        Err(_) => None,
    }
}

// Adds the point and the fact of a goal, if it is one of the sink.
fn add_goal(goal: &Goal, sink: u64, into: &mut List<(u32, u32)>) -> Result<(), Memory>
    ensures { OnOk result (into.new ≡ into.old ++ goals_of sink (goal.now ∷ [])) }
{
    if goal.sink == sink {
        into.push((goal.point, goal.fact))?;
        return Ok(());
    }
    Ok(())
}

/// The points and facts of the goals of a sink.
pub fn goals_at(alloc: Global, goals: &[Goal], sink: u64) -> Result<List<(u32, u32)>, Memory>
    ensures { IfOk result (λ pairs. pairs ≡ goals_of sink goals.now) }
{
    let mut pairs = List::new(alloc);
    for goal in goals {
        add_goal(goal, sink, &mut pairs)?;
    }
    Ok(pairs)
}

/// The points at these places.
pub fn points_at(alloc: Global, points: &[Point], places: &[u32]) -> Result<List<Point>, Memory>
    requires { (place : ℕ) → Among places.now place → place < length points.now }
    ensures { IfOk result (λ path. map (slice_get points.now) places.now ≡ map Some path) }
{
    let mut path = List::new(alloc);
    for place in places {
        path.push(points[*place as usize])?;
    }
    Ok(path)
}
