//! The points of a unit that are reached, and the hits in a unit without names: no point changes any fact there, so each source is
//! carried to all points that are reached.

ghost use Rattle.std.specs.Prelude.{◌<◌, OnOk, IfOk, length};
ghost use Rattle.flow_reach.specs.Reached.{Tells};
ghost use Rattle.taint_flow.specs.Found.{AreInside, AreOfSinks, ByPlan};
ghost use Rattle.taint_flow.specs.Lowest.{Lowers};
ghost use Rattle.taint_flow.specs.Still.{AreReachable, AreStill, BySources, KeepsFacts};

use crate::least::Least;
use flow_reach::{Move, Moves, Reached, fits, reach};
use graph_form::Graph;
use node_tree::{List, Memory, Span};
use std::alloc::Global;
use taint_plan::{Goal, Plan};

// Moves of so many points that change nothing, of one fact, which begins at the entry.
fn still(alloc: Global, points: usize) -> Result<Moves, Memory>
    ensures { IfOk result (AreStill points) }
{
    let mut rows = List::new(alloc);
    for _ in 0..points {
        let drops = List::new(alloc);
        let adds = List::new(alloc);
        rows.push(Move { drops, adds })?;
    }
    let mut start = List::new(alloc);
    start.push(0)?;
    Ok(Moves {
        facts: 1,
        start,
        rows,
    })
}

/// The points to which some path leads from the entry, with one fact for all.
pub fn reachable(alloc: Global, graph: &Graph) -> Result<Reached, Memory>
    ensures { IfOk result (AreReachable graph.now) }
{
    let moves = still(alloc, graph.points.len())?;
    if !fits(graph, &moves) {
        return Err(Memory);
    }
    let Ok(reached) = reach(alloc, graph, &moves) else {
        return Err(Memory);
    };
    Ok(reached)
}

/// Notes the goals at points that are reached, each with the source that its fact is.
pub fn note_reached(reached: &Reached, goals: &[Goal], sources: &[Span], least: &mut Least)
    requires fact { 0 < reached.now.facts }
    requires goals { AreInside reached.now.points (length sources.now) goals.now }
    requires sinks { AreOfSinks (length least.old.sources.items) goals.now }
    ensures { Lowers (BySources (λ point. Tells reached.now point 0) sources.now goals.now)
        least.old.sources.items least.new.sources.items }
{
    for goal in goals {
        if reached.has(goal.point, 0) {
            least.note(goal.sink, sources[goal.fact as usize]);
        }
    }
}

/// Notes the goals to which some route carries one of these sources, where the moves keep all facts.
pub fn search_still(
    alloc: Global,
    graph: &Graph,
    plan: &Plan,
    sources: &[Span],
    least: &mut Least,
) -> Result<(), Memory>
    requires keeps { KeepsFacts graph.now plan.now (length sources.now) }
    requires goals { AreInside (length graph.now.points) (length sources.now) plan.now.goals }
    requires sinks { AreOfSinks (length least.old.sources.items) plan.now.goals }
    ensures { OnOk result (Lowers (ByPlan graph.now plan.now sources.now (length sources.now))
        least.old.sources.items least.new.sources.items) }
{
    let reached = reachable(alloc, graph)?;
    note_reached(&reached, plan.goals.as_slice(), sources, least);
    Ok(())
}
