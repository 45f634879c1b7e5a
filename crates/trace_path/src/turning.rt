//! What facts lead to at a point.

ghost use Rattle.std.specs.Prelude.{◌≡◌, ◌↔◌, ◌<◌, ℕ, length, slice_get, Some, IfOk, OnOk};
ghost use Rattle.graph_form.specs.Sets.{Among};
ghost use Rattle.flow_reach.specs.Carried.{Fits};
ghost use Rattle.flow_reach.specs.Spread.{IsReady, IsTable};
ghost use Rattle.trace_path.specs.Queue.{Ascends, Turned, IsNext};

use flow_reach::{Moves, Ready, turn};
use graph_form::Graph;
use node_tree::Memory;
use std::alloc::Global;

/// The facts into which a point turns some of these, and no others.
pub fn turn_all(
    graph: &Graph,
    moves: &Moves,
    ready: &Ready,
    point: u32,
    facts: &[u32],
    into: &mut Vec<u32>,
) -> Result<(), Memory>
    requires fits { Fits graph.now moves.now }
    requires ready { IsReady graph.now moves.now ready.now }
    requires point { point < length graph.now.points }
    requires facts { (fact : ℕ) → Among facts.now fact → fact < moves.now.facts }
    ensures { OnOk result ((after : ℕ) → Among into.new.items after ↔
        Turned moves.now point facts.now after) }
{
    into.clear();
    for fact in facts {
        turn(graph, moves, ready, point, *fact, into)?;
    }
    Ok(())
}

/// The same numbers in order.
pub fn ordered(alloc: Global, numbers: &[u32]) -> Result<Vec<u32>, Memory>
    ensures same { IfOk result (λ sorted. (x : ℕ) → Among sorted.items x ↔ Among numbers.now x) }
    ensures ascends { IfOk result (λ sorted. Ascends sorted.items) }
{
    let mut sorted = Vec::new(alloc);
    for number in numbers {
        sorted.push(*number)?;
    }
    sorted.sort()?;
    Ok(sorted)
}

/// The points to which edges lead from each point, in order.
pub fn in_order(alloc: Global, graph: &Graph, table: &[Vec<u32>]) -> Result<Vec<Vec<u32>>, Memory>
    requires { IsTable graph.now table.now }
    ensures { IfOk result (λ rows. IsNext graph.now rows.items) }
{
    let mut rows = Vec::new(alloc);
    for row in table {
        let sorted = ordered(alloc, row)?;
        rows.push(sorted)?;
    }
    Ok(rows)
}
