//! The search.

ghost use Rattle.std.specs.Prelude.{◌≡◌, ◌*◌, ◌<◌, ◌≤◌, ℕ, length, IfOk, Err, MatchOption, List as list};
ghost use Rattle.flow_reach.specs.declared.fault.ReachFault.TheVariants.{TooLarge as too_large};
ghost use Rattle.flow_reach.specs.Carried.{Fits, Inside, Pairs};
ghost use Rattle.flow_reach.specs.Spread.{IsReady};
ghost use Rattle.trace_path.specs.Queue.{IsNext};
ghost use Rattle.trace_path.specs.Trace.{IsTrace, IsLeast};

use crate::goals::{meets, numbers};
use crate::queue::Queue;
use crate::turning::{in_order, turn_all};
use flow_reach::{Moves, ReachFault, Ready, bits, prepare};
use graph_form::Graph;
use node_tree::{List, Memory};
use std::alloc::Global;

/// The points of the least of the shortest paths that carry a goal's fact to its point. A goal is a point and a fact.
pub fn shortest(
    alloc: Global,
    graph: &Graph,
    moves: &Moves,
    goals: &List<(u32, u32)>,
) -> Result<Option<List<u32>>, ReachFault>
    requires fits { Fits graph.now moves.now }
    requires goals { Inside (Pairs goals.now) graph.now moves.now }
    ensures least { IfOk result (λ found. MatchOption found
        ((points : list ℕ) → IsTrace graph.now moves.now goals.now points → ⊥)
        (IsLeast graph.now moves.now goals.now)) }
    ensures small { IfOk result (λ _. length graph.now.points * moves.now.facts ≤ 50000000) }
    ensures large { result ≡ Err too_large → 50000000 < length graph.now.points * moves.now.facts }
{
    let ready = prepare(alloc, graph, moves)?;
    let next = in_order(alloc, graph, &ready.after)?;
    let found = find(alloc, graph, moves, &ready, &next, goals.as_slice())?;
    Ok(found)
}

// The search by classes of paths, in order of their points.
fn find(
    alloc: Global,
    graph: &Graph,
    moves: &Moves,
    ready: &Ready,
    next: &[Vec<u32>],
    goals: &[(u32, u32)],
) -> Result<Option<List<u32>>, Memory>
    requires fits { Fits graph.now moves.now }
    requires ready { IsReady graph.now moves.now ready.now }
    requires next { IsNext graph.now next.now }
    requires goals { Inside (Pairs goals.now) graph.now moves.now }
    ensures { IfOk result (λ found. MatchOption found
        ((points : list ℕ) → IsTrace graph.now moves.now goals.now points → ⊥)
        (IsLeast graph.now moves.now goals.now)) }
{
    let words = ready.dropped.len();
    let stride = bits::stride(moves.facts);
    let wanted = numbers(alloc, words, stride, goals)?;
    let mut queue = Queue::new(alloc, words, moves.start.as_slice())?;
    let mut turned = Vec::new(alloc);
    let mut head = 0;
    while head < queue.classes.len() {
        let point = queue.classes[head].point;
        if meets(&wanted, point as usize * stride, queue.facts_of(head)) {
            let points = queue.walk(alloc, head)?;
            return Ok(Some(points));
        }
        turn_all(
            graph,
            moves,
            ready,
            point,
            queue.facts_of(head),
            &mut turned,
        )?;
        queue.expand(graph, moves, head as u32, &next[point as usize], &turned)?;
        head += 1;
    }
    Ok(None)
}
