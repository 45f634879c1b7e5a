//! The search.

ghost use Rattle.std.specs.Prelude.{◌≡◌, ◌↔◌, ◌*◌, ◌<◌, ◌≤◌, ℕ, length, IfOk, Err};
ghost use Rattle.flow_reach.specs.declared.fault.ReachFault.TheVariants.{TooLarge as too_large};
ghost use Rattle.flow_reach.specs.Bits.{stride_of};
ghost use Rattle.flow_reach.specs.Carried.{AtEntry, Fits, Inside, Pairs};
ghost use Rattle.flow_reach.specs.Reached.{IsReached, IsReachedFrom};
ghost use Rattle.flow_reach.specs.Spread.{IsFilled, IsReady};

use crate::added::adds;
use crate::bits;
use crate::dropped::drops;
use crate::fault::ReachFault;
use crate::moves::Moves;
use crate::reached::Reached;
use crate::ready::Ready;
use crate::spread::{Batch, follow, see_pairs};
use crate::successor_table::successors;
use crate::worklist::Worklist;
use graph_form::Graph;
use node_tree::Memory;
use std::alloc::Global;

// The most pairs of a point and a fact.
const MOST: usize = 50_000_000;

/// Which facts some path from the entry carries to which points.
pub fn reach(alloc: Global, graph: &Graph, moves: &Moves) -> Result<Reached, ReachFault>
    requires { Fits graph.now moves.now }
    ensures reached { IfOk result (IsReached graph.now moves.now) }
    ensures small { IfOk result (λ _. length graph.now.points * moves.now.facts ≤ 50000000) }
    ensures large { result ≡ Err too_large → 50000000 < length graph.now.points * moves.now.facts }
{
    let ready = prepare(alloc, graph, moves)?;
    let begins = at_entry(alloc, moves)?;
    let reached = reach_from(alloc, graph, moves, &ready, &begins)?;
    Ok(reached)
}

/// Makes a graph and what its points do ready for searches. TooLarge stands for the searches.
pub fn prepare(alloc: Global, graph: &Graph, moves: &Moves) -> Result<Ready, ReachFault>
    requires { Fits graph.now moves.now }
    ensures ready { IfOk result (IsReady graph.now moves.now) }
    ensures small { IfOk result (λ _. length graph.now.points * moves.now.facts ≤ 50000000) }
    ensures large { result ≡ Err too_large → 50000000 < length graph.now.points * moves.now.facts }
{
    let points = graph.points.len();
    if points * moves.facts as usize > MOST {
        return Err(ReachFault::TooLarge);
    }
    let words = points * (bits::stride(moves.facts) / 64);
    let ready = tables(alloc, graph, moves, words)?;
    Ok(ready)
}

// What a search looks up, with so many words for the facts that points drop.
fn tables(alloc: Global, graph: &Graph, moves: &Moves, words: usize) -> Result<Ready, Memory>
    requires fits { Fits graph.now moves.now }
    requires words { length graph.now.points * stride_of moves.now.facts ≡ 64 * words }
    requires few { words ≤ 50000000 }
    ensures { IfOk result (IsReady graph.now moves.now) }
{
    let after = successors(alloc, graph)?;
    let added = adds(alloc, moves)?;
    let dropped = drops(alloc, moves, words)?;
    Ok(Ready {
        after,
        added,
        dropped,
    })
}

// The facts that begin at the entry, each with the entry.
fn at_entry(alloc: Global, moves: &Moves) -> Result<Vec<(u32, u32)>, Memory>
    ensures { IfOk result (λ pairs. (point fact : ℕ) →
        Pairs pairs.items point fact ↔ AtEntry moves.now point fact) }
{
    let mut pairs = Vec::new(alloc);
    for fact in moves.start.as_slice() {
        pairs.push((0, *fact))?;
    }
    Ok(pairs)
}

/// Which facts some path carries to which points, from points where these facts begin.
pub fn reach_from(
    alloc: Global,
    graph: &Graph,
    moves: &Moves,
    ready: &Ready,
    begins: &[(u32, u32)],
) -> Result<Reached, Memory>
    requires fits { Fits graph.now moves.now }
    requires ready { IsReady graph.now moves.now ready.now }
    requires inside { Inside (Pairs begins.now) graph.now moves.now }
    ensures { IfOk result (IsReachedFrom (Pairs begins.now) graph.now moves.now) }
{
    let work = fill(alloc, graph, moves, ready, begins)?;
    Ok(Reached {
        points: graph.points.len() as u32,
        facts: moves.facts,
        seen: work.seen,
    })
}

// The work, once all is done.
fn fill(
    alloc: Global,
    graph: &Graph,
    moves: &Moves,
    ready: &Ready,
    begins: &[(u32, u32)],
) -> Result<Worklist, Memory>
    requires fits { Fits graph.now moves.now }
    requires ready { IsReady graph.now moves.now ready.now }
    requires inside { Inside (Pairs begins.now) graph.now moves.now }
    ensures { IfOk result (λ work.
        IsFilled (Pairs begins.now) graph.now moves.now work.seen.items) }
{
    let width = bits::stride(moves.facts) / 64;
    let mut seconds = Vec::new(alloc);
    let mut work = Worklist::new(alloc, ready.dropped.len())?;
    see_pairs(&mut work, width * 64, begins)?;
    while let Some((word, bits)) = work.take() {
        let point = word / width;
        let batch = Batch {
            width,
            column: word % width,
            bits,
            kept: bits::without(bits, ready.dropped[word]),
        };
        follow(
            &mut work,
            &ready.after[point],
            &ready.added[point],
            batch,
            &mut seconds,
        )?;
    }
    Ok(work)
}
