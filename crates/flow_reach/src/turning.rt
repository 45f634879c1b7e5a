//! What a point turns a fact into.

ghost use Rattle.std.specs.Prelude.{◌≡◌, ◌⊎◌, ◌↔◌, ◌*◌, ◌<◌, ℕ, length, OnOk};
ghost use Rattle.graph_form.specs.Sets.{Among};
ghost use Rattle.flow_reach.specs.Bits.{Has};
ghost use Rattle.flow_reach.specs.Carried.{Fits, Turns};
ghost use Rattle.flow_reach.specs.Spread.{IsReady, Left};

use crate::bits;
use crate::moves::Moves;
use crate::pairs::seconds;
use crate::ready::Ready;
use graph_form::Graph;
use node_tree::Memory;

// Adds the fact, unless its number is one of those that are dropped.
fn keep(dropped: &[u64], at: usize, fact: u32, into: &mut Vec<u32>) -> Result<(), Memory>
    requires { at < 64 * length dropped.now }
    ensures { OnOk result ((g : ℕ) → Among into.new.items g ↔
        (Among into.old.items g ⊎ Left dropped.now at fact g)) }
{
    if bits::has(dropped, at) {
        return Ok(());
    }
    into.push(fact)?;
    Ok(())
}

/// Adds the facts into which a point turns a fact.
pub fn turn(
    graph: &Graph,
    moves: &Moves,
    ready: &Ready,
    point: u32,
    fact: u32,
    into: &mut Vec<u32>,
) -> Result<(), Memory>
    requires fits { Fits graph.now moves.now }
    requires ready { IsReady graph.now moves.now ready.now }
    requires point { point < length graph.now.points }
    requires fact { fact < moves.now.facts }
    ensures { OnOk result ((after : ℕ) → Among into.new.items after ↔
        (Among into.old.items after ⊎ Turns moves.now point fact after)) }
{
    let at = point as usize * bits::stride(moves.facts) + fact as usize;
    keep(&ready.dropped, at, fact, into)?;
    seconds(&ready.added[point as usize], fact as u64, into)?;
    Ok(())
}
