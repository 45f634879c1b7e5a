//! The facts that points drop, as a set of numbers.

ghost use Rattle.std.specs.Prelude.{◌≡◌, ◌⊎◌, ◌↔◌, ◌+◌, ◌*◌, ◌<◌, ◌^◌, ℕ, length, IfOk};
ghost use Rattle.graph_form.specs.Sets.{Among};
ghost use Rattle.flow_reach.specs.Bits.{Has, stride_of};
ghost use Rattle.flow_reach.specs.Carried.{AreRows};
ghost use Rattle.flow_reach.specs.Spread.{At, Dropped};

use crate::bits;
use crate::moves::Moves;
use node_tree::Memory;
use std::alloc::Global;

// Puts these facts of a point, whose facts begin at a number, into the set.
fn put_facts(set: &mut Vec<u64>, base: usize, facts: &[u32])
    requires small { length set.old.items < 2 ^ 32 }
    requires room { (fact : ℕ) → Among facts.now fact → base + fact < 64 * length set.old.items }
    ensures room { length set.new.items ≡ length set.old.items }
    ensures has { (k : ℕ) → Has set.new.items k ↔ (Has set.old.items k ⊎ At base facts.now k) }
{
    for fact in facts {
        let at = base + *fact as usize;
        bits::put(set, at / 64, bits::one(at));
    }
}

/// The numbers of the facts that each point drops.
pub fn drops(alloc: Global, moves: &Moves, words: usize) -> Result<Vec<u64>, Memory>
    requires rows { AreRows moves.now }
    requires small { words < 2 ^ 32 }
    requires room { length moves.now.rows * stride_of moves.now.facts ≡ 64 * words }
    ensures room { IfOk result (λ set. length set.items ≡ words) }
    ensures has { IfOk result (λ set. (k : ℕ) → Has set.items k ↔
        Dropped moves.now.rows (stride_of moves.now.facts) (length moves.now.rows) k) }
{
    let stride = bits::stride(moves.facts);
    let mut set = bits::none(alloc, words)?;
    for (point, row) in moves.rows.as_slice().iter().enumerate() {
        put_facts(&mut set, point * stride, row.drops.as_slice());
    }
    Ok(set)
}
