//! Goals, as a set of numbers.

ghost use Rattle.std.specs.Prelude.{◌≡◌, ◌↔◌, ◌+◌, ◌*◌, ◌<◌, ◌≤◌, ◌^◌, ℕ, length, IfOk, IsTrue};
ghost use Rattle.graph_form.specs.Sets.{Among};
ghost use Rattle.flow_reach.specs.Bits.{Has};
ghost use Rattle.flow_reach.specs.Spread.{AtPairs};
ghost use Rattle.trace_path.specs.Queue.{HasOne};

use flow_reach::bits;
use node_tree::Memory;
use std::alloc::Global;

/// The numbers of these pairs of a point and a fact.
pub fn numbers(
    alloc: Global,
    words: usize,
    stride: usize,
    pairs: &[(u32, u32)],
) -> Result<Vec<u64>, Memory>
    requires small { words < 2 ^ 32 }
    requires room { (k : ℕ) → AtPairs stride pairs.now k → k < 64 * words }
    ensures room { IfOk result (λ set. length set.items ≡ words) }
    ensures has { IfOk result (λ set. (k : ℕ) → Has set.items k ↔ AtPairs stride pairs.now k) }
{
    let mut set = bits::none(alloc, words)?;
    for pair in pairs {
        let at = pair.0 as usize * stride + pair.1 as usize;
        bits::put(&mut set, at / 64, bits::one(at));
    }
    Ok(set)
}

/// Whether one of these facts, whose numbers begin at a number, is in the set.
pub fn meets(set: &[u64], base: usize, facts: &[u32]) -> bool
    requires small { length set.now < 2 ^ 32 }
    requires room { (fact : ℕ) → Among facts.now fact → base + fact < 64 * length set.now }
    ensures { IsTrue result ↔ HasOne set.now base facts.now }
{
    for fact in facts {
        if bits::has(set, base + *fact as usize) {
            return true;
        }
    }
    false
}
