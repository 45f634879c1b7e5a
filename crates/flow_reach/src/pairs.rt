//! Pairs of numbers in order, so that those with one first number are found by halving.

ghost use Rattle.std.specs.Prelude.{◌≡◌, ◌⊎◌, ◌↔◌, ◌<◌, ◌≤◌, ◌^◌, ℕ, length, slice_index, IfOk, OnOk};
ghost use Rattle.graph_form.specs.Sets.{Among};
ghost use Rattle.flow_reach.specs.Adds.{Ascends, Codes, Coded};

use node_tree::Memory;
use std::alloc::Global;

// The place of the first number that is not below this one.
fn first_from(xs: &[u64], least: u64) -> usize
    requires { Ascends xs.now }
    ensures bound { result ≤ length xs.now }
    ensures below { (k : ℕ) → k < result → slice_index xs.now k < least }
    ensures above { (k : ℕ) → result ≤ k → k < length xs.now → least ≤ slice_index xs.now k }
{
    let mut low = 0;
    let mut high = xs.len();
    while low < high {
        let mid = low + (high - low) / 2;
        if xs[mid] < least {
            low = mid + 1;
        } else {
            high = mid;
        }
    }
    low
}

// The number of a pair.
fn code(first: u32, second: u32) -> u64
    ensures { Codes result first second }
{
    first as u64 * 4294967296 + second as u64
}

/// The numbers of pairs, in order.
pub fn sorted_pairs(alloc: Global, pairs: &[(u32, u32)]) -> Result<Vec<u64>, Memory>
    ensures same { IfOk result (λ sorted. (f h : ℕ) → Coded sorted.items f h ↔ Among pairs.now (f, h)) }
    ensures ascends { IfOk result (λ sorted. Ascends sorted.items) }
{
    let mut sorted = Vec::new(alloc);
    for pair in pairs {
        sorted.push(code(pair.0, pair.1))?;
    }
    sorted.sort()?;
    Ok(sorted)
}

/// Adds the second numbers of the pairs with that first number.
pub fn seconds(pairs: &[u64], first: u64, into: &mut Vec<u32>) -> Result<(), Memory>
    requires ascends { Ascends pairs.now }
    requires first { first < 2 ^ 32 }
    ensures { OnOk result ((after : ℕ) → Among into.new.items after ↔ (Among into.old.items after ⊎ Coded pairs.now first after)) }
{
    let mut at = first_from(pairs, first * 4294967296);
    while at < pairs.len() {
        if pairs[at] / 4294967296 != first {
            return Ok(());
        }
        into.push((pairs[at] % 4294967296) as u32)?;
        at += 1;
    }
    Ok(())
}

/// The second numbers of the pairs with that first number, and no others.
pub fn only_seconds(pairs: &[u64], first: u64, into: &mut Vec<u32>) -> Result<(), Memory>
    requires ascends { Ascends pairs.now }
    requires first { first < 2 ^ 32 }
    ensures { OnOk result ((after : ℕ) → Among into.new.items after ↔ Coded pairs.now first after) }
{
    into.clear();
    seconds(pairs, first, into)?;
    Ok(())
}
