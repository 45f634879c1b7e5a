//! Sets of numbers as words of 64 bits.

ghost use Rattle.std.specs.Prelude.{◌≡◌, ◌≢◌, ℕ, ◌+◌, ◌*◌, ◌/◌, ◌%◌, ◌^◌, ◌<◌, ◌≤◌, ◌↔◌, IsTrue, IfOk, length};
ghost use Rattle.std.specs.Int.{bit_at};
ghost use Rattle.flow_reach.specs.Bits.{bit_of, Has, InWord, IsWithout, stride_of};

use node_tree::Memory;
use std::alloc::Global;

/// How many numbers a point takes: those of its facts, up to the end of the last word.
pub fn stride(facts: u32) -> usize
    ensures { result ≡ stride_of facts }
{
    (facts as usize + 63) / 64 * 64
}

/// Room for so many words, with no number in the set.
pub fn none(alloc: Global, words: usize) -> Result<Vec<u64>, Memory>
    ensures room { IfOk result (λ set. length set.items ≡ words) }
    ensures none { IfOk result (λ set. (k : ℕ) → bit_of set.items k ≡ 0) }
{
    let set = Vec::from_elem(alloc, 0u64, words)?;
    Ok(set)
}

/// Whether the number is in the set.
pub fn has(set: &[u64], at: usize) -> bool
    requires { at < 64 * length set.now }
    ensures { IsTrue result ↔ Has set.now at }
{
    (set[at / 64] >> (at % 64)) & 1 == 1
}

/// The word with one bit, that of the number.
pub fn one(at: usize) -> u64
    ensures { (i : ℕ) → (bit_at result i ≡ 1) ↔ (i ≡ at % 64) }
{
    1 << (at % 64)
}

/// The bits of the one word that the other doesn't have.
pub fn without(bits: u64, others: u64) -> u64
    ensures bits { IsWithout bits others result }
    ensures less { result ≤ bits }
{
    bits & !others
}

/// Puts the numbers of a word into the set.
pub fn put(set: &mut Vec<u64>, word: usize, bits: u64)
    requires { word < length set.old.items }
    ensures room { length set.new.items ≡ length set.old.items }
    ensures there { (k : ℕ) → InWord word bits k → Has set.new.items k }
    ensures others { (k : ℕ) → (InWord word bits k → ⊥) → bit_of set.new.items k ≡ bit_of set.old.items k }
{
    set[word] |= bits;
}
