//! What the facts in one word lead to.

ghost use Rattle.std.specs.Prelude.{◌≡◌, ◌≢◌, ◌+◌, ◌*◌, ◌<◌, ◌≤◌, ◌^◌, ℕ, length, OnOk};
ghost use Rattle.std.specs.Int.{bit_at};
ghost use Rattle.graph_form.specs.Sets.{Among};
ghost use Rattle.flow_reach.specs.Adds.{Ascends};
ghost use Rattle.flow_reach.specs.Spread.{At, AtPairs, AtEach, Kept, AddedBy, Added, Bits, Follows};
ghost use Rattle.flow_reach.specs.Worklist.{IsShaped, Grows};

use crate::bits;
use crate::pairs::only_seconds;
use crate::worklist::Worklist;
use node_tree::Memory;

// Sees these facts at a point whose facts begin at a number.
fn see_facts(work: &mut Worklist, base: usize, facts: &[u32]) -> Result<(), Memory>
    requires shaped { IsShaped work.old }
    requires room { (fact : ℕ) → Among facts.now fact → base + fact < 64 * length work.old.seen.items }
    ensures { OnOk result (Grows (At base facts.now) work.old work.new) }
{
    for fact in facts {
        work.see_one(base + *fact as usize)?;
    }
    Ok(())
}

/// Sees these pairs of a point and a fact.
pub fn see_pairs(work: &mut Worklist, stride: usize, pairs: &[(u32, u32)]) -> Result<(), Memory>
    requires shaped { IsShaped work.old }
    requires room { (k : ℕ) → AtPairs stride pairs.now k → k < 64 * length work.old.seen.items }
    ensures { OnOk result (Grows (AtPairs stride pairs.now) work.old work.new) }
{
    for pair in pairs {
        work.see_one(pair.0 as usize * stride + pair.1 as usize)?;
    }
    Ok(())
}

// Sees these facts at these points.
fn see_each(work: &mut Worklist, points: &[u32], stride: usize, facts: &[u32]) -> Result<(), Memory>
    requires shaped { IsShaped work.old }
    requires room { (k : ℕ) → AtEach points.now stride facts.now k → k < 64 * length work.old.seen.items }
    requires small { (point : ℕ) → Among points.now point → point * stride < 2 ^ 64 }
    ensures { OnOk result (Grows (AtEach points.now stride facts.now) work.old work.new) }
{
    for point in points {
        see_facts(work, *point as usize * stride, facts)?;
    }
    Ok(())
}

// Sees the facts of a column of words at these points.
fn keep(
    work: &mut Worklist,
    points: &[u32],
    width: usize,
    column: usize,
    kept: u64,
) -> Result<(), Memory>
    requires shaped { IsShaped work.old }
    requires room { (point : ℕ) → Among points.now point → point * width + column < length work.old.seen.items }
    ensures { OnOk result (Grows (Kept points.now width column kept) work.old work.new) }
{
    for point in points {
        work.see(*point as usize * width + column, kept)?;
    }
    Ok(())
}

// Sees the facts at these points that are added with a fact.
fn add_with(
    work: &mut Worklist,
    points: &[u32],
    stride: usize,
    adds: &[u64],
    fact: usize,
    seconds: &mut Vec<u32>,
) -> Result<(), Memory>
    requires shaped { IsShaped work.old }
    requires ascends { Ascends adds.now }
    requires fact { fact < 2 ^ 32 }
    requires room { (k : ℕ) → AddedBy points.now stride adds.now fact k → k < 64 * length work.old.seen.items }
    requires small { (point : ℕ) → Among points.now point → point * stride < 2 ^ 64 }
    ensures { OnOk result (Grows (AddedBy points.now stride adds.now fact) work.old work.new) }
{
    only_seconds(adds, fact as u64, seconds)?;
    see_each(work, points, stride, seconds)?;
    Ok(())
}

// The lowest bit of a word that has one.
fn lowest(word: u64) -> usize
    requires { word ≢ 0 }
    ensures small { result < 64 }
    ensures has { bit_at word result ≡ 1 }
{
    word.trailing_zeros() as usize
}

// Sees the facts at these points that are added with one of the facts of a word, from a base on.
fn add(
    work: &mut Worklist,
    points: &[u32],
    stride: usize,
    adds: &[u64],
    base: usize,
    word: u64,
    seconds: &mut Vec<u32>,
) -> Result<(), Memory>
    requires shaped { IsShaped work.old }
    requires ascends { Ascends adds.now }
    requires facts { (bit : ℕ) → bit_at word bit ≡ 1 → base + bit < 2 ^ 32 }
    requires room { (k : ℕ) → Added (Bits word) points.now stride adds.now base k → k < 64 * length work.old.seen.items }
    requires small { (point : ℕ) → Among points.now point → point * stride < 2 ^ 64 }
    ensures { OnOk result (Grows (Added (Bits word) points.now stride adds.now base) work.old work.new) }
{
    if adds.is_empty() {
        return Ok(());
    }
    let mut left = word;
    while left != 0 {
        let bit = lowest(left);
        left = bits::without(left, bits::one(bit));
        add_with(work, points, stride, adds, base + bit, seconds)?;
    }
    Ok(())
}

/// Facts of one point that are taken together: those of one of the point's words. Some of them are kept.
#[derive(Clone, Copy)]
pub struct Batch {
    pub width: usize,
    pub column: usize,
    pub bits: u64,
    pub kept: u64,
}

/// Sees at these points what the facts lead to.
pub fn follow(
    work: &mut Worklist,
    points: &[u32],
    adds: &[u64],
    batch: Batch,
    seconds: &mut Vec<u32>,
) -> Result<(), Memory>
    requires shaped { IsShaped work.old }
    requires ascends { Ascends adds.now }
    requires width { batch.width < 2 ^ 32 }
    requires column { batch.column < 2 ^ 32 }
    requires facts { (bit : ℕ) → bit_at batch.bits bit ≡ 1 → batch.column * 64 + bit < 2 ^ 32 }
    requires words { (point : ℕ) → Among points.now point →
        point * batch.width + batch.column < length work.old.seen.items }
    requires room { (k : ℕ) → Added (Bits batch.bits) points.now (batch.width * 64) adds.now (batch.column * 64) k →
        k < 64 * length work.old.seen.items }
    ensures { OnOk result (Grows (Follows points.now adds.now batch) work.old work.new) }
{
    keep(work, points, batch.width, batch.column, batch.kept)?;
    add(
        work,
        points,
        batch.width * 64,
        adds,
        batch.column * 64,
        batch.bits,
        seconds,
    )?;
    Ok(())
}
