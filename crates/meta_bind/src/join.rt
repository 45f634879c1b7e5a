//! Two bindings made one.

ghost use Rattle.std.specs.Prelude.{◌≡◌, ◌≤◌, ◌<◌, ◌+◌, ◌++◌, map, length, drop, OnOk, IfOk};
ghost use Rattle.meta_bind.specs.Bounds.{seen_held, NamesAscend};
ghost use Rattle.meta_bind.specs.Merges.{is_later as later, kept as kept_of, joined};

use crate::trail::Held;
use node_tree::{Memory, Span};
use std::alloc::Global;
use std::cmp::Ordering;

/// Which of two places of a name is kept.
#[derive(Clone, Copy, Debug, PartialEq, Eq)]
pub enum Keep {
    /// The one that begins later, and of those the one that ends first.
    Later,
    /// The one of the first binding.
    First,
}

// Whether the first begins later, or both begin at one place and it ends no later.
fn is_later(a: Span, b: Span) -> bool
    ensures { result ≡ later a b }
{
    b.from < a.from || (a.from == b.from && a.to <= b.to)
}

// Which of two bounds of one name is kept.
fn kept<'t>(keep: Keep, a: Held<'t>, b: Held<'t>) -> Held<'t>
    ensures { seen_held result ≡ kept_of keep (seen_held a.entry) (seen_held b.entry) }
{
    match keep {
        Keep::Later => if is_later(a.span, b.span) { a } else { b },
        Keep::First => a,
    }
}

// Moves on by the next name, and gives the places of what is left of both.
fn step<'t>(
    keep: Keep,
    a: &[Held<'t>],
    b: &[Held<'t>],
    at: (usize, usize),
    out: &mut Vec<Held<'t>>,
) -> Result<(usize, usize), Memory>
    requires first { at.0 < length a.now }
    requires second { at.1 < length b.now }
    requires first_ascends { NamesAscend (map seen_held (drop at.0 a.now)) }
    requires second_ascends { NamesAscend (map seen_held (drop at.1 b.now)) }
    ensures moved { IfOk result (λ to. (to.0 ≤ length a.now) × (to.1 ≤ length b.now) × (at.0 + at.1 < to.0 + to.1)) }
    ensures ascend { IfOk result (λ to. NamesAscend (map seen_held (drop to.0 a.now)) × NamesAscend (map seen_held (drop to.1 b.now))) }
    ensures joins { IfOk result (λ to. map seen_held out.new.items ++ joined keep (map seen_held (drop to.0 a.now)) (map seen_held (drop to.1 b.now))
        ≡ map seen_held out.old.items ++ joined keep (map seen_held (drop at.0 a.now)) (map seen_held (drop at.1 b.now))) }
{
    let (i, j) = at;
    let (one, two) = (a[i], b[j]);
    match one.name.cmp(two.name) {
        Ordering::Less => {
            out.push(one)?;
            Ok((i + 1, j))
        }
        Ordering::Equal => {
            out.push(kept(keep, one, two))?;
            Ok((i + 1, j + 1))
        }
        Ordering::Greater => {
            out.push(two)?;
            Ok((i, j + 1))
        }
    }
}

/// The names of both, in order, each once.
pub fn join<'t>(
    alloc: Global,
    keep: Keep,
    a: &[Held<'t>],
    b: &[Held<'t>],
) -> Result<Vec<Held<'t>>, Memory>
    requires first_ascends { NamesAscend (map seen_held a.now) }
    requires second_ascends { NamesAscend (map seen_held b.now) }
    ensures { IfOk result (λ v. map seen_held v.items ≡ joined keep (map seen_held a.now) (map seen_held b.now)) }
{
    let mut out = Vec::new(alloc);
    let mut at = (0, 0);
    while at.0 < a.len() && at.1 < b.len() {
        at = step(keep, a, b, at, &mut out)?;
    }
    out.extend_from_slice(&a[at.0..])?;
    out.extend_from_slice(&b[at.1..])?;
    Ok(out)
}
