//! The lists in which a search goes on once an inner list is matched.

ghost use Rattle.std.specs.Prelude.{◌≡◌, ◌≤◌, ◌∷◌, length, true, false, IfOk};
ghost use Rattle.node_tree.specs.Tree.{kids_of};
ghost use Rattle.node_pool.specs.Spots.{seen};
ghost use Rattle.node_match.specs.Orders.{has_runs};
ghost use Rattle.node_search.specs.Kids.{AreKids};

use crate::next_places::NextPlaces;
use node_pool::Spot;
use node_search::Holder;
use node_tree::{List, Memory, Node};
use std::alloc::Global;

/// Nodes among which parts of a pattern choose, and which of them are taken.
#[derive(Clone, Copy)]
pub struct Candidates<'k, 'p, 't> {
    pub nodes: &'k [Spot<'p, 't>],
    pub taken: &'k [bool],
    /// Whether the parts with a name choose; else all but `...` do.
    pub named: bool,
    /// Whether nodes may be left over.
    pub loose: bool,
    pub ghost size: { length taken.now ≡ length nodes.now },
}

/// What parts of a pattern have to match.
#[derive(Clone, Copy)]
pub enum Left<'k, 'p, 't> {
    /// The kids from this place on, in order.
    Kids(usize),
    /// Kids that aren't taken, in any order.
    Candidates(Candidates<'k, 'p, 't>),
}

/// The parts of the pattern from one on, and what they have to match among the kids of the holder.
#[derive(Clone, Copy)]
pub struct Outer<'k, 'p, 't> {
    pub pattern: &'t Node,
    pub holder: Holder<'k, 'p, 't>,
    /// Whether only the parts without a name are searched, among the kids without a name.
    pub unnamed: bool,
    pub nexts: &'k [Option<NextPlaces>],
    pub from: usize,
    pub left: Left<'k, 'p, 't>,
    pub ghost within: { from ≤ length (kids_of pattern.now) },
    pub ghost kin: { unnamed ≡ false → AreKids holder.kids.now (seen holder.spot) },
    pub ghost unrun: { unnamed ≡ true → has_runs (kids_of pattern.now) ≡ false },
}

/// One list more, before the others.
pub fn before<'k, 'p, 't>(
    alloc: Global,
    first: Outer<'k, 'p, 't>,
    others: &[Outer<'k, 'p, 't>],
) -> Result<List<Outer<'k, 'p, 't>>, Memory>
    ensures { IfOk result (λ all. all ≡ first.entry ∷ others.now) }
{
    let mut all = List::new(alloc);
    all.push(first)?;
    for other in others {
        all.push(*other)?;
    }
    Ok(all)
}
