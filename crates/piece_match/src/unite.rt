//! The union of some leaves.

ghost use Rattle.std.specs.Prelude.{◌≡◌, map, IfOk};
ghost use Rattle.piece_match.specs.Union.{IsUnion, moved_part};

use crate::merge::merged;
use crate::moving::moved;
use node_tree::{List, Memory};
use std::alloc::Global;
use tree_match::{Leaf, LeafSet, MOST_MEMBERS};

/// What a pattern has in a piece, and where the piece starts in its file.
#[derive(Clone, Copy)]
pub struct PlacedLeaf<'l> {
    pub start: u32,
    pub leaf: &'l Leaf,
}

/// The members of all of these, each as much later as its piece starts, in order and each once. It is crowded exactly where one
/// of them is, or there are more than 10,000. Where a place would pass the largest `u32`, the answer is `Memory`.
pub fn union_moved(alloc: Global, parts: &[PlacedLeaf<'_>]) -> Result<Leaf, Memory>
    ensures { IfOk result (λ leaf. IsUnion (map moved_part parts.now) leaf) }
{
    let mut members = List::new(alloc);
    for part in parts {
        let Leaf::Full(set) = part.leaf else {
            return Ok(Leaf::Crowded);
        };
        if set.members().is_empty() {
            continue;
        }
        let later = moved(set, part.start)?;
        members = merged(members, later.into_members())?;
        if members.len() > MOST_MEMBERS {
            return Ok(Leaf::Crowded);
        }
    }
    Ok(Leaf::Full(LeafSet::of(members)))
}

/// The same where they stand.
pub fn union(alloc: Global, parts: &List<Leaf>) -> Result<Leaf, Memory>
    ensures { IfOk result (λ leaf. IsUnion parts.now leaf) }
{
    let mut placed = List::new(alloc);
    for leaf in parts.as_slice() {
        placed.push(PlacedLeaf { start: 0, leaf })?;
    }
    union_moved(alloc, placed.as_slice())
}
