//! The kids of a node, with what is known of them before they are searched.

ghost use Rattle.std.specs.Prelude.{◌≡◌, IfOk};
ghost use Rattle.node_tree.specs.Numbers.{kids_at};
ghost use Rattle.node_pool.specs.Spots.{seen, all_seen};
ghost use Rattle.node_match.specs.Free.{parts_of};
ghost use Rattle.tree_match.specs.Landing.{AreNextOf};

use crate::next_places::{NextPlaces, next_of_parts};
use node_pool::Spot;
use node_tree::{List, Memory, Node};
use std::alloc::Global;

/// The kids of a node in order, and where the parts of a pattern may match next among them.
#[derive(Drop)]
pub struct ListedKids<'p, 't> {
    pub kids: List<Spot<'p, 't>>,
    pub nexts: List<Option<NextPlaces>>,
}

/// Those of this node.
pub fn listed_kids<'p, 't>(
    alloc: Global,
    pattern: &Node,
    holder: Spot<'p, 't>,
) -> Result<ListedKids<'p, 't>, Memory>
    ensures kids { IfOk result (λ all. all_seen all.kids ≡ kids_at (seen holder.entry)) }
    ensures nexts { IfOk result (λ all. AreNextOf (seen holder.entry) (parts_of pattern.now) all.nexts) }
{
    let kids = holder.kids(alloc)?;
    let nexts = next_of_parts(alloc, pattern, holder)?;
    Ok(ListedKids { kids, nexts })
}
