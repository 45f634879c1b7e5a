//! The leaf of a file from those of its parts.

ghost use Rattle.std.specs.Prelude.{◌≡◌, List as list, map, IfOk};
ghost use Rattle.node_tree.specs.declared.view.FileView.{FileView as a_view};
ghost use Rattle.node_tree.specs.declared.view.Pattern.{Pattern as a_pattern};
ghost use Rattle.tree_match.specs.Members.{known_tree};
ghost use Rattle.tree_match.specs.Placed.{IsLeafPlaced};
ghost use Rattle.file_parts.specs.Parts.{SeenPart, ArePartsOf, needed_of};
ghost use Rattle.file_parts.specs.Seen.{seen_leaf};
ghost use Rattle.file_parts.specs.Leaves.{AreLeavesOf, those_leaves};

use crate::parts::Part;
use node_tree::{List, Memory};
use piece_match::{PlacedLeaf, union_moved};
use place_join::join_by_place;
use std::alloc::Global;
use tree_match::Leaf;

/// What a pattern has in a part of a file.
#[derive(Clone, Copy)]
pub struct PartLeaf<'l> {
    pub part: Part<'l>,
    pub leaf: &'l Leaf,
}

// Those of the file as it is written, or those with its names resolved, each with where its piece starts.
fn those<'l>(
    alloc: Global,
    leaves: &[PartLeaf<'l>],
    resolved: bool,
) -> Result<List<PlacedLeaf<'l>>, Memory>
    ensures { IfOk result (λ those. those ≡ those_leaves resolved leaves.now) }
{
    let mut those = List::new(alloc);
    for one in leaves {
        if one.part.resolved == resolved {
            those.push(PlacedLeaf {
                start: one.part.placed.start,
                leaf: one.leaf,
            })?;
        }
    }
    Ok(those)
}

/// What a pattern has in a file, seen through its imports, from what it has in the parts that it needs: of whichever file and
/// pattern these are the leaves, in order of the parts. Parts in which the pattern has no member may be left out. It takes no step.
/// In a file no place passes the largest `u32`, so there `Memory` is want of memory alone.
pub fn join(alloc: Global, leaves: &[PartLeaf<'_>]) -> Result<Leaf, Memory>
    ensures exact { (pattern : a_pattern) (view : a_view) (all : list SeenPart) →
        ArePartsOf view all → AreLeavesOf pattern (needed_of pattern all) leaves.now →
        IfOk result (seen_leaf view.lang (known_tree view) pattern) }
    ensures placed { (pattern : a_pattern) (view : a_view) (all : list SeenPart) →
        ArePartsOf view all → AreLeavesOf pattern (needed_of pattern all) leaves.now →
        IfOk result (IsLeafPlaced view.bytes) }
{
    let plain = union_moved(alloc, those(alloc, leaves, false)?.as_slice())?;
    let further = those(alloc, leaves, true)?;
    if further.is_empty() {
        return Ok(plain);
    }
    join_by_place(&plain, &union_moved(alloc, further.as_slice())?)
}
