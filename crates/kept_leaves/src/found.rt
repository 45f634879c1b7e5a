//! The parts in which a pattern may have members, and its leaves there.

ghost use Rattle.std.specs.Prelude.{◌≡◌, List as list, [], ◌∷◌, ◌++◌, IfOk, OnOk};
ghost use Rattle.node_tree.specs.declared.view.Pattern.{Pattern as a_pattern};
ghost use Rattle.file_parts.specs.Leaves.{AreLeavesOf};
ghost use Rattle.file_parts.specs.Parts.{SeenPart, needed_of};
ghost use Rattle.kept_leaves.specs.Kept.{PieceRef};
ghost use Rattle.kept_leaves.specs.Found.{seen_found, AreFound, IsTold};
ghost use Rattle.kept_leaves.specs.Opened.{pieces_in, IsOpenLeaves, IsPlaceOf, IsNumberOf};

use crate::leaf::OpenLeaves;
use crate::part::ReadyPart;
use file_parts::{Part, PartLeaf};
use node_tree::{List, Memory, Pattern};
use std::alloc::Global;

/// A part in which a pattern may have members, and the place of its row.
#[derive(Clone, Copy)]
pub struct FoundPart<'p> {
    pub part: Part<'p>,
    pub place: usize,
}

/// Adds the part whose row stands at the place, if the pattern may have members there.
pub fn add_found<'p>(
    part: &ReadyPart<'p>,
    place: usize,
    may: bool,
    into: &mut List<FoundPart<'p>>,
) -> Result<(), Memory>
    ensures { (pattern : a_pattern) (pieces : list PieceRef) (parts : list SeenPart) →
        IsPlaceOf pieces place part.now → IsTold pattern part.now may → AreFound pattern pieces parts into.old →
        OnOk result (AreFound pattern pieces (parts ++ needed_of pattern (part.now ∷ [])) into.new) }
{
    if !may {
        return Ok(());
    }
    into.push(FoundPart {
        part: part.part,
        place,
    })
}

// Adds the leaf that is kept for the part. `Memory` is also the answer where none is kept.
fn add_leaf<'l>(
    leaves: &'l OpenLeaves,
    found: FoundPart<'l>,
    pattern: &Pattern,
    number: u32,
    into: &mut List<PartLeaf<'l>>,
) -> Result<(), Memory>
    requires leaves { IsOpenLeaves leaves.now }
    requires place { IsPlaceOf (pieces_in leaves.now) found.place (seen_found found) }
    requires number { IsNumberOf leaves.now number pattern.now }
    ensures { (parts : list SeenPart) → AreLeavesOf pattern.now parts into.old →
        OnOk result (AreLeavesOf pattern.now (parts ++ seen_found found.entry ∷ []) into.new) }
{
    let Some(kept) = leaves.store.look(found.place, number) else {
        return Err(Memory);
    };
    into.push(PartLeaf {
        part: found.part,
        leaf: &kept.leaf,
    })
}

/// The leaves that are kept for the parts that were found.
pub fn leaves_of<'l>(
    alloc: Global,
    leaves: &'l OpenLeaves,
    found: &[FoundPart<'l>],
    pattern: &Pattern,
    number: u32,
) -> Result<List<PartLeaf<'l>>, Memory>
    requires leaves { IsOpenLeaves leaves.now }
    requires found { (parts : list SeenPart) × AreFound pattern.now (pieces_in leaves.now) parts found.now }
    requires number { IsNumberOf leaves.now number pattern.now }
    ensures { (parts : list SeenPart) → AreFound pattern.now (pieces_in leaves.now) parts found.now →
        IfOk result (AreLeavesOf pattern.now parts) }
{
    let mut all = List::new(alloc);
    for one in found {
        add_leaf(leaves, *one, pattern, number, &mut all)?;
    }
    Ok(all)
}
