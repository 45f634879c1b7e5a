//! Members that begin later.

ghost use Rattle.std.specs.Prelude.{◌≡◌, map, IfOk};
ghost use Rattle.meta_bind.specs.Bounds.{seen};
ghost use Rattle.piece_match.specs.Moved.{moved_binding, moved_members};

use meta_bind::{Binding, Bound};
use node_tree::{List, Memory, Shift, Twin};
use std::alloc::Global;
use tree_match::LeafSet;

// The bounds, each so much later.
fn moved_bounds(alloc: Global, bounds: &[Bound], by: u32) -> Result<List<Bound>, Memory>
    ensures { IfOk result (λ kept. map seen kept ≡ moved_binding by (map seen bounds.now)) }
{
    let mut kept = List::new(alloc);
    for bound in bounds {
        kept.push(Bound {
            name: bound.name.copy()?,
            span: bound.span.shifted(Shift::Later(by))?,
            nodes: bound.nodes.copy()?,
        })?;
    }
    Ok(kept)
}

// The binding, so much later.
fn moved_of(binding: &Binding, by: u32) -> Result<Binding, Memory>
    ensures { IfOk result (λ b. b ≡ moved_binding by binding.now) }
{
    let kept = moved_bounds(binding.alloc(), binding.bounds(), by)?;
    Ok(Binding::of(kept))
}

/// The members, each so many bytes later. Where a place would pass the largest `u32`, the answer is `Memory`.
pub fn moved(set: &LeafSet, by: u32) -> Result<LeafSet, Memory>
    ensures { IfOk result (λ later. later ≡ moved_members by set.now) }
{
    let mut kept = List::new(set.alloc());
    for (range, binding) in set.members() {
        kept.push((range.shifted(Shift::Later(by))?, moved_of(binding, by)?))?;
    }
    Ok(LeafSet::of(kept))
}
