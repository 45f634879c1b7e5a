//! Which assignments of a point concern a name.

ghost use Rattle.std.specs.Prelude.{◌≡◌, ◌⊎◌, ◌↔◌, ◌<◌, ◌^◌, ℕ, length, IfOk, OnOk};
ghost use Rattle.graph_form.specs.Sets.{Among};
ghost use Rattle.held_values.specs.declared.assign.Source.TheVariants.{Copies as copies};
ghost use Rattle.held_values.specs.Merged.{IsIndex};

use crate::assign::{Assign, Source};
use flow_reach::sorted_pairs;
use node_tree::Memory;
use std::alloc::Global;

// Lists an assignment's place with its name, and with the name that it copies.
fn list_place(pairs: &mut Vec<(u32, u32)>, assign: Assign, place: u32) -> Result<(), Memory>
    ensures { OnOk result ((name at : ℕ) → Among pairs.new.items (name, at) ↔
        (Among pairs.old.items (name, at) ⊎ ((place ≡ at) × ((assign.name ≡ name) ⊎ (assign.source ≡ copies name))))) }
{
    pairs.push((assign.name, place))?;
    if let Source::Copies(other) = assign.source {
        pairs.push((other, place))?;
    }
    Ok(())
}

/// The places of the assignments that concern each name.
pub fn index_of(alloc: Global, assigns: &[Assign]) -> Result<Vec<u64>, Memory>
    ensures { IfOk result (λ index. IsIndex assigns.now index.items) }
{
    if assigns.len() > u32::MAX as usize {
        return Err(Memory);
    }
    let mut pairs = Vec::new(alloc);
    for (place, assign) in assigns.iter().enumerate() {
        list_place(&mut pairs, *assign, place as u32)?;
    }
    let index = sorted_pairs(alloc, &pairs)?;
    Ok(index)
}
