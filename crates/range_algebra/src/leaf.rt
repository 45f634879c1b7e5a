//! The members of a pattern.

ghost use Rattle.std.specs.Prelude.{◌≤◌, ◌↔◌, [], length, None, IfOk, IfErr};
ghost use Rattle.node_match.specs.Sets.{Among};
ghost use Rattle.tree_match.specs.Ascending.{IsAscending};
ghost use Rattle.tree_match.specs.Members.{Member as member_value, member_cmp};
ghost use Rattle.range_algebra.specs.Trees.{leaf};
ghost use Rattle.range_algebra.specs.Parts.{IsSetOf};
ghost use Rattle.member_join.specs.Limits.{IsFaultFrom, OneSet};
ghost use Rattle.range_algebra.specs.Crowds.{Over};

use crate::scene::Scene;
use member_join::{EvalFault, crowded, gathered};
use meta_bind::Trail;
use sorted_sets::Member;
use std::alloc::Global;
use tree_match::{Leaf, LeafSet, MOST_MEMBERS};

// The members of the set, borrowed, in order and each once.
fn borrowed<'t>(alloc: Global, set: &'t LeafSet) -> Result<Vec<Member<'t>>, EvalFault>
    ensures ordered { IfOk result (λ v. IsAscending member_cmp v.items) }
    ensures exact { IfOk result (λ v. (m : member_value) → Among v.items m ↔ Among set.now m) }
    ensures few { IfOk result (λ v. length v.items ≤ MOST_MEMBERS) }
    ensures crowded { IfErr result (IsFaultFrom (OneSet [] (Among set.now))) }
{
    let mut members = Vec::new(alloc);
    for at in 0..set.len() {
        if let Some((range, binding)) = set.get(at) {
            members.push((*range, Trail::of(binding)?))?;
        }
    }
    gathered(alloc, members)
}

/// The members of the pattern with that number. A pattern that isn't there has none.
pub fn leaf_members<'t>(
    alloc: Global,
    scene: Scene<'t>,
    number: u32,
) -> Result<Vec<Member<'t>>, EvalFault>
    ensures exact { IfOk result (λ v. IsSetOf scene.entry.leaves.now scene.entry.rx.now scene.entry.view.now.bytes (leaf number) v.items) }
    ensures few { IfOk result (λ _. Over scene.entry.leaves.now scene.entry.rx.now scene.entry.view.now.bytes (leaf number) None) }
    ensures crowded { IfErr result (IsFaultFrom (Over scene.entry.leaves.now scene.entry.rx.now scene.entry.view.now.bytes (leaf number))) }
{
    match scene.leaves.get(number as usize) {
        None => Ok(Vec::new(alloc)),
        Some(Leaf::Crowded) => crowded(alloc, None),
        Some(Leaf::Full(set)) => borrowed(alloc, set),
    }
}
