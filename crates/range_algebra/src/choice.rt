//! The choices of one member of each operand.

ghost use Rattle.std.specs.Prelude.{◌≡◌, ◌↔◌, ◌≤◌, ◌<◌, [], ◌∷◌, map, None, Some, IfOk, IfErr};
ghost use Rattle.range_algebra.specs.Crowds.{Prefixes};
ghost use Rattle.member_join.specs.Limits.{IsFaultFrom};
ghost use Rattle.range_algebra.specs.Meets.{InLeaf, IsChosen};
ghost use Rattle.member_join.specs.Operands.{Ascends};
ghost use Rattle.range_algebra.specs.Operands.{LeavesAscend};
ghost use Rattle.range_algebra.specs.Parts.{AreParts};
ghost use Rattle.range_algebra.specs.Trees.{branch_of, branches_of};
ghost use Rattle.node_match.specs.Sets.{Among};
ghost use Rattle.tree_match.specs.Members.{Member as member_value};

use crate::operand::operands;
use crate::part::Part;
use crate::scene::Scene;
use member_join::{EvalFault, Role, met_members};
use node_tree::List;
use rule_form::Child;
use sorted_sets::Member;
use std::alloc::Global;
use tree_match::Leaf;

// The names of all members of the patterns stand in order, since bindings keep them so.
fn names_ascend(leaves: &List<Leaf>)
    ensures { LeavesAscend leaves.now }
{
    for leaf in leaves.as_slice() {
        leaf_ascends(leaf);
    }
}

// The same for one pattern.
fn leaf_ascends(leaf: &Leaf)
    ensures { (m : member_value) → InLeaf (Some leaf.now) m → Ascends m }
{
    if let Leaf::Full(set) = leaf {
        for at in 0..set.len() {
            if let Some(member) = set.get(at) {
                let _bounds = member.1.bounds();
            }
        }
    }
}

/// The ranges that the operands among the children allow, with their bindings. Where no operand is plain, all count so. Where
/// there is no operand there are none.
pub fn choices<'t>(
    alloc: Global,
    scene: Scene<'t>,
    children: &[Child],
    parts: &[Part<'t>],
) -> Result<Vec<Member<'t>>, EvalFault>
    requires parts { AreParts scene.leaves.now scene.rx.now scene.view.now.bytes (branches_of (map branch_of children.now)) parts.now }
    ensures exact { IfOk result (λ v. (m : member_value) → Among v.items m ↔ IsChosen scene.entry.leaves.now scene.entry.rx.now scene.entry.view.now.bytes (branches_of (map branch_of children.now)) m) }
    ensures few { IfOk result (λ _. Prefixes scene.entry.leaves.now scene.entry.rx.now scene.entry.view.now.bytes (branches_of (map branch_of children.now)) None) }
    ensures crowded { IfErr result (IsFaultFrom (Prefixes scene.entry.leaves.now scene.entry.rx.now scene.entry.view.now.bytes (branches_of (map branch_of children.now)))) }
{
    names_ascend(scene.leaves);
    let plains = operands(alloc, Role::Plain, children, parts)?;
    let insides = operands(alloc, Role::Inside, children, parts)?;
    let all_plains = plains.as_slice();
    let all_insides = insides.as_slice();
    if all_plains.is_empty() {
        return met_members(alloc, all_insides, &[]);
    }
    met_members(alloc, all_plains, all_insides)
}
