//! What all the children of a formula allow.

ghost use Rattle.std.specs.Prelude.{◌≡◌, ◌↔◌, [], All, map, None, IsTrue, IfOk, IfErr, OnOk};
ghost use Rattle.tree_match.specs.Members.{Member as member_value};
ghost use Rattle.tree_match.specs.Placed.{IsLeafPlaced};
ghost use Rattle.node_match.specs.Sets.{Among, Adds};
ghost use Rattle.range_algebra.specs.Trees.{all_of, branch_of, branches_of, names_of};
ghost use Rattle.range_algebra.specs.Meets.{Allowed, IsShown, IsShownAt, IsShownAmong};
ghost use Rattle.range_algebra.specs.Parts.{AreParts, IsSetOf};
ghost use Rattle.range_algebra.specs.Conditions.{AreBoundIn};
ghost use Rattle.sorted_sets.specs.Sizes.{Each};
ghost use Rattle.range_algebra.specs.Shown.{Shows, IsShownOfSome};
ghost use Rattle.range_algebra.specs.Crowds.{AtAll};
ghost use Rattle.member_join.specs.Limits.{IsFaultFrom, OneSet};

use crate::choice::choices;
use crate::condition::{allows, has_focus};
use crate::part::Part;
use crate::scene::Scene;
use member_join::{EvalFault, gathered, thinned};
use node_tree::Memory;
use rule_form::Child;
use sorted_sets::Member;
use std::alloc::Global;

// Whether all the children allow the choice.
fn is_allowed<'t>(
    alloc: Global,
    scene: Scene<'t>,
    children: &[Child],
    parts: &[Part<'t>],
    one: &Member<'t>,
) -> Result<bool, Memory>
    requires parts { AreParts scene.leaves.now scene.rx.now scene.view.now.bytes (branches_of (map branch_of children.now)) parts.now }
    requires placed { AreBoundIn scene.view.now.bytes one.now }
    ensures { IfOk result (λ y. IsTrue y ↔ Allowed scene.entry.leaves.now scene.entry.rx.now scene.entry.view.now.bytes (branches_of (map branch_of children.now)) one.now) }
{
    for (i, child) in children.iter().enumerate() {
        if !allows(alloc, scene, child, &parts[i], one)? {
            return Ok(false);
        }
    }
    Ok(true)
}

// Adds the choice at the range of the name, where it is bound to a range that isn't empty.
fn add_at<'t>(name: &str, one: &Member<'t>, members: &mut Vec<Member<'t>>) -> Result<(), Memory>
    ensures { OnOk result (Adds members.old.items members.new.items (IsShownAt name.now one.now)) }
{
    let Some(held) = one.1.get(name) else {
        return Ok(());
    };
    if held.span.to <= held.span.from {
        return Ok(());
    }
    members.push((held.span, one.1.copy()?))?;
    Ok(())
}

// Adds the choice at the ranges of the names that the child focuses on.
fn add_focused<'t>(
    child: &Child,
    one: &Member<'t>,
    members: &mut Vec<Member<'t>>,
) -> Result<(), Memory>
    ensures { OnOk result (Adds members.old.items members.new.items (IsShownAmong (names_of (branch_of child.now)) one.now)) }
{
    let Child::Focus(names) = child else {
        return Ok(());
    };
    for name in names.as_slice() {
        add_at(name.as_str(), one, members)?;
    }
    Ok(())
}

// Adds what is shown of a choice: itself, or its ranges in focus.
fn add_shown<'t>(
    children: &[Child],
    one: &Member<'t>,
    members: &mut Vec<Member<'t>>,
) -> Result<(), Memory>
    ensures { OnOk result (Adds members.old.items members.new.items (IsShown (branches_of (map branch_of children.now)) one.now)) }
{
    if !has_focus(children) {
        members.push((one.0, one.1.copy()?))?;
        return Ok(());
    }
    for child in children {
        add_focused(child, one, members)?;
    }
    Ok(())
}

// Adds what is shown of a choice, where all the children allow it.
fn add_allowed<'t>(
    alloc: Global,
    scene: Scene<'t>,
    children: &[Child],
    parts: &[Part<'t>],
    one: &Member<'t>,
    members: &mut Vec<Member<'t>>,
) -> Result<(), Memory>
    requires parts { AreParts scene.leaves.now scene.rx.now scene.view.now.bytes (branches_of (map branch_of children.now)) parts.now }
    requires placed { AreBoundIn scene.view.now.bytes one.now }
    ensures { OnOk result (Adds members.old.items members.new.items (Shows scene.entry.leaves.now scene.entry.rx.now scene.entry.view.now.bytes (branches_of (map branch_of children.now)) one.now)) }
{
    if !is_allowed(alloc, scene, children, parts, one)? {
        return Ok(());
    }
    add_shown(children, one, members)
}

// What the choices show that all the children allow.
fn shown_of<'t>(
    alloc: Global,
    scene: Scene<'t>,
    children: &[Child],
    parts: &[Part<'t>],
    chosen: &[Member<'t>],
) -> Result<Vec<Member<'t>>, EvalFault>
    requires parts { AreParts scene.leaves.now scene.rx.now scene.view.now.bytes (branches_of (map branch_of children.now)) parts.now }
    requires placed { Each (AreBoundIn scene.view.now.bytes) chosen.now }
    ensures exact { IfOk result (λ v. (m : member_value) → Among v.items m ↔ IsShownOfSome scene.entry.leaves.now scene.entry.rx.now scene.entry.view.now.bytes (branches_of (map branch_of children.now)) chosen.now m) }
    ensures crowded { IfErr result (IsFaultFrom (OneSet [] (IsShownOfSome scene.entry.leaves.now scene.entry.rx.now scene.entry.view.now.bytes (branches_of (map branch_of children.now)) chosen.now))) }
{
    let mut members = Vec::new(alloc);
    for one in chosen {
        add_allowed(alloc, scene, children, parts, one, &mut members)?;
        members = thinned(alloc, members)?;
    }
    Ok(members)
}

/// The members that all the children allow, from the sets of their formulas.
pub fn all_members<'t>(
    alloc: Global,
    scene: Scene<'t>,
    children: &[Child],
    parts: &[Part<'t>],
) -> Result<Vec<Member<'t>>, EvalFault>
    requires parts { AreParts scene.leaves.now scene.rx.now scene.view.now.bytes (branches_of (map branch_of children.now)) parts.now }
    requires placed { All (λ leaf. IsLeafPlaced scene.view.now.bytes leaf) scene.leaves.now }
    ensures exact { IfOk result (λ v. IsSetOf scene.entry.leaves.now scene.entry.rx.now scene.entry.view.now.bytes (all_of (branches_of (map branch_of children.now))) v.items) }
    ensures few { IfOk result (λ _. AtAll scene.entry.leaves.now scene.entry.rx.now scene.entry.view.now.bytes (branches_of (map branch_of children.now)) None) }
    ensures crowded { IfErr result (IsFaultFrom (AtAll scene.entry.leaves.now scene.entry.rx.now scene.entry.view.now.bytes (branches_of (map branch_of children.now)))) }
{
    let chosen = choices(alloc, scene, children, parts)?;
    let members = shown_of(alloc, scene, children, parts, chosen.as_slice())?;
    gathered(alloc, members)
}
