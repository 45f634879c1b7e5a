//! The members of a formula.

ghost use Rattle.std.specs.Prelude.{◌≡◌, ◌↔◌, ◌≤◌, ◌<◌, ℕ, All, List, [], length, map, None, Ok, OnOk, IfOk, IfErr};
ghost use Rattle.tree_match.specs.Placed.{IsLeafPlaced};
ghost use Rattle.node_match.specs.Sets.{Among, Adds};
ghost use Rattle.tree_match.specs.Ascending.{IsAscending};
ghost use Rattle.tree_match.specs.Members.{Member as member_value, member_cmp};
ghost use Rattle.range_algebra.specs.Trees.{tree_of, trees_of, branch_of, branches_of, meta_pattern};
ghost use Rattle.range_algebra.specs.Parts.{IsSetOf, AreSetsOf, IsInSome, IsPart, AreParts, AreTakenAway};
ghost use Rattle.member_join.specs.Limits.{IsFaultFrom, OneSet};
ghost use Rattle.range_algebra.specs.Crowds.{Over, OverTrees, OverBranches, OverBranch};
ghost use Rattle.range_algebra.specs.Faults.{IsFaultOf};

use crate::all::all_members;
use crate::leaf::leaf_members;
use crate::operand::is_bare;
use crate::part::Part;
use crate::scene::Scene;
use crate::search::{matches_of, regex_members};
use member_join::{EvalFault, gathered, thinned};
use node_tree::{List, Memory};
use rule_form::{Child, Formula};
use sorted_sets::Member;
use std::alloc::Global;
use tree_match::MOST_MEMBERS;

// Adds the members of the set.
fn add_all<'t>(set: &[Member<'t>], members: &mut Vec<Member<'t>>) -> Result<(), Memory>
    ensures { OnOk result (Adds members.old.items members.new.items (Among set.now)) }
{
    for (range, trail) in set {
        members.push((*range, trail.copy()?))?;
    }
    Ok(())
}

// What is found in the child with that number. The numbers lead from the set up.
fn inside<T: Drop>(number: usize, found: Result<T, EvalFault>) -> Result<T, EvalFault>
    ensures same { IfOk result (λ v. found ≡ Ok v) }
    ensures named { IfErr result (IsFaultOf number found) }
{
    match found {
        Err(EvalFault::Crowded(mut numbers)) => {
            numbers.push(number as u64)?;
            Err(EvalFault::Crowded(numbers))
        }
        Err(EvalFault::Memory) => Err(EvalFault::Memory),
        Ok(found) => Ok(found),
    }
}

// The members of all the sets.
fn union<'t>(alloc: Global, sets: &[Vec<Member<'t>>]) -> Result<Vec<Member<'t>>, EvalFault>
    ensures ordered { IfOk result (λ v. IsAscending member_cmp v.items) }
    ensures exact { IfOk result (λ v. (m : member_value) → Among v.items m ↔ IsInSome sets.now m) }
    ensures crowded { IfErr result (IsFaultFrom (OneSet [] (IsInSome sets.now))) }
    ensures few { IfOk result (λ v. length v.items ≤ MOST_MEMBERS) }
{
    let mut members = Vec::new(alloc);
    for set in sets {
        add_all(set.as_slice(), &mut members)?;
        members = thinned(alloc, members)?;
    }
    gathered(alloc, members)
}

/// The members of the formula in order, each once.
#[cycle(evaluate)]
pub fn members_of<'t>(
    alloc: Global,
    scene: Scene<'t>,
    formula: &'t Formula,
) -> Result<Vec<Member<'t>>, EvalFault>
    requires placed { All (λ leaf. IsLeafPlaced scene.view.now.bytes leaf) scene.leaves.now }
    ensures exact { IfOk result (λ v. IsSetOf scene.entry.leaves.now scene.entry.rx.now scene.entry.view.now.bytes (tree_of formula.now) v.items) }
    ensures few { IfOk result (λ _. Over scene.entry.leaves.now scene.entry.rx.now scene.entry.view.now.bytes (tree_of formula.now) None) }
    ensures crowded { IfErr result (IsFaultFrom (Over scene.entry.leaves.now scene.entry.rx.now scene.entry.view.now.bytes (tree_of formula.now))) }
{
    match formula {
        Formula::Leaf(number) => leaf_members(alloc, scene, *number),
        Formula::Regex(number) => regex_members(alloc, scene, *number),
        Formula::Any(formulas) => {
            let sets = members_of_each(alloc, scene, formulas.as_slice())?;
            union(alloc, sets.as_slice())
        }
        Formula::All(children) => {
            let parts = parts_of_each(alloc, scene, children.as_slice())?;
            all_members(alloc, scene, children.as_slice(), parts.as_slice())
        }
    }
}

// The sets of the formulas, in order.
#[cycle(evaluate)]
fn members_of_each<'t>(
    alloc: Global,
    scene: Scene<'t>,
    formulas: &'t [Formula],
) -> Result<Vec<Vec<Member<'t>>>, EvalFault>
    requires placed { All (λ leaf. IsLeafPlaced scene.view.now.bytes leaf) scene.leaves.now }
    ensures exact { IfOk result (λ sets. AreSetsOf scene.entry.leaves.now scene.entry.rx.now scene.entry.view.now.bytes (trees_of (map tree_of formulas.now)) sets.items) }
    ensures few { IfOk result (λ _. OverTrees scene.entry.leaves.now scene.entry.rx.now scene.entry.view.now.bytes 0 (trees_of (map tree_of formulas.now)) None) }
    ensures crowded { IfErr result (IsFaultFrom (OverTrees scene.entry.leaves.now scene.entry.rx.now scene.entry.view.now.bytes 0 (trees_of (map tree_of formulas.now)))) }
{
    let mut sets = Vec::new(alloc);
    for (i, formula) in formulas.iter().enumerate() {
        sets.push(inside(i, members_of(alloc, scene, formula))?)?;
    }
    Ok(sets)
}

// What the children need, in order.
#[cycle(evaluate)]
fn parts_of_each<'t>(
    alloc: Global,
    scene: Scene<'t>,
    children: &'t [Child],
) -> Result<Vec<Part<'t>>, EvalFault>
    requires placed { All (λ leaf. IsLeafPlaced scene.view.now.bytes leaf) scene.leaves.now }
    ensures exact { IfOk result (λ parts. AreParts scene.entry.leaves.now scene.entry.rx.now scene.entry.view.now.bytes (branches_of (map branch_of children.now)) parts.items) }
    ensures few { IfOk result (λ _. OverBranches scene.entry.leaves.now scene.entry.rx.now scene.entry.view.now.bytes 0 (branches_of (map branch_of children.now)) None) }
    ensures crowded { IfErr result (IsFaultFrom (OverBranches scene.entry.leaves.now scene.entry.rx.now scene.entry.view.now.bytes 0 (branches_of (map branch_of children.now)))) }
{
    let mut parts = Vec::new(alloc);
    for (i, child) in children.iter().enumerate() {
        parts.push(inside(i, part_of(alloc, scene, child))?)?;
    }
    Ok(parts)
}

// What the child needs.
#[cycle(evaluate)]
fn part_of<'t>(alloc: Global, scene: Scene<'t>, child: &'t Child) -> Result<Part<'t>, EvalFault>
    requires placed { All (λ leaf. IsLeafPlaced scene.view.now.bytes leaf) scene.leaves.now }
    ensures exact { IfOk result (IsPart scene.entry.leaves.now scene.entry.rx.now scene.entry.view.now.bytes (branch_of child.now)) }
    ensures few { IfOk result (λ _. OverBranch scene.entry.leaves.now scene.entry.rx.now scene.entry.view.now.bytes (branch_of child.now) None) }
    ensures crowded { IfErr result (IsFaultFrom (OverBranch scene.entry.leaves.now scene.entry.rx.now scene.entry.view.now.bytes (branch_of child.now))) }
{
    match child {
        Child::Positive(formula) => Ok(Part::Members(members_of(alloc, scene, formula)?)),
        Child::Inside(formula) => Ok(Part::Members(members_of(alloc, scene, formula)?)),
        Child::Not(formula) => Ok(Part::Members(members_of(alloc, scene, formula)?)),
        Child::NotInside(formula) => Ok(Part::Members(members_of(alloc, scene, formula)?)),
        Child::NotRegex(number) => Ok(Part::Members(matches_of(alloc, scene, *number)?)),
        Child::MetaPattern(_, formula) => asked(alloc, scene, formula),
        _ => Ok(Part::Nothing),
    }
}

// What a condition on a metavariable needs.
#[cycle(evaluate)]
fn asked<'t>(alloc: Global, scene: Scene<'t>, formula: &'t Formula) -> Result<Part<'t>, EvalFault>
    requires placed { All (λ leaf. IsLeafPlaced scene.view.now.bytes leaf) scene.leaves.now }
    ensures exact { IfOk result (λ part. (name : List ℕ) → IsPart scene.entry.leaves.now scene.entry.rx.now scene.entry.view.now.bytes (meta_pattern name (tree_of formula.now)) part) }
    ensures few { IfOk result (λ _. Over scene.entry.leaves.now scene.entry.rx.now scene.entry.view.now.bytes (tree_of formula.now) None) }
    ensures crowded { IfErr result (IsFaultFrom (Over scene.entry.leaves.now scene.entry.rx.now scene.entry.view.now.bytes (tree_of formula.now))) }
{
    let Formula::All(children) = formula else {
        return Ok(Part::Members(members_of(alloc, scene, formula)?));
    };
    if !is_bare(children.as_slice()) {
        return Ok(Part::Members(members_of(alloc, scene, formula)?));
    }
    Ok(Part::Bare(taken_away(alloc, scene, children.as_slice())?))
}

// The sets of the children of a formula without operands, in order.
#[cycle(evaluate)]
fn taken_away<'t>(
    alloc: Global,
    scene: Scene<'t>,
    children: &'t [Child],
) -> Result<Vec<Vec<Member<'t>>>, EvalFault>
    requires placed { All (λ leaf. IsLeafPlaced scene.view.now.bytes leaf) scene.leaves.now }
    ensures exact { IfOk result (λ sets. AreTakenAway scene.entry.leaves.now scene.entry.rx.now scene.entry.view.now.bytes (branches_of (map branch_of children.now)) sets.items) }
    ensures few { IfOk result (λ _. OverBranches scene.entry.leaves.now scene.entry.rx.now scene.entry.view.now.bytes 0 (branches_of (map branch_of children.now)) None) }
    ensures crowded { IfErr result (IsFaultFrom (OverBranches scene.entry.leaves.now scene.entry.rx.now scene.entry.view.now.bytes 0 (branches_of (map branch_of children.now)))) }
{
    let mut sets = Vec::new(alloc);
    for (i, child) in children.iter().enumerate() {
        let part = inside(i, part_of(alloc, scene, child))?;
        sets.push(part.into_members(alloc))?;
    }
    Ok(sets)
}
