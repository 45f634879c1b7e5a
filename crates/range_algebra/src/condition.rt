//! What is taken away from the choices, and the conditions on what is bound.

ghost use Rattle.std.specs.Prelude.{◌≡◌, ◌↔◌, ◌<◌, ◌-◌, [], map, false, Some, IsTrue, IfOk};
ghost use Rattle.tree_match.specs.Ascending.{IsAscending};
ghost use Rattle.tree_match.specs.Members.{member_cmp};
ghost use Rattle.range_algebra.specs.Halves.{IsBefore, IsBetween, IsFrom, AreApart, IsOrderedFor};
ghost use Rattle.range_algebra.specs.Conditions.{IsEqualTo, IsAround, IsSharedWith, IsSharedAt, AreBoundIn, AllowsBy};
ghost use Rattle.range_algebra.specs.Meets.{Meets, Allows};
ghost use Rattle.range_algebra.specs.Parts.{IsPart, AreTakenAway, has_operands};
ghost use Rattle.sorted_sets.specs.Sizes.{Any};
ghost use Rattle.range_algebra.specs.Trees.{all_of, meta_pattern, tree_of, branch_of, branches_of, has, is_focus};

use crate::part::Part;
use crate::scene::Scene;
use crate::search::matches_bound;
use member_join::{is_equal, lies_in, shares_byte};
use meta_bind::Trail;
use meta_filter::holds_comparison;
use node_tree::{Memory, Span};
use rule_form::{Child, Formula};
use sorted_sets::Member;
use std::alloc::Global;
use std::cmp::Ordering;

// Whether the member has that range, with a binding that agrees.
fn is_equal_to<'t>(member: &Member<'t>, range: Span, trail: &Trail<'t>) -> bool
    ensures { IsTrue result ↔ IsEqualTo range trail.now member.now }
{
    is_equal(member.0, range) && trail.agrees(&member.1)
}

// Whether the member begins before the range, or begins there and ends before it.
fn is_before<'t>(member: &Member<'t>, range: Span) -> bool
    ensures { IsTrue result ↔ IsBefore range member.now }
{
    match member.0.order(range) {
        Ordering::Less => true,
        Ordering::Equal => false,
        Ordering::Greater => false,
    }
}

// Two places half as far from one another, between which the members that aren't before the range begin.
fn halved<'t>(members: &[Member<'t>], range: Span, low: usize, high: usize) -> (usize, usize)
    requires ordered { IsAscending member_cmp members.now }
    requires between { IsBetween range members.now low high }
    requires some { low < high }
    ensures between { IsBetween range members.now result.0 result.1 }
    ensures nearer { result.1 - result.0 < high - low }
{
    let middle = low + (high - low) / 2;
    if is_before(&members[middle], range) {
        return (middle + 1, high);
    }
    (low, middle)
}

// Where the members that aren't before the range begin.
fn first_from<'t>(members: &[Member<'t>], range: Span) -> usize
    requires ordered { IsAscending member_cmp members.now }
    ensures { IsBetween range members.now result result }
{
    let mut places = (0, members.len());
    while places.0 < places.1 {
        places = halved(members, range, places.0, places.1);
    }
    places.0
}

// Whether a member has that range, with a binding that agrees, where no member is before the range.
fn begins_equal<'t>(members: &[Member<'t>], range: Span, trail: &Trail<'t>) -> bool
    requires from { IsFrom range members.now }
    ensures { IsTrue result ↔ Any (IsEqualTo range trail.now) members.now }
{
    for member in members {
        if is_equal_to(member, range, trail) {
            return true;
        }
        if !is_equal(member.0, range) {
            return false;
        }
    }
    false
}

// Whether a member has that range, with a binding that agrees.
fn has_equal<'t>(members: &[Member<'t>], range: Span, trail: &Trail<'t>) -> bool
    requires ordered { IsAscending member_cmp members.now }
    ensures { IsTrue result ↔ Any (IsEqualTo range trail.now) members.now }
{
    let first = first_from(members, range);
    let rest = &members[first..];
    begins_equal(rest, range, trail)
}

// Whether the range lies in the member's, with a binding that agrees.
fn is_around<'t>(member: &Member<'t>, range: Span, trail: &Trail<'t>) -> bool
    ensures { IsTrue result ↔ IsAround range trail.now member.now }
{
    lies_in(range, member.0) && trail.agrees(&member.1)
}

// Whether the range lies in a member's, with a binding that agrees. Members that begin after the range aren't looked at.
fn has_around<'t>(members: &[Member<'t>], range: Span, trail: &Trail<'t>) -> bool
    requires ordered { IsAscending member_cmp members.now }
    ensures { IsTrue result ↔ Any (IsAround range trail.now) members.now }
{
    for member in members {
        if range.from < member.0.from {
            return false;
        }
        if is_around(member, range, trail) {
            return true;
        }
    }
    false
}

// Whether a byte lies in the range and in that of the member at that place, if there is one.
fn shares_at<'t>(members: &[Member<'t>], at: usize, range: Span) -> bool
    ensures { IsTrue result ↔ IsSharedAt range members.now at }
{
    if at < members.len() {
        return shares_byte(range, members[at].0);
    }
    false
}

// Whether a byte lies in the range and in a member's, where the members' ranges follow one another.
fn shares<'t>(members: &[Member<'t>], range: Span) -> bool
    requires apart { AreApart members.now }
    ensures { IsTrue result ↔ Any (IsSharedWith range) members.now }
{
    let first = first_from(members, range);
    if shares_at(members, first, range) {
        return true;
    }
    if first == 0 {
        return false;
    }
    shares_at(members, first - 1, range)
}

// Whether the child puts names in focus.
#[tactic(auto, using(crate::proofs::Layers::branch_layers))]
fn focuses(child: &Child) -> bool
    ensures { result ≡ is_focus (branch_of child.now) }
{
    match child {
        Child::Focus(_) => true,
        _ => false,
    }
}

/// Whether a choice is shown only where a name is bound.
pub fn has_focus(children: &[Child]) -> bool
    ensures { result ≡ has is_focus (branches_of (map branch_of children.now)) }
{
    for child in children {
        if focuses(child) {
            return true;
        }
    }
    false
}

// Whether a child allows the choice, where these are the members of its formula. A condition by a formula isn't asked: none
// allows the choice.
fn allows_by<'t>(
    alloc: Global,
    scene: Scene<'t>,
    child: &Child,
    members: &[Member<'t>],
    one: &Member<'t>,
) -> Result<bool, Memory>
    requires ordered { IsOrderedFor (branch_of child.now) members.now }
    requires placed { AreBoundIn scene.view.now.bytes one.now }
    ensures { IfOk result (λ y. IsTrue y ↔ AllowsBy scene.entry.rx.now scene.entry.view.now.bytes members.now one.now (branch_of child.now)) }
{
    match child {
        Child::Not(_) => Ok(!has_equal(members, one.0, &one.1)),
        Child::NotInside(_) => Ok(!has_around(members, one.0, &one.1)),
        Child::NotRegex(_) => Ok(!shares(members, one.0)),
        Child::MetaRegex(name, number) => matches_bound(scene, name.as_str(), *number, &one.1),
        Child::MetaPattern(_, _) => Ok(false),
        Child::MetaCompare(comparison) => {
            let bytes = scene.view.bytes.as_slice();
            Ok(holds_comparison(comparison, &one.1.keep()?, bytes))
        }
        _ => Ok(true),
    }
}

// Whether the children of a formula without operands, each with its set, allow the range that is bound to a metavariable.
fn allows_bare<'t>(
    alloc: Global,
    scene: Scene<'t>,
    children: &[Child],
    sets: &[Vec<Member<'t>>],
    range: Span,
) -> Result<bool, Memory>
    requires bare { has_operands (branches_of (map branch_of children.now)) ≡ false }
    requires sets { AreTakenAway scene.leaves.now scene.rx.now scene.view.now.bytes (branches_of (map branch_of children.now)) sets.now }
    ensures { IfOk result (λ y. IsTrue y ↔ Meets scene.entry.leaves.now scene.entry.rx.now scene.entry.view.now.bytes (all_of (branches_of (map branch_of children.now))) (Some range) (range, [])) }
{
    if has_focus(children) {
        return Ok(false);
    }
    let one = (range, Trail::new(alloc));
    for (i, child) in children.iter().enumerate() {
        if !allows_by(alloc, scene, child, sets[i].as_slice(), &one)? {
            return Ok(false);
        }
    }
    Ok(true)
}

// Whether what is bound to the name matches the formula, with a binding that agrees.
fn matches<'t>(
    alloc: Global,
    scene: Scene<'t>,
    name: &str,
    formula: &Formula,
    part: &Part<'t>,
    one: &Member<'t>,
) -> Result<bool, Memory>
    requires part { IsPart scene.leaves.now scene.rx.now scene.view.now.bytes (meta_pattern name.now (tree_of formula.now)) part.now }
    ensures { IfOk result (λ y. IsTrue y ↔ Allows scene.entry.leaves.now scene.entry.rx.now scene.entry.view.now.bytes (meta_pattern name.now (tree_of formula.now)) one.now) }
{
    let Some(held) = one.1.get(name) else {
        return Ok(false);
    };
    if let Part::Bare(sets) = part {
        if let Formula::All(children) = formula {
            return allows_bare(
                alloc,
                scene,
                children.as_slice(),
                sets.as_slice(),
                held.span,
            );
        }
    }
    Ok(has_equal(part.members(), held.span, &one.1))
}

/// Whether the child takes the choice not away, and its condition holds.
pub fn allows<'t>(
    alloc: Global,
    scene: Scene<'t>,
    child: &Child,
    part: &Part<'t>,
    one: &Member<'t>,
) -> Result<bool, Memory>
    requires part { IsPart scene.leaves.now scene.rx.now scene.view.now.bytes (branch_of child.now) part.now }
    requires placed { AreBoundIn scene.view.now.bytes one.now }
    ensures { IfOk result (λ y. IsTrue y ↔ Allows scene.entry.leaves.now scene.entry.rx.now scene.entry.view.now.bytes (branch_of child.now) one.now) }
{
    match child {
        Child::MetaPattern(name, formula) => {
            matches(alloc, scene, name.as_str(), formula, part, one)
        }
        _ => allows_by(alloc, scene, child, part.members(), one),
    }
}
