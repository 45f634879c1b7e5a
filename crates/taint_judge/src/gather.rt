//! What the members of the formulas of a list are together.

ghost use Rattle.std.specs.Prelude.{◌≡◌, ◌↔◌, ◌++◌, ℕ, length, map, IfOk, OnOk};
ghost use Rattle.std.specs.List.{flat_map};
ghost use Rattle.node_match.specs.Sets.{Among};
ghost use Rattle.tree_match.specs.Ascending.{IsAscending};
ghost use Rattle.tree_match.specs.Members.{Member as member_value, member_cmp};
ghost use Rattle.member_join.specs.Choices.{range_of};
ghost use Rattle.taint_judge.specs.Lists.{together};
ghost use Rattle.taint_judge.specs.Carries.{carry_at, carries_in};

use meta_bind::{Binding, Trail};
use node_tree::{List, Memory, Span};
use range_algebra::MatchSet;
use rule_form::Propagator;
use sorted_sets::{Member, settled};
use std::alloc::Global;
use taint_flow::Carry;

// Adds the ranges of the members.
fn add_ranges(members: &MatchSet, ranges: &mut List<Span>) -> Result<(), Memory>
    ensures { OnOk result (ranges.new ≡ ranges.old ++ map range_of members.now) }
{
    for at in 0..members.len() {
        let Some(member) = members.get(at) else {
            unreachable!()
        };
        ranges.push(member.0)?;
    }
    Ok(())
}

/// The ranges of the members of all these sets.
pub fn ranges_of(alloc: Global, each: &[MatchSet]) -> Result<List<Span>, Memory>
    ensures { IfOk result (λ ranges. ranges ≡ map range_of (together each.now)) }
{
    let mut ranges = List::new(alloc);
    for members in each {
        add_ranges(members, &mut ranges)?;
    }
    Ok(ranges)
}

// Adds the members, lent.
fn add_lent<'t>(members: &'t MatchSet, all: &mut Vec<Member<'t>>) -> Result<(), Memory>
    ensures { OnOk result (all.new.items ≡ all.old.items ++ members.now) }
{
    for at in 0..members.len() {
        let Some(member) = members.get(at) else {
            unreachable!()
        };
        all.push((member.0, Trail::of(&member.1)?))?;
    }
    Ok(())
}

// The members of all these sets, lent.
fn lent_members<'t>(alloc: Global, each: &'t [MatchSet]) -> Result<Vec<Member<'t>>, Memory>
    ensures { IfOk result (λ v. v.items ≡ together each.now) }
{
    let mut all = Vec::new(alloc);
    for members in each {
        add_lent(members, &mut all)?;
    }
    Ok(all)
}

// The members with bindings of their own.
fn keep_all(alloc: Global, members: &[Member<'_>]) -> Result<List<(Span, Binding)>, Memory>
    ensures { IfOk result (λ kept. kept ≡ members.now) }
{
    let mut kept = List::new(alloc);
    for (range, trail) in members {
        kept.push((*range, trail.keep()?))?;
    }
    Ok(kept)
}

/// The members of all these sets in order, each once.
pub fn union_of(alloc: Global, each: &[MatchSet]) -> Result<List<(Span, Binding)>, Memory>
    ensures ordered { IfOk result (IsAscending member_cmp) }
    ensures same { IfOk result (λ all. (m : member_value) → Among all m ↔ Among (together each.now) m) }
{
    let members = settled(alloc, lent_members(alloc, each)?)?;
    keep_all(alloc, members.as_slice())
}

/// The ranges of the members.
pub fn places_of(alloc: Global, members: &[(Span, Binding)]) -> Result<List<Span>, Memory>
    ensures { IfOk result (λ ranges. ranges ≡ map range_of members.now) }
{
    let mut ranges = List::new(alloc);
    for (range, _) in members {
        ranges.push(*range)?;
    }
    Ok(ranges)
}

// Adds what the propagator carries on at a member of its formula, if both of its names are bound there.
fn add_carry(
    propagator: &Propagator,
    member: &(Span, Binding),
    carries: &mut List<Carry>,
) -> Result<(), Memory>
    ensures { OnOk result (carries.new ≡ carries.old ++ carry_at propagator.now member.now) }
{
    let (range, binding) = member;
    let Some(from) = binding.get(propagator.source.as_str()) else {
        return Ok(());
    };
    let Some(to) = binding.get(propagator.target.as_str()) else {
        return Ok(());
    };
    carries.push(Carry {
        range: *range,
        source: from.span,
        target: to.span,
    })
}

// Adds what the propagator carries on at the members of its formula.
fn add_carries(
    propagator: &Propagator,
    members: &MatchSet,
    carries: &mut List<Carry>,
) -> Result<(), Memory>
    ensures { OnOk result (carries.new ≡ carries.old ++ flat_map (carry_at propagator.now) members.now) }
{
    for at in 0..members.len() {
        let Some(member) = members.get(at) else {
            unreachable!()
        };
        add_carry(propagator, member, carries)?;
    }
    Ok(())
}

/// What the propagators carry on, where these are the members of the formula of each.
pub fn carries_of(
    alloc: Global,
    propagators: &[Propagator],
    each: &[MatchSet],
) -> Result<List<Carry>, Memory>
    requires { length each.now ≡ length propagators.now }
    ensures { IfOk result (λ carries. carries ≡ carries_in propagators.now each.now) }
{
    let mut carries = List::new(alloc);
    for (i, propagator) in propagators.iter().enumerate() {
        add_carries(propagator, &each[i], &mut carries)?;
    }
    Ok(carries)
}
