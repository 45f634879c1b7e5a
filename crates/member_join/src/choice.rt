//! The choices of one member of each operand.

ghost use Rattle.std.specs.Prelude.{◌≡◌, ◌↔◌, ◌≤◌, ◌<◌, [], ◌∷◌, count_by, None, Some, IfOk, IfErr, OnOk};
ghost use Rattle.member_join.specs.Agreements.{has_bytes as has};
ghost use Rattle.member_join.specs.Choices.{IsMet};
ghost use Rattle.member_join.specs.Limits.{NamesSet, OneSet, IsFaultFrom};
ghost use Rattle.member_join.specs.Joins.{IsJoined, IsNeeded};
ghost use Rattle.member_join.specs.Operands.{OperandsAscend, ChosenFrom, IsReached, IsBegun, IsGivenBy, WithBytes, Fronts};
ghost use Rattle.sorted_sets.specs.Sizes.{Any};
ghost use Rattle.node_match.specs.Sets.{Among, Adds};
ghost use Rattle.tree_match.specs.Members.{Member as member_value};
ghost use Rattle.member_join.specs.declared.state.State.{State as state_value};

use crate::fault::EvalFault;
use crate::join::{begin, count, join};
use crate::limit::crowded;
use crate::operand::{Operand, Role};
use crate::state::State;
use node_tree::Memory;
use sorted_sets::{Member, settled};
use std::alloc::Global;
use tree_match::MOST_MEMBERS;

// The states, unless more than 10,000 of them have a byte in their range.
fn few<'t>(
    alloc: Global,
    states: Vec<State<'t>>,
    number: usize,
) -> Result<Vec<State<'t>>, EvalFault>
    ensures few { IfOk result (λ v. (v.items ≡ states.entry.items) × (count_by (λ (s : state_value). has s.range) states.entry.items ≤ MOST_MEMBERS)) }
    ensures named { IfErr result (NamesSet (number ∷ [])) }
    ensures many { IfErr result (λ _. MOST_MEMBERS < count_by (λ (s : state_value). has s.range) states.entry.items) }
{
    if count(states.as_slice()) > MOST_MEMBERS {
        return crowded(alloc, Some(number));
    }
    Ok(states)
}

// The states of this plain operand alone, unless too many of them have a byte.
fn begun_with<'t>(
    alloc: Global,
    operand: &Operand<'_, 't>,
    later: &[Operand<'_, 't>],
) -> Result<Vec<State<'t>>, EvalFault>
    ensures exact { IfOk result (λ v. (s : state_value) → Among v.items s ↔ (IsBegun operand.now.members.now s × IsNeeded later.now s)) }
    ensures few { IfOk result (λ _. OneSet (operand.now.number ∷ []) (WithBytes (IsBegun operand.now.members.now)) None) }
    ensures crowded { IfErr result (IsFaultFrom (OneSet (operand.now.number ∷ []) (WithBytes (IsBegun operand.now.members.now)))) }
{
    few(alloc, begin(alloc, operand.members, later)?, operand.number)
}

// The states with one operand more, unless too many of them have a byte.
fn with_operand<'t>(
    alloc: Global,
    role: Role,
    states: &[State<'t>],
    operand: &Operand<'_, 't>,
    later: &[Operand<'_, 't>],
) -> Result<Vec<State<'t>>, EvalFault>
    ensures exact { IfOk result (λ v. (s : state_value) → Among v.items s ↔ (IsJoined role states.now operand.now.members.now s × IsNeeded later.now s)) }
    ensures few { IfOk result (λ _. OneSet (operand.now.number ∷ []) (WithBytes (IsJoined role states.now operand.now.members.now)) None) }
    ensures crowded { IfErr result (IsFaultFrom (OneSet (operand.now.number ∷ []) (WithBytes (IsJoined role states.now operand.now.members.now)))) }
{
    let next = join(alloc, role, states, operand.members, later)?;
    few(alloc, next, operand.number)
}

// The states of all operands, of which the plain ones come first: this one, then the rest of them.
fn states_from<'t>(
    alloc: Global,
    first: &Operand<'_, 't>,
    rest: &[Operand<'_, 't>],
    insides: &[Operand<'_, 't>],
) -> Result<Vec<State<'t>>, EvalFault>
    requires plains_ascend { OperandsAscend (first.now ∷ rest.now) }
    requires insides_ascend { OperandsAscend insides.now }
    ensures exact { IfOk result (λ v. (s : state_value) → Among v.items s ↔ IsReached (first.now ∷ rest.now) insides.now [] s) }
    ensures few { IfOk result (λ _. Fronts (first.now ∷ rest.now) insides.now None) }
    ensures crowded { IfErr result (IsFaultFrom (Fronts (first.now ∷ rest.now) insides.now)) }
{
    let mut states = begun_with(alloc, first, rest)?;
    for (i, operand) in rest.iter().enumerate() {
        let before = states.as_slice();
        let more = with_operand(alloc, Role::Plain, before, operand, &rest[i + 1..])?;
        states = more;
    }
    for operand in insides {
        let outer = states.as_slice();
        let inner = with_operand(alloc, Role::Inside, outer, operand, &[])?;
        states = inner;
    }
    Ok(states)
}

// The states of all operands. Without a plain one there is no inside either, and no state.
fn states_of<'t>(
    alloc: Global,
    plains: &[Operand<'_, 't>],
    insides: &[Operand<'_, 't>],
) -> Result<Vec<State<'t>>, EvalFault>
    requires some { plains.now ≡ [] → insides.now ≡ [] }
    requires plains_ascend { OperandsAscend plains.now }
    requires insides_ascend { OperandsAscend insides.now }
    ensures exact { IfOk result (λ v. (s : state_value) → Among v.items s ↔ IsReached plains.now insides.now [] s) }
    ensures few { IfOk result (λ _. Fronts plains.now insides.now None) }
    ensures crowded { IfErr result (IsFaultFrom (Fronts plains.now insides.now)) }
{
    if plains.is_empty() {
        return Ok(Vec::new(alloc));
    }
    states_from(alloc, &plains[0], &plains[1..], insides)
}

// The members that the states give, those whose range is a chosen plain one.
fn met<'t>(alloc: Global, states: &[State<'t>]) -> Result<Vec<Member<'t>>, Memory>
    ensures { IfOk result (λ v. (m : member_value) → Among v.items m ↔ Any (IsGivenBy m) states.now) }
{
    let mut members = Vec::new(alloc);
    for state in states {
        add_met(state, &mut members)?;
    }
    settled(alloc, members)
}

// Adds the member that the state gives, if its range is a chosen plain one.
fn add_met<'t>(state: &State<'t>, members: &mut Vec<Member<'t>>) -> Result<(), Memory>
    ensures { OnOk result (Adds members.old.items members.new.items (λ m. IsGivenBy m state.now)) }
{
    if state.marked {
        members.push((state.range, state.plain.extend(&state.inside)?))?;
    }
    Ok(())
}

/// The ranges that these operands allow, with their bindings: one member of each, all bindings agreeing, where the ranges'
/// intersection is the range of a plain operand. Crowded names the first operand with which more than 10,000 choices have a byte.
pub fn met_members<'t>(
    alloc: Global,
    plains: &[Operand<'_, 't>],
    insides: &[Operand<'_, 't>],
) -> Result<Vec<Member<'t>>, EvalFault>
    requires some { plains.now ≡ [] → insides.now ≡ [] }
    requires plains_ascend { OperandsAscend plains.now }
    requires insides_ascend { OperandsAscend insides.now }
    ensures exact { IfOk result (λ v. (m : member_value) → Among v.items m ↔ IsMet (ChosenFrom plains.now) (ChosenFrom insides.now) m) }
    ensures few { IfOk result (λ _. Fronts plains.now insides.now None) }
    ensures crowded { IfErr result (IsFaultFrom (Fronts plains.now insides.now)) }
{
    let states = states_of(alloc, plains, insides)?;
    Ok(met(alloc, states.as_slice())?)
}
