//! One operand more to a choice.

ghost use Rattle.std.specs.Prelude.{◌≡◌, ◌↔◌, ◌≤◌, IsTrue, OnOk, IfOk, count_by};
ghost use Rattle.node_match.specs.Sets.{Among, Adds};
ghost use Rattle.tree_match.specs.Ascending.{IsAscending};
ghost use Rattle.sorted_sets.specs.Sizes.{Each, Any};
ghost use Rattle.member_join.specs.Agreements.{has_bytes as has};
ghost use Rattle.member_join.specs.Joins.{joined as with_member, begun as begun_of, state_cmp, IsRangeOf, HasRange, IsNeeded, IsJoinedWith, IsJoined};
ghost use Rattle.member_join.specs.Blocks.{IsBlock, IsJoinedIn, IsJoinedToBlocks};
ghost use Rattle.member_join.specs.declared.state.State.{State as state_value};

use crate::block::{Block, blocks_of, may_meet, shared_names, sorted};
use crate::limit::ROOM;
use crate::operand::{Operand, Role};
use crate::range::{is_equal, meet, touches};
use crate::state::State;
use meta_bind::Trail;
use node_tree::{Memory, Span};
use sorted_sets::{Member, settled};
use std::alloc::Global;
use tree_match::MOST_MEMBERS;

// Whether one of the members has that range.
fn is_range_of(members: &[Member<'_>], range: Span) -> bool
    ensures { IsTrue result ↔ IsRangeOf members.now range }
{
    for member in members {
        if is_equal(member.0, range) {
            return true;
        }
    }
    false
}

// Whether a member of the operands has that range.
fn has_range(operands: &[Operand<'_, '_>], range: Span) -> bool
    ensures { IsTrue result ↔ HasRange operands.now range }
{
    for operand in operands {
        if is_range_of(operand.members, range) {
            return true;
        }
    }
    false
}

// Whether a state can still lead to a range: it has a byte, or it is empty and is a chosen plain range or one of those to come.
fn is_needed(state: &State<'_>, later: &[Operand<'_, '_>]) -> bool
    ensures { IsTrue result ↔ IsNeeded later.now state.now }
{
    if state.has_bytes() {
        return true;
    }
    state.range.from == state.range.to && (state.marked || has_range(later, state.range))
}

// The state with one member more.
fn joined<'t>(role: Role, state: &State<'t>, member: &Member<'t>) -> Result<State<'t>, Memory>
    ensures { IfOk result (λ s. s ≡ with_member role state.now member.now) }
{
    let range = meet(state.range, member.0);
    let same = state.marked && is_equal(range, state.range);
    match role {
        Role::Plain => Ok(State {
            range,
            marked: same || is_equal(range, member.0),
            plain: state.plain.merge(&member.1)?,
            inside: state.inside.copy()?,
        }),
        Role::Inside => Ok(State {
            range,
            marked: same,
            plain: state.plain.copy()?,
            inside: state.inside.merge(&member.1)?,
        }),
    }
}

// The state of this member.
fn begun<'t>(alloc: Global, member: &Member<'t>) -> Result<State<'t>, Memory>
    ensures { IfOk result (λ s. s ≡ begun_of member.now) }
{
    Ok(State {
        range: member.0,
        marked: true,
        plain: member.1.copy()?,
        inside: Trail::new(alloc),
    })
}

/// The states with no other operand before this plain one.
pub fn begin<'t>(
    alloc: Global,
    members: &[Member<'t>],
    later: &[Operand<'_, 't>],
) -> Result<Vec<State<'t>>, Memory>
    ensures ordered { IfOk result (λ v. IsAscending state_cmp v.items) }
    ensures exact { IfOk result (λ v. (s : state_value) → Among v.items s ↔ (Any (λ m. begun_of m ≡ s) members.now × IsNeeded later.now s)) }
{
    let mut states = Vec::new(alloc);
    for member in members {
        add_needed(begun(alloc, member)?, later, &mut states)?;
    }
    settled(alloc, states)
}

/// How many states have a byte in their range.
pub fn count(states: &[State<'_>]) -> usize
    ensures { result ≡ count_by (λ (s : state_value). has s.range) states.now }
{
    let mut many = 0;
    for state in states {
        if state.has_bytes() {
            many += 1;
        }
    }
    many
}

// Adds the state, where it can lead to a member.
fn add_needed<'t>(
    state: State<'t>,
    later: &[Operand<'_, 't>],
    states: &mut Vec<State<'t>>,
) -> Result<(), Memory>
    ensures { OnOk result (Adds states.old.items states.new.items (λ s. (state.entry ≡ s) × IsNeeded later.now s)) }
{
    if is_needed(&state, later) {
        states.push(state)?;
    }
    Ok(())
}

// Adds the state with this member more, where it agrees.
fn add_one<'t>(
    role: Role,
    state: &State<'t>,
    member: &Member<'t>,
    later: &[Operand<'_, 't>],
    states: &mut Vec<State<'t>>,
) -> Result<(), Memory>
    ensures { OnOk result (Adds states.old.items states.new.items (λ s. IsJoinedWith role state.now s member.now × IsNeeded later.now s)) }
{
    if !touches(state.range, member.0) {
        return Ok(());
    }
    if !state.agrees(&member.1) {
        return Ok(());
    }
    add_needed(joined(role, state, member)?, later, states)
}

// Adds the states that one state and the members of a block give.
fn add_block<'t>(
    role: Role,
    state: &State<'t>,
    block: &Block<'_, 't>,
    later: &[Operand<'_, 't>],
    states: &mut Vec<State<'t>>,
) -> Result<(), Memory>
    requires block { IsBlock block.now }
    ensures { OnOk result (Adds states.old.items states.new.items (λ s. IsJoinedIn role state.now s block.now × IsNeeded later.now s)) }
{
    if !may_meet(block, state) {
        return Ok(());
    }
    for member in block.members {
        add_one(role, state, member, later, states)?;
    }
    Ok(())
}

// Adds the states that one state and the members of the operand give, of which each is in a block.
fn add_joined<'t>(
    role: Role,
    state: &State<'t>,
    blocks: &[Block<'_, 't>],
    later: &[Operand<'_, 't>],
    states: &mut Vec<State<'t>>,
) -> Result<(), Memory>
    requires blocks { Each IsBlock blocks.now }
    ensures { OnOk result (Adds states.old.items states.new.items (λ s. Any (IsJoinedIn role state.now s) blocks.now × IsNeeded later.now s)) }
{
    for block in blocks {
        add_block(role, state, block, later, states)?;
    }
    Ok(())
}

// The states with one operand more, whose members are in these blocks. It stops once more than 10,000 of the states have a byte.
fn join_blocks<'t>(
    alloc: Global,
    role: Role,
    before: &[State<'t>],
    blocks: &[Block<'_, 't>],
    later: &[Operand<'_, 't>],
) -> Result<Vec<State<'t>>, Memory>
    requires blocks { Each IsBlock blocks.now }
    ensures ordered { IfOk result (λ v. IsAscending state_cmp v.items) }
    ensures sound { IfOk result (λ v. (s : state_value) → Among v.items s → IsJoinedToBlocks role before.now blocks.now s × IsNeeded later.now s) }
    ensures whole { IfOk result (λ v. count_by (λ (s : state_value). has s.range) v.items ≤ MOST_MEMBERS → (s : state_value) → IsJoinedToBlocks role before.now blocks.now s → IsNeeded later.now s → Among v.items s) }
{
    let mut states = Vec::new(alloc);
    for state in before {
        add_joined(role, state, blocks, later, &mut states)?;
        if states.len() > ROOM {
            states = settled(alloc, states)?;
            if count(states.as_slice()) > MOST_MEMBERS {
                return Ok(states);
            }
        }
    }
    settled(alloc, states)
}

/// The states with one operand more. It stops once more than 10,000 of them have a byte in their range.
pub fn join<'t>(
    alloc: Global,
    role: Role,
    before: &[State<'t>],
    members: &[Member<'t>],
    later: &[Operand<'_, 't>],
) -> Result<Vec<State<'t>>, Memory>
    ensures ordered { IfOk result (λ v. IsAscending state_cmp v.items) }
    ensures sound { IfOk result (λ v. (s : state_value) → Among v.items s → IsJoined role before.now members.now s × IsNeeded later.now s) }
    ensures whole { IfOk result (λ v. count_by (λ (s : state_value). has s.range) v.items ≤ MOST_MEMBERS → (s : state_value) → IsJoined role before.now members.now s → IsNeeded later.now s → Among v.items s) }
{
    let names = shared_names(alloc, before, members)?;
    let sorted = sorted(alloc, names.as_slice(), members)?;
    let blocks = blocks_of(alloc, names.as_slice(), sorted.as_slice())?;
    join_blocks(alloc, role, before, blocks.as_slice(), later)
}
