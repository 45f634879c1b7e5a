//! The states from which the parts that are left can reach the last kid.
//!
//! Where each part that is left takes one kid, and the search has to take all kids, the parts stand on the last kids. So a search that
//! could go on from any later kid goes there at once.

ghost use Rattle.std.specs.Prelude.{◌≡◌, ◌↔◌, ◌⊎◌, ◌<◌, ◌≤◌, [], List as list, length, drop, false, OnOk, IfOk, IsTrue, MatchOption};
ghost use Rattle.node_tree.specs.declared.known.Known.{Known as known};
ghost use Rattle.node_tree.specs.Numbers.{kids_at};
ghost use Rattle.node_tree.specs.Tree.{kids_of};
ghost use Rattle.node_pool.specs.Spots.{seen};
ghost use Rattle.node_match.specs.Free.{Part, parts_of};
ghost use Rattle.node_match.specs.Fronts.{End, Leads};
ghost use Rattle.node_search.specs.States.{line_of, AnyFrom, From};
ghost use Rattle.tree_match.specs.Aims.{FoundFrom, TakesAll};
ghost use Rattle.node_match.specs.Refused.{all_single};
ghost use Rattle.tree_match.specs.Members.{Member as a_member};

use crate::aim::{Aim, Search};
use node_match::{is_one, part_at, role_of};
use node_pool::Spot;
use node_search::{State, count_kids, put};
use node_tree::{List, Memory, Node};
use std::alloc::Global;

// Whether the search has to take all kids.
fn takes_all(search: Search<'_, '_, '_, '_>) -> bool
    ensures { IsTrue result → TakesAll search.entry }
{
    if !search.outer.is_empty() {
        return true;
    }
    match search.aim {
        Aim::All(_) => true,
        Aim::Run(_) => false,
    }
}

// Whether the first state floats.
fn floats(states: &[State<'_>]) -> bool {
    match states {
        [] => false,
        [first, ..] => first.floating,
    }
}

// Whether each part from this place on takes one kid.
fn are_single(pattern: &Node, from: usize) -> bool
    requires { from ≤ length (kids_of pattern.now) }
    ensures { IsTrue result → all_single (drop from (parts_of pattern.now)) }
{
    for at in from..pattern.kids.len() {
        let Some(part) = part_at(pattern, at) else {
            continue;
        };
        if !is_one(role_of(part.kind)) {
            return false;
        }
    }
    true
}

// Whether the parts from one on have to reach the last kid, each takes one, and they may begin at any later place.
fn reach_last(search: Search<'_, '_, '_, '_>, at: usize, states: &[State<'_>]) -> bool
    requires { at ≤ length (kids_of search.pattern.now) }
    ensures whole { IsTrue result → search.entry.unnamed ≡ false }
    ensures all { IsTrue result → TakesAll search.entry }
    ensures single { IsTrue result → all_single (drop at (parts_of search.entry.pattern.now)) }
{
    if search.unnamed {
        return false;
    }
    if !floats(states) {
        return false;
    }
    if !takes_all(search) {
        return false;
    }
    are_single(search.pattern, at)
}

// The place from which parts, so many, can reach the last kid from this state on.
fn last_place(holder: Spot<'_, '_>, left: usize, state: &State<'_>) -> Option<usize>
    requires { 0 < left }
    ensures { (k : list known) (ps : list Part) (c : End) → all_single ps → length ps ≡ left → c.0 ≡ [] → MatchOption result (From k (line_of (seen holder.entry)) ps state.now c → ⊥)
        (λ at. Leads k (seen holder.entry) ps (drop at (kids_at (seen holder.entry))) state.now.trail c ↔ From k (line_of (seen holder.entry)) ps state.now c) }
{
    if !state.floating {
        return Some(state.at);
    }
    let end = count_kids(holder);
    if end < left {
        return None;
    }
    let last = end - left;
    if last < state.at {
        return None;
    }
    Some(last)
}

// Adds the state at that place, if there is one.
fn add_last<'t>(
    holder: Spot<'_, 't>,
    left: usize,
    state: &State<'t>,
    states: &mut List<State<'t>>,
) -> Result<(), Memory>
    requires { 0 < left }
    ensures { OnOk result ((k : list known) (ps : list Part) (c : End) → all_single ps → length ps ≡ left → c.0 ≡ [] →
        AnyFrom k (line_of (seen holder.entry)) ps states.new c ↔
        (AnyFrom k (line_of (seen holder.entry)) ps states.old c ⊎ From k (line_of (seen holder.entry)) ps state.now c)) }
{
    let Some(at) = last_place(holder, left, state) else {
        return Ok(());
    };
    put(
        states,
        State {
            at,
            floating: false,
            trail: state.trail.copy()?,
        },
    )?;
    Ok(())
}

// The same from each of these states.
fn add_each_last<'t>(
    alloc: Global,
    holder: Spot<'_, 't>,
    left: usize,
    states: &List<State<'t>>,
) -> Result<List<State<'t>>, Memory>
    requires { 0 < left }
    ensures { IfOk result (λ last. (k : list known) (ps : list Part) (c : End) → all_single ps → length ps ≡ left → c.0 ≡ [] →
        AnyFrom k (line_of (seen holder.entry)) ps last c ↔ AnyFrom k (line_of (seen holder.entry)) ps states.now c) }
{
    let mut last = List::new(alloc);
    for state in states.as_slice() {
        add_last(holder, left, state, &mut last)?;
    }
    Ok(last)
}

/// States from which the search finds the same. They stand where the parts that are left reach the last kid, if only there they can.
pub fn last_states<'t>(
    alloc: Global,
    search: Search<'_, '_, '_, 't>,
    at: usize,
    states: List<State<'t>>,
) -> Result<List<State<'t>>, Memory>
    requires { at < length (kids_of search.pattern.now) }
    ensures { IfOk result (λ last. (m : a_member) → FoundFrom search.entry at last m ↔ FoundFrom search.entry at states.entry m) }
{
    if !reach_last(search, at, states.as_slice()) {
        return Ok(states);
    }
    let left = search.pattern.kids.len() - at;
    let last = add_each_last(alloc, search.holder.spot, left, &states)?;
    Ok(last)
}
