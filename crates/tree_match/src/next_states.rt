//! Where a part of a pattern may match next, with what is bound.

ghost use Rattle.std.specs.Prelude.{◌≡◌, ◌↔◌, ◌⊎◌, ◌<◌, ◌≤◌, ◌+◌, ◌∷◌, List as list, length, drop, true, false, Some, IfOk, OnOk, IsTrue, MatchOption};
ghost use Rattle.node_tree.specs.declared.known.Known.{Known as known};
ghost use Rattle.node_tree.specs.declared.node.Node.{Node as a_node};
ghost use Rattle.node_tree.specs.Tree.{kids_of, kind_of, content_of};
ghost use Rattle.node_pool.specs.Spots.{seen};
ghost use Rattle.node_search.specs.Kids.{AreKids, line};
ghost use Rattle.node_match.specs.Free.{Part, parts_of};
ghost use Rattle.node_match.specs.Kinds.{role_of as role, IsOne};
ghost use Rattle.node_match.specs.declared.class.Role.TheVariants.{Dots};
ghost use Rattle.node_match.specs.Fronts.{End};
ghost use Rattle.node_search.specs.States.{line_of, AnyFrom, From};
ghost use Rattle.node_search.specs.Steady.{IsSteady};
ghost use Rattle.tree_match.specs.Aims.{left_of};
ghost use Rattle.tree_match.specs.Landing.{IsNext, AreOut, DotsFollow};
ghost use Rattle.tree_match.specs.Outers.{KnowsOwnNext};
ghost use Rattle.tree_match.specs.Same.{StandsFor};

use crate::aim::Search;
use crate::next_places::NextPlaces;
use meta_bind::Trail;
use node_match::{Constants, Role, is_wild, part_at, role_of};
use node_pool::Spot;
use node_search::{Holder, State, is_matched, is_steady, put};
use node_tree::{List, Memory, Node};
use std::alloc::Global;

// The node for which the name stands with this binding, if it stands for one.
fn held_by<'t>(name: &str, trail: &Trail<'t>) -> Option<&'t Node>
    ensures { MatchOption result (Unit {0}) (λ node. StandsFor name.now trail.now (content_of node.now)) }
{
    let Some(held) = trail.get(name) else {
        return None;
    };
    match held.run {
        [one] => Some(one),
        _ => None,
    }
}

// A place from this one on, before which the part matches no kid with this binding.
fn next_place(
    places: &NextPlaces,
    holder: &Node,
    part: &Node,
    trail: &Trail<'_>,
    from: usize,
) -> usize
    requires { IsNext (kind_of holder.now) part.now (kids_of holder.now) places.now }
    ensures on { from ≤ result }
    ensures out { AreOut (kind_of holder.now) part.now trail.now (kids_of holder.now) from result }
{
    match places {
        NextPlaces::Looked(next) => match next.get(from) {
            Some(there) => *there,
            None => from,
        },
        NextPlaces::Named(same) => match held_by(same.name.as_str(), trail) {
            Some(node) => same.next_place(node, from),
            None => from,
        },
    }
}

// Whether `...` follows the part at this place.
fn dots_follow(pattern: &Node, at: usize) -> bool
    requires { at < length (kids_of pattern.now) }
    ensures { IsTrue result → DotsFollow (parts_of pattern.now) at }
{
    if pattern.kids.len() <= at + 1 {
        return false;
    }
    match part_at(pattern, at + 1) {
        None => false,
        Some(next) => match role_of(next.kind) {
            Role::Dots => true,
            _ => false,
        },
    }
}

// Adds a state at each place at which the part may match from this floating state on.
fn land_all<'t>(
    holder: Spot<'_, 't>,
    part: &Node,
    places: &NextPlaces,
    state: &State<'t>,
    states: &mut List<State<'t>>,
) -> Result<(), Memory>
    requires one { IsOne (role (kind_of part.now)) }
    requires next { IsNext (kind_of (seen holder).node) part.now (kids_of (seen holder).node) places.now }
    requires floating { state.now.floating ≡ true }
    ensures { OnOk result ((k : list known) (ps : list Part) (c : End) →
        AnyFrom k (line_of (seen holder.entry)) (Some part.now ∷ ps) states.new c ↔
        (AnyFrom k (line_of (seen holder.entry)) (Some part.now ∷ ps) states.old c ⊎ From k (line_of (seen holder.entry)) (Some part.now ∷ ps) state.now c)) }
{
    let node = holder.node;
    let mut at = next_place(places, node, part, &state.trail, state.at);
    while at < node.kids.len() {
        put(
            states,
            State {
                at,
                floating: false,
                trail: state.trail.copy()?,
            },
        )?;
        at = next_place(places, node, part, &state.trail, at + 1);
    }
    Ok(())
}

// Adds a state at the first place at which the part matches from this floating state on. `...` follows, so no other is needed.
fn land_first<'t>(
    alloc: Global,
    known: Constants<'_>,
    holder: Holder<'_, '_, 't>,
    part: &'t Node,
    places: &NextPlaces,
    state: &State<'t>,
    states: &mut List<State<'t>>,
) -> Result<(), Memory>
    requires kin { AreKids holder.kids.now (seen holder.spot) }
    requires one { IsOne (role (kind_of part.now)) }
    requires next { IsNext (kind_of (seen holder.spot).node) part.now (kids_of (seen holder.spot).node) places.now }
    requires floating { state.now.floating ≡ true }
    requires steady { IsSteady state.now.trail part.now }
    ensures { OnOk result ((q : a_node) (ps : list Part) (c : End) → role (kind_of q) ≡ Dots →
        AnyFrom known.entry.names.now (line_of (seen holder.entry.spot)) (Some part.now ∷ Some q ∷ ps) states.new c ↔
        (AnyFrom known.entry.names.now (line_of (seen holder.entry.spot)) (Some part.now ∷ Some q ∷ ps) states.old c ⊎ From known.entry.names.now (line_of (seen holder.entry.spot)) (Some part.now ∷ Some q ∷ ps) state.now c)) }
{
    let node = holder.spot.node;
    let mut at = next_place(places, node, part, &state.trail, state.at);
    while at < holder.kids.len() {
        let kid = holder.kids[at];
        let met = is_matched(alloc, known, part, node.kind, kid, &state.trail)?;
        if met {
            put(
                states,
                State {
                    at,
                    floating: false,
                    trail: state.trail.copy()?,
                },
            )?;
            return Ok(());
        }
        at = next_place(places, node, part, &state.trail, at + 1);
    }
    Ok(())
}

// Adds the states in which the part at this place may match from this state on.
fn land<'t>(
    alloc: Global,
    search: Search<'_, '_, '_, 't>,
    at: usize,
    part: &'t Node,
    places: &NextPlaces,
    state: &State<'t>,
    states: &mut List<State<'t>>,
) -> Result<(), Memory>
    requires whole { search.unnamed ≡ false }
    requires within { at < length (kids_of search.pattern.now) }
    requires part { drop at (parts_of search.pattern.now) ≡ Some part.now ∷ drop (at + 1) (parts_of search.pattern.now) }
    requires one { IsOne (role (kind_of part.now)) }
    requires next { IsNext (kind_of (seen search.holder.spot).node) part.now (kids_of (seen search.holder.spot).node) places.now }
    ensures { OnOk result ((c : End) →
        AnyFrom search.entry.known.names.now (line_of (seen search.entry.holder.spot)) (drop at (parts_of search.entry.pattern.now)) states.new c ↔
        (AnyFrom search.entry.known.names.now (line_of (seen search.entry.holder.spot)) (drop at (parts_of search.entry.pattern.now)) states.old c ⊎
        From search.entry.known.names.now (line_of (seen search.entry.holder.spot)) (drop at (parts_of search.entry.pattern.now)) state.now c)) }
{
    if !state.floating {
        put(
            states,
            State {
                at: state.at,
                floating: false,
                trail: state.trail.copy()?,
            },
        )?;
        return Ok(());
    }
    if dots_follow(search.pattern, at) && is_steady(part, &state.trail)? {
        land_first(
            alloc,
            search.known,
            search.holder,
            part,
            places,
            state,
            states,
        )?;
        return Ok(());
    }
    land_all(search.holder.spot, part, places, state, states)?;
    Ok(())
}

// The same from each of these states.
fn land_each<'t>(
    alloc: Global,
    search: Search<'_, '_, '_, 't>,
    at: usize,
    part: &'t Node,
    places: &NextPlaces,
    states: &List<State<'t>>,
) -> Result<List<State<'t>>, Memory>
    requires whole { search.unnamed ≡ false }
    requires within { at < length (kids_of search.pattern.now) }
    requires part { drop at (parts_of search.pattern.now) ≡ Some part.now ∷ drop (at + 1) (parts_of search.pattern.now) }
    requires one { IsOne (role (kind_of part.now)) }
    requires next { IsNext (kind_of (seen search.holder.spot).node) part.now (kids_of (seen search.holder.spot).node) places.now }
    ensures { IfOk result (λ landed. (c : End) →
        AnyFrom search.entry.known.names.now (line_of (seen search.entry.holder.spot)) (drop at (parts_of search.entry.pattern.now)) landed c ↔
        AnyFrom search.entry.known.names.now (line_of (seen search.entry.holder.spot)) (drop at (parts_of search.entry.pattern.now)) states.now c) }
{
    let mut landed = List::new(alloc);
    for state in states.as_slice() {
        land(alloc, search, at, part, places, state, &mut landed)?;
    }
    Ok(landed)
}

/// States that lead to the same by the parts of the pattern from one on, where that part may match at few kids.
pub fn landed<'t>(
    alloc: Global,
    search: Search<'_, '_, '_, 't>,
    at: usize,
    states: List<State<'t>>,
) -> Result<List<State<'t>>, Memory>
    requires within { at < length (kids_of search.pattern.now) }
    requires nexts { KnowsOwnNext search }
    ensures { IfOk result (λ landed. (c : End) →
        AnyFrom search.entry.known.names.now (line search.entry.holder) (left_of search.entry at) landed c ↔
        AnyFrom search.entry.known.names.now (line search.entry.holder) (left_of search.entry at) states.entry c) }
{
    if search.unnamed {
        return Ok(states);
    }
    let Some(Some(places)) = search.nexts.get(at) else {
        return Ok(states);
    };
    let Some(part) = part_at(search.pattern, at) else {
        return Ok(states);
    };
    let landed = land_each(alloc, search, at, part, places, &states)?;
    Ok(landed)
}
