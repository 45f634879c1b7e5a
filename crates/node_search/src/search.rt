//! The search for the bindings that a pattern may take a binding to.

ghost use Rattle.std.specs.Prelude.{List as list, ◌≡◌, ◌↔◌, ◌<◌, ◌≤◌, ◌+◌, ◌∷◌, length, drop, slice_index_or, OnOk, IfOk, Some, true, false};
ghost use Rattle.node_tree.specs.declared.node.Node.{Node as node};
ghost use Rattle.node_tree.specs.Tree.{kids_of, kind_of};
ghost use Rattle.node_tree.specs.Numbers.{Numbered as numbered, kids_at};
ghost use Rattle.node_pool.specs.Spots.{seen};
ghost use Rattle.node_match.specs.Sets.{Adds, AddsUpTo};
ghost use Rattle.node_match.specs.Kinds.{role_of as role, IsOne};
ghost use Rattle.node_match.specs.Free.{parts_of};
ghost use Rattle.node_match.specs.Relation.{Matches, MatchesKids, MatchesKid, MatchesArguments};
ghost use Rattle.node_match.specs.Fronts.{End};
ghost use Rattle.node_search.specs.States.{line_of, AnyFrom, AddsFrom, From, Heads, Steps};
ghost use Rattle.node_match.specs.Choices.{untaken, Chosen, Picked, TakesAt};
ghost use Rattle.node_match.specs.Orders.{order_of as order, is_run, has_dots as dots_in, has_runs, unnamed_of, named_at, all_asked};
ghost use Rattle.node_match.specs.declared.order.Order.TheVariants.{Fixed, Any};
ghost use Rattle.node_match.specs.declared.class.Role.TheVariants.{Meta, MetaDots, Deep, StrAny};
ghost use Rattle.node_match.specs.Holding.{Same, Held};
ghost use Rattle.node_search.specs.Kids.{AreKids, line};
ghost use Rattle.node_pool.specs.Spots.{all_seen};

use crate::choice::Choice;
use crate::holder::Holder;
use crate::innermost::innermost;
use crate::list::{bound_run, enter, finish, float, put_trail, runs, skip, start};
use crate::state::State;
use crate::steady::{are_steady, is_settled};
use crate::taken::{mark, settle};
use meta_bind::Trail;
use node_match::{
    Constants, LOOK, Order, Role, are_kids_refused, chooses, has_dots, holds_same, holds_string,
    is_alike, is_arguments, is_free, is_named, is_string, is_wild, kids_that, order_of, role_of,
};
use node_pool::Spot;
use node_tree::{Kind, List, Memory, Node};
use std::alloc::Global;
use std::slice;

// Adds what a metavariable takes the binding to.
fn meta<'t>(
    known: Constants<'_>,
    pattern: &'t Node,
    spot: Spot<'_, 't>,
    trail: &Trail<'t>,
    out: &mut List<Trail<'t>>,
) -> Result<(), Memory>
    requires { role (kind_of pattern.now) ≡ Meta }
    ensures { OnOk result (Adds out.old out.new (λ c. Matches known.entry.names.now pattern.now (seen spot.entry) trail.now c)) }
{
    if !spot.node.kind.is_term() {
        return Ok(());
    }
    if is_wild(&pattern.text) {
        put_trail(out, trail.copy()?)?;
        return Ok(());
    }
    if let Some(bound) = bound_run(
        spot.node,
        pattern.text.as_str(),
        slice::from_ref(spot.node),
        trail,
    )? {
        put_trail(out, bound)?;
    }
    Ok(())
}

/// Adds the bindings that the pattern may take the binding to at this node.
#[cycle(search)]
pub fn relate<'t>(
    alloc: Global,
    known: Constants<'_>,
    pattern: &'t Node,
    spot: Spot<'_, 't>,
    trail: &Trail<'t>,
    out: &mut List<Trail<'t>>,
) -> Result<(), Memory>
    ensures { OnOk result (Adds out.old out.new (λ c. Matches known.entry.names.now pattern.now (seen spot.entry) trail.now c)) }
{
    match role_of(pattern.kind) {
        Role::Plain => {
            same(alloc, known, pattern, spot, trail, out)?;
            held(known, pattern, spot, trail, out)?;
        }
        Role::Meta => meta(known, pattern, spot, trail, out)?,
        Role::Deep => deep(alloc, known, pattern, spot, trail, out)?,
        Role::StrAny => any_string(known, pattern, spot, trail, out)?,
        Role::Dots => {}
        Role::MetaDots => {}
    }
    Ok(())
}

// The same kind, the text that is asked for, and kids that match.
#[cycle(search)]
fn same<'t>(
    alloc: Global,
    known: Constants<'_>,
    pattern: &'t Node,
    spot: Spot<'_, 't>,
    trail: &Trail<'t>,
    out: &mut List<Trail<'t>>,
) -> Result<(), Memory>
    ensures { OnOk result (Adds out.old out.new (λ c. Same known.entry.names.now pattern.now (seen spot.entry) trail.now c)) }
{
    if !is_alike(pattern, spot.node) {
        return Ok(());
    }
    if are_kids_refused(pattern, spot.node, LOOK) {
        return Ok(());
    }
    match order_of(pattern) {
        Order::Fixed => kids(alloc, known, pattern, spot, trail, out)?,
        Order::Any => {
            choose_kids(alloc, known, pattern, spot, trail, usize::MAX, out)?;
            let _room = out.len();
        }
    }
    Ok(())
}

// A name that is known to hold the same literal.
fn held<'t>(
    known: Constants<'_>,
    pattern: &Node,
    spot: Spot<'_, 't>,
    trail: &Trail<'t>,
    out: &mut List<Trail<'t>>,
) -> Result<(), Memory>
    ensures { OnOk result (Adds out.old out.new (λ c. Held known.entry.names.now pattern.now (seen spot.entry) trail.now c)) }
{
    if holds_same(known, pattern, spot) {
        put_trail(out, trail.copy()?)?;
    }
    Ok(())
}

// Strings, and names that are known to hold one.
fn any_string<'t>(
    known: Constants<'_>,
    pattern: &Node,
    spot: Spot<'_, 't>,
    trail: &Trail<'t>,
    out: &mut List<Trail<'t>>,
) -> Result<(), Memory>
    requires { role (kind_of pattern.now) ≡ StrAny }
    ensures { OnOk result (Adds out.old out.new (λ c. Matches known.entry.names.now pattern.now (seen spot.entry) trail.now c)) }
{
    if is_string(spot.node) {
        put_trail(out, trail.copy()?)?;
        return Ok(());
    }
    if holds_string(known, spot) {
        put_trail(out, trail.copy()?)?;
    }
    Ok(())
}

// Some node of the tree matches the pattern inside.
#[cycle(search)]
fn deep<'t>(
    alloc: Global,
    known: Constants<'_>,
    pattern: &'t Node,
    spot: Spot<'_, 't>,
    trail: &Trail<'t>,
    out: &mut List<Trail<'t>>,
) -> Result<(), Memory>
    requires role { role (kind_of pattern.now) ≡ Deep }
    ensures { OnOk result (Adds out.old out.new (λ c. Matches known.entry.names.now pattern.now (seen spot.entry) trail.now c)) }
{
    if !spot.node.kind.is_expression() {
        return Ok(());
    }
    let inner = innermost(pattern).kids.as_slice();
    if inner.len() != 1 {
        return Ok(());
    }
    for further in 0..spot.size() {
        relate(alloc, known, &inner[0], spot.below(further), trail, out)?;
    }
    Ok(())
}

// The kids of the pattern match those of the node in order.
#[cycle(search)]
fn kids<'t>(
    alloc: Global,
    known: Constants<'_>,
    pattern: &'t Node,
    spot: Spot<'_, 't>,
    trail: &Trail<'t>,
    out: &mut List<Trail<'t>>,
) -> Result<(), Memory>
    requires fixed { order pattern.now ≡ Fixed }
    ensures { OnOk result (Adds out.old out.new (λ c. MatchesKids known.entry.names.now pattern.now (seen spot.entry) trail.now c)) }
{
    let list = spot.kids(alloc)?;
    let holder = Holder {
        spot,
        kids: list.as_slice(),
    };
    let mut states = start(alloc, trail)?;
    for at in 0..pattern.kids.len() {
        states = step_at(alloc, known, pattern, at, holder, &states)?;
    }
    finish(list.len(), &states, out)?;
    Ok(())
}

/// Where the part at this place of a pattern leads from these states.
#[cycle(search)]
pub fn step_at<'t>(
    alloc: Global,
    known: Constants<'_>,
    pattern: &'t Node,
    at: usize,
    holder: Holder<'_, '_, 't>,
    states: &List<State<'t>>,
) -> Result<List<State<'t>>, Memory>
    requires within { at < length (kids_of pattern.now) }
    requires kin { AreKids holder.kids.now (seen holder.spot) }
    ensures { IfOk result (λ next. (c : End) → AnyFrom known.entry.names.now (line_of (seen holder.entry.spot)) (drop (at + 1) (parts_of pattern.now)) next c ↔ AnyFrom known.entry.names.now (line_of (seen holder.entry.spot)) (drop at (parts_of pattern.now)) states.now c) }
{
    let kid = &pattern.kids.as_slice()[at];
    if is_free(pattern.kind, at, kid) {
        let next = skip(alloc, holder.kids.len(), states)?;
        return Ok(next);
    }
    let next = step(alloc, known, kid, holder, states)?;
    Ok(next)
}

// Where one pattern leads from these states.
#[cycle(search)]
fn step<'t>(
    alloc: Global,
    known: Constants<'_>,
    pattern: &'t Node,
    holder: Holder<'_, '_, 't>,
    states: &List<State<'t>>,
) -> Result<List<State<'t>>, Memory>
    requires kin { role (kind_of pattern.now) ≡ MetaDots → AreKids holder.kids.now (seen holder.spot) }
    ensures { IfOk result (λ next. Steps known.entry.names.now (line holder.entry) (Some pattern.now) states.now next) }
{
    let mut next = List::new(alloc);
    for state in states.as_slice() {
        advance(alloc, known, pattern, holder, state, &mut next)?;
    }
    Ok(next)
}

// Adds the states where one pattern leads from this one.
#[cycle(search)]
fn advance<'t>(
    alloc: Global,
    known: Constants<'_>,
    pattern: &'t Node,
    holder: Holder<'_, '_, 't>,
    state: &State<'t>,
    next: &mut List<State<'t>>,
) -> Result<(), Memory>
    requires kin { role (kind_of pattern.now) ≡ MetaDots → AreKids holder.kids.now (seen holder.spot) }
    ensures { OnOk result (AddsFrom known.entry.names.now (line holder.entry) next.old next.new (λ ps c. From known.entry.names.now (line holder.entry) (Some pattern.now ∷ ps) state.now c)) }
{
    match role_of(pattern.kind) {
        Role::Dots => float(next, state.at, &state.trail)?,
        Role::MetaDots => runs(pattern, holder.spot, state, next)?,
        _ => items(alloc, known, pattern, holder, state, next)?,
    }
    Ok(())
}

// Adds the states after a node that the pattern matches.
#[cycle(search)]
fn items<'t>(
    alloc: Global,
    known: Constants<'_>,
    pattern: &'t Node,
    holder: Holder<'_, '_, 't>,
    state: &State<'t>,
    next: &mut List<State<'t>>,
) -> Result<(), Memory>
    requires one { IsOne (role (kind_of pattern.now)) }
    ensures { OnOk result (AddsFrom known.entry.names.now (line holder.entry) next.old next.new (λ ps c. From known.entry.names.now (line holder.entry) (Some pattern.now ∷ ps) state.now c)) }
{
    let end = holder.kids.len();
    if state.floating {
        for at in state.at..end {
            item_at(alloc, known, pattern, holder, at, &state.trail, next)?;
        }
        return Ok(());
    }
    if state.at < end {
        item_at(alloc, known, pattern, holder, state.at, &state.trail, next)?;
    }
    Ok(())
}

// Adds the states after the node at this place, where the pattern matches it.
#[cycle(search)]
fn item_at<'t>(
    alloc: Global,
    known: Constants<'_>,
    pattern: &'t Node,
    holder: Holder<'_, '_, 't>,
    at: usize,
    trail: &Trail<'t>,
    next: &mut List<State<'t>>,
) -> Result<(), Memory>
    requires within { at < length holder.kids.now }
    ensures { OnOk result (AddsFrom known.entry.names.now (line holder.entry) next.old next.new (λ ps c. Heads known.entry.names.now (seen holder.entry.spot) pattern.now ps (drop at (all_seen holder.entry.kids.now)) trail.now c)) }
{
    let mut found = List::new(alloc);
    let kind = holder.spot.node.kind;
    relate_kid(
        alloc,
        known,
        pattern,
        kind,
        holder.kids[at],
        trail,
        &mut found,
    )?;
    enter(next, at + 1, found)?;
    Ok(())
}

/// Adds the bindings that the pattern may take the binding to at a kid of a holder of that kind.
#[cycle(search)]
pub fn relate_kid<'t>(
    alloc: Global,
    known: Constants<'_>,
    pattern: &'t Node,
    holder: Kind,
    spot: Spot<'_, 't>,
    trail: &Trail<'t>,
    out: &mut List<Trail<'t>>,
) -> Result<(), Memory>
    ensures { OnOk result ((h : numbered) → kind_of h.node ≡ holder → Adds out.old out.new (λ c. MatchesKid known.entry.names.now h pattern.now (seen spot.entry) trail.now c)) }
{
    if is_arguments(holder, pattern) {
        arguments(alloc, known, pattern, spot, trail, out)?;
        return Ok(());
    }
    relate(alloc, known, pattern, spot, trail, out)?;
    Ok(())
}

// The arguments of a call: those without a name in order, then those with one by choosing.
#[cycle(search)]
fn arguments<'t>(
    alloc: Global,
    known: Constants<'_>,
    pattern: &'t Node,
    spot: Spot<'_, 't>,
    trail: &Trail<'t>,
    out: &mut List<Trail<'t>>,
) -> Result<(), Memory>
    requires unrun { has_runs (kids_of pattern.now) ≡ false }
    ensures { OnOk result (Adds out.old out.new (λ c. MatchesArguments known.entry.names.now pattern.now (seen spot.entry) trail.now c)) }
{
    if !is_alike(pattern, spot.node) {
        return Ok(());
    }
    let list = kids_that(alloc, spot, false)?;
    let holder = Holder {
        spot,
        kids: list.as_slice(),
    };
    let mut states = start(alloc, trail)?;
    for kid in pattern.kids.as_slice() {
        states = step_unnamed(alloc, known, kid, holder, states)?;
    }
    let mut found = List::new(alloc);
    finish(list.len(), &states, &mut found)?;
    name(alloc, known, pattern, spot, found, out)?;
    Ok(())
}

/// Where an argument leads from these states, if it has no name.
#[cycle(search)]
pub fn step_unnamed<'t>(
    alloc: Global,
    known: Constants<'_>,
    pattern: &'t Node,
    holder: Holder<'_, '_, 't>,
    states: List<State<'t>>,
) -> Result<List<State<'t>>, Memory>
    requires unrun { is_run pattern.now ≡ false }
    ensures { IfOk result (λ next. (ps : list node) (c : End) → AnyFrom known.entry.names.now (line holder.entry) (all_asked (unnamed_of ps)) next c ↔ AnyFrom known.entry.names.now (line holder.entry) (all_asked (unnamed_of (pattern.now ∷ ps))) states.entry c) }
{
    if is_named(pattern) {
        return Ok(states);
    }
    let next = step(alloc, known, pattern, holder, &states)?;
    Ok(next)
}

// Adds the bindings that the arguments with a name may take one of these bindings to.
#[cycle(search)]
fn name<'t>(
    alloc: Global,
    known: Constants<'_>,
    pattern: &'t Node,
    spot: Spot<'_, 't>,
    found: List<Trail<'t>>,
    out: &mut List<Trail<'t>>,
) -> Result<(), Memory>
    ensures { OnOk result (Adds out.old out.new (λ c. Picked known.entry.names.now true (dots_in (kids_of pattern.now)) (kids_of pattern.now) (named_at (kids_at (seen spot.entry))) found.entry c)) }
{
    let list = kids_that(alloc, spot, true)?;
    let patterns = pattern.kids.as_slice();
    let choice = Choice {
        known,
        patterns,
        nodes: list.as_slice(),
        named: true,
        loose: has_dots(patterns),
        most: usize::MAX,
    };
    let mut taken = vec![in alloc; false; list.len()]?;
    go_on(alloc, choice, 0, &mut taken, found, out)?;
    let _room = out.len();
    Ok(())
}

/// Adds the bindings that the kids of the pattern may take the binding to when they take those of the node in any order, and
/// stops once there are more than `most`.
#[cycle(search)]
pub fn choose_kids<'t>(
    alloc: Global,
    known: Constants<'_>,
    pattern: &'t Node,
    spot: Spot<'_, 't>,
    trail: &Trail<'t>,
    most: usize,
    out: &mut List<Trail<'t>>,
) -> Result<(), Memory>
    requires any { order pattern.now ≡ Any }
    ensures { OnOk result (AddsUpTo most out.old out.new (λ c. MatchesKids known.entry.names.now pattern.now (seen spot.entry) trail.now c)) }
{
    let list = spot.kids(alloc)?;
    let patterns = pattern.kids.as_slice();
    let choice = Choice {
        known,
        patterns,
        nodes: list.as_slice(),
        named: false,
        loose: has_dots(patterns),
        most,
    };
    let mut taken = vec![in alloc; false; list.len()]?;
    choose(alloc, choice, 0, &mut taken, trail, out)?;
    Ok(())
}

/// Adds the bindings that the patterns from one on may take the binding to when each takes a node that isn't taken, and stops
/// once there are too many.
#[cycle(search)]
pub fn choose<'t>(
    alloc: Global,
    choice: Choice<'_, '_, '_, 't>,
    from: usize,
    taken: &mut Vec<bool>,
    trail: &Trail<'t>,
    out: &mut List<Trail<'t>>,
) -> Result<(), Memory>
    requires size { length taken.old.items ≡ length choice.nodes.now }
    requires within { from ≤ length choice.patterns.now }
    ensures kept { OnOk result (taken.new.items ≡ taken.old.items) }
    ensures added { OnOk result (AddsUpTo choice.entry.most out.old out.new (λ c. Chosen choice.entry.known.names.now choice.entry.named choice.entry.loose (drop from choice.entry.patterns.now) (untaken taken.old.items (all_seen choice.entry.nodes.now)) trail.now c)) }
{
    let patterns = choice.patterns;
    if patterns.len() <= from {
        settle(choice, taken.as_slice(), trail, out)?;
        return Ok(());
    }
    if !chooses(choice.named, &patterns[from]) {
        choose(alloc, choice, from + 1, taken, trail, out)?;
        return Ok(());
    }
    let steady = are_steady(patterns, from, trail)?;
    for at in 0..choice.nodes.len() {
        take(alloc, choice, from, at, taken, trail, out)?;
        if out.len() > choice.most {
            return Ok(());
        }
        if is_settled(steady, out.as_slice(), trail) {
            return Ok(());
        }
    }
    Ok(())
}

// The same where the first of the patterns takes the node at this place.
#[cycle(search)]
fn take<'t>(
    alloc: Global,
    choice: Choice<'_, '_, '_, 't>,
    from: usize,
    at: usize,
    taken: &mut Vec<bool>,
    trail: &Trail<'t>,
    out: &mut List<Trail<'t>>,
) -> Result<(), Memory>
    requires size { length taken.old.items ≡ length choice.nodes.now }
    requires part { from < length choice.patterns.now }
    requires within { at < length choice.nodes.now }
    ensures kept { OnOk result (taken.new.items ≡ taken.old.items) }
    ensures added { OnOk result ((p : node) → p ≡ slice_index_or choice.entry.patterns.now from p → AddsUpTo choice.entry.most out.old out.new (λ c. TakesAt choice.entry.known.names.now choice.entry.named choice.entry.loose at p (drop (from + 1) choice.entry.patterns.now) taken.old.items (all_seen choice.entry.nodes.now) trail.now c)) }
{
    if taken[at] {
        return Ok(());
    }
    let first = &choice.patterns[from];
    let mut found = List::new(alloc);
    relate(
        alloc,
        choice.known,
        first,
        choice.nodes[at],
        trail,
        &mut found,
    )?;
    mark(taken, at, true);
    go_on(alloc, choice, from + 1, taken, found, out)?;
    mark(taken, at, false);
    Ok(())
}

// The same from each of these bindings.
#[cycle(search)]
fn go_on<'t>(
    alloc: Global,
    choice: Choice<'_, '_, '_, 't>,
    from: usize,
    taken: &mut Vec<bool>,
    mut found: List<Trail<'t>>,
    out: &mut List<Trail<'t>>,
) -> Result<(), Memory>
    requires size { length taken.old.items ≡ length choice.nodes.now }
    requires within { from ≤ length choice.patterns.now }
    ensures kept { OnOk result (taken.new.items ≡ taken.old.items) }
    ensures added { OnOk result (AddsUpTo choice.entry.most out.old out.new (λ c. Picked choice.entry.known.names.now choice.entry.named choice.entry.loose (drop from choice.entry.patterns.now) (untaken taken.old.items (all_seen choice.entry.nodes.now)) found.entry c)) }
{
    while let Some(trail) = found.pop() {
        choose(alloc, choice, from, taken, &trail, out)?;
        if out.len() > choice.most {
            return Ok(());
        }
    }
    Ok(())
}
