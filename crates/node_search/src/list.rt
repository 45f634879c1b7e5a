//! Steps along a list of kids that match no node.

ghost use Rattle.std.specs.Prelude.{◌≡◌, ◌↔◌, ◌≤◌, ◌<◌, ◌+◌, List as list, [], ◌∷◌, length, take, drop, OnOk, IfOk, IsTrue, true, false, None, Some};
ghost use Rattle.node_tree.specs.Tree.{kids_of, kind_of};
ghost use Rattle.node_tree.specs.declared.known.Known.{Known as known};
ghost use Rattle.node_tree.specs.Numbers.{kids_at};
ghost use Rattle.node_pool.specs.Spots.{seen};
ghost use Rattle.meta_bind.specs.declared.bound.Bound.{Bound as bound};
ghost use Rattle.node_match.specs.Sets.{Among, Adds};
ghost use Rattle.node_match.specs.Kinds.{role_of as role};
ghost use Rattle.node_match.specs.Free.{Part};
ghost use Rattle.node_match.specs.Relation.{Binds, run_span};
ghost use Rattle.node_match.specs.declared.class.Role.TheVariants.{MetaDots};
ghost use Rattle.node_match.specs.Fronts.{End, Leads};
ghost use Rattle.node_search.specs.States.{Line, line_of, AnyFrom, AddsFrom, Steps, From, Goes, Runs, RunOf, Entered, IsCovered};
ghost use Rattle.node_search.specs.declared.state.State.{State as state};

use crate::state::State;
use meta_bind::{Held, Trail};
use node_pool::Spot;
use node_tree::{List, Memory, Node, Span, same_all};
use std::alloc::Global;

/// How many kids there are.
pub fn count_kids(holder: Spot<'_, '_>) -> usize
    ensures { result ≡ length (kids_at (seen holder.entry)) }
{
    holder.node.kids.len()
}

/// Adds a state.
pub fn put<'t>(states: &mut List<State<'t>>, state: State<'t>) -> Result<(), Memory>
    ensures { OnOk result (Adds states.old states.new (λ s. state.entry ≡ s)) }
{
    states.push(state)?;
    Ok(())
}

/// A list of one state.
pub fn alone<'t>(alloc: Global, state: State<'t>) -> Result<List<State<'t>>, Memory>
    ensures { IfOk result (λ states. states ≡ state.entry ∷ []) }
{
    let mut states = List::new(alloc);
    states.push(state)?;
    Ok(states)
}

/// The one state in which a list of kids begins.
pub fn start<'t>(alloc: Global, trail: &Trail<'t>) -> Result<List<State<'t>>, Memory>
    ensures { IfOk result (λ states. (k : list known) (l : Line) (ps : list Part) (c : End) → AnyFrom k l ps states c ↔ Leads k l.holder ps l.kids trail.now c) }
{
    let states = alone(
        alloc,
        State {
            at: 0,
            floating: false,
            trail: trail.copy()?,
        },
    )?;
    Ok(states)
}

/// Whether the last binding is this one.
pub fn is_last<'t>(trails: &[Trail<'t>], trail: &Trail<'t>) -> bool
    ensures { IsTrue result → Among trails.now trail.now }
{
    if trails.is_empty() {
        return false;
    }
    let last = &trails[trails.len() - 1];
    last.is_same(trail)
}

/// Adds a binding. One that came just before isn't kept twice.
pub fn put_trail<'t>(trails: &mut List<Trail<'t>>, trail: Trail<'t>) -> Result<(), Memory>
    ensures { OnOk result (Adds trails.old trails.new (λ t. trail.entry ≡ t)) }
{
    if is_last(trails.as_slice(), &trail) {
        return Ok(());
    }
    trails.push(trail)?;
    Ok(())
}

// Whether the last state floats from there on with this binding.
fn is_covered<'t>(states: &[State<'t>], at: usize, trail: &Trail<'t>) -> bool
    ensures { IsTrue result → IsCovered states.now at trail.now }
{
    if states.is_empty() {
        return false;
    }
    let last = &states[states.len() - 1];
    if !last.floating {
        return false;
    }
    if at < last.at {
        return false;
    }
    last.trail.is_same(trail)
}

/// Adds a floating state, where the last one doesn't lead to all that it would lead to.
pub fn float<'t>(states: &mut List<State<'t>>, at: usize, trail: &Trail<'t>) -> Result<(), Memory>
    ensures { OnOk result ((k : list known) (l : Line) → AddsFrom k l states.old states.new (λ ps c. Goes k true l.holder ps (drop at l.kids) trail.now c)) }
{
    if is_covered(states.as_slice(), at, trail) {
        return Ok(());
    }
    put(
        states,
        State {
            at,
            floating: true,
            trail: trail.copy()?,
        },
    )?;
    Ok(())
}

/// Adds states at one place, one for each binding.
pub fn enter<'t>(
    states: &mut List<State<'t>>,
    at: usize,
    mut found: List<Trail<'t>>,
) -> Result<(), Memory>
    ensures { OnOk result ((k : list known) (l : Line) → AddsFrom k l states.old states.new (λ ps c. Entered k l ps at found.entry c)) }
{
    while let Some(trail) = found.pop() {
        put(
            states,
            State {
                at,
                floating: false,
                trail,
            },
        )?;
    }
    Ok(())
}

// Adds the state after a kid of which nothing is asked, where there are so many kids.
fn pass<'t>(end: usize, state: &State<'t>, next: &mut List<State<'t>>) -> Result<(), Memory>
    ensures { OnOk result ((k : list known) (l : Line) → length l.kids ≡ end → AddsFrom k l next.old next.new (λ ps c. From k l (None ∷ ps) state.now c)) }
{
    if state.at < end {
        put(
            next,
            State {
                at: state.at + 1,
                floating: state.floating,
                trail: state.trail.copy()?,
            },
        )?;
    }
    Ok(())
}

/// Where a kid of which nothing is asked leads from these states, where there are so many kids.
pub fn skip<'t>(
    alloc: Global,
    end: usize,
    states: &List<State<'t>>,
) -> Result<List<State<'t>>, Memory>
    ensures { IfOk result (λ next. (k : list known) (l : Line) → length l.kids ≡ end → Steps k l None states.now next) }
{
    let mut next = List::new(alloc);
    for state in states.as_slice() {
        pass(end, state, &mut next)?;
    }
    Ok(next)
}

// Adds the binding of the state, where it may end here.
fn finish_one<'t>(end: usize, state: &State<'t>, out: &mut List<Trail<'t>>) -> Result<(), Memory>
    ensures { OnOk result ((k : list known) (l : Line) → length l.kids ≡ end → Adds out.old out.new (λ c. From k l [] state.now ([], c))) }
{
    if state.floating {
        put_trail(out, state.trail.copy()?)?;
        return Ok(());
    }
    if end <= state.at {
        put_trail(out, state.trail.copy()?)?;
    }
    Ok(())
}

/// Adds the bindings of the states that may end where there are so many kids.
pub fn finish<'t>(
    end: usize,
    states: &List<State<'t>>,
    out: &mut List<Trail<'t>>,
) -> Result<(), Memory>
    ensures { OnOk result ((k : list known) (l : Line) → length l.kids ≡ end → Adds out.old out.new (λ c. AnyFrom k l [] states.now ([], c))) }
{
    for state in states.as_slice() {
        finish_one(end, state, out)?;
    }
    Ok(())
}

/// The range of a run of kids.
pub fn span_of_run(holder: &Node, run: &[Node]) -> Span
    ensures { result ≡ run_span holder.now run.now }
{
    let from = holder.span.from;
    match run {
        [] => Span { from, to: from },
        [first, ..] => Span {
            from: first.span.from,
            to: run[run.len() - 1].span.to,
        },
    }
}

/// The binding once the name stands for the run, if it may.
pub fn bound_run<'t>(
    holder: &Node,
    name: &'t str,
    run: &'t [Node],
    trail: &Trail<'t>,
) -> Result<Option<Trail<'t>>, Memory>
    ensures { IfOk result (λ o. (c : list bound) → Binds holder.now name.now run.now trail.now c ↔ (o ≡ Some c)) }
{
    match trail.get(name) {
        Some(old) => {
            if same_all(old.run, run) {
                Ok(Some(trail.copy()?))
            } else {
                Ok(None)
            }
        }
        None => {
            let mut bound = trail.copy()?;
            let span = span_of_run(holder, run);
            bound.bind(Held { name, span, run })?;
            Ok(Some(bound))
        }
    }
}

/// So many nodes from a place on.
pub fn part_of(nodes: &[Node], at: usize, size: usize) -> &[Node]
    requires { at + size ≤ length nodes.now }
    ensures { result.now ≡ take size (drop at nodes.now) }
{
    &nodes[at..at + size]
}

// Adds the state after this run, where the name may stand for it.
fn run_at<'t>(
    pattern: &'t Node,
    holder: Spot<'_, 't>,
    at: usize,
    size: usize,
    trail: &Trail<'t>,
    states: &mut List<State<'t>>,
) -> Result<(), Memory>
    requires { at + size ≤ length (kids_at (seen holder)) }
    ensures { OnOk result ((k : list known) → AddsFrom k (line_of (seen holder.entry)) states.old states.new (λ ps c. RunOf k size (seen holder.entry) pattern.now ps (drop at (kids_at (seen holder.entry))) trail.now c)) }
{
    let run = part_of(holder.node.kids.as_slice(), at, size);
    if let Some(trail) = bound_run(holder.node, pattern.text.as_str(), run, trail)? {
        put(
            states,
            State {
                at: at + size,
                floating: false,
                trail,
            },
        )?;
    }
    Ok(())
}

/// Adds the states after the runs from this place on that the name may stand for.
pub fn runs_at<'t>(
    pattern: &'t Node,
    holder: Spot<'_, 't>,
    at: usize,
    trail: &Trail<'t>,
    states: &mut List<State<'t>>,
) -> Result<(), Memory>
    requires { at ≤ length (kids_at (seen holder)) }
    ensures { OnOk result ((k : list known) → AddsFrom k (line_of (seen holder.entry)) states.old states.new (λ ps c. Runs k 0 (seen holder.entry) pattern.now ps (drop at (kids_at (seen holder.entry))) trail.now c)) }
{
    let most = count_kids(holder) - at;
    for size in 0..most {
        run_at(pattern, holder, at, size, trail, states)?;
    }
    run_at(pattern, holder, at, most, trail, states)?;
    Ok(())
}

/// The place, or the end where it is past that.
pub fn place(holder: Spot<'_, '_>, at: usize) -> usize
    ensures within { result ≤ length (kids_at (seen holder.entry)) }
    ensures same { drop result (kids_at (seen holder.entry)) ≡ drop at (kids_at (seen holder.entry)) }
{
    let end = count_kids(holder);
    if at < end { at } else { end }
}

/// Adds the states after each run that the name may stand for, from this state on.
pub fn runs<'t>(
    pattern: &'t Node,
    holder: Spot<'_, 't>,
    state: &State<'t>,
    next: &mut List<State<'t>>,
) -> Result<(), Memory>
    requires { role (kind_of pattern.now) ≡ MetaDots }
    ensures { OnOk result ((k : list known) → AddsFrom k (line_of (seen holder.entry)) next.old next.new (λ ps c. From k (line_of (seen holder.entry)) (Some pattern.now ∷ ps) state.now c)) }
{
    let end = count_kids(holder);
    let start = place(holder, state.at);
    if state.floating {
        for at in start..end {
            runs_at(pattern, holder, at, &state.trail, next)?;
        }
        runs_at(pattern, holder, end, &state.trail, next)?;
        return Ok(());
    }
    runs_at(pattern, holder, start, &state.trail, next)?;
    Ok(())
}
