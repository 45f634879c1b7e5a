//! What the searches for all sources of a unit share. A source's own fact is carried on every path, so only names are followed.

ghost use Rattle.std.specs.Prelude.{◌≡◌, ◌⊎◌, ◌↔◌, ◌+◌, ◌<◌, ◌≤◌, ℕ, length, IfOk, OnOk};
ghost use Rattle.graph_form.specs.declared.graph.Graph.{Graph as a_graph};
ghost use Rattle.graph_form.specs.Sets.{Among};
ghost use Rattle.taint_flow.specs.Splits.{AreAdded, AreNames, IsSplit, ListHas, TurnsNames};
ghost use Rattle.taint_flow.specs.Still.{AreReachable, KeepsFacts, Reachable};

use crate::still::reachable;
use flow_reach::{Move, Moves, Reached, Ready, fits, prepare};
use graph_form::Graph;
use node_tree::{List, Memory};
use std::alloc::Global;
use taint_plan::{Plan, counted};

/// What points do to names, the points that are reached, and for each source the points among them that add names with it, each
/// with the name.
#[derive(Drop)]
pub struct Split {
    pub sources: u32,
    pub names: Moves,
    pub ready: Ready,
    pub reached: Reached,
    pub added: Vec<Vec<(u32, u32)>>,
}

// Adds the name whose fact this is, if it is one.
fn add_name(sources: u32, fact: u32, into: &mut List<u32>) -> Result<(), Memory>
    ensures { OnOk result ((name : ℕ) →
        Among into.new name ↔ (Among into.old name ⊎ (fact ≡ sources + name))) }
{
    if fact < sources {
        return Ok(());
    }
    into.push(fact - sources)?;
    Ok(())
}

// The names whose facts these are.
fn names_of(alloc: Global, sources: u32, facts: &[u32]) -> Result<List<u32>, Memory>
    ensures { IfOk result (λ names. (name : ℕ) → Among names name ↔ Among facts.now (sources + name)) }
{
    let mut names = List::new(alloc);
    for fact in facts {
        add_name(sources, *fact, &mut names)?;
    }
    Ok(names)
}

// Adds the pair of names whose facts these are, if they are.
fn add_pair(
    sources: u32,
    first: u32,
    second: u32,
    into: &mut List<(u32, u32)>,
) -> Result<(), Memory>
    ensures { OnOk result ((from to : ℕ) → Among into.new (from, to) ↔
        (Among into.old (from, to) ⊎ ((first ≡ sources + from) × (second ≡ sources + to)))) }
{
    if first < sources {
        return Ok(());
    }
    if second < sources {
        return Ok(());
    }
    into.push((first - sources, second - sources))?;
    Ok(())
}

// The pairs of names whose facts these are.
fn pairs_of(alloc: Global, sources: u32, facts: &[(u32, u32)]) -> Result<List<(u32, u32)>, Memory>
    ensures { IfOk result (λ pairs. (from to : ℕ) →
        Among pairs (from, to) ↔ Among facts.now (sources + from, sources + to)) }
{
    let mut pairs = List::new(alloc);
    for pair in facts {
        add_pair(sources, pair.0, pair.1, &mut pairs)?;
    }
    Ok(pairs)
}

// What the row does to names.
fn named(alloc: Global, sources: u32, row: &Move) -> Result<Move, Memory>
    ensures { IfOk result (TurnsNames sources row.now) }
{
    let drops = names_of(alloc, sources, row.drops.as_slice())?;
    let adds = pairs_of(alloc, sources, row.adds.as_slice())?;
    Ok(Move { drops, adds })
}

// What the moves do to names.
fn names_moves(alloc: Global, sources: u32, moves: &Moves) -> Result<Moves, Memory>
    requires { sources ≤ moves.now.facts }
    ensures { IfOk result (AreNames sources moves.now) }
{
    let mut rows = List::new(alloc);
    for row in moves.rows.as_slice() {
        rows.push(named(alloc, sources, row)?)?;
    }
    Ok(Moves {
        facts: moves.facts - sources,
        start: List::new(alloc),
        rows,
    })
}

// Adds the point with the name to the list of the source, where these are the facts of a source and of a name.
fn add_one(
    sources: u32,
    point: u32,
    first: u32,
    second: u32,
    added: &mut Vec<Vec<(u32, u32)>>,
) -> Result<(), Memory>
    requires { length added.old.items ≡ sources }
    ensures size { OnOk result (length added.new.items ≡ length added.old.items) }
    ensures added { OnOk result ((source at name : ℕ) → source < sources →
        ListHas added.new.items source (at, name) ↔ (ListHas added.old.items source (at, name) ⊎
        ((point ≡ at) × (first ≡ source) × (second ≡ sources + name)))) }
{
    if first >= sources {
        return Ok(());
    }
    if second < sources {
        return Ok(());
    }
    added[first as usize].push((point, second - sources))?;
    Ok(())
}

// Adds the point to the lists of the sources with which it adds names.
fn add_point(
    sources: u32,
    point: u32,
    adds: &[(u32, u32)],
    added: &mut Vec<Vec<(u32, u32)>>,
) -> Result<(), Memory>
    requires { length added.old.items ≡ sources }
    ensures size { OnOk result (length added.new.items ≡ length added.old.items) }
    ensures added { OnOk result ((source at name : ℕ) → source < sources →
        ListHas added.new.items source (at, name) ↔ (ListHas added.old.items source (at, name) ⊎
        ((point ≡ at) × Among adds.now (source, sources + name)))) }
{
    for pair in adds {
        add_one(sources, point, pair.0, pair.1, added)?;
    }
    Ok(())
}

// The same, if the point is reached.
fn add_reached(
    sources: u32,
    reached: &Reached,
    point: u32,
    row: &Move,
    added: &mut Vec<Vec<(u32, u32)>>,
) -> Result<(), Memory>
    requires size { length added.old.items ≡ sources }
    requires point { point < reached.now.points }
    requires fact { 0 < reached.now.facts }
    ensures size { OnOk result (length added.new.items ≡ length added.old.items) }
    ensures added { (graph : a_graph) → AreReachable graph reached.now → OnOk result
        ((source at name : ℕ) → source < sources →
        ListHas added.new.items source (at, name) ↔ (ListHas added.old.items source (at, name) ⊎
        ((point ≡ at) × Reachable graph at × Among row.now.adds (source, sources + name)))) }
{
    if !reached.has(point, 0) {
        return Ok(());
    }
    add_point(sources, point, row.adds.as_slice(), added)?;
    Ok(())
}

// Empty lists for so many sources.
fn no_points(alloc: Global, sources: u32) -> Result<Vec<Vec<(u32, u32)>>, Memory>
    ensures size { IfOk result (λ added. length added.items ≡ sources) }
    ensures none { IfOk result (λ added. (source : ℕ) (at : ℕ × ℕ) → ListHas added.items source at → ⊥) }
{
    let mut added: Vec<Vec<(u32, u32)>> = Vec::new(alloc);
    for _ in 0..sources {
        added.push(Vec::new(alloc))?;
    }
    Ok(added)
}

// For each source the points that are reached and add names with it.
fn points_of(
    alloc: Global,
    sources: u32,
    moves: &Moves,
    reached: &Reached,
) -> Result<Vec<Vec<(u32, u32)>>, Memory>
    requires points { length moves.now.rows ≡ reached.now.points }
    requires facts { 0 < reached.now.facts }
    ensures { (graph : a_graph) → AreReachable graph reached.now → IfOk result
        (λ added. AreAdded graph moves.now sources added.items) }
{
    let mut added = no_points(alloc, sources)?;
    for (point, row) in moves.rows.as_slice().iter().enumerate() {
        add_reached(sources, reached, point as u32, row, &mut added)?;
    }
    Ok(added)
}

impl Split {
    /// What the searches for so many sources of the plan share.
    pub fn of(alloc: Global, graph: &Graph, plan: &Plan, sources: usize) -> Result<Split, Memory>
        requires keeps { KeepsFacts graph.now plan.now sources }
        requires facts { sources ≤ plan.now.moves.facts }
        ensures { IfOk result (IsSplit graph.now plan.now sources) }
    {
        let sources = counted(sources)?;
        if !fits(graph, &plan.moves) {
            return Err(Memory);
        }
        let names = names_moves(alloc, sources, &plan.moves)?;
        if !fits(graph, &names) {
            return Err(Memory);
        }
        let Ok(ready) = prepare(alloc, graph, &names) else {
            return Err(Memory);
        };
        let reached = reachable(alloc, graph)?;
        let added = points_of(alloc, sources, &plan.moves, &reached)?;
        Ok(Split {
            sources,
            names,
            ready,
            reached,
            added,
        })
    }
}
