//! Whether points are a path that carries a goal's fact.

ghost use Rattle.std.specs.Prelude.{◌≡◌, ◌⊎◌, ◌↔◌, ◌+◌, ◌<◌, ℕ, length, IfOk, OnOk, IsTrue};
ghost use Rattle.graph_form.specs.Edges.{HasEdge};
ghost use Rattle.graph_form.specs.Sets.{Among};
ghost use Rattle.flow_reach.specs.Carried.{Fits, Stays};
ghost use Rattle.trace_path.specs.Along.{Follows, Begins, Ends, IsDistinct, TurnedBy};
ghost use Rattle.trace_path.specs.Queue.{Ascends, IsNext};
ghost use Rattle.trace_path.specs.Trace.{IsTrace};

use crate::turning::{in_order, ordered};
use flow_reach::{Move, Moves, seconds, sorted_pairs, successors};
use graph_form::Graph;
use node_tree::{List, Memory};
use std::alloc::Global;

/// Whether these points are a path from the entry that carries a goal's fact to its last point. A goal is a point and a fact.
pub fn is_trace(
    alloc: Global,
    graph: &Graph,
    moves: &Moves,
    points: &List<u32>,
    goals: &List<(u32, u32)>,
) -> Result<bool, Memory>
    requires { Fits graph.now moves.now }
    ensures { IfOk result (λ b. IsTrue b ↔ IsTrace graph.now moves.now goals.now points.now) }
{
    let points = points.as_slice();
    if points.len() == 0 {
        return Ok(false);
    }
    let table = successors(alloc, graph)?;
    let after = in_order(alloc, graph, &table)?;
    let mut last = points[0];
    let mut facts = begin(alloc, moves, last)?;
    for k in 1..points.len() {
        let next = points[k];
        facts = follow(alloc, graph, moves, &after, last, next, &facts)?;
        last = next;
    }
    Ok(ends(goals.as_slice(), last, &facts))
}

// The facts at the first point of a path, in order.
fn begin(alloc: Global, moves: &Moves, point: u32) -> Result<Vec<u32>, Memory>
    ensures same { IfOk result (λ facts. (f : ℕ) → Among facts.items f ↔ Begins moves.now point f) }
    ensures ascends { IfOk result (λ facts. Ascends facts.items) }
{
    if point != 0 {
        return Ok(Vec::new(alloc));
    }
    let facts = distinct(alloc, moves.start.as_slice())?;
    Ok(facts)
}

// Whether an edge leads from the one point to the other.
fn has_edge(graph: &Graph, after: &[Vec<u32>], from: u32, to: u32) -> bool
    requires fits { (from to : ℕ) → HasEdge graph.now from to → from < length graph.now.points }
    requires after { IsNext graph.now after.now }
    ensures { IsTrue result ↔ HasEdge graph.now from to }
{
    if from as usize >= after.len() {
        return false;
    }
    among(&after[from as usize], to)
}

// Whether the number is one of these, which are in order.
fn among(numbers: &[u32], number: u32) -> bool
    requires { Ascends numbers.now }
    ensures { IsTrue result ↔ Among numbers.now number }
{
    numbers.binary_search(&number).is_ok()
}

// The facts that are carried on to the next point, in order, if an edge leads there.
fn follow(
    alloc: Global,
    graph: &Graph,
    moves: &Moves,
    after: &[Vec<u32>],
    from: u32,
    to: u32,
    facts: &[u32],
) -> Result<Vec<u32>, Memory>
    requires fits { Fits graph.now moves.now }
    requires after { IsNext graph.now after.now }
    ensures same { IfOk result (λ later. (g : ℕ) → Among later.items g ↔
        Follows graph.now moves.now from to facts.now g) }
    ensures ascends { IfOk result (λ later. Ascends later.items) }
{
    if !has_edge(graph, after, from, to) {
        return Ok(Vec::new(alloc));
    }
    let turned = turned(alloc, &moves.rows.as_slice()[from as usize], facts)?;
    let later = distinct(alloc, &turned)?;
    Ok(later)
}

// Adds the fact, unless it is one of those that are dropped, which are in order.
fn keep(drops: &[u32], fact: u32, into: &mut Vec<u32>) -> Result<(), Memory>
    requires { Ascends drops.now }
    ensures { OnOk result ((g : ℕ) → Among into.new.items g ↔
        (Among into.old.items g ⊎ Stays drops.now fact g)) }
{
    if among(drops, fact) {
        return Ok(());
    }
    into.push(fact)?;
    Ok(())
}

// The facts into which a row turns some of these.
fn turned(alloc: Global, row: &Move, facts: &[u32]) -> Result<Vec<u32>, Memory>
    ensures { IfOk result (λ turned. (g : ℕ) → Among turned.items g ↔
        TurnedBy row.now facts.now g) }
{
    let drops = ordered(alloc, row.drops.as_slice())?;
    let adds = sorted_pairs(alloc, row.adds.as_slice())?;
    let mut turned = Vec::new(alloc);
    for fact in facts {
        keep(&drops, *fact, &mut turned)?;
        seconds(&adds, *fact as u64, &mut turned)?;
    }
    Ok(turned)
}

// Adds the number at that place, unless it is the one before it.
fn add_new(numbers: &[u32], at: usize, found: &mut Vec<u32>) -> Result<(), Memory>
    requires ascends { Ascends numbers.now }
    requires at { at < length numbers.now }
    requires distinct { IsDistinct numbers.now at found.old.items }
    ensures { OnOk result (IsDistinct numbers.now (at + 1) found.new.items) }
{
    if at > 0 && numbers[at - 1] == numbers[at] {
        return Ok(());
    }
    found.push(numbers[at])?;
    Ok(())
}

// The same facts in order, each once.
fn distinct(alloc: Global, facts: &[u32]) -> Result<Vec<u32>, Memory>
    ensures same { IfOk result (λ found. (f : ℕ) → Among found.items f ↔ Among facts.now f) }
    ensures ascends { IfOk result (λ found. Ascends found.items) }
{
    let sorted = ordered(alloc, facts)?;
    let mut found = Vec::new(alloc);
    for at in 0..sorted.len() {
        add_new(&sorted, at, &mut found)?;
    }
    Ok(found)
}

// Whether one of the facts, which are in order, is a goal's at the point.
fn ends(goals: &[(u32, u32)], point: u32, facts: &[u32]) -> bool
    requires { Ascends facts.now }
    ensures { IsTrue result ↔ Ends goals.now point facts.now }
{
    for goal in goals {
        if goal.0 == point && among(facts, goal.1) {
            return true;
        }
    }
    false
}
