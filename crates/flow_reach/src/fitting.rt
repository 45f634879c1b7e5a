//! Whether a graph and moves can be searched.

ghost use Rattle.std.specs.Prelude.{◌↔◌, ◌<◌, IsTrue};
ghost use Rattle.flow_reach.specs.Carried.{Fits, Inside, Pairs, SpeaksOf};
ghost use Rattle.flow_reach.specs.Fitting.{AreBelow, ArePairsBelow, AreEdgesBelow, SpeakOf};

use crate::moves::{Move, Moves};
use graph_form::{Edge, Graph};

// Whether all these numbers are below another one.
fn below(numbers: &[u32], most: u32) -> bool
    ensures { IsTrue result ↔ AreBelow numbers.now most }
{
    for number in numbers {
        if *number >= most {
            return false;
        }
    }
    true
}

// Whether the first of each pair is below a number, and the second below another one.
fn pairs_below(pairs: &[(u32, u32)], first: u32, second: u32) -> bool
    ensures { IsTrue result ↔ ArePairsBelow pairs.now first second }
{
    for pair in pairs {
        if pair.0 >= first {
            return false;
        }
        if pair.1 >= second {
            return false;
        }
    }
    true
}

// Whether these edges are between so many points.
fn edges_below(edges: &[Edge], points: u32) -> bool
    ensures { IsTrue result ↔ AreEdgesBelow edges.now points }
{
    for edge in edges {
        if edge.from >= points {
            return false;
        }
        if edge.to >= points {
            return false;
        }
    }
    true
}

// Whether the row speaks of so many facts.
fn speaks_of(row: &Move, facts: u32) -> bool
    ensures { IsTrue result ↔ SpeaksOf facts row.now }
{
    if !below(row.drops.as_slice(), facts) {
        return false;
    }
    pairs_below(row.adds.as_slice(), facts, facts)
}

// Whether these rows do.
fn speak_of(rows: &[Move], facts: u32) -> bool
    ensures { IsTrue result ↔ SpeakOf facts rows.now }
{
    for row in rows {
        if !speaks_of(row, facts) {
            return false;
        }
    }
    true
}

/// Whether a graph and moves can be searched: there is a point, and there are fewer than 2 ^ 32; there is a row for each; and
/// edges and facts are between the points and among the facts that are there.
pub fn fits(graph: &Graph, moves: &Moves) -> bool
    ensures { IsTrue result ↔ Fits graph.now moves.now }
{
    let points = graph.points.len();
    if points == 0 {
        return false;
    }
    if points > 4294967295 {
        return false;
    }
    if moves.rows.len() != points {
        return false;
    }
    if !edges_below(graph.edges.as_slice(), points as u32) {
        return false;
    }
    if !below(moves.start.as_slice(), moves.facts) {
        return false;
    }
    speak_of(moves.rows.as_slice(), moves.facts)
}

/// Whether these pairs are of points and facts that are there.
pub fn inside(graph: &Graph, moves: &Moves, pairs: &[(u32, u32)]) -> bool
    requires { Fits graph.now moves.now }
    ensures { IsTrue result ↔ Inside (Pairs pairs.now) graph.now moves.now }
{
    pairs_below(pairs, graph.points.len() as u32, moves.facts)
}
