//! Facts that are carried through a graph of two points, and the paths that carry them.

use flow_graph::{Edge, Graph, Point, Role};
use flow_reach::{Move, Moves, Reached, fits, reach};
use node_tree::{List, Memory};
use std::alloc::Global;
use std::fmt::Write;
use std::test::Fail;
use trace_path::is_trace;

// The entry and the exit, with an edge from the one to the other.
fn two_points(alloc: Global) -> Result<Graph, Memory> {
    let mut points = List::new(alloc);
    for role in [Role::Entry, Role::Exit] {
        points.push(Point { node: 0, role })?;
    }
    let mut edges = List::new(alloc);
    edges.push(Edge { from: 0, to: 1 })?;
    Ok(Graph { points, edges })
}

// Moves of two points that keep so many facts, of which 7 begins at the entry.
fn keeping(alloc: Global, facts: u32) -> Result<Moves, Memory> {
    let mut start = List::new(alloc);
    start.push(7)?;
    let mut rows = List::new(alloc);
    for _ in 0..2 {
        rows.push(Move {
            drops: List::new(alloc),
            adds: List::new(alloc),
        })?;
    }
    Ok(Moves { facts, start, rows })
}

// Whether the fact is carried to the point, if both are there.
fn carries(reached: &Reached, point: u32, fact: u32) -> bool {
    point < reached.points && fact < reached.facts && reached.has(point, fact)
}

// Which of the facts 7 and 8 are carried to the exit, or that there are too many facts for two points.
fn carried(alloc: Global, facts: u32) -> Result<String, Fail> {
    let graph = two_points(alloc)?;
    let moves = keeping(alloc, facts)?;
    if !fits(&graph, &moves) {
        return Err(Fail::new(format_args!("{facts} facts don't fit")));
    }
    let mut out = String::new(alloc);
    match reach(alloc, &graph, &moves) {
        Ok(reached) => write!(
            out,
            "{} {}",
            carries(&reached, 1, 7),
            carries(&reached, 1, 8)
        )?,
        Err(fault) => write!(out, "{fault:?}")?,
    }
    Ok(out)
}

// At most 50,000,000 pairs of a point and a fact are searched.
#[test]
fn carries_to_the_limit(rt: HostRuntime) -> Result<(), Fail> {
    for (facts, wanted) in [(25_000_000, "true false"), (25_000_001, "TooLarge")] {
        assert_eq!(rt;
            carried(rt.alloc(), facts)?.as_str(),
            wanted,
            "{facts} facts"
        );
    }
    Ok(())
}

// Whether these points are a path from the entry that carries the fact 7 to the exit.
fn leads(alloc: Global, places: &[u32]) -> Result<bool, Fail> {
    let graph = two_points(alloc)?;
    let moves = keeping(alloc, 9)?;
    if !fits(&graph, &moves) {
        return Err(Fail::new(format_args!("9 facts don't fit")));
    }
    let mut goals = List::new(alloc);
    goals.push((1, 7))?;
    let mut points = List::new(alloc);
    for place in places {
        points.push(*place)?;
    }
    Ok(is_trace(alloc, &graph, &moves, &points, &goals)?)
}

#[test]
fn leads_from_the_entry_to_a_goal(rt: HostRuntime) -> Result<(), Fail> {
    let rows: [(&[u32], bool); 3] = [(&[0, 1], true), (&[0], false), (&[1], false)];
    for (places, wanted) in rows {
        assert_eq!(rt; leads(rt.alloc(), places)?, wanted, "{places:?}");
    }
    Ok(())
}
