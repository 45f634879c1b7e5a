//! The shortest paths on which the data of sources gets to sinks.
//!
//! A path is written as its points after the entry: where the statement of each begins, and its role.

ghost use Rattle.flow_reach.specs.Carried.{Fits};

use crate::source::root_of;
use crate::tainted::sets_of;
use flow_graph::{Point, Role};
use flow_reach::{ReachFault, inside};
use node_tree::{List, Memory, Node};
use point_nodes::IndexedTree;
use shown::{parted, same};
use std::alloc::{AllocError, Global};
use std::fmt::Write;
use std::test::Fail;
use taint_flow::{SetTables, TaintHit, UnitMoves, taint, unit_moves};
use trace_path::shortest;
use unit_names::{Scope, scopes_of};

// The points at which a sink is hit, each with the fact that hits it.
fn goals_of(alloc: Global, moves: &UnitMoves, sink: u64) -> Result<List<(u32, u32)>, Memory> {
    let mut goals = List::new(alloc);
    for goal in moves.goals.as_slice() {
        if goal.sink == sink {
            goals.push((goal.point, goal.fact))?;
        }
    }
    Ok(goals)
}

// The path in a unit on which the source hits the sink, if there is one.
fn path_of(
    alloc: Global,
    scope: &Scope,
    moves: &UnitMoves,
    sink: u64,
) -> Result<Option<List<u32>>, ReachFault>
    requires { Fits scope.now.graph moves.now.moves }
{
    let goals = goals_of(alloc, moves, sink)?;
    if !inside(&scope.graph, &moves.moves, goals.as_slice()) {
        return Ok(None);
    }
    shortest(alloc, &scope.graph, &moves.moves, &goals)
}

// Writes a point, unless it is the entry.
fn write_point(out: &mut String, tree: &IndexedTree<'_>, point: Point) -> Result<(), AllocError> {
    if point.role == Role::Entry {
        return Ok(());
    }
    let Some(spot) = tree.node(point.node) else {
        return Ok(());
    };
    if out.len() > 0 {
        out.push(' ')?;
    }
    write!(out, "{} {:?}", spot.node.span.from, point.role)
}

// Writes the path of a hit in each unit that has one.
fn write_paths(
    out: &mut String,
    alloc: Global,
    root: &Node,
    tables: &SetTables,
    hit: TaintHit,
) -> Result<(), ReachFault> {
    let tree = IndexedTree::of(alloc, root)?;
    let scopes = scopes_of(root)?;
    for scope in scopes.as_slice() {
        let moves = unit_moves(alloc, &tree, scope, tables, hit.source)?;
        let Some(path) = path_of(alloc, scope, &moves, hit.sink)? else {
            continue;
        };
        for place in path.as_slice() {
            if let Some(point) = scope.graph.points.get(*place as usize) {
                write_point(out, &tree, *point)?;
            }
        }
    }
    Ok(())
}

// The paths of the hits of a text in Python.
fn paths(alloc: Global, text: &str) -> Result<String, Fail> {
    let root = root_of(alloc, text, true)?;
    let sets = sets_of(alloc, &root)?;
    let tables = SetTables::of(alloc, &sets)?;
    let mut out = String::new(alloc);
    let hits = taint(alloc, &root, &sets)?;
    for hit in hits.as_slice() {
        write_paths(&mut out, alloc, &root, &tables, *hit)?;
    }
    Ok(out)
}

#[test]
fn least_of_the_shortest_paths(rt: HostRuntime) -> Result<(), Fail> {
    let rows = [
        "def f(req):\n    u = req.args.get(\"u\")\n    if ok:\n        u = clean(u)\n    cur.execute(u)\n ⇒ 16 Head 42 Head 74 Head",
        "def f(req):\n    a = 0\n    while go():\n        cur.execute(a)\n        a = req.args.get(\"u\")\n ⇒ 16 Head 26 Head 46 Head 69 Head 26 Head 46 Head",
    ];
    for row in rows {
        let (text, wanted) = parted(row);
        same(text, paths(rt.alloc(), text)?.as_str(), wanted)?;
    }
    Ok(())
}
