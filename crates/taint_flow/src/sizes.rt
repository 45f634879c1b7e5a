//! How large units are, and how large they can be at most by the kinds of the nodes of a tree.

ghost use Rattle.std.specs.Prelude.{◌≡◌, ◌<◌, ◌+◌, ◌*◌, ◌↔◌, IsTrue, [], IfOk, IfSome};
ghost use Rattle.node_tree.specs.declared.node.Node.{Node as a_node};
ghost use Rattle.node_tree.specs.Tree.{pre_of};
ghost use Rattle.taint_flow.specs.Bounds.{AreBounds, AreCounted, own_points as points_spec, own_names as names_spec};
ghost use Rattle.taint_flow.specs.Sizes.{NoneLarge};
ghost use Rattle.taint_flow.specs.Taint.{AreHits};

use crate::different::count_names;
use node_tree::{Kind, Memory, Node};
use std::alloc::Global;
use taint_tables::TaintSets;

// The most points times facts of a unit.
const MOST: usize = 50_000_000;

/// Whether a unit with so many points, names and sources is too large.
pub fn is_large(points: usize, names: usize, sources: usize) -> bool
    ensures { IsTrue result ↔ (50000000 < points * (names * sources + 1)) }
{
    let Some(pairs) = names.checked_mul(sources) else {
        return points > 0;
    };
    if pairs >= MOST {
        return points > 0;
    }
    if points > MOST {
        return true;
    }
    points * (pairs + 1) > MOST
}

/// How many points the nodes of a tree have, and how many of them are names, or how many different names they are. No unit of the
/// tree has more names, or more points beside its entry and its exit.
#[derive(Clone, Copy)]
pub struct Bounds {
    points: u32,
    names: u32,
}

// How many points a node of that kind has.
fn own_points(kind: Kind) -> u32
    ensures { result ≡ points_spec kind }
{
    match kind {
        Kind::ForC => 3,
        Kind::Handler => 1,
        _ => u32::from(kind.is_statement()),
    }
}

// How many names it is.
fn own_names(kind: Kind) -> u32
    ensures { result ≡ names_spec kind }
{
    match kind {
        Kind::Name => 1,
        Kind::Id => 1,
        _ => 0,
    }
}

// How many points a node and those below it have, and how many of them are names, where the numbers fit.
fn counted(node: &Node) -> Option<Bounds>
    ensures { IfSome result (AreCounted (pre_of node.now)) }
{
    let mut points = own_points(node.kind);
    let mut names = own_names(node.kind);
    for kid in node.kids.as_slice() {
        let below = counted(kid)?;
        points = points.checked_add(below.points)?;
        names = names.checked_add(below.names)?;
    }
    Some(Bounds { points, names })
}

impl Bounds {
    /// Those of a tree, where the numbers fit.
    pub fn of(root: &Node) -> Option<Bounds>
        ensures { IfSome result (AreBounds root.now) }
    {
        counted(root)
    }

    /// The same with the number of different names, of which a large tree has far fewer.
    pub fn closer(self, alloc: Global, root: &Node) -> Result<Bounds, Memory>
        requires { AreBounds root.now self }
        ensures { IfOk result (AreBounds root.now) }
    {
        Ok(Bounds {
            points: self.points,
            names: count_names(alloc, root)?,
        })
    }
}

/// Whether there are no sources or no sinks.
pub fn lacks_one(sets: &TaintSets) -> bool
    ensures { (root : a_node) → IsTrue result → AreHits root sets.now [] }
{
    sets.sources.len() == 0 || sets.sinks.len() == 0
}

/// Whether there is nothing to follow: no sources or no sinks, in a tree with these bounds, if any, by which no unit is too large.
pub fn is_idle(bounds: Option<Bounds>, sets: &TaintSets) -> bool
    ensures hits { (root : a_node) → IsTrue result → AreHits root sets.now [] }
    ensures fits { (root : a_node) → IfSome bounds (AreBounds root) → IsTrue result →
        NoneLarge root sets.now }
{
    if !lacks_one(sets) {
        return false;
    }
    match bounds {
        Some(most) => {
            let sources = sets.sources.len();
            !is_large(most.points as usize + 2, most.names as usize, sources)
        }
        None => false,
    }
}
