//! Units with their graphs.

ghost use Rattle.std.specs.Prelude.{◌≡◌, IfOk};
ghost use Rattle.node_tree.specs.Numbers.{count_of};
ghost use Rattle.node_tree.specs.Tree.{pre_of};
ghost use Rattle.flow_graph.specs.Units.{points_of, Goes, IsGraphOf};
ghost use Rattle.unit_names.specs.Scopes.{AreScopes};

use flow_graph::{Graph, graph_at, graph_of, units};
use node_tree::{List, Memory, Node};
use point_nodes::IndexedTree;

/// A unit: its number, and its control-flow graph.
#[derive(Drop)]
pub struct Scope {
    pub unit: u32,
    pub graph: Graph,
}

// The graph of a unit, where the tree is this one and has that many nodes. A node that is there isn't looked for again.
fn graph_in(tree: &IndexedTree<'_>, root: &Node, depth: u32, unit: u32) -> Result<Graph, Memory>
    requires nodes { tree.now ≡ pre_of root.now }
    requires depth { count_of root.now ≡ depth }
    ensures { IfOk result (IsGraphOf (points_of root.now unit) (Goes root.now unit)) }
{
    match tree.node(unit) {
        Some(spot) => graph_at(depth, unit, spot.node),
        None => graph_of(root, unit),
    }
}

/// The units of a file, each with its graph.
pub fn scopes_of(root: &Node) -> Result<List<Scope>, Memory>
    ensures { IfOk result (AreScopes root.now) }
{
    let tree = IndexedTree::of(root.kids.alloc(), root)?;
    scopes_in(&tree, root)
}

/// The same of a file whose nodes are found by their numbers.
pub fn scopes_in(tree: &IndexedTree<'_>, root: &Node) -> Result<List<Scope>, Memory>
    requires { tree.now ≡ pre_of root.now }
    ensures { IfOk result (AreScopes root.now) }
{
    let depth = tree.count();
    let numbers = units(root)?;
    let mut scopes = List::new(root.kids.alloc());
    for unit in numbers.as_slice() {
        let graph = graph_in(tree, root, depth, *unit)?;
        scopes.push(Scope { unit: *unit, graph })?;
    }
    Ok(scopes)
}
