//! The graph of a unit.

ghost use Rattle.std.specs.Prelude.{◌≡◌, Some, IfOk, slice_get};
ghost use Rattle.node_tree.specs.Numbers.{count_of, siblings};
ghost use Rattle.node_tree.specs.Tree.{pre_of};
ghost use Rattle.node_tree.specs.declared.node.Node.{Node as a_node};
ghost use Rattle.flow_graph.specs.Units.{body_at, body_of, points_in, points_of, Goes, GoesIn, IsGraphOf};

use crate::arrange::arranged;
use crate::labels::gather_each;
use crate::outline::outline_each;
use crate::parts::{Parts, after, behind};
use flow_edges::{points_each, transfers};
use graph_form::{Graph, Point, Role};
use node_tree::{List, Memory, Node};
use std::alloc::Global;
use std::slice;

// The body of the function of that number, if it is one.
fn function_body(at: u32, node: &Node) -> Result<Parts<'_>, Memory>
    ensures { IfOk result (λ p. siblings p.start p.nodes.now ≡ body_at at (Some node.now)) }
{
    if !node.kind.is_function() {
        return Ok(Parts {
            start: at,
            nodes: &[],
        });
    }
    let kids = node.kids.as_slice();
    let last = kids.len().saturating_sub(1);
    let first = after(at)?;
    let start = behind(first, &kids[..last])?;
    Ok(Parts {
        start,
        nodes: &kids[last..],
    })
}

// The body of the unit that a node of that number is.
fn body_in(unit: u32, node: &Node) -> Result<Parts<'_>, Memory>
    ensures { (root : a_node) → slice_get (pre_of root) unit ≡ Some node.now → IfOk result (λ p. siblings p.start p.nodes.now ≡ body_of root unit) }
{
    if unit == 0 {
        return Ok(Parts {
            start: 0,
            nodes: slice::from_ref(node),
        });
    }
    function_body(unit, node)
}

// The body of a unit.
fn unit_body(root: &Node, unit: u32) -> Result<Parts<'_>, Memory>
    ensures { IfOk result (λ p. siblings p.start p.nodes.now ≡ body_of root.now unit) }
{
    if unit == 0 {
        return Ok(Parts {
            start: 0,
            nodes: slice::from_ref(root),
        });
    }
    let mut walk = root.walk()?;
    let mut at: u32 = 0;
    while let Some(node) = walk.next() {
        if at == unit {
            return function_body(unit, node);
        }
        let Some(next) = at.checked_add(1) else {
            return Err(Memory);
        };
        at = next;
    }
    Ok(Parts {
        start: unit,
        nodes: &[],
    })
}

// The graph of a unit with that body.
fn graph_from(alloc: Global, depth: u32, unit: u32, body: Parts<'_>) -> Result<Graph, Memory>
    ensures { IfOk result (IsGraphOf (points_in depth unit (siblings body.entry.start body.entry.nodes.now)) (GoesIn depth unit (siblings body.entry.start body.entry.nodes.now))) }
{
    let entry = Point {
        node: unit,
        role: Role::Entry,
    };
    let exit = Point {
        node: unit,
        role: Role::Exit,
    };
    let mut labels = List::new(alloc);
    gather_each(alloc, depth, body.start, body.nodes, &mut labels)?;
    let statements = outline_each(
        alloc,
        depth,
        labels.as_slice(),
        exit,
        body.start,
        body.nodes,
    )?;
    let mut points = List::new(alloc);
    points.push(entry)?;
    points.push(exit)?;
    points_each(depth, statements.as_slice(), &mut points)?;
    let found = transfers(alloc, depth, entry, exit, statements.as_slice())?;
    arranged(alloc, points.as_slice(), found.as_slice())
}

/// The control-flow graph of a unit of a tree, which is 0 for the top level and else the number of a function. For another
/// number it is that of an empty unit. A tree with too many nodes for numbers of 32 bits counts as want of memory.
pub fn graph_of(root: &Node, unit: u32) -> Result<Graph, Memory>
    ensures { IfOk result (IsGraphOf (points_of root.now unit) (Goes root.now unit)) }
{
    let Some(depth) = root.count() else {
        return Err(Memory);
    };
    let body = unit_body(root, unit)?;
    graph_from(root.kids.alloc(), depth, unit, body)
}

/// The control-flow graph of the unit that a node is: the root of a tree, whose number is 0, or a function. `depth` is the number
/// of nodes of the tree. So all graphs of a tree cost one walk through it, where `graph_of` takes one for each.
pub fn graph_at(depth: u32, unit: u32, node: &Node) -> Result<Graph, Memory>
    ensures { (root : a_node) → count_of root ≡ depth → slice_get (pre_of root) unit ≡ Some node.now →
        IfOk result (IsGraphOf (points_of root unit) (Goes root unit)) }
{
    let body = body_in(unit, node)?;
    graph_from(node.kids.alloc(), depth, unit, body)
}
