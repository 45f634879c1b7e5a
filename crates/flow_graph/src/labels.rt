//! The labels of a unit.

ghost use Rattle.std.specs.Prelude.{◌≡◌, ◌++◌, IfOk, OnOk};
ghost use Rattle.std.specs.List.{flat_map};
ghost use Rattle.node_tree.specs.Numbers.{siblings};
ghost use Rattle.node_tree.specs.Tree.{kids_of, kind_of};
ghost use Rattle.flow_graph.specs.Outline.{labels_in, labels_here, name_among, target_among, target_by};

use crate::parts::{number_at, parts_in};
use graph_form::{Point, Role};
use node_tree::{Kind, List, Memory, Node, Text, Twin};
use std::alloc::Global;

/// A label: its name and the number of its node.
#[derive(Drop)]
pub struct Label {
    pub name: Text,
    pub at: u32,
}

// The name that a label or a goto has.
fn name_of(alloc: Global, kids: &[Node]) -> Result<Text, Memory>
    ensures { IfOk result (λ name. name ≡ name_among kids.now) }
{
    match kids.first() {
        Some(kid) => kid.text.copy(),
        None => Ok(Text::new(alloc)),
    }
}

// Adds a node that is a label.
fn add_label(alloc: Global, at: u32, node: &Node, labels: &mut List<Label>) -> Result<(), Memory>
    ensures { OnOk result (labels.new ≡ labels.old ++ labels_here (record { at = at; node = node.now }) (kind_of node.now)) }
{
    match node.kind {
        Kind::Label => labels.push(Label {
            name: name_of(alloc, node.kids.as_slice())?,
            at,
        }),
        _ => Ok(()),
    }
}

// Adds the labels of a statement and of those below it.
#[cycle(labels)]
fn gather(
    alloc: Global,
    depth: u32,
    at: u32,
    node: &Node,
    labels: &mut List<Label>,
) -> Result<(), Memory>
    ensures { OnOk result (labels.new ≡ labels.old ++ labels_in depth (record { at = at; node = node.now })) }
{
    if depth == 0 {
        return Ok(());
    }
    let parts = parts_in(at, node)?;
    add_label(alloc, at, node, labels)?;
    gather_each(alloc, depth - 1, parts.start, parts.nodes, labels)?;
    Ok(())
}

/// Adds the labels of statements, of which the first has this number, and of those below them.
#[cycle(labels)]
pub fn gather_each(
    alloc: Global,
    depth: u32,
    at: u32,
    nodes: &[Node],
    labels: &mut List<Label>,
) -> Result<(), Memory>
    ensures { OnOk result (labels.new ≡ labels.old ++ flat_map (labels_in depth) (siblings at nodes.now)) }
{
    let mut next = at;
    for (place, node) in nodes.iter().enumerate() {
        next = number_at(next, nodes, place)?;
        gather(alloc, depth, next, node, labels)?;
    }
    Ok(())
}

// Where a jump to a name goes.
fn target_named(labels: &[Label], exit: Point, name: &Text) -> Point
    ensures { result ≡ target_among labels.now exit name.now }
{
    for label in labels {
        if label.name.is_same(name) {
            return Point {
                node: label.at,
                role: Role::Head,
            };
        }
    }
    exit
}

/// Where the node jumps if it is a goto. What is none never asks.
pub fn target_of(alloc: Global, labels: &[Label], exit: Point, node: &Node) -> Result<Point, Memory>
    ensures { IfOk result (λ p. p ≡ target_by labels.now exit node.now (kind_of node.now)) }
{
    match node.kind {
        Kind::Goto => {
            let name = name_of(alloc, node.kids.as_slice())?;
            Ok(target_named(labels, exit, &name))
        }
        _ => Ok(exit),
    }
}
