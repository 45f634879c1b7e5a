//! The statements of a unit as the flow sees them.

ghost use Rattle.std.specs.Prelude.{◌≡◌, IfOk, map};
ghost use Rattle.node_tree.specs.Numbers.{siblings};
ghost use Rattle.flow_graph.specs.Outline.{outlined};

use crate::forms::form_of;
use crate::labels::{Label, target_of};
use crate::parts::{number_at, parts_in};
use flow_edges::{Form, Statement};
use graph_form::Point;
use node_tree::{List, Memory, Node};
use std::alloc::Global;

// The statement that a node of that number is.
#[cycle(outline)]
fn outline(
    alloc: Global,
    depth: u32,
    labels: &[Label],
    exit: Point,
    at: u32,
    node: &Node,
) -> Result<Statement, Memory>
    ensures { IfOk result (λ s. s ≡ outlined labels.now exit depth (record { at = at; node = node.now })) }
{
    if depth == 0 {
        return Ok(Statement {
            number: at,
            form: Form::Absent,
            target: exit,
            kids: List::new(alloc),
        });
    }
    let parts = parts_in(at, node)?;
    let target = target_of(alloc, labels, exit, node)?;
    let kids = outline_each(alloc, depth - 1, labels, exit, parts.start, parts.nodes)?;
    Ok(Statement {
        number: at,
        form: form_of(node.kind),
        target,
        kids,
    })
}

/// The statements that these nodes are, of which the first has that number.
#[cycle(outline)]
pub fn outline_each(
    alloc: Global,
    depth: u32,
    labels: &[Label],
    exit: Point,
    at: u32,
    nodes: &[Node],
) -> Result<List<Statement>, Memory>
    ensures { IfOk result (λ ss. ss ≡ map (outlined labels.now exit depth) (siblings at nodes.now)) }
{
    let mut statements = List::new(alloc);
    let mut next = at;
    for (place, node) in nodes.iter().enumerate() {
        next = number_at(next, nodes, place)?;
        statements.push(outline(alloc, depth, labels, exit, next, node)?)?;
    }
    Ok(statements)
}
