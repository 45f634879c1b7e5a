//! The parts of nodes, and their numbers.

ghost use Rattle.std.specs.Prelude.{◌≡◌, ◌+◌, ◌-◌, ◌<◌, ◌≤◌, ℕ, length, take, drop, IfOk};
ghost use Rattle.node_tree.specs.Numbers.{count_of, siblings};
ghost use Rattle.node_tree.specs.Tree.{pre_all, kids_of, kind_of};
ghost use Rattle.flow_graph.specs.Outline.{parts_of};
ghost use Rattle.flow_graph.specs.Ranges.{IsRange};

use crate::forms::{first_part, is_row, part_count};
use node_tree::{Kind, Memory, Node};

/// The number behind a tree. A number that doesn't fit counts as want of memory.
pub fn past(at: u32, node: &Node) -> Result<u32, Memory>
    ensures { IfOk result (λ end. end ≡ at + count_of node.now) }
{
    let Some(count) = node.count() else {
        return Err(Memory);
    };
    match at.checked_add(count) {
        Some(end) => Ok(end),
        None => Err(Memory),
    }
}

/// The next number.
pub fn after(at: u32) -> Result<u32, Memory>
    ensures { IfOk result (λ next. next ≡ at + 1) }
{
    match at.checked_add(1) {
        Some(next) => Ok(next),
        None => Err(Memory),
    }
}

/// The number behind these trees, where the first of them has this one.
pub fn behind(at: u32, nodes: &[Node]) -> Result<u32, Memory>
    ensures { IfOk result (λ end. end ≡ at + length (pre_all nodes.now)) }
{
    let mut end = at;
    for node in nodes {
        end = past(end, node)?;
    }
    Ok(end)
}

/// The number of the node at that place, where the one before it has this number, or the first one where there is none. So the last
/// node's own nodes aren't counted.
pub fn number_at(before: u32, nodes: &[Node], at: usize) -> Result<u32, Memory>
    requires { at < length nodes.now }
    ensures { (first : ℕ) → before ≡ first + length (pre_all (take (at - 1) nodes.now)) →
        IfOk result (λ number. number ≡ first + length (pre_all (take at nodes.now))) }
{
    if at == 0 {
        return Ok(before);
    }
    past(before, &nodes[at - 1])
}

// From which kid on, and up to which, the kids of a node of a kind are parts.
fn range_of(kind: Kind, count: usize) -> (usize, usize)
    ensures { IsRange kind count result.0 result.1 }
{
    if is_row(kind) {
        return (0, count);
    }
    let from = first_part(kind);
    let to = from + part_count(kind);
    (from.min(count), to.min(count))
}

/// The parts of a node, one after the other, and the number of the first.
#[derive(Clone, Copy)]
pub struct Parts<'t> {
    pub start: u32,
    pub nodes: &'t [Node],
}

/// The parts of a node that has this number.
pub fn parts_in<'t>(at: u32, node: &'t Node) -> Result<Parts<'t>, Memory>
    ensures { IfOk result (λ p. siblings p.start p.nodes.now ≡ parts_of (record { at = at; node = node.now })) }
{
    let kids = node.kids.as_slice();
    let range = range_of(node.kind, kids.len());
    let first = after(at)?;
    let start = behind(first, &kids[..range.0])?;
    Ok(Parts {
        start,
        nodes: &kids[range.0..range.1],
    })
}
