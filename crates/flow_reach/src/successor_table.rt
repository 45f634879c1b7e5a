//! The points to which edges lead.

ghost use Rattle.std.specs.Prelude.{◌<◌, ℕ, length, IfOk};
ghost use Rattle.graph_form.specs.Edges.{HasEdge};
ghost use Rattle.flow_reach.specs.Spread.{IsTable};

use graph_form::Graph;
use node_tree::Memory;
use std::alloc::Global;

/// The points to which edges lead from each point.
pub fn successors(alloc: Global, graph: &Graph) -> Result<Vec<Vec<u32>>, Memory>
    requires { (from to : ℕ) → HasEdge graph.now from to → from < length graph.now.points }
    ensures { IfOk result (λ table. IsTable graph.now table.items) }
{
    let mut table: Vec<Vec<u32>> = Vec::new(alloc);
    for _ in 0..graph.points.len() {
        table.push(Vec::new(alloc))?;
    }
    for edge in graph.edges.as_slice() {
        table[edge.from as usize].push(edge.to)?;
    }
    Ok(table)
}
