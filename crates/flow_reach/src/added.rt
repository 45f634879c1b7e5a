//! The facts that points add.

ghost use Rattle.std.specs.Prelude.{IfOk};
ghost use Rattle.flow_reach.specs.Adds.{AreAdds};

use crate::moves::Moves;
use crate::pairs::sorted_pairs;
use node_tree::Memory;
use std::alloc::Global;

/// For each point the numbers of the pairs that it adds, in order.
pub fn adds(alloc: Global, moves: &Moves) -> Result<Vec<Vec<u64>>, Memory>
    ensures { IfOk result (λ adds. AreAdds moves.now.rows adds.items) }
{
    let mut adds = Vec::new(alloc);
    for row in moves.rows.as_slice() {
        let pairs = sorted_pairs(alloc, row.adds.as_slice())?;
        adds.push(pairs)?;
    }
    Ok(adds)
}
