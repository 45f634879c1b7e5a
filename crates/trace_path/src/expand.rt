//! What a class leads to.

ghost use Rattle.std.specs.Prelude.{◌<◌, ◌+◌, ℕ, OnOk};
ghost use Rattle.flow_reach.specs.Carried.{Fits};
ghost use Rattle.trace_path.specs.Queue.{Stands, Ascends, Leaves, Grows, groups};

use crate::queue::Queue;
use flow_reach::{Moves, bits};
use graph_form::Graph;
use node_tree::Memory;

impl Queue {
    /// Lengthens the paths of a class by each of these points in turn.
    pub fn expand(
        &mut self,
        graph: &Graph,
        moves: &Moves,
        head: u32,
        next: &[u32],
        turned: &[u32],
    ) -> Result<(), Memory>
        requires fits { Fits graph.now moves.now }
        requires stands { Stands graph.now moves.now head (λ i q. i < head) self.old }
        requires leaves { Leaves graph.now moves.now (groups self.old) head next.now turned.now }
        requires ascends { Ascends next.now }
        ensures stands { OnOk result
            (Stands graph.now moves.now (head + 1) (λ i q. i < head + 1) self.new) }
        ensures grows { OnOk result (Grows self.old self.new) }
    {
        let stride = bits::stride(moves.facts);
        for point in next {
            self.lengthen(head, *point, *point as usize * stride, turned)?;
        }
        Ok(())
    }
}
