//! The points of a class.

ghost use Rattle.std.specs.Prelude.{◌≡◌, ◌<◌, reverse, length, IfOk, List as list, ℕ};
ghost use Rattle.trace_path.specs.Queue.{IsRoute, Descends, groups};

use crate::queue::Queue;
use node_tree::{List, Memory};
use std::alloc::Global;

impl Queue {
    /// The points of the paths of a class, from the entry on.
    pub fn walk(&self, alloc: Global, from: usize) -> Result<List<u32>, Memory>
        requires descends { Descends (groups self.now) }
        requires inside { from < length self.now.classes.items }
        ensures { IfOk result (λ points.
            (route : list ℕ) × IsRoute (groups self.now) from route × (points ≡ reverse route)) }
    {
        let mut points = List::new(alloc);
        let mut at = from;
        while at > 0 {
            points.push(self.classes[at].point)?;
            at = self.classes[at].parent as usize;
        }
        points.push(self.classes[0].point)?;
        points.reverse();
        Ok(points)
    }
}
