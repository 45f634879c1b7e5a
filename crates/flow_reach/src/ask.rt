//! Questions to the answer.

ghost use Rattle.std.specs.Prelude.{◌<◌, ◌↔◌, IsTrue};
ghost use Rattle.flow_reach.specs.Reached.{Tells};

use crate::bits;
use crate::reached::Reached;

impl Reached {
    /// Whether some path from the entry carries the fact to just before the point.
    pub fn has(&self, point: u32, fact: u32) -> bool
        requires point { point < self.now.points }
        requires fact { fact < self.now.facts }
        ensures { IsTrue result ↔ Tells self.now point fact }
    {
        let first = point as usize * bits::stride(self.facts);
        bits::has(&self.seen, first + fact as usize)
    }
}
