//! Names that are known to hold a literal.

use crate::memory::Memory;
use crate::node::Node;
use crate::twin::Twin;

/// A name that is known to hold a literal: the number of its node in preorder, from 0, and the literal.
#[derive(Drop)]
pub struct Known {
    pub at: u32,
    pub literal: Node,
}

impl Twin for Known {
    fn copy(&self) -> Result<Known, Memory> {
        Ok(Known {
            at: self.at,
            literal: self.literal.copy()?,
        })
    }
}
