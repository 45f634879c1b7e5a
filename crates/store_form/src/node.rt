//! Nodes that are read.

ghost use Rattle.std.specs.Prelude.{◌≡◌, [], IfOk};
ghost use Rattle.store_form.specs.Form.{node_bytes, IsNodeWithin};
ghost use Rattle.store_form.specs.Takes.{Gives, Finds};

use crate::fault::FormFault;
use crate::front::Front;
use node_tree::{List, Memory, Node};
use std::alloc::Global;

/// The most levels that a node may have.
pub const MOST_LEVELS: u32 = 509;

/// Room for so many items, but for a few alone before they are there, since bytes may say what is untrue.
pub fn room_for<T: Drop>(alloc: Global, items: u32) -> Result<Vec<T>, Memory>
    ensures { IfOk result (λ v. v.items ≡ []) }
{
    Ok(Vec::with_capacity(alloc, items.min(16) as usize)?)
}

impl Front<'_> {
    /// Takes a node off the front that has at most so many levels.
    pub fn node(&mut self, alloc: Global, levels: u32) -> Result<Node, FormFault>
        ensures given { Gives (IsNodeWithin levels) node_bytes
            self.old.rest.now result self.new.rest.now }
        ensures found { Finds (IsNodeWithin levels) node_bytes
            self.old.rest.now result self.new.rest.now }
    {
        if levels == 0 {
            return Err(FormFault::NoForm);
        }
        let head = self.head(alloc)?;
        let mut kids = room_for(alloc, head.kids)?;
        for _i in 0..head.kids {
            let kid = self.node(alloc, levels - 1)?;
            kids.push(kid)?;
        }
        kids.shrink_to_fit();
        Ok(Node {
            kind: head.kind,
            text: head.text,
            kids: List::from_vec(kids),
            span: head.span,
        })
    }
}
