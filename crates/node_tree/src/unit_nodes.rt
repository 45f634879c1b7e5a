//! The nodes of a unit: of a file without the bodies of its functions, or of one function without those within it.

ghost use Rattle.std.specs.Prelude.{◌≡◌, IfOk};
ghost use Rattle.std.specs.Iterator.{YieldsFirstRef, item_count};
ghost use Rattle.node_tree.specs.Units.{unit_of};

use crate::memory::Memory;
use crate::node::Node;
use crate::walk::{advance, put};
use std::marker::Model;

/// A walk through the nodes of a unit in preorder, which contracts see as the nodes that are left. Its stack is reserved
/// when it is made, so that going on takes no memory.
#[derive(Drop)]
pub struct UnitNodes<'t> {
    unit: Option<&'t Node>,
    stack: Vec<&'t [Node]>,
}

impl<'t> Model for UnitNodes<'t> {
    ghost use Rattle.std.specs.Prelude.{List, ◌++◌, vec_capacity, false};
    ghost use Rattle.node_tree.specs.declared.node.Node.{Node as node};
    ghost use Rattle.node_tree.specs.Walk.{slices, rest_of, HasRoom, opening};
    ghost use Rattle.std.specs.Coded.{coded_list};
    ghost use Rattle.node_tree.specs.contracts.node.Node as nodes;

    ghost Value = { List node };

    ghost coded = { coded_list nodes.the_row.coded };

    ghost view = { λ w. opening w.unit ++ rest_of false (slices w.stack.items) };

    ghost invariant = { λ w. HasRoom (vec_capacity w.stack) (slices w.stack.items) };
}

impl<'t> Iterator for UnitNodes<'t> {
    type Item = &'t Node;

    ghost next_gives = { YieldsFirstRef (λ w. w) };

    ghost remaining = { item_count (λ w. w) };

    fn next(&mut self) -> Option<&'t Node> {
        if let Some(unit) = self.unit {
            self.unit = None;
            return Some(unit);
        }
        advance(&mut self.stack, false)
    }
}

impl Node {
    /// A walk through this node and all below it in preorder, but for the bodies of the functions below it. A function's
    /// name, decorators, parameters and types count, and its body is its last kid.
    pub fn unit_nodes(&self) -> Result<UnitNodes<'_>, Memory>
        ensures { IfOk result (λ w. w ≡ unit_of self.now) }
    {
        let Some(depth) = self.height() else {
            return Err(Memory);
        };
        let mut stack = Vec::with_capacity(self.kids.alloc(), depth)?;
        put(&mut stack, self.kids.as_slice());
        Ok(UnitNodes {
            unit: Some(self),
            stack,
        })
    }
}
