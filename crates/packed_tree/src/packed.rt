//! Trees that are kept as bytes.

ghost use Rattle.std.specs.Prelude.{◌≡◌, IfOk};
ghost use Rattle.packed_tree.specs.Packed.{TreeOf, TreeOf-prop};

use node_tree::{Memory, Node};
use std::alloc::Global;
use std::marker::Model;
use tree_code::{Front, Look, add_tree};

/// A tree that is kept as its bytes, which take a fraction of the memory. Contracts see the tree.
#[derive(Drop)]
pub struct PackedTree {
    bytes: Vec<u8>,
    ghost is_of: { TreeOf bytes.items } by { TreeOf-prop bytes.items },
}

impl Model for PackedTree {
    ghost use Rattle.node_tree.specs.declared.node.Node.{Node as node};
    ghost use Rattle.node_tree.specs.contracts.node.Node as nodes;

    ghost Value = { node };

    ghost coded = { nodes.the_row.coded };

    ghost view = { λ p. p.is_of.tree };
}

impl PackedTree {
    /// Writes a tree. `Memory` is also the answer where a length in it passes the largest `u32`.
    pub fn of(alloc: Global, tree: &Node) -> Result<PackedTree, Memory>
        ensures { IfOk result (λ packed. packed ≡ tree.now) }
    {
        let mut bytes = Vec::new(alloc);
        add_tree(&mut bytes, tree, Look::Whole)?;
        bytes.shrink_to_fit();
        Ok(PackedTree { bytes })
    }

    /// Reads the tree back.
    pub fn tree(&self, alloc: Global) -> Result<Node, Memory>
        ensures { IfOk result (λ tree. tree ≡ self.now) }
    {
        let mut front = Front {
            rest: self.bytes.as_slice(),
        };
        front.tree(alloc)
    }
}
