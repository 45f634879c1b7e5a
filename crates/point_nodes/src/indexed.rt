//! Trees whose nodes are found by their numbers.

ghost use Rattle.std.specs.Prelude.{◌≡◌, length, IfOk};
ghost use Rattle.std.specs.Option.{option_map};
ghost use Rattle.node_tree.specs.Tree.{pre_of};
ghost use Rattle.node_pool.specs.Spots.{seen};
ghost use Rattle.point_nodes.specs.Tops.{node_at};

use node_pool::{NodePool, Spot, spot_at};
use node_tree::{Memory, Node};
use std::alloc::Global;
use std::marker::Model;

/// A tree whose nodes are found by their numbers. Contracts see its nodes in preorder.
#[derive(Drop)]
pub struct IndexedTree<'t> {
    pool: NodePool<'t>,
    count: u32,
}

impl<'t> Model for IndexedTree<'t> {
    ghost use Rattle.std.specs.Prelude.{◌≡◌, List, length};
    ghost use Rattle.node_tree.specs.declared.node.Node.{Node as node};
    ghost use Rattle.std.specs.Coded.{coded_list};
    ghost use Rattle.node_tree.specs.contracts.node.Node as nodes;

    ghost Value = { List node };

    ghost coded = { coded_list nodes.the_row.coded };

    ghost view = { λ t. t.pool.nodes };

    ghost invariant = { λ t. length t.pool.nodes ≡ t.count };
}

impl<'t> IndexedTree<'t> {
    /// The tree of a root. A count of nodes that doesn't fit counts as want of memory.
    pub fn of(alloc: Global, root: &'t Node) -> Result<IndexedTree<'t>, Memory>
        ensures { IfOk result (λ tree. tree ≡ pre_of root.now) }
    {
        let Some(count) = root.count() else {
            return Err(Memory);
        };
        let mut pool = NodePool::with_room(alloc, count)?;
        pool.place(root);
        Ok(IndexedTree { pool, count })
    }

    /// How many nodes it has.
    pub fn count(&self) -> u32
        ensures { result ≡ length self.now }
    {
        self.count
    }

    /// The node of that number, if there is one.
    pub fn node(&self, number: u32) -> Option<Spot<'_, 't>>
        ensures { option_map seen result ≡ node_at self.now number }
    {
        if number >= self.count {
            return None;
        }
        Some(spot_at(&self.pool, number))
    }
}
