//! The nodes below a node in a pool.

ghost use Rattle.std.specs.Prelude.{◌≡◌, ◌+◌, ◌^◌, ◌<◌, length, slice_index_or, IfOk};
ghost use Rattle.node_pool.specs.Preorder.{IsAt};
ghost use Rattle.node_tree.specs.Numbers.{count_of, kids_at, pre_at};
ghost use Rattle.node_pool.specs.Spots.{seen, all_seen};

use crate::pool::NodePool;
use crate::spot::Spot;
use node_tree::{List, Memory};
use std::alloc::Global;

/// The node of that number.
pub fn spot_at<'p, 't>(pool: &'p NodePool<'t>, at: u32) -> Spot<'p, 't>
    requires { at < length pool.now.nodes }
    ensures number { result.at ≡ at }
    ensures is { IsAt pool.now.nodes at result.node.now }
{
    let node = pool.node(at);
    Spot { at, node, pool }
}

impl<'p, 't> Spot<'p, 't> {
    /// How many nodes the tree has.
    pub fn size(self) -> u32
        ensures size { result ≡ count_of (seen self.entry).node }
        ensures fits { self.entry.at + result < 2 ^ 32 }
    {
        self.pool.size(self.at)
    }

    /// The node so many numbers on.
    pub fn below(self, further: u32) -> Spot<'p, 't>
        requires { further < count_of (seen self).node }
        ensures { seen result ≡ slice_index_or (pre_at (seen self.entry)) further (seen result) }
    {
        spot_at(self.pool, self.at + further)
    }

    /// The kids.
    pub fn kids(self, alloc: Global) -> Result<List<Spot<'p, 't>>, Memory>
        ensures { IfOk result (λ kids. all_seen kids ≡ kids_at (seen self.entry)) }
    {
        let mut kids = List::new(alloc);
        let mut next = self.at + 1;
        for node in self.node.kids.as_slice() {
            let kid = Spot {
                at: next,
                node,
                pool: self.pool,
            };
            kids.push(kid)?;
            next += kid.size();
        }
        Ok(kids)
    }
}
