//! The pool.

ghost use Rattle.std.specs.Prelude.{◌≡◌, ◌+◌, ◌^◌, ◌<◌, ◌≤◌, ◌++◌, [], length, take, drop, IfOk, IfSome};
ghost use Rattle.node_tree.specs.Tree.{pre_of, kids_of};
ghost use Rattle.node_pool.specs.Preorder.{counted, starts, IsAt};
ghost use Rattle.node_pool.specs.Runs.{runs_of};
ghost use Rattle.node_tree.specs.Numbers.{count_of};
ghost use Rattle.node_tree.specs.declared.node.Node.{Node as node};

use crate::kids::PoolKids;
use crate::put::put;
use crate::runs::PoolRuns;
use crate::walk::PoolWalk;
use node_tree::{Memory, Node};
use std::alloc::Global;
use std::marker::Model;

/// A node that was placed, and how many nodes its tree has.
#[derive(Clone, Copy)]
pub struct Entry<'t> {
    pub node: &'t Node,
    pub size: u32,
}

/// Trees, one after the other, which contracts see as their nodes in preorder and the room that is left. The memory is
/// taken when it is made.
#[derive(Drop)]
pub struct NodePool<'t> {
    entries: Vec<Entry<'t>>,
    room: u32,
}

impl<'t> Model for NodePool<'t> {
    ghost use Rattle.node_pool.specs.Pool.{Pool, pool_code};

    ghost Value = { Pool };

    ghost coded = { pool_code };

    ghost use Rattle.std.specs.Prelude.{◌-◌, length, vec_capacity};
    ghost use Rattle.node_pool.specs.Entries.{nodes_in, IsPool};

    ghost view = { λ p. record { nodes = nodes_in p.entries.items; spare = p.room - length p.entries.items } };

    ghost invariant = { λ p. IsPool p.entries.items p.room (vec_capacity p.entries) };
}

impl<'t> NodePool<'t> {
    /// A pool without trees that has room for so many nodes.
    pub fn with_room(alloc: Global, nodes: u32) -> Result<NodePool<'t>, Memory>
        ensures empty { IfOk result (λ p. p.nodes ≡ []) }
        ensures room { IfOk result (λ p. p.spare ≡ nodes) }
    {
        Ok(NodePool {
            entries: Vec::with_capacity(alloc, nodes as usize)?,
            room: nodes,
        })
    }

    /// Puts the tree after those that are there, and gives the number of its first node.
    pub fn place(&mut self, tree: &'t Node) -> u32
        requires { count_of tree.now ≤ self.old.spare }
        ensures first { result ≡ length self.old.nodes }
        ensures nodes { self.new.nodes ≡ self.old.nodes ++ pre_of tree.now }
        ensures room { self.new.spare + count_of tree.now ≡ self.old.spare }
    {
        let first = self.entries.len() as u32;
        put(&mut self.entries, tree);
        first
    }

    /// Takes all trees away, which gives their room back.
    pub fn clear(&mut self)
        ensures nodes { self.new.nodes ≡ [] }
        ensures room { self.new.spare ≡ self.old.spare + length self.old.nodes }
    {
        self.entries.clear();
    }

    /// The node of that number.
    pub fn node(&self, at: u32) -> &'t Node
        requires { at < length self.now.nodes }
        ensures is { IsAt self.now.nodes at result.now }
        ensures below { take (count_of result.now) (drop at self.now.nodes) ≡ pre_of result.now }
        ensures small { length self.now.nodes < 2 ^ 32 }
    {
        self.entries[at as usize].node
    }

    /// How many nodes the tree of that number has.
    pub fn size(&self, at: u32) -> u32
        requires { at < length self.now.nodes }
        ensures size { (n : node) → IsAt self.now.nodes at n → result ≡ count_of n }
        ensures fits { at + result < 2 ^ 32 }
        ensures below { (n : node) → IsAt self.now.nodes at n → take result (drop at self.now.nodes) ≡ pre_of n }
    {
        self.entries[at as usize].size
    }

    /// The numbers of the nodes of the tree of that number, in preorder.
    pub fn walk(&self, at: u32) -> PoolWalk
        requires { at < length self.now.nodes }
        ensures { (n : node) → IsAt self.now.nodes at n → result ≡ counted at (count_of n) }
    {
        PoolWalk::from(at, self.size(at))
    }

    /// The numbers of the kids of the node of that number.
    pub fn kids(&self, at: u32) -> PoolKids<'_, 't>
        requires { at < length self.now.nodes }
        ensures { (n : node) → IsAt self.now.nodes at n → result ≡ starts (at + 1) (kids_of n) }
    {
        let node = self.node(at);
        PoolKids::from(self, at + 1, node.kids.as_slice())
    }

    /// The runs of at least one kid of the node of that number, each as its first number and the number of kids.
    pub fn runs(&self, at: u32) -> PoolRuns<'_, 't>
        requires { at < length self.now.nodes }
        ensures { (n : node) → IsAt self.now.nodes at n → result ≡ runs_of (at + 1) (kids_of n) }
    {
        let node = self.node(at);
        PoolRuns::from(self, at + 1, node.kids.as_slice())
    }
}
