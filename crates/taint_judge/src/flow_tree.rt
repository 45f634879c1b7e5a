//! Trees in which data is followed.

ghost use Rattle.std.specs.Prelude.{◌≡◌, ℕ, IfOk, Err};
ghost use Rattle.node_tree.specs.Tree.{pre_of};
ghost use Rattle.unit_names.specs.Scopes.{AreScopes};
ghost use Rattle.taint_flow.specs.declared.fault.TaintFault.TheVariants.{TooLarge};
ghost use Rattle.taint_flow.specs.Taint.{AreHits};
ghost use Rattle.taint_flow.specs.Sizes.{NoneLarge, FirstLarge};

use node_tree::{List, Memory, Node};
use point_nodes::IndexedTree;
use std::alloc::Global;
use std::marker::Model;
use taint_flow::{TaintFault, TaintHit, TaintSets, taint_in};
use unit_names::{Scope, scopes_in};

/// A tree in which many rules follow data: its nodes are found by number, and its units have their graphs. Contracts see the tree.
#[derive(Drop)]
pub struct FlowTree<'t> {
    root: &'t Node,
    nodes: IndexedTree<'t>,
    units: List<Scope>,
}

impl<'t> Model for FlowTree<'t> {
    ghost use Rattle.node_tree.specs.declared.node.Node.{Node as node};
    ghost use Rattle.node_tree.specs.contracts.node.Node as node_contracts;

    ghost Value = { node };

    ghost coded = { node_contracts.the_row.coded };

    ghost use Rattle.taint_judge.specs.Flows.{IsFlowOf};

    ghost view = { λ f. f.root.now };

    ghost invariant = { λ f. IsFlowOf f.root.now f.nodes f.units };
}

impl<'t> FlowTree<'t> {
    /// The tree, ready for data to be followed in it.
    pub fn of(alloc: Global, root: &'t Node) -> Result<FlowTree<'t>, Memory>
        ensures { IfOk result (λ tree. tree ≡ root.now) }
    {
        let nodes = IndexedTree::of(alloc, root)?;
        let units = scopes_in(&nodes, root)?;
        Ok(FlowTree { root, nodes, units })
    }

    /// Its nodes, which are found by their numbers.
    pub fn nodes(&self) -> &IndexedTree<'t>
        ensures { result.now ≡ pre_of self.now }
    {
        &self.nodes
    }

    /// Its units with their graphs.
    pub fn units(&self) -> &[Scope]
        ensures { AreScopes self.now result.now }
    {
        self.units.as_slice()
    }

    /// The sinks that are hit, each with the least source that hits it.
    pub fn hits(&self, alloc: Global, sets: &TaintSets) -> Result<List<TaintHit>, TaintFault>
        ensures hits { IfOk result (AreHits self.now sets.now) }
        ensures fits { IfOk result (λ _. NoneLarge self.now sets.now) }
        ensures large { (at : ℕ) → result ≡ Err (TooLarge at) → FirstLarge self.now sets.now at }
    {
        taint_in(alloc, self.root, &self.nodes, self.units.as_slice(), sets)
    }
}
