//! Trees in which many rules follow data.

ghost use Rattle.std.specs.Prelude.{◌≡◌, ℕ, [], IfOk, IfSome, IsTrue, Err};
ghost use Rattle.taint_flow.specs.declared.fault.TaintFault.TheVariants.{TooLarge};
ghost use Rattle.taint_flow.specs.Bounds.{AreBounds};
ghost use Rattle.taint_flow.specs.Taint.{AreHits};
ghost use Rattle.taint_flow.specs.Sizes.{NoneLarge, FirstLarge};

use crate::flow_tree::FlowTree;
use node_tree::{List, Memory, Node};
use std::alloc::Global;
use std::marker::Model;
use taint_flow::{Bounds, TaintFault, TaintHit, TaintSets, is_idle, lacks_one};

/// A tree in which many rules follow data. What that takes is made for the first rule that needs it, and kept. Contracts see the
/// tree.
#[derive(Drop)]
pub struct SharedFlow<'t> {
    root: &'t Node,
    bounds: Option<Bounds>,
    closer: Option<Bounds>,
    made: Option<FlowTree<'t>>,
}

impl<'t> Model for SharedFlow<'t> {
    ghost use Rattle.node_tree.specs.declared.node.Node.{Node as node};
    ghost use Rattle.node_tree.specs.contracts.node.Node as node_contracts;

    ghost Value = { node };

    ghost coded = { node_contracts.the_row.coded };

    ghost use Rattle.taint_judge.specs.Flows.{IsShared};

    ghost view = { λ f. f.root.now };

    ghost invariant = { λ f. IsShared f.root.now f.bounds f.closer f.made };
}

// The bounds of the tree, which are counted once.
fn bounds_of(root: &Node, counted: &mut Option<Bounds>) -> Option<Bounds>
    requires { IfSome counted.old (AreBounds root.now) }
    ensures bounds { IfSome result (AreBounds root.now) }
    ensures counted { IfSome counted.new (AreBounds root.now) }
{
    if counted.is_none() {
        *counted = Bounds::of(root);
    }
    *counted
}

// Closer bounds of the tree, if it has these, which are counted once.
fn closer_of(
    alloc: Global,
    root: &Node,
    bounds: Option<Bounds>,
    counted: &mut Option<Bounds>,
) -> Result<Option<Bounds>, Memory>
    requires bounds { IfSome bounds (AreBounds root.now) }
    requires counted { IfSome counted.old (AreBounds root.now) }
    ensures bounds { IfOk result (λ closer. IfSome closer (AreBounds root.now)) }
    ensures counted { IfSome counted.new (AreBounds root.now) }
{
    if counted.is_none() {
        if let Some(most) = bounds {
            *counted = Some(most.closer(alloc, root)?);
        }
    }
    Ok(*counted)
}

// The sinks that are hit, each with the least source that hits it, by what was made for the tree, or else by what is made here
// and kept.
fn hits_by<'t>(
    alloc: Global,
    root: &'t Node,
    made: &mut Option<FlowTree<'t>>,
    sets: &TaintSets,
) -> Result<List<TaintHit>, TaintFault>
    requires { IfSome made.old (λ tree. tree ≡ root.now) }
    ensures hits { IfOk result (AreHits root.now sets.now) }
    ensures fits { IfOk result (λ _. NoneLarge root.now sets.now) }
    ensures large { (at : ℕ) → result ≡ Err (TooLarge at) → FirstLarge root.now sets.now at }
    ensures made { IfSome made.new (λ tree. tree ≡ root.now) }
{
    if let Some(tree) = &*made {
        return tree.hits(alloc, sets);
    }
    let tree = FlowTree::of(alloc, root)?;
    let hits = tree.hits(alloc, sets);
    *made = Some(tree);
    hits
}

impl<'t> SharedFlow<'t> {
    /// The tree, for which nothing is made yet.
    pub fn of(root: &'t Node) -> SharedFlow<'t>
        ensures { result ≡ root.now }
    {
        SharedFlow {
            root,
            bounds: None,
            closer: None,
            made: None,
        }
    }

    /// What it takes to follow data in it, if it was made.
    pub fn made(&self) -> Option<&FlowTree<'t>>
        ensures { IfSome result (λ tree. tree.now ≡ self.now) }
    {
        match &self.made {
            Some(tree) => Some(tree),
            None => None,
        }
    }

    // Whether nothing is hit, and no unit is too large, as the bounds tell, or else the closer ones.
    fn is_idle(&mut self, alloc: Global, sets: &TaintSets) -> Result<bool, Memory>
        ensures hits { IfOk result (λ idle. IsTrue idle → AreHits self.old sets.now []) }
        ensures fits { IfOk result (λ idle. IsTrue idle → NoneLarge self.old sets.now) }
        ensures kept { self.new ≡ self.old }
    {
        let bounds = bounds_of(self.root, &mut self.bounds);
        if is_idle(bounds, sets) {
            return Ok(true);
        }
        if !lacks_one(sets) {
            return Ok(false);
        }
        let closer = closer_of(alloc, self.root, bounds, &mut self.closer)?;
        Ok(is_idle(closer, sets))
    }

    /// The sinks that are hit, each with the least source that hits it.
    pub fn hits(&mut self, alloc: Global, sets: &TaintSets) -> Result<List<TaintHit>, TaintFault>
        ensures hits { IfOk result (AreHits self.old sets.now) }
        ensures fits { IfOk result (λ _. NoneLarge self.old sets.now) }
        ensures large { (at : ℕ) → result ≡ Err (TooLarge at) → FirstLarge self.old sets.now at }
        ensures kept { self.new ≡ self.old }
    {
        if self.is_idle(alloc, sets)? {
            return Ok(List::new(alloc));
        }
        hits_by(alloc, self.root, &mut self.made, sets)
    }
}
