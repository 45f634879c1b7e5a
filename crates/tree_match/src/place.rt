//! A place inside which a search goes on.

use node_pool::Spot;
use node_tree::Node;

/// A part of a pattern and a kid of a node, inside which a search goes on, and from which part and at which kid it goes on after them.
#[derive(Clone, Copy)]
pub struct Inside<'p, 't> {
    pub part: &'t Node,
    pub kid: Spot<'p, 't>,
    /// Whether they are arguments of a call, of which some have a name: those without one match in order, the others in any order.
    pub arguments: bool,
    pub from: usize,
    pub at: usize,
}
