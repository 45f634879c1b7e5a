//! A choice among nodes.

use node_match::Constants;
use node_pool::Spot;
use node_tree::Node;

/// Patterns that choose among nodes: each that chooses takes a node that none before it took.
#[derive(Clone, Copy)]
pub struct Choice<'c, 'k, 'p, 't> {
    pub known: Constants<'c>,
    pub patterns: &'t [Node],
    pub nodes: &'k [Spot<'p, 't>],
    /// Whether the patterns with a name choose; else all but `...` do.
    pub named: bool,
    /// Whether nodes may be left over.
    pub loose: bool,
    /// With more bindings than so many the search may stop.
    pub most: usize,
}
