//! What taints, what is hit, and what lets nothing through.

use node_tree::{List, Span};

/// A carry: where a node of a point has the range, taint goes from the expression with the one span to the one with the other.
#[derive(Clone, Copy)]
pub struct Carry {
    pub range: Span,
    pub source: Span,
    pub target: Span,
}

/// The ranges of sources, sinks and sanitizers, and the carries.
#[derive(Drop)]
pub struct TaintSets {
    pub sources: List<Span>,
    pub sinks: List<Span>,
    pub sanitizers: List<Span>,
    pub carries: List<Carry>,
}
