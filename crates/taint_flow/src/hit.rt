//! Hits.

use node_tree::Span;

/// A sink that is hit, by its place in the list of sinks, and the least source that hits it.
#[derive(Clone, Copy, Debug, PartialEq, Eq)]
pub struct TaintHit {
    pub sink: u64,
    pub source: Span,
}
