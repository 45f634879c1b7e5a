//! Sinks.

use node_tree::Span;

/// A sink with its place in the list of sinks.
#[derive(Clone, Copy)]
pub struct Sink {
    pub place: u64,
    pub range: Span,
}
