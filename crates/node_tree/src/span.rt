//! Ranges of bytes.

ghost use Rattle.std.specs.Prelude.{◌≡◌};
ghost use Rattle.node_tree.specs.Span.{span_cmp};

use std::cmp::Ordering;

/// A range of bytes by offsets from 0, the end not included. Spans compare by where they begin, then by where they end.
#[derive(Clone, Copy, Debug, PartialEq, Eq, PartialOrd, Ord)]
pub struct Span {
    pub from: u32,
    pub to: u32,
}

impl Span {
    /// Which of two spans comes first.
    pub fn order(self, other: Span) -> Ordering
        ensures { result ≡ span_cmp self other }
    {
        self.from.cmp(&other.from).then(self.to.cmp(&other.to))
    }
}
