//! In which order the kids of a pattern take those of a node.

/// In which order the kids of a pattern take those of a node.
#[derive(Clone, Copy, Debug, PartialEq, Eq)]
pub enum Order {
    /// As they are written.
    Fixed,
    /// Each takes any that none before it took.
    Any,
}
