//! The layers of operators that are joined from the left.

/// Operators that are joined from the left, from the loosest to the tightest.
#[derive(Clone, Copy, Debug, PartialEq, Eq)]
pub enum Layer {
    /// `or`
    Either,
    /// `and`
    Both,
    /// `+` and `-`
    Sum,
    /// `*`, `//` and `%`
    Product,
}
