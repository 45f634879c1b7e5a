//! The trees of the example.

/// What a node is.
#[derive(Clone, Copy, PartialEq, Eq, Debug)]
pub enum Kind {
    Name,
    Number,
    Hole,
    Tuple,
    Binary,
    Negative,
    Cast,
    /// A `*` of a type.
    Star,
    Call,
    Keyword,
    /// Holds what stands behind the first comma of a list, and stands in no tree.
    List,
}

/// A node of a tree.
#[derive(Drop)]
pub struct Node {
    /// What it is.
    pub kind: Kind,
    /// The number of its token's text, or 0.
    pub text: u32,
    /// The byte where its first token begins, from 0.
    pub from: u32,
    /// The byte behind its last token.
    pub to: u32,
    /// The nodes below it, in order.
    pub kids: Vec<Node>,
}
