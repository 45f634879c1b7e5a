//! What of a node stands before its kids.

use node_tree::{Kind, Span, Text};

// What of a node stands before its kids: all but these, and how many there are.
#[derive(Drop)]
pub(crate) struct Head {
    pub kind: Kind,
    pub span: Span,
    pub text: Text,
    pub kids: u32,
}
