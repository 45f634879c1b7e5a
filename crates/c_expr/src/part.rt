//! Nodes as they are made.

use node_tree::{Node, Text};

/// A node that was read, with its depth. The width of a member has no node, and counts for the depth of the member.
#[derive(Drop)]
pub struct Part {
    pub node: Node,
    pub depth: u32,
}

/// Spellings with a space between two, and the parts among them.
#[derive(Drop)]
pub struct Spelt {
    pub text: Text,
    pub kids: Vec<Part>,
}
