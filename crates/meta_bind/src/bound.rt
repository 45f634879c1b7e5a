//! What one metavariable stands for.

use node_tree::{List, Memory, Node, Span, Text, Twin};

/// A metavariable's name as it is written, such as `$X` or `$...X`, the range of bytes where it was bound, and the nodes
/// that it stands for: one, or a run of neighbours.
#[derive(Drop)]
pub struct Bound {
    pub name: Text,
    pub span: Span,
    pub nodes: List<Node>,
}

impl Twin for Bound {
    fn copy(&self) -> Result<Bound, Memory> {
        Ok(Bound {
            name: self.name.copy()?,
            span: self.span,
            nodes: self.nodes.copy()?,
        })
    }
}
