//! Changes of files.

use node_tree::{Span, Text};

/// A text that is put in the place of a range.
#[derive(Drop)]
pub struct Edit {
    pub span: Span,
    pub text: Text,
}
