//! What a rule finds.

use crate::binding::Binding;
use node_tree::Span;

/// A range of bytes that a rule finds, what the metavariables stand for there, and for tainted data the range that it comes
/// from.
#[derive(Drop)]
pub struct Finding {
    pub span: Span,
    pub binding: Binding,
    pub source: Option<Span>,
}
