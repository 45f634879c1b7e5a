//! What one rule looks for.

use taint_form::SpanSet;
use taint_tables::{Places, TaintSets};

/// The sets of a rule, and what they have once more, found by halving.
#[derive(Clone, Copy)]
pub struct Rule<'s> {
    pub sets: &'s TaintSets,
    pub sources: &'s SpanSet,
    pub sanitizers: &'s SpanSet,
    pub places: &'s Places,
}
