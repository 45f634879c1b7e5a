//! Sets of spans.

ghost use Rattle.std.specs.Prelude.{◌≡◌, IfOk};
ghost use Rattle.std.specs.BTreeSet.{contains};
ghost use Rattle.node_tree.specs.Span.{span_cmp};
ghost use Rattle.taint_form.specs.Tables.{Holds};

use node_tree::{Memory, Span};
use std::alloc::Global;
use std::collections::BTreeSet;

/// Spans, found by halving.
#[derive(Drop)]
pub struct SpanSet {
    pub spans: BTreeSet<Span>,
}

impl SpanSet {
    /// These spans.
    pub fn of(alloc: Global, spans: &[Span]) -> Result<SpanSet, Memory>
        ensures { IfOk result (λ set. Holds set spans.now) }
    {
        let mut set = BTreeSet::new(alloc);
        for span in spans {
            set.insert(*span)?;
        }
        Ok(SpanSet { spans: set })
    }

    /// Whether the span is one of them.
    pub fn has(&self, span: Span) -> bool
        ensures { result ≡ contains span_cmp self.now.spans span }
    {
        self.spans.contains(&span)
    }
}
