//! The least source of each sink.

ghost use Rattle.std.specs.Prelude.{◌≡◌, ◌⊎◌, ◌<◌, ℕ, Some, length, IfOk};
ghost use Rattle.node_tree.specs.declared.span.Span.{Span as a_span};
ghost use Rattle.taint_flow.specs.Lowest.{AreListed, IsNone, Lowers};
ghost use Rattle.taint_flow.specs.Taint.{IsUpTo};

use crate::hit::TaintHit;
use node_tree::{List, Memory, Span};
use std::alloc::Global;
use std::cmp::Ordering;

/// For each sink the least source so far that hits it.
#[derive(Drop)]
pub struct Least {
    pub sources: Vec<Option<Span>>,
}

// The lesser one of what there was, if anything, and a source.
fn lesser(old: Option<Span>, source: Span) -> Span
    ensures one { (old ≡ Some result) ⊎ (result ≡ source) }
    ensures source { IsUpTo result source }
    ensures old { (s : a_span) → old ≡ Some s → IsUpTo result s }
{
    let Some(other) = old else {
        return source;
    };
    match other.order(source) {
        Ordering::Greater => source,
        _ => other,
    }
}

impl Least {
    /// No sink of so many is hit.
    pub fn new(alloc: Global, sinks: usize) -> Result<Least, Memory>
        ensures size { IfOk result (λ least. length least.sources.items ≡ sinks) }
        ensures none { IfOk result (λ least. IsNone least.sources.items) }
    {
        let mut sources = Vec::new(alloc);
        for _ in 0..sinks {
            sources.push(None)?;
        }
        Ok(Least { sources })
    }

    /// The source hits the sink.
    pub fn note(&mut self, sink: u64, source: Span)
        requires { sink < length self.old.sources.items }
        ensures { Lowers (λ (k : ℕ) (s : a_span). (k ≡ sink) × (s ≡ source))
            self.old.sources.items self.new.sources.items }
    {
        let at = sink as usize;
        let least = lesser(self.sources[at], source);
        self.sources[at] = Some(least);
    }

    /// The hits, in the order of sinks.
    pub fn hits(&self, alloc: Global) -> Result<List<TaintHit>, Memory>
        ensures { IfOk result (AreListed self.now.sources.items) }
    {
        let mut hits = List::new(alloc);
        for (sink, least) in self.sources.iter().enumerate() {
            if let Some(source) = least {
                hits.push(TaintHit {
                    sink: sink as u64,
                    source: *source,
                })?;
            }
        }
        Ok(hits)
    }
}
