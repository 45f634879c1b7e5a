//! Sinks that are found by where they stand.

ghost use Rattle.std.specs.Prelude.{◌≡◌, ◌⊎◌, ◌↔◌, ◌≤◌, ◌<◌, ℕ, length, slice_get, Some, IfOk, OnOk};
ghost use Rattle.std.specs.List.Sorted.{IsNonDecreasingBy};
ghost use Rattle.graph_form.specs.Sets.{Among};
ghost use Rattle.taint_tables.specs.declared.sink.Sink.{Sink as a_sink};
ghost use Rattle.taint_tables.specs.Hulls.{Meets};
ghost use Rattle.taint_tables.specs.Sinks.{AreEnds, BeginInOrder, IsSinkOf};

use crate::hull::Hull;
use crate::sink::Sink;
use node_tree::{Memory, Span};
use std::alloc::Global;
use std::marker::Model;

/// Sinks in the order in which they begin, and beside each the last end of those up to it. Contracts see the sinks.
#[derive(Drop)]
pub struct SinkIndex {
    sinks: Vec<Sink>,
    ends: Vec<u32>,
}

impl Model for SinkIndex {
    ghost use Rattle.std.specs.Prelude.{List};
    ghost use Rattle.std.specs.Coded.{coded_list};
    ghost use Rattle.taint_tables.specs.declared.sink.Sink.{Sink as a_sink};
    ghost use Rattle.taint_tables.specs.contracts.sink.Sink as sink_row;
    ghost use Rattle.taint_tables.specs.Sinks.{AreEnds, BeginInOrder};

    ghost Value = { List a_sink };

    ghost coded = { coded_list sink_row.the_row.coded };

    ghost view = { λ t. t.sinks.items };

    ghost invariant = { λ t. BeginInOrder t.sinks.items × AreEnds t.sinks.items t.ends.items };
}

// The sinks with their places.
fn listed(alloc: Global, sinks: &[Span]) -> Result<Vec<Sink>, Memory>
    ensures { IfOk result (λ all. (s : a_sink) → Among all.items s ↔ IsSinkOf sinks.now s) }
{
    let mut all = Vec::new(alloc);
    for (place, range) in sinks.iter().enumerate() {
        all.push(Sink {
            place: place as u64,
            range: *range,
        })?;
    }
    Ok(all)
}

// The sinks in the order in which they begin.
fn in_order(mut sinks: Vec<Sink>) -> Result<Vec<Sink>, Memory>
    ensures same { IfOk result (λ sorted. (s : a_sink) →
        Among sorted.items s ↔ Among sinks.items s) }
    ensures order { IfOk result (λ sorted. BeginInOrder sorted.items) }
{
    sinks.sort_by_key(|sink| sink.range.from)?;
    Ok(sinks)
}

// Beside each sink the last end of those up to it.
fn last_ends(alloc: Global, sinks: &[Sink]) -> Result<Vec<u32>, Memory>
    ensures { IfOk result (λ ends. AreEnds sinks.now ends.items) }
{
    let mut ends = Vec::new(alloc);
    let mut last = 0;
    for sink in sinks {
        last = last.max(sink.range.to);
        ends.push(last)?;
    }
    Ok(ends)
}

// Adds a sink, if it doesn't end before the hull's first end.
fn add_if(sink: Sink, hull: Hull, into: &mut Vec<Sink>) -> Result<(), Memory>
    ensures { OnOk result ((s : a_sink) → Among into.new.items s ↔
        (Among into.old.items s ⊎ ((sink ≡ s) × (hull.first_end ≤ s.range.to)))) }
{
    if hull.first_end <= sink.range.to {
        into.push(sink)?;
        return Ok(());
    }
    Ok(())
}

// How many sinks don't begin behind that place.
fn count_to(sinks: &[Sink], last_begin: u32) -> usize
    requires { BeginInOrder sinks.now }
    ensures within { result ≤ length sinks.now }
    ensures parts { (k : ℕ) (s : a_sink) → slice_get sinks.now k ≡ Some s →
        (k < result) ↔ (s.range.from ≤ last_begin) }
{
    sinks.partition_point(|sink| sink.range.from <= last_begin)
}

impl SinkIndex {
    /// An index of these sinks.
    pub fn of(alloc: Global, sinks: &[Span]) -> Result<SinkIndex, Memory>
        ensures { IfOk result (λ index. (s : a_sink) → Among index s ↔ IsSinkOf sinks.now s) }
    {
        let listed = listed(alloc, sinks)?;
        let sinks = in_order(listed)?;
        let ends = last_ends(alloc, &sinks)?;
        Ok(SinkIndex { sinks, ends })
    }

    /// The sinks that meet the hull.
    pub fn meeting(&self, alloc: Global, hull: Hull) -> Result<Vec<Sink>, Memory>
        ensures { IfOk result (λ found. (s : a_sink) →
            Among found.items s ↔ (Among self.now s × Meets hull s.range)) }
    {
        let mut found = Vec::new(alloc);
        let mut at = count_to(&self.sinks, hull.last_begin);
        while at > 0 {
            at -= 1;
            if self.ends[at] < hull.first_end {
                return Ok(found);
            }
            add_if(self.sinks[at], hull, &mut found)?;
        }
        Ok(found)
    }
}
