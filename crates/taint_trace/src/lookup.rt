//! The units in which a span stands, found by halving.

ghost use Rattle.std.specs.Prelude.{◌≡◌, ◌↔◌, ◌≤◌, ◌<◌, ℕ, Some, IfOk, length, slice_get};
ghost use Rattle.std.specs.List.Sorted.{IsNonDecreasing};
ghost use Rattle.graph_form.specs.Sets.{Among};
ghost use Rattle.taint_trace.specs.declared.standing.Standing.{Standing as a_standing};
ghost use Rattle.taint_trace.specs.Standings.{AreInOrder, side_of, standing as standing_spec};

use crate::standing::Standing;
use node_tree::{Memory, Span};
use std::alloc::Global;

/// The same in order of their spans.
pub fn in_order(mut standings: Vec<Standing>) -> Result<Vec<Standing>, Memory>
    ensures same { IfOk result (λ sorted. (s : a_standing) →
        Among sorted.items s ↔ Among standings.items s) }
    ensures order { IfOk result (λ sorted. AreInOrder sorted.items) }
{
    standings.sort_by_key(|standing| standing.span)?;
    Ok(standings)
}

// How many stand before those of the span.
fn count_before(standings: &[Standing], span: Span) -> usize
    requires { AreInOrder standings.now }
    ensures within { result ≤ length standings.now }
    ensures parts { (k : ℕ) (s : a_standing) → slice_get standings.now k ≡ Some s →
        (k < result) ↔ (side_of span s < 1) }
{
    standings.partition_point(|standing| standing.span.order(span).is_lt())
}

// How many stand before those of the span or among them.
fn count_through(standings: &[Standing], span: Span) -> usize
    requires { AreInOrder standings.now }
    ensures within { result ≤ length standings.now }
    ensures parts { (k : ℕ) (s : a_standing) → slice_get standings.now k ≡ Some s →
        (k < result) ↔ (side_of span s ≤ 1) }
{
    standings.partition_point(|standing| standing.span.order(span).is_le())
}

// Those of the span.
fn with_span(standings: &[Standing], span: Span) -> &[Standing]
    requires { AreInOrder standings.now }
    ensures { (s : a_standing) → Among result.now s ↔ (Among standings.now s × (s.span ≡ span)) }
{
    let start = count_before(standings, span);
    let end = count_through(standings, span);
    &standings[start..end]
}

/// The places of the units in which the span stands, in order. One may come more than once.
pub fn units_with(alloc: Global, standings: &[Standing], span: Span) -> Result<Vec<u64>, Memory>
    requires { AreInOrder standings.now }
    ensures exact { IfOk result (λ places. (k : ℕ) →
        Among places.items k ↔ Among standings.now (standing_spec span k)) }
    ensures ordered { IfOk result (λ places. IsNonDecreasing places.items) }
{
    let mut places = Vec::new(alloc);
    let found = with_span(standings, span);
    for standing in found {
        places.push(standing.place)?;
    }
    places.sort()?;
    Ok(places)
}
