//! Results, edits and ranges, and whether they stand as the calls ask.

ghost use Rattle.std.specs.Prelude.{◌≡◌, All, IfOk, IfSome};
ghost use Rattle.std.specs.Bool.{OnTrue};
ghost use Rattle.std.specs.Ordering.{is_lt};
ghost use Rattle.node_tree.specs.declared.span.Span.{Span as a_span};
ghost use Rattle.node_tree.specs.Span.{LiesIn};
ghost use Rattle.fix_apply.specs.Order.{AreInOrder, place_cmp};
ghost use Rattle.fix_apply.specs.Applied.{LieIn};

use node_tree::{List, Memory, Span};
use report_form::{Edit, Reported};
use std::alloc::Global;
use std::cmp::Ordering;

// Whether the first stands before the second, by path and range.
fn comes_before(first: &Reported, second: &Reported) -> bool
    ensures { result ≡ is_lt (place_cmp first.now second.now) }
{
    let order = first.path.as_str().cmp(second.path.as_str());
    order.then(first.finding.span.order(second.finding.span)) == Ordering::Less
}

/// Whether the results stand in the order of a report.
pub fn are_in_order(results: &[Reported]) -> bool
    ensures { OnTrue result (AreInOrder results.now) }
{
    for i in 1..results.len() {
        if comes_before(&results[i], &results[i - 1]) {
            return false;
        }
    }
    true
}

/// Whether the edits lie in a text of that size, one after the other.
pub fn lie_in(edits: &[Edit], size: usize) -> bool
    ensures { OnTrue result (LieIn 0 size edits.now) }
{
    let mut end = 0;
    for edit in edits {
        if edit.span.from < end {
            return false;
        }
        if edit.span.to < edit.span.from {
            return false;
        }
        end = edit.span.to;
    }
    if size < end as usize {
        return false;
    }
    true
}

/// The range, if it lies in the text and cuts no character.
pub fn span_in(text: &str, from: u32, to: u32) -> Option<Span>
    ensures { IfSome result (λ span. LiesIn text.now span) }
{
    if to < from {
        return None;
    }
    if !text.is_char_boundary(from as usize) {
        return None;
    }
    if !text.is_char_boundary(to as usize) {
        return None;
    }
    Some(Span { from, to })
}

/// Ranges that lie in the text, or none where one of them doesn't.
pub fn spans_in(alloc: Global, text: &str, ranges: &[(u32, u32)]) -> Result<List<Span>, Memory>
    ensures { IfOk result (λ spans. All (λ (s : a_span). LiesIn text.now s) spans) }
{
    let mut spans = List::new(alloc);
    for (from, to) in ranges {
        let Some(span) = span_in(text, *from, *to) else {
            return Ok(List::new(alloc));
        };
        spans.push(span)?;
    }
    Ok(spans)
}
