//! Which fixes are taken.

ghost use Rattle.std.specs.Prelude.{◌≡◌, ◌≤◌, ◌<◌, ◌↔◌, [], length, IfOk, IsTrue};
ghost use Rattle.std.specs.List.Sorted.{IsNonDecreasingBy};
ghost use Rattle.fix_apply.specs.Order.{AreInOrder, results_at as all_at, begins_at, is_before, is_through, Parts};
ghost use Rattle.fix_apply.specs.Choices.{AreChosen, AreFit, AreTaken, offers};

use node_tree::{List, Memory, Span, Twin};
use report_form::{Edit, Reported};
use std::alloc::Global;

// How many results stand before those of the path.
fn count_before(results: &[Reported], path: &str) -> usize
    requires { AreInOrder results.now }
    ensures within { result ≤ length results.now }
    ensures parts { Parts (is_before path.now) results.now result }
{
    results.partition_point(|reported| reported.path.as_str() < path)
}

// How many results stand no later than those of the path.
fn count_through(results: &[Reported], path: &str) -> usize
    requires { AreInOrder results.now }
    ensures within { result ≤ length results.now }
    ensures parts { Parts (is_through path.now) results.now result }
{
    results.partition_point(|reported| reported.path.as_str() <= path)
}

// The results of the file at the path.
fn results_at<'r>(results: &'r [Reported], path: &str) -> &'r [Reported]
    requires { AreInOrder results.now }
    ensures at { result.now ≡ all_at path.now results.now }
    ensures in_order { IsNonDecreasingBy begins_at result.now }
{
    let from = count_before(results, path);
    let to = count_through(results, path);
    &results[from..to]
}

// Whether the range has a byte and begins there or later.
fn lies_behind(span: Span, end: u32) -> bool
    ensures { IsTrue result ↔ ((span.from < span.to) × (end ≤ span.from)) }
{
    span.from < span.to && end <= span.from
}

// The fixes of these results that are taken.
fn choose_from(alloc: Global, results: &[Reported]) -> Result<List<Edit>, Memory>
    requires { IsNonDecreasingBy begins_at results.now }
    ensures chosen { IfOk result (AreTaken [] (offers results.now)) }
    ensures fit { IfOk result (AreFit results.now) }
{
    let mut edits = List::new(alloc);
    // Where the last range that was taken ends.
    let mut end = 0;
    for reported in results {
        let Some(fix) = &reported.fix else {
            continue;
        };
        let span = reported.finding.span;
        if !lies_behind(span, end) {
            continue;
        }
        let text = fix.copy()?;
        edits.push(Edit { span, text })?;
        end = span.to;
    }
    Ok(edits)
}

/// The fixes of a report that are taken in the file at the path, in order. Of the results of that path that have a fix one
/// is passed over whose range is empty or shares a byte with a range that was taken before.
pub fn choose(alloc: Global, results: &List<Reported>, path: &str) -> Result<List<Edit>, Memory>
    requires { AreInOrder results.now }
    ensures chosen { IfOk result (AreChosen path.now results.now) }
    ensures fit { IfOk result (AreFit (all_at path.now results.now)) }
{
    choose_from(alloc, results_at(results.as_slice(), path))
}
