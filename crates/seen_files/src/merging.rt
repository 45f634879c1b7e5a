//! Two lists of results in order, made one.

ghost use Rattle.std.specs.Prelude.{◌≡◌, ◌<◌, ◌+◌, ◌∷◌, [], List as list, length, reverse, IfOk, IfSome, MatchOption};
ghost use Rattle.report_form.specs.declared.report.Reported.{Reported as a_result};
ghost use Rattle.file_results.specs.Reports.{reported_cmp};
ghost use Rattle.seen_files.specs.Merging.{Merges, AreMergeable, AreMerged};

use file_results::order_results;
use node_tree::{List, Memory};
use report_form::Reported;
use std::cmp::Ordering;

// Takes the result that comes first off the ends of two lists, in each of which the first one stands last.
fn take_first(
    first: &mut List<Reported>,
    second: &mut List<Reported>,
) -> Result<Option<Reported>, Memory>
    ensures taken { IfOk result (λ one. MatchOption one ((first.old ≡ []) × (second.old ≡ []))
        (λ r. (rest : list a_result) → Merges reported_cmp (reverse first.new) (reverse second.new) rest
        → Merges reported_cmp (reverse first.old) (reverse second.old) (r ∷ rest))) }
    ensures shorter { IfOk result (λ one. IfSome one (λ _.
        length first.new + length second.new < length first.old + length second.old)) }
{
    let Some(other) = second.pop() else {
        return Ok(first.pop());
    };
    let Some(one) = first.pop() else {
        return Ok(Some(other));
    };
    match order_results(&one, &other)? {
        Ordering::Greater => {
            first.push(one)?;
            Ok(Some(other))
        }
        Ordering::Less | Ordering::Equal => {
            second.push(other)?;
            Ok(Some(one))
        }
    }
}

/// The results of both lists in order, if both are in order and no two of them tie.
pub fn merged(
    mut first: List<Reported>,
    mut second: List<Reported>,
) -> Result<List<Reported>, Memory>
    ensures { AreMergeable reported_cmp first second → IfOk result (AreMerged reported_cmp first second) }
{
    let mut all = List::new(first.alloc());
    first.reverse();
    second.reverse();
    while let Some(one) = take_first(&mut first, &mut second)? {
        all.push(one)?;
    }
    Ok(all)
}
