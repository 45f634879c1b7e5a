//! The walk over the files that there are now and those that were seen, both in order of path.

ghost use Rattle.std.specs.Prelude.{◌≡◌, ◌↔◌, ◌+◌, List as list, Some, IfOk, IfSome};
ghost use Rattle.std.specs.Str.{bytes_eq};
ghost use Rattle.rule_form.specs.declared.rule.Rule.{Rule as a_rule};
ghost use Rattle.kept_leaves.specs.Pairs.{Pair as a_pair};
ghost use Rattle.kept_leaves.specs.Growth.{Meets};
ghost use Rattle.kept_leaves.specs.Kept.{map_of, IsKept};
ghost use Rattle.running_rules.specs.Running.{AreApart};
ghost use Rattle.file_results.specs.Quieted.{grammars_of};
ghost use Rattle.seen_files.specs.More.{IsMore};
ghost use Rattle.seen_files.specs.Needs.{IsNeededAt};
ghost use Rattle.seen_files.specs.Seen.{file_of, IsSeen};
ghost use Rattle.seen_files.specs.Walk.{openings, Takes};

use crate::adding::see_more;
use crate::packing::{see_anew, see_opened};
use crate::seen::SeenFile;
use code_reader::TreeReader;
use comment_reader::CommentReader;
use kept_leaves::KeptLeaves;
use node_tree::{Bytes, List, Memory, Steps};
use running_rules::Runner;
use std::alloc::Global;
use std::cmp::Ordering;
use std::rc::Rc;
use std::sync::ledger::Ledger;

/// Takes the file at the path away from files, the last of which comes first. Those before the path go too.
pub fn take_at(left: &mut List<SeenFile>, path: &str) -> Result<Option<SeenFile>, Memory>
    ensures { IfOk result (λ taken. Takes path.now left.old taken left.new) }
{
    while let Some(next) = left.pop() {
        match next.path.as_str().cmp(path) {
            Ordering::Less => {}
            Ordering::Equal => return Ok(Some(next)),
            Ordering::Greater => {
                left.push(next)?;
                return Ok(None);
            }
        }
    }
    Ok(None)
}

// Whether the bytes are the same.
fn has_bytes(was: &SeenFile, bytes: &Rc<Bytes>) -> bool
    ensures { result ≡ bytes_eq was.now.bytes.value bytes.now.value }
{
    was.bytes() == Rc::as_ref(bytes).as_slice()
}

// Sees the file at a path again. With the same bytes it isn't opened again, and what the rules before found in it stays, if these
// were added alone.
fn see_again<R: TreeReader + CommentReader, L: Ledger>(
    alloc: Global,
    reader: &R,
    path: &str,
    bytes: &Rc<Bytes>,
    was: SeenFile,
    running: &[Runner<'_>],
    added: &Option<List<Runner<'_>>>,
    traced: bool,
    kept: &mut KeptLeaves,
    steps: &mut Steps<L>,
) -> Result<SeenFile, Memory>
    requires { was.path ≡ path.now }
    ensures file { IfOk result (λ s. file_of s ≡ (path.now, bytes.now.value)) }
    ensures seen { (before : list a_rule) → IsMore before running.now added.now → AreApart running.now
        → IsSeen (grammars_of (R.spells reader.now) (R.knows reader.now) (R.comments reader.now) traced) before was
        → IfOk result (IsSeen (grammars_of (R.spells reader.now) (R.knows reader.now) (R.comments reader.now) traced) running.now) }
    ensures kept { (before : list a_rule) → IsMore before running.now added.now
        → ((x : a_pair) → ((path.now ≡ x.path) × IsKept (map_of kept.old) x) ↔ IsNeededAt before was x)
        → IfOk result (λ s. Meets (IsNeededAt running.now s) (map_of kept.old) (steps.old + openings (Some was) bytes.now.value) (map_of kept.new) steps.new) }
{
    if !has_bytes(&was, bytes) {
        return see_anew(alloc, reader, path, bytes, running, traced, kept, steps);
    }
    match added {
        Some(added) => see_more(
            alloc, reader, path, was, running, added, traced, kept, steps,
        ),
        None => {
            let opened = was.opened.opened(alloc)?;
            see_opened(
                alloc, reader, path, was.bytes, opened, running, traced, kept, steps,
            )
        }
    }
}

/// Sees the file at a path, which may have been seen before.
pub fn see_file<R: TreeReader + CommentReader, L: Ledger>(
    alloc: Global,
    reader: &R,
    path: &str,
    bytes: &Rc<Bytes>,
    was: Option<SeenFile>,
    running: &[Runner<'_>],
    added: &Option<List<Runner<'_>>>,
    traced: bool,
    kept: &mut KeptLeaves,
    steps: &mut Steps<L>,
) -> Result<SeenFile, Memory>
    requires { IfSome was (λ s. s.path ≡ path.now) }
    ensures file { IfOk result (λ s. file_of s ≡ (path.now, bytes.now.value)) }
    ensures seen { (before : list a_rule) → IsMore before running.now added.now → AreApart running.now
        → IfSome was (IsSeen (grammars_of (R.spells reader.now) (R.knows reader.now) (R.comments reader.now) traced) before)
        → IfOk result (IsSeen (grammars_of (R.spells reader.now) (R.knows reader.now) (R.comments reader.now) traced) running.now) }
    ensures kept { (before : list a_rule) → IsMore before running.now added.now
        → IfSome was (λ s. (x : a_pair) → ((path.now ≡ x.path) × IsKept (map_of kept.old) x) ↔ IsNeededAt before s x)
        → IfOk result (λ s. Meets (IsNeededAt running.now s) (map_of kept.old) (steps.old + openings was bytes.now.value) (map_of kept.new) steps.new) }
{
    match was {
        None => see_anew(alloc, reader, path, bytes, running, traced, kept, steps),
        Some(was) => see_again(
            alloc, reader, path, bytes, was, running, added, traced, kept, steps,
        ),
    }
}
