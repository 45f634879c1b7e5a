//! What rules find that came to those by which a file was seen.

ghost use Rattle.std.specs.Prelude.{◌≡◌, ◌↔◌, ◌⊎◌, List as list, false, IfOk, IfSome, MatchOption};
ghost use Rattle.node_match.specs.Sets.{Among};
ghost use Rattle.rule_form.specs.declared.rule.Rule.{Rule as a_rule};
ghost use Rattle.node_tree.specs.declared.view.FileView.{FileView as a_view};
ghost use Rattle.report_form.specs.declared.notice.Notice.{Notice as a_notice};
ghost use Rattle.kept_leaves.specs.Growth.{Meets};
ghost use Rattle.kept_leaves.specs.Kept.{map_of, IsKept};
ghost use Rattle.kept_leaves.specs.Pairs.{Pair as a_pair};
ghost use Rattle.running_rules.specs.Running.{AreApart};
ghost use Rattle.file_results.specs.Quieted.{grammars_of};
ghost use Rattle.file_results.specs.Reports.{reported_cmp};
ghost use Rattle.seen_files.specs.Merging.{AreMergeable, AreMerged};
ghost use Rattle.seen_files.specs.More.{AreAdded, NamesSuffice};
ghost use Rattle.seen_files.specs.Needs.{HasView, IsNeededAt};
ghost use Rattle.seen_files.specs.Seen.{file_of, IsSeen};

use crate::looking::look;
use crate::merging::merged;
use crate::packing::see_opened;
use crate::seen::SeenFile;
use code_reader::TreeReader;
use comment_reader::CommentReader;
use file_open::Opened;
use file_results::view_needs;
use kept_leaves::KeptLeaves;
use node_tree::{FileView, List, Memory, Steps};
use report_form::{Notice, Reported};
use running_rules::{Noted, Runner, in_order};
use std::alloc::Global;
use std::sync::ledger::Ledger;

// The file, if it can be looked at.
fn view_in(opened: &Opened) -> Option<&FileView>
    ensures { MatchOption result ((view : a_view) → HasView opened.now view → ⊥) (λ view. HasView opened.now view.now) }
{
    match opened {
        Opened::TooLarge | Opened::NotUtf8 => None,
        Opened::NoTree(view) | Opened::Read(view) => Some(view),
    }
}

// Whether the rules may use names, in a file that has none.
fn want_names(alloc: Global, view: &FileView, added: &[Runner<'_>]) -> Result<bool, Memory>
    ensures { IfOk result (λ want. want ≡ false → NamesSuffice view.now added.now) }
{
    if !view.known.is_empty() {
        return Ok(false);
    }
    view_needs(alloc, view, added)
}

// The file, if it can be looked at by those rules with the names that it has.
fn view_for<'o>(
    alloc: Global,
    opened: &'o Opened,
    added: &[Runner<'_>],
) -> Result<Option<&'o FileView>, Memory>
    ensures { IfOk result (λ found. IfSome found (λ view.
        HasView opened.now view.now × NamesSuffice view.now added.now)) }
{
    let Some(view) = view_in(opened) else {
        return Ok(None);
    };
    if want_names(alloc, view, added)? {
        return Ok(None);
    }
    Ok(Some(view))
}

// All notices in order.
fn all_notices(
    alloc: Global,
    mut old: List<Notice>,
    mut notices: Vec<Noted>,
) -> Result<List<Notice>, Memory>
    ensures { IfOk result (λ all. (n : a_notice) → Among all n ↔ (Among old n ⊎ Among notices.items n)) }
{
    while let Some(notice) = old.pop() {
        notices.push(Noted::of(notice))?;
    }
    in_order(alloc, notices)
}

// The file with this found in it besides.
fn with_found(
    alloc: Global,
    was: SeenFile,
    results: List<Reported>,
    notices: Vec<Noted>,
) -> Result<SeenFile, Memory>
    ensures file { IfOk result (λ s. file_of s ≡ file_of was) }
    ensures opened { IfOk result (λ s. s.opened ≡ was.opened) }
    ensures results { AreMergeable reported_cmp was.results results
        → IfOk result (λ s. AreMerged reported_cmp was.results results s.results) }
    ensures notices { IfOk result (λ s. (n : a_notice) →
        Among s.notices n ↔ (Among was.notices n ⊎ Among notices.items n)) }
{
    Ok(SeenFile {
        path: was.path,
        bytes: was.bytes,
        opened: was.opened,
        results: merged(was.results, results)?,
        notices: all_notices(alloc, was.notices, notices)?,
    })
}

// Sees a file that can be looked at by the rules that were added, whose names suffice for these.
fn look_more<R: TreeReader + CommentReader, L: Ledger>(
    alloc: Global,
    reader: &R,
    path: &str,
    was: SeenFile,
    view: &FileView,
    added: &[Runner<'_>],
    traced: bool,
    kept: &mut KeptLeaves,
    steps: &mut Steps<L>,
) -> Result<SeenFile, Memory>
    requires path { was.path ≡ path.now }
    requires view { HasView was.opened view.now }
    requires names { NamesSuffice view.now added.now }
    ensures file { IfOk result (λ s. file_of s ≡ file_of was) }
    ensures seen { (before running : list a_rule) → AreAdded before running added.now → AreApart running
        → IsSeen (grammars_of (R.spells reader.now) (R.knows reader.now) (R.comments reader.now) traced) before was
        → IfOk result (IsSeen (grammars_of (R.spells reader.now) (R.knows reader.now) (R.comments reader.now) traced) running) }
    ensures kept { (before running : list a_rule) → AreAdded before running added.now
        → ((x : a_pair) → ((path.now ≡ x.path) × IsKept (map_of kept.old) x) ↔ IsNeededAt before was x)
        → IfOk result (λ s. Meets (IsNeededAt running s) (map_of kept.old) steps.old (map_of kept.new) steps.new) }
{
    kept.keep_path(path);
    let mut notices = Vec::new(alloc);
    let results = look(
        alloc,
        reader,
        path,
        view,
        added,
        traced,
        kept,
        steps,
        &mut notices,
    )?;
    with_found(alloc, was, results, notices)
}

/// Sees a file again, with the bytes with which it was seen, by the rules that run: those by which it was seen, and those added. Only
/// these look at it, unless they may use names that it was seen without.
pub fn see_more<R: TreeReader + CommentReader, L: Ledger>(
    alloc: Global,
    reader: &R,
    path: &str,
    was: SeenFile,
    running: &[Runner<'_>],
    added: &List<Runner<'_>>,
    traced: bool,
    kept: &mut KeptLeaves,
    steps: &mut Steps<L>,
) -> Result<SeenFile, Memory>
    requires { was.path ≡ path.now }
    ensures file { IfOk result (λ s. file_of s ≡ file_of was) }
    ensures seen { (before : list a_rule) → AreAdded before running.now added.now → AreApart running.now
        → IsSeen (grammars_of (R.spells reader.now) (R.knows reader.now) (R.comments reader.now) traced) before was
        → IfOk result (IsSeen (grammars_of (R.spells reader.now) (R.knows reader.now) (R.comments reader.now) traced) running.now) }
    ensures kept { (before : list a_rule) → AreAdded before running.now added.now
        → ((x : a_pair) → ((path.now ≡ x.path) × IsKept (map_of kept.old) x) ↔ IsNeededAt before was x)
        → IfOk result (λ s. Meets (IsNeededAt running.now s) (map_of kept.old) steps.old (map_of kept.new) steps.new) }
{
    if added.is_empty() {
        kept.keep_path(path);
        return Ok(was);
    }
    let rules = added.as_slice();
    let opened = was.opened.opened(alloc)?;
    if let Some(view) = view_for(alloc, &opened, rules)? {
        return look_more(alloc, reader, path, was, view, rules, traced, kept, steps);
    }
    see_opened(
        alloc, reader, path, was.bytes, opened, running, traced, kept, steps,
    )
}
