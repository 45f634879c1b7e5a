//! What rules find in a file, whatever it was opened as.

ghost use Rattle.std.specs.Prelude.{◌≡◌, ◌↔◌, ◌+◌, [], ◌∷◌, IfOk};
ghost use Rattle.node_match.specs.Sets.{Among};
ghost use Rattle.report_form.specs.declared.notice.Notice.{Notice as a_notice};
ghost use Rattle.packed_view.specs.Opened.{HasText};
ghost use Rattle.kept_leaves.specs.Growth.{Meets};
ghost use Rattle.kept_leaves.specs.Kept.{map_of};
ghost use Rattle.running_rules.specs.Notes.{notice};
ghost use Rattle.running_rules.specs.Running.{AreApart};
ghost use Rattle.file_results.specs.Quieted.{grammars_of};
ghost use Rattle.seen_files.specs.Needs.{IsNeededAt};
ghost use Rattle.seen_files.specs.Findings.{seen_of};
ghost use Rattle.seen_files.specs.Seen.{file_of, IsOpenedSo, HasOwnNames, IsSeen};

use crate::found_file::FoundFile;
use crate::looking::look_with_names;
use code_reader::TreeReader;
use comment_reader::CommentReader;
use file_open::{Opened, open_file};
use kept_leaves::KeptLeaves;
use node_tree::{Bytes, Lang, List, Memory, Steps, Text, Twin};
use path_glob::lang_of;
use report_form::{NoticeKind, Reported};
use running_rules::{Noted, Runner, add_notice, in_order};
use std::alloc::Global;
use std::rc::Rc;
use std::sync::ledger::Ledger;

// What was found in a file, with its notices in order.
fn found_in(
    alloc: Global,
    path: &str,
    bytes: Rc<Bytes>,
    opened: Opened,
    results: List<Reported>,
    notices: Vec<Noted>,
) -> Result<FoundFile, Memory>
    requires { HasText bytes.value opened }
    ensures file { IfOk result (λ f. file_of (seen_of f) ≡ (path.now, bytes.value)) }
    ensures opened { IfOk result (λ f. f.opened ≡ opened) }
    ensures results { IfOk result (λ f. f.results ≡ results) }
    ensures notices { IfOk result (λ f. (n : a_notice) → Among f.notices n ↔ Among notices.items n) }
{
    Ok(FoundFile {
        path: Text::from_str(alloc, path)?,
        bytes,
        opened,
        results,
        notices: in_order(alloc, notices)?,
    })
}

// A file that can't be looked at, for that reason.
fn unseen(
    alloc: Global,
    path: &str,
    bytes: Rc<Bytes>,
    opened: Opened,
    why: NoticeKind,
) -> Result<FoundFile, Memory>
    requires { HasText bytes.value opened }
    ensures file { IfOk result (λ f. file_of (seen_of f) ≡ (path.now, bytes.value)) }
    ensures opened { IfOk result (λ f. f.opened ≡ opened) }
    ensures results { IfOk result (λ f. f.results ≡ []) }
    ensures notices { IfOk result (λ f. (n : a_notice) → Among f.notices n ↔ Among (notice path.now [] why [] ∷ []) n) }
{
    let mut notices = Vec::new(alloc);
    add_notice(alloc, &mut notices, path, "", why, "")?;
    found_in(alloc, path, bytes, opened, List::new(alloc), notices)
}

/// What the rules find in a file with these bytes that was opened so. Names that it has are taken for those that are known in it.
pub fn find<R: TreeReader + CommentReader, L: Ledger>(
    alloc: Global,
    reader: &R,
    path: &str,
    bytes: Rc<Bytes>,
    opened: Opened,
    running: &[Runner<'_>],
    traced: bool,
    kept: &mut KeptLeaves,
    steps: &mut Steps<L>,
) -> Result<FoundFile, Memory>
    requires { HasText bytes.value opened }
    ensures file { IfOk result (λ f. file_of (seen_of f) ≡ (path.now, bytes.value)) }
    ensures seen { IsOpenedSo (R.spells reader.now) (path.now, bytes.value) opened → HasOwnNames (R.knows reader.now) opened → AreApart running.now → IfOk result (λ f. IsSeen (grammars_of (R.spells reader.now) (R.knows reader.now) (R.comments reader.now) traced) running.now (seen_of f)) }
    ensures kept { IfOk result (λ f. Meets (IsNeededAt running.now (seen_of f)) (map_of kept.old) steps.old (map_of kept.new) steps.new) }
{
    match opened {
        Opened::TooLarge => unseen(alloc, path, bytes, Opened::TooLarge, NoticeKind::TooLarge),
        Opened::NotUtf8 => unseen(alloc, path, bytes, Opened::NotUtf8, NoticeKind::NotUtf8),
        Opened::NoTree(view) => {
            let mut notices = Vec::new(alloc);
            add_notice(alloc, &mut notices, path, "", NoticeKind::NoTree, "")?;
            let found = look_with_names(
                alloc,
                reader,
                path,
                view,
                running,
                traced,
                kept,
                steps,
                &mut notices,
            )?;
            found_in(
                alloc,
                path,
                bytes,
                Opened::NoTree(found.0),
                found.1,
                notices,
            )
        }
        Opened::Read(view) => {
            let mut notices = Vec::new(alloc);
            let found = look_with_names(
                alloc,
                reader,
                path,
                view,
                running,
                traced,
                kept,
                steps,
                &mut notices,
            )?;
            found_in(alloc, path, bytes, Opened::Read(found.0), found.1, notices)
        }
    }
}

/// What the rules find in a file, which is opened by the reader in the language that its path's ending names, or else in
/// `Regex`. That is one step.
pub fn find_anew<R: TreeReader + CommentReader, L: Ledger>(
    alloc: Global,
    reader: &R,
    path: &str,
    bytes: &Rc<Bytes>,
    running: &[Runner<'_>],
    traced: bool,
    kept: &mut KeptLeaves,
    steps: &mut Steps<L>,
) -> Result<FoundFile, Memory>
    ensures file { IfOk result (λ f. file_of (seen_of f) ≡ (path.now, bytes.now.value)) }
    ensures seen { AreApart running.now → IfOk result (λ f. IsSeen (grammars_of (R.spells reader.now) (R.knows reader.now) (R.comments reader.now) traced) running.now (seen_of f)) }
    ensures kept { IfOk result (λ f. Meets (IsNeededAt running.now (seen_of f)) (map_of kept.old) (steps.old + 1) (map_of kept.new) steps.new) }
{
    let lang = lang_of(path).unwrap_or(Lang::Regex);
    let own = Rc::as_ref(bytes).copy()?;
    let opened = open_file(alloc, reader, lang, own, steps)?;
    let shared = bytes.clone()?;
    find(
        alloc, reader, path, shared, opened, running, traced, kept, steps,
    )
}
