//! What is found in files, to be kept.

ghost use Rattle.std.specs.Prelude.{◌≡◌, ◌+◌, IfOk};
ghost use Rattle.packed_view.specs.Opened.{HasText};
ghost use Rattle.kept_leaves.specs.Growth.{Meets};
ghost use Rattle.kept_leaves.specs.Kept.{map_of};
ghost use Rattle.running_rules.specs.Running.{AreApart};
ghost use Rattle.file_results.specs.Quieted.{grammars_of};
ghost use Rattle.seen_files.specs.Findings.{seen_of};
ghost use Rattle.seen_files.specs.Needs.{IsNeededAt};
ghost use Rattle.seen_files.specs.Seen.{file_of, IsOpenedSo, HasOwnNames, IsSeen};

use crate::finding::{find, find_anew};
use crate::found_file::FoundFile;
use crate::seen::SeenFile;
use code_reader::TreeReader;
use comment_reader::CommentReader;
use file_open::Opened;
use kept_leaves::KeptLeaves;
use node_tree::{Bytes, Memory, Steps};
use packed_view::PackedOpened;
use running_rules::Runner;
use std::alloc::Global;
use std::rc::Rc;
use std::sync::ledger::Ledger;

// A file with what was found in it, to be kept: its tree is written as bytes.
fn pack(alloc: Global, found: FoundFile) -> Result<SeenFile, Memory>
    ensures { IfOk result (λ s. s ≡ seen_of found) }
{
    let bytes = found.bytes;
    let opened = PackedOpened::of(alloc, &bytes, found.opened)?;
    Ok(SeenFile {
        path: found.path,
        bytes,
        opened,
        results: found.results,
        notices: found.notices,
    })
}

/// What the rules find in a file, as `find` says, with its tree as bytes.
pub fn see_opened<R: TreeReader + CommentReader, L: Ledger>(
    alloc: Global,
    reader: &R,
    path: &str,
    bytes: Rc<Bytes>,
    opened: Opened,
    running: &[Runner<'_>],
    traced: bool,
    kept: &mut KeptLeaves,
    steps: &mut Steps<L>,
) -> Result<SeenFile, Memory>
    requires { HasText bytes.value opened }
    ensures file { IfOk result (λ s. file_of s ≡ (path.now, bytes.value)) }
    ensures seen { IsOpenedSo (R.spells reader.now) (path.now, bytes.value) opened → HasOwnNames (R.knows reader.now) opened → AreApart running.now → IfOk result (IsSeen (grammars_of (R.spells reader.now) (R.knows reader.now) (R.comments reader.now) traced) running.now) }
    ensures kept { IfOk result (λ s. Meets (IsNeededAt running.now s) (map_of kept.old) steps.old (map_of kept.new) steps.new) }
{
    let found = find(
        alloc, reader, path, bytes, opened, running, traced, kept, steps,
    )?;
    pack(alloc, found)
}

/// What the rules find in a file, as `find_anew` says, with its tree as bytes.
pub fn see_anew<R: TreeReader + CommentReader, L: Ledger>(
    alloc: Global,
    reader: &R,
    path: &str,
    bytes: &Rc<Bytes>,
    running: &[Runner<'_>],
    traced: bool,
    kept: &mut KeptLeaves,
    steps: &mut Steps<L>,
) -> Result<SeenFile, Memory>
    ensures file { IfOk result (λ s. file_of s ≡ (path.now, bytes.now.value)) }
    ensures seen { AreApart running.now → IfOk result (IsSeen (grammars_of (R.spells reader.now) (R.knows reader.now) (R.comments reader.now) traced) running.now) }
    ensures kept { IfOk result (λ s. Meets (IsNeededAt running.now s) (map_of kept.old) (steps.old + 1) (map_of kept.new) steps.new) }
{
    let found = find_anew(alloc, reader, path, bytes, running, traced, kept, steps)?;
    pack(alloc, found)
}
