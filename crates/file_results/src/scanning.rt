//! What rules find in a file.

ghost use Rattle.std.specs.Prelude.{◌≡◌, IfOk, OnOk};
ghost use Rattle.node_match.specs.Sets.{Adds};
ghost use Rattle.file_search.specs.Asked.{AsksFor};
ghost use Rattle.file_results.specs.Sets.{IsExactly};
ghost use Rattle.running_rules.specs.Running.{AreApart};
ghost use Rattle.file_results.specs.Reports.{reported_cmp};
ghost use Rattle.file_results.specs.Looking.{named_leaf};
ghost use Rattle.file_results.specs.Asking.{IsAskedFor};
ghost use Rattle.file_results.specs.Shown.{IsShownIn, IsNotedIn};
ghost use Rattle.file_results.specs.Followed.{IsTracedIn};

use crate::looking::judge_all;
use crate::quiet::without_quieted;
use crate::reporting::{note_judged, report_rows};
use crate::row::rows_of;
use crate::tracing::with_traces;
use comment_reader::CommentReader;
use file_search::FileSearch;
use node_tree::{FileView, List, Memory, Steps};
use part_judge::SharedFile;
use report_form::Reported;
use running_rules::{Noted, Runner};
use sorted_sets::settled;
use std::alloc::Global;
use std::sync::ledger::Ledger;

// What the rules find in the file at that path, by the names that are known in what was opened, with its traces if `traced` says
// so. The notices are added.
fn find_view<S: FileSearch, L: Ledger>(
    alloc: Global,
    path: &str,
    view: &FileView,
    search: &mut S,
    running: &[Runner<'_>],
    traced: bool,
    steps: &mut Steps<L>,
    notices: &mut Vec<Noted>,
) -> Result<List<Reported>, Memory>
    requires { S.file search.old ≡ view.now }
    ensures results { AreApart running.now → IfOk result (IsExactly reported_cmp (IsTracedIn (named_leaf view.now.known) traced running.now path.now view.now.lang view.now.bytes view.now.tree)) }
    ensures notices { OnOk result (Adds notices.old.items notices.new.items (IsNotedIn (named_leaf view.now.known) running.now path.now view.now.lang view.now.bytes view.now.tree)) }
    ensures asked { OnOk result (AsksFor S.asks (IsAskedFor path.now view.now.lang running.now) search.old steps.old search.new steps.new) }
{
    let mut file = SharedFile::of(view);
    let judged = judge_all(alloc, path, &mut file, running, search, steps)?;
    let found = judged.as_slice();
    note_judged(alloc, path, running, found, notices)?;
    let unsorted = rows_of(alloc, running, found)?;
    let rows = settled(alloc, unsorted)?;
    let shown = rows.as_slice();
    let bares = report_rows(alloc, path, view, running, shown)?;
    with_traces(
        alloc, traced, &mut file, running, shown, bares, search, steps,
    )
}

/// What the rules find in the file at that path and no comment there quiets, by the names that are known in what was opened. The
/// notices are added. The search is asked for just the patterns that the rules ask for in the file.
pub fn scan_view<R: CommentReader, S: FileSearch, L: Ledger>(
    alloc: Global,
    reader: &R,
    path: &str,
    view: &FileView,
    search: &mut S,
    running: &[Runner<'_>],
    traced: bool,
    steps: &mut Steps<L>,
    notices: &mut Vec<Noted>,
) -> Result<List<Reported>, Memory>
    requires { S.file search.old ≡ view.now }
    ensures results { AreApart running.now → IfOk result (IsExactly reported_cmp (IsShownIn (named_leaf view.now.known) (R.comments reader.now) traced running.now path.now view.now.lang view.now.bytes view.now.tree)) }
    ensures notices { OnOk result (Adds notices.old.items notices.new.items (IsNotedIn (named_leaf view.now.known) running.now path.now view.now.lang view.now.bytes view.now.tree)) }
    ensures asked { OnOk result (AsksFor S.asks (IsAskedFor path.now view.now.lang running.now) search.old steps.old search.new steps.new) }
{
    let found = find_view(alloc, path, view, search, running, traced, steps, notices)?;
    without_quieted(alloc, reader, view, found)
}
