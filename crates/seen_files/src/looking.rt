//! What rules find in a file that can be looked at.

ghost use Rattle.std.specs.Prelude.{◌≡◌, IfOk, OnOk};
ghost use Rattle.node_match.specs.Sets.{Adds};
ghost use Rattle.kept_leaves.specs.Growth.{Meets};
ghost use Rattle.kept_leaves.specs.Kept.{map_of};
ghost use Rattle.running_rules.specs.Running.{AreApart};
ghost use Rattle.file_results.specs.Sets.{IsExactly};
ghost use Rattle.file_results.specs.Reports.{reported_cmp};
ghost use Rattle.file_results.specs.Looking.{named_leaf, own_leaf};
ghost use Rattle.file_results.specs.Needing.{AreWanted, HasNoneOrAll};
ghost use Rattle.file_results.specs.Shown.{IsShownIn, IsNotedIn};
ghost use Rattle.seen_files.specs.Needs.{IsNeededIn};
ghost use Rattle.seen_files.specs.Seen.{IsSameFile};

use code_reader::TreeReader;
use comment_reader::CommentReader;
use file_parts::parts_of;
use file_results::{scan_view, with_needed_names};
use kept_leaves::{KeptLeaves, KeptSearch};
use node_tree::{FileView, List, Memory, Steps};
use report_form::Reported;
use running_rules::{Noted, Runner};
use std::alloc::Global;
use std::mem;
use std::sync::ledger::Ledger;

/// What the rules find by the names that are known in the file. The notices are added. Where memory runs out nothing may be kept.
pub fn look<R: CommentReader, L: Ledger>(
    alloc: Global,
    reader: &R,
    path: &str,
    view: &FileView,
    running: &[Runner<'_>],
    traced: bool,
    kept: &mut KeptLeaves,
    steps: &mut Steps<L>,
    notices: &mut Vec<Noted>,
) -> Result<List<Reported>, Memory>
    ensures results { AreApart running.now → IfOk result (IsExactly reported_cmp (IsShownIn (named_leaf view.now.known) (R.comments reader.now) traced running.now path.now view.now.lang view.now.bytes view.now.tree)) }
    ensures notices { OnOk result (Adds notices.old.items notices.new.items (IsNotedIn (named_leaf view.now.known) running.now path.now view.now.lang view.now.bytes view.now.tree)) }
    ensures kept { OnOk result (Meets (IsNeededIn running.now path.now view.now) (map_of kept.old) steps.old (map_of kept.new) steps.new) }
{
    let parts = parts_of(view)?;
    let leaves = mem::replace(kept, KeptLeaves::new(alloc));
    let mut search = KeptSearch::of(alloc, leaves, path, &parts)?;
    let results = scan_view(
        alloc,
        reader,
        path,
        view,
        &mut search,
        running,
        traced,
        steps,
        notices,
    )?;
    let now = search.into_kept()?;
    *kept = now;
    Ok(results)
}

/// What the rules find in the file, which is given back with the names that they want. Names that it has are taken for those that
/// are known in it. The notices are added.
pub fn look_with_names<R: TreeReader + CommentReader, L: Ledger>(
    alloc: Global,
    reader: &R,
    path: &str,
    view: FileView,
    running: &[Runner<'_>],
    traced: bool,
    kept: &mut KeptLeaves,
    steps: &mut Steps<L>,
    notices: &mut Vec<Noted>,
) -> Result<(FileView, List<Reported>), Memory>
    ensures same { IfOk result (λ found. IsSameFile view found.0) }
    ensures named { HasNoneOrAll (R.knows reader.now) view → IfOk result (λ found. AreWanted (R.knows reader.now) view.lang view.tree running.now found.0.known) }
    ensures results { HasNoneOrAll (R.knows reader.now) view → AreApart running.now → IfOk result (λ found. IsExactly reported_cmp (IsShownIn (own_leaf (R.knows reader.now)) (R.comments reader.now) traced running.now path.now view.lang view.bytes view.tree) found.1) }
    ensures notices { HasNoneOrAll (R.knows reader.now) view → OnOk result (Adds notices.old.items notices.new.items (IsNotedIn (own_leaf (R.knows reader.now)) running.now path.now view.lang view.bytes view.tree)) }
    ensures kept { IfOk result (λ found. Meets (IsNeededIn running.now path.now found.0) (map_of kept.old) steps.old (map_of kept.new) steps.new) }
{
    let named = with_needed_names(alloc, reader, view, running)?;
    let results = look(
        alloc, reader, path, &named, running, traced, kept, steps, notices,
    )?;
    Ok((named, results))
}
