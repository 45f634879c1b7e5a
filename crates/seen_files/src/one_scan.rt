//! What rules find in a file of which nothing was seen before, and of which nothing is kept.

ghost use Rattle.std.specs.Prelude.{◌≡◌, IfOk};
ghost use Rattle.running_rules.specs.Running.{AreApart};
ghost use Rattle.file_results.specs.Quieted.{grammars_of};
ghost use Rattle.seen_files.specs.Findings.{seen_of};
ghost use Rattle.seen_files.specs.Fresh.{SpendsOn, IsOneFreshCost};
ghost use Rattle.seen_files.specs.Seen.{file_of, IsSeen};

use crate::finding::find_anew;
use crate::found_file::FoundFile;
use code_reader::TreeReader;
use comment_reader::CommentReader;
use kept_leaves::KeptLeaves;
use node_tree::{Bytes, Memory, Steps};
use running_rules::Runner;
use std::alloc::Global;
use std::rc::Rc;
use std::sync::ledger::Ledger;

/// What the rules find in a file, which is opened by the reader in the language that its path's ending names, or else in
/// `Regex`. That is one step, and one for each piece of the file and each pattern that the rules ask for in it.
pub fn find_fresh<R: TreeReader + CommentReader, L: Ledger>(
    alloc: Global,
    reader: &R,
    path: &str,
    bytes: &Rc<Bytes>,
    running: &[Runner<'_>],
    traced: bool,
    steps: &mut Steps<L>,
) -> Result<FoundFile, Memory>
    ensures file { IfOk result (λ f. file_of (seen_of f) ≡ (path.now, bytes.now.value)) }
    ensures seen { AreApart running.now → IfOk result (λ f. IsSeen (grammars_of (R.spells reader.now) (R.knows reader.now) (R.comments reader.now) traced) running.now (seen_of f)) }
    ensures spent { IfOk result (λ f. SpendsOn running.now (seen_of f) steps.old steps.new) }
    // How many steps it takes to see files so follows from these and the rules (`specs/Fresh.antt`).
    ensures one { IsOneFreshCost (grammars_of (R.spells reader.now) (R.knows reader.now) (R.comments reader.now) traced) }
{
    let mut kept = KeptLeaves::new(alloc);
    find_anew(
        alloc, reader, path, bytes, running, traced, &mut kept, steps,
    )
}
