//! The report of files that were seen.

ghost use Rattle.std.specs.Prelude.{◌≡◌, List as list, [], ℕ, OnOk};
ghost use Rattle.rule_files.specs.declared.rule_file.RuleFile.{RuleFile as a_rule_file};
ghost use Rattle.running_rules.specs.Running.{running};
ghost use Rattle.scan_session.specs.Quieted.{grammars_of};
ghost use Rattle.scan_session.specs.Shown.{File as a_file};
ghost use Rattle.scan_session.specs.Scans.{HasScanned};
ghost use Rattle.seen_files.specs.Seen.{HasSeen};
ghost use Rattle.session.specs.Reporting.{TellsReport};

use crate::copying::{copy_notices, copy_results};
use code_reader::TreeReader;
use comment_reader::CommentReader;
use node_tree::Memory;
use report_form::Report;
use scan_session::{ScanFault, Scanner};
use seen_files::SeenFiles;
use std::alloc::Global;

// Adds what was found in all the files, in order of path.
fn add_all<R: TreeReader + CommentReader>(
    alloc: Global,
    seen: &SeenFiles,
    scanner: &mut Scanner<'_, R>,
) -> Result<(), Memory>
    ensures scanned { (refused : list (list ℕ)) (rules : list a_rule_file) (most : ℕ) (files : list a_file)
        → HasScanned (grammars_of (R.spells scanner.old.reader.now) (R.knows scanner.old.reader.now) (R.comments scanner.old.reader.now) scanner.old.traced) refused rules most [] scanner.old
        → HasSeen (grammars_of (R.spells scanner.old.reader.now) (R.knows scanner.old.reader.now) (R.comments scanner.old.reader.now) scanner.old.traced) (running refused rules) files seen.now
        → OnOk result (HasScanned (grammars_of (R.spells scanner.old.reader.now) (R.knows scanner.old.reader.now) (R.comments scanner.old.reader.now) scanner.old.traced) refused rules most files scanner.new) }
    ensures same_reader { scanner.new.reader.now ≡ scanner.old.reader.now }
    ensures same_traced { scanner.new.traced ≡ scanner.old.traced }
{
    for file in seen.files() {
        let results = copy_results(alloc, file.results().as_slice())?;
        let notices = copy_notices(alloc, file.notices().as_slice())?;
        scanner.add(results, notices)?;
    }
    Ok(())
}

/// The report of files that were seen by the rules of a scanner that has scanned none.
pub fn report_of<R: TreeReader + CommentReader>(
    alloc: Global,
    seen: &SeenFiles,
    mut scanner: Scanner<'_, R>,
) -> Result<Report, ScanFault>
    ensures report { (refused : list (list ℕ)) (rules : list a_rule_file) (most : ℕ) (files : list a_file)
        → HasScanned (grammars_of (R.spells scanner.entry.reader.now) (R.knows scanner.entry.reader.now) (R.comments scanner.entry.reader.now) scanner.entry.traced) refused rules most [] scanner.entry
        → HasSeen (grammars_of (R.spells scanner.entry.reader.now) (R.knows scanner.entry.reader.now) (R.comments scanner.entry.reader.now) scanner.entry.traced) (running refused rules) files seen.now
        → TellsReport (grammars_of (R.spells scanner.entry.reader.now) (R.knows scanner.entry.reader.now) (R.comments scanner.entry.reader.now) scanner.entry.traced) refused rules most files result }
{
    add_all(alloc, seen, &mut scanner)?;
    scanner.report(alloc)
}
