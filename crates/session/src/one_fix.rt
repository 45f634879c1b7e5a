//! A scan and a fix of files of which nothing was seen before, and of which nothing is kept.

ghost use Rattle.std.specs.Prelude.{◌≡◌, ◌++◌, ◌≤◌, ℕ, length, None, Err, IfOk, OnOk, OnErr};
ghost use Rattle.tree_match.specs.Ascending.{IsAscending};
ghost use Rattle.decided_texts.specs.Refused.{gained, Gains};
ghost use Rattle.file_map.specs.FileMap.{over_limit};
ghost use Rattle.file_map.specs.declared.limit.LimitKind.{LimitKind as limit_kind};
ghost use Rattle.running_rules.specs.Running.{AreApart};
ghost use Rattle.scan_session.specs.Quieted.{grammars_of};
ghost use Rattle.scan_session.specs.Scans.{Scans};
ghost use Rattle.scan_session.specs.Shown.{file_cmp};
ghost use Rattle.scan_session.specs.declared.fault.ScanFault.TheVariants as scan_faults;
ghost use Rattle.seen_files.specs.Fresh.{SeesFresh};
ghost use Rattle.workspace.specs.declared.fault.FixFault.TheVariants as fix_faults;
ghost use Rattle.workspace.specs.Reports.{readings_of, IsReport, HasMoreResults, AreReadOnce, SettlesRules};
ghost use Rattle.workspace.specs.Fixes.{IsFixReport, FixesPass, files_fixed};
ghost use Rattle.workspace.specs.Work.{WorksOnce};

use crate::fixing::fix_by;
use code_reader::{PatternReader, TreeReader};
use comment_reader::CommentReader;
use decided_texts::DecidedTexts;
use file_map::FileMap;
use fix_apply::FixReport;
use node_tree::{Memory, Steps};
use report_form::Report;
use rule_map::RuleMap;
use rx_text::Patterns;
use scan_session::{ScanFault, Scanner};
use seen_files::find_fresh;
use std::alloc::Global;
use std::sync::ledger::Ledger;
use workspace::FixFault;

// Adds what the scanner's rules find in all the files, in order of path.
fn scan_all<R: TreeReader + CommentReader, L: Ledger>(
    alloc: Global,
    reader: &R,
    files: &FileMap,
    traced: bool,
    scanner: &mut Scanner<'_, R>,
    steps: &mut Steps<L>,
) -> Result<(), Memory>
    requires reader { scanner.old.reader.now ≡ reader.now }
    requires traced { scanner.old.traced ≡ traced }
    requires apart { AreApart scanner.old.running.items }
    ensures scanned { OnOk result (Scans (grammars_of (R.spells reader.now) (R.knows reader.now) (R.comments reader.now) traced) files.now scanner.old scanner.new) }
    ensures sees { OnOk result (SeesFresh (grammars_of (R.spells reader.now) (R.knows reader.now) (R.comments reader.now) traced) scanner.old.running.items files.now steps.old steps.new) }
    ensures ordered { OnOk result (IsAscending file_cmp files.now) }
    ensures same_reader { scanner.new.reader.now ≡ scanner.old.reader.now }
    ensures same_traced { scanner.new.traced ≡ scanner.old.traced }
{
    let entries = files.entries()?;
    for (path, bytes) in entries.as_slice() {
        let running = scanner.running();
        let found = find_fresh(alloc, reader, path, bytes, running, traced, steps)?;
        let (results, notices) = found.into_said();
        scanner.add(results, notices)?;
    }
    Ok(())
}

/// What a scan of the files by the rules reports, where none was seen before. It is refused where there are more findings than
/// `most`. It takes a step for each file, and one for each piece and pattern that the rules need. Texts of regular expressions that
/// aren't decided yet are decided. Nothing is kept of a file but what was found in it.
pub fn scan_once<R: TreeReader + CommentReader + PatternReader, P: Patterns, L: Ledger>(
    alloc: Global,
    rules: &RuleMap<'_, R>,
    files: &FileMap,
    most: u64,
    traced: bool,
    decided: &mut DecidedTexts,
    patterns: &mut P,
    steps: &mut Steps<L>,
) -> Result<Report, ScanFault>
    ensures report { IfOk result (IsReport (readings_of (R.spells rules.now.reader) (R.knows rules.now.reader) (R.comments rules.now.reader) (R.writes rules.now.reader) traced) decided.new.refused files.now rules.now.files) }
    ensures few { IfOk result (λ report. length report.results ≤ most) }
    ensures too_many { (n : ℕ) → result ≡ Err (scan_faults.TooMany n) → (n ≡ most) × HasMoreResults (readings_of (R.spells rules.now.reader) (R.knows rules.now.reader) (R.comments rules.now.reader) (R.writes rules.now.reader) traced) decided.new.refused files.now rules.now.files n }
    ensures one { AreReadOnce (R.writes rules.now.reader) rules.now.files }
    ensures work { (result ≡ Err scan_faults.Memory → ⊥) → WorksOnce (readings_of (R.spells rules.now.reader) (R.knows rules.now.reader) (R.comments rules.now.reader) (R.writes rules.now.reader) traced) decided.new.refused files.now rules.now.files steps.old steps.new }
    ensures refused { (result ≡ Err scan_faults.Memory → ⊥) → decided.new.refused ≡ decided.old.refused ++ gained (P.refusals patterns.old) (P.refusals patterns.new) }
    ensures settled { (result ≡ Err scan_faults.Memory → ⊥) → SettlesRules (R.writes rules.now.reader) rules.now.files decided.old decided.new (P.asked patterns.old) (P.asked patterns.new) }
    ensures grows { Gains (P.refusals patterns.old) (P.refusals patterns.new) }
{
    let reader = rules.reader();
    let contents = rules.contents();
    let mut scanner = Scanner::of(alloc, reader, contents, most, traced, decided, patterns)?;
    scan_all(alloc, reader, files, traced, &mut scanner, steps)?;
    scanner.report(alloc)
}

/// What a scan of the files by the rules reports, where none was seen before, and what the fixes of the report make of the files,
/// which are put. It is refused where there are more findings than `most`, or where the files would have more than 33,554,432 bytes
/// then. It takes a step for each file, and one for each piece and pattern that the rules need. Nothing is kept of a file but what
/// was found in it.
pub fn fix_once<R: TreeReader + CommentReader + PatternReader, P: Patterns, L: Ledger>(
    alloc: Global,
    rules: &RuleMap<'_, R>,
    files: &mut FileMap,
    most: u64,
    traced: bool,
    decided: &mut DecidedTexts,
    patterns: &mut P,
    steps: &mut Steps<L>,
) -> Result<FixReport, FixFault>
    ensures report { IfOk result (IsFixReport (readings_of (R.spells rules.now.reader) (R.knows rules.now.reader) (R.comments rules.now.reader) (R.writes rules.now.reader) traced) decided.new.refused files.old rules.now.files) }
    ensures few { IfOk result (λ fixed. length fixed.report.results ≤ most) }
    ensures put { IfOk result (λ fixed. files.new ≡ files_fixed files.old fixed.files) }
    ensures within { IfOk result (λ fixed. over_limit (files_fixed files.old fixed.files) ≡ None) }
    ensures too_many { (n : ℕ) → result ≡ Err (fix_faults.TooMany n) → (n ≡ most) × HasMoreResults (readings_of (R.spells rules.now.reader) (R.knows rules.now.reader) (R.comments rules.now.reader) (R.writes rules.now.reader) traced) decided.new.refused files.old rules.now.files n }
    ensures over { (kind : limit_kind) (n : ℕ) → result ≡ Err (fix_faults.OverLimit kind n) → FixesPass (readings_of (R.spells rules.now.reader) (R.knows rules.now.reader) (R.comments rules.now.reader) (R.writes rules.now.reader) traced) decided.new.refused files.old rules.now.files most kind n }
    ensures one { AreReadOnce (R.writes rules.now.reader) rules.now.files }
    ensures work { (result ≡ Err fix_faults.Memory → ⊥) → WorksOnce (readings_of (R.spells rules.now.reader) (R.knows rules.now.reader) (R.comments rules.now.reader) (R.writes rules.now.reader) traced) decided.new.refused files.old rules.now.files steps.old steps.new }
    ensures refused_fix { OnErr result (files.new ≡ files.old) }
    ensures refused { (result ≡ Err fix_faults.Memory → ⊥) → decided.new.refused ≡ decided.old.refused ++ gained (P.refusals patterns.old) (P.refusals patterns.new) }
    ensures settled { (result ≡ Err fix_faults.Memory → ⊥) → SettlesRules (R.writes rules.now.reader) rules.now.files decided.old decided.new (P.asked patterns.old) (P.asked patterns.new) }
    ensures grows { Gains (P.refusals patterns.old) (P.refusals patterns.new) }
{
    let report = match scan_once(alloc, rules, files, most, traced, decided, patterns, steps) {
        Ok(report) => report,
        Err(ScanFault::Memory) => return Err(FixFault::Memory),
        Err(ScanFault::TooMany(_)) => return Err(FixFault::TooMany(most)),
    };
    fix_by(alloc, files, report)
}
