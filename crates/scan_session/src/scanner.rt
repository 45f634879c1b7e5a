//! Scans of files that come one after the other.

ghost use Rattle.std.specs.Prelude.{◌≡◌, ◌≤◌, ◌++◌, ◌∷◌, ◌<◌, ◌↔◌, [], ℕ, length, Err, IsTrue, IfOk, OnOk};
ghost use Rattle.report_form.specs.declared.report.Report.{Report as a_report};
ghost use Rattle.scan_session.specs.declared.fault.ScanFault.TheVariants.{TooMany};
ghost use Rattle.node_match.specs.Sets.{Among};
ghost use Rattle.report_form.specs.declared.notice.Notice.{Notice as a_notice};
ghost use Rattle.file_results.specs.Sets.{IsExactly, HasMore};
ghost use Rattle.file_results.specs.Reports.{reported_cmp};
ghost use Rattle.decided_texts.specs.Refused.{gained, Gains};
ghost use Rattle.decided_texts.specs.Decided.{AreDecided, AreUndecided};
ghost use Rattle.decided_texts.specs.Deciding.{Grows, TakesAll};
ghost use Rattle.decided_texts.specs.Asking.{Settles};
ghost use Rattle.running_rules.specs.Running.{running as rules_of, stated, texts_of, AreTextsOf};
ghost use Rattle.file_results.specs.Quieted.{grammars_of};
ghost use Rattle.scan_session.specs.Fresh.{IsFresh, IsResult};
ghost use Rattle.file_results.specs.Shown.{File as a_file, IsResultIn, IsNoticeIn};
ghost use Rattle.scan_session.specs.Others.{KeepsOtherFiles, KeepsOtherRules};
ghost use Rattle.scan_session.specs.Scans.{HasScanned, Scans, AfterScan};

use crate::fault::ScanFault;
use code_reader::TreeReader;
use comment_reader::CommentReader;
use decided_texts::DecidedTexts;
use node_tree::{List, Memory};
use report_form::{Notice, Report, Reported};
use rule_files::RuleFile;
use running_rules::{Noted, Runner, in_order, take_files};
use rx_text::Patterns;
use std::alloc::Global;

// Adds the items at the end.
fn append(results: &mut List<Reported>, mut more: List<Reported>) -> Result<(), Memory>
    ensures { OnOk result (results.new ≡ results.old ++ more) }
{
    more.reverse();
    while let Some(result) = more.pop() {
        results.push(result)?;
    }
    Ok(())
}

// Adds the notices at the end.
fn append_notices(notices: &mut Vec<Noted>, mut more: List<Notice>) -> Result<(), Memory>
    ensures { OnOk result (notices.new.items ≡ notices.old.items ++ more) }
{
    more.reverse();
    while let Some(notice) = more.pop() {
        notices.push(Noted::of(notice))?;
    }
    Ok(())
}

/// A scan of files that come one after the other, by a reader of trees and comments. It keeps what is to be said of them and not the files.
#[derive(Drop)]
pub struct Scanner<'r, R> {
    reader: &'r R,
    running: Vec<Runner<'r>>,
    most: u64,
    traced: bool,
    results: List<Reported>,
    notices: Vec<Noted>,
}

impl<'r, R: TreeReader + CommentReader> Scanner<'r, R> {
    /// A scan by the rules of the rule files, which reports at most so many findings, with their traces if
    /// `traced` says so, and has no file so far. Files are opened by the reader. A rule whose id an earlier one has does not run; nor does one with a text that is refused.
    ///
    /// Each text of a good rule that isn't decided is decided now, in order of rule file, entry and place, and the builder is asked
    /// once for each. The refused ones are then those that were refused before or now. Whatever this answers, what was decided
    /// stays so.
    pub fn of<P: Patterns>(
        alloc: Global,
        reader: &'r R,
        rules: &'r [RuleFile],
        most: u64,
        traced: bool,
        decided: &mut DecidedTexts,
        patterns: &mut P,
    ) -> Result<Scanner<'r, R>, Memory>
        ensures grows { Gains (P.refusals patterns.old) (P.refusals patterns.new) }
        ensures asked { AreTextsOf rules.now (gained (P.refusals patterns.old) (P.refusals patterns.new)) }
        ensures undecided { AreUndecided decided.old (gained (P.refusals patterns.old) (P.refusals patterns.new)) }
        ensures kept { Grows decided.old decided.new (gained (P.refusals patterns.old) (P.refusals patterns.new)) }
        ensures refused { OnOk result (TakesAll decided.old decided.new (P.refusals patterns.old) (P.refusals patterns.new)) }
        ensures decided { OnOk result (AreDecided decided.new (texts_of (stated rules.now))) }
        ensures settled { OnOk result (Settles (texts_of (stated rules.now)) decided.old decided.new (P.asked patterns.old) (P.asked patterns.new)) }
        ensures same_reader { IfOk result (λ scanner. scanner.reader.now ≡ reader.now) }
        ensures traced { IfOk result (λ scanner. scanner.traced ≡ traced) }
        ensures begun { IfOk result (HasScanned (grammars_of (R.spells reader.now) (R.knows reader.now) (R.comments reader.now) traced) decided.new.refused rules.now most []) }
    {
        let mut notices = Vec::new(alloc);
        let running = take_files(alloc, rules, decided, patterns, &mut notices)?;
        Ok(Scanner {
            reader,
            running,
            most,
            traced,
            results: List::new(alloc),
            notices,
        })
    }

    // Whether there are more findings than are reported.
    fn is_over(&self) -> bool
        ensures { IsTrue result ↔ self.now.most < length self.now.results }
    {
        self.most < self.results.len() as u64
    }

    /// The rules that run.
    pub fn running(&self) -> &[Runner<'r>]
        ensures { result.now ≡ self.now.running.items }
    {
        self.running.as_slice()
    }

    /// Adds what was found in a file that comes after all so far: of whichever file these are all results and all notices by the
    /// rules that run. It is passed over where the files so far have too many findings already.
    pub fn add(&mut self, results: List<Reported>, notices: List<Notice>) -> Result<(), Memory>
        ensures added { (file : a_file) → IsExactly reported_cmp (IsResultIn (grammars_of (R.spells self.old.reader.now) (R.knows self.old.reader.now) (R.comments self.old.reader.now) self.old.traced) self.old.running.items file) results → ((n : a_notice) → Among notices n ↔ IsNoticeIn (grammars_of (R.spells self.old.reader.now) (R.knows self.old.reader.now) (R.comments self.old.reader.now) self.old.traced) self.old.running.items file n) → OnOk result (Scans (grammars_of (R.spells self.old.reader.now) (R.knows self.old.reader.now) (R.comments self.old.reader.now) self.old.traced) (file ∷ []) self.old self.new) }
        ensures same_rules { self.new.running.items ≡ self.old.running.items }
        ensures same_reader { self.new.reader.now ≡ self.old.reader.now }
        ensures same_traced { self.new.traced ≡ self.old.traced }
    {
        if self.is_over() {
            return Ok(());
        }
        append_notices(&mut self.notices, notices)?;
        append(&mut self.results, results)
    }

    /// What the rules find in the files, and what there is to be said of both: all findings that no comment quiets, in order of
    /// path, range, rule, binding and source, and all notices in order of path, rule, kind and detail, each once.
    ///
    /// TooMany comes exactly where there are more findings than are reported. A file, whatever it holds, and an entry that is
    /// no rule change no finding of another.
    pub fn report(self, alloc: Global) -> Result<Report, ScanFault>
        ensures fresh { AfterScan (grammars_of (R.spells self.entry.reader.now) (R.knows self.entry.reader.now) (R.comments self.entry.reader.now) self.entry.traced) self.entry (λ grammars refused rules most files. IfOk result (IsFresh grammars refused files rules)) }
        ensures few { AfterScan (grammars_of (R.spells self.entry.reader.now) (R.knows self.entry.reader.now) (R.comments self.entry.reader.now) self.entry.traced) self.entry (λ grammars refused rules most files. IfOk result (λ report. length report.results ≤ most)) }
        ensures too_many { AfterScan (grammars_of (R.spells self.entry.reader.now) (R.knows self.entry.reader.now) (R.comments self.entry.reader.now) self.entry.traced) self.entry (λ grammars refused rules most files. (n : ℕ) → result ≡ Err (TooMany n) → (n ≡ most) × HasMore reported_cmp (IsResult grammars (rules_of refused rules) files) most) }
        ensures only { AfterScan (grammars_of (R.spells self.entry.reader.now) (R.knows self.entry.reader.now) (R.comments self.entry.reader.now) self.entry.traced) self.entry (λ grammars refused rules most files. IfOk result (λ report. (r : a_report) → IsFresh grammars refused files rules r → r ≡ report)) }
        ensures other_files { AfterScan (grammars_of (R.spells self.entry.reader.now) (R.knows self.entry.reader.now) (R.comments self.entry.reader.now) self.entry.traced) self.entry (λ grammars refused rules most files. IfOk result (KeepsOtherFiles grammars refused files rules)) }
        ensures other_rules { AfterScan (grammars_of (R.spells self.entry.reader.now) (R.knows self.entry.reader.now) (R.comments self.entry.reader.now) self.entry.traced) self.entry (λ grammars refused rules most files. IfOk result (KeepsOtherRules grammars refused files rules)) }
    {
        if self.is_over() {
            return Err(ScanFault::TooMany(self.most));
        }
        let notices = in_order(alloc, self.notices)?;
        Ok(Report {
            results: self.results,
            notices,
        })
    }
}
