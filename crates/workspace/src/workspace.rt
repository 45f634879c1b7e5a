//! Files and rule files that are put, taken away, scanned and fixed.

ghost use Rattle.std.specs.Prelude.{◌≡◌, ◌⊎◌, ◌≤◌, ◌++◌, ℕ, length, Option as option, None, Some, Err, IfOk, IfErr, OnOk, OnErr};
ghost use Rattle.std.specs.Option.{option_map, is_some};
ghost use Rattle.scan_world.specs.Trees.{KeepsFiles};
ghost use Rattle.file_map.specs.FileMap.{bytes_at, with_file, without_file, over_limit, TellsOver, TellsPut};
ghost use Rattle.file_map.specs.Sync.{Syncs, SyncPasses};
ghost use Rattle.file_map.specs.Faults.{HasSyncCause, TellsLimit};
ghost use Rattle.file_map.specs.declared.limit.LimitKind.{LimitKind as limit_kind};
ghost use Rattle.rule_map.specs.RuleMap.{PutRuleEnds, TellsEnd};
ghost use Rattle.report_form.specs.declared.report.Report.{Report as a_report};
ghost use Rattle.fix_apply.specs.declared.fixed.FixReport.{FixReport as a_fix_report};
ghost use Rattle.decided_texts.specs.Refused.{gained, Gains};
ghost use Rattle.scan_session.specs.declared.fault.ScanFault.TheVariants as scan_faults;
ghost use Rattle.workspace.specs.declared.fault.FixFault.TheVariants as fix_faults;
ghost use Rattle.workspace.specs.State.{State, with_files, with_rules, with_decided, files_put};
ghost use Rattle.workspace.specs.Reports.{Readings, IsReport, HasMoreResults, AreAsked, AreAllDecided, AreReadOnce, SettlesRules, StayDecided, GainsSome};
ghost use Rattle.seen_files.specs.declared.seen.SeenFiles.{SeenFiles as a_seen};
ghost use Rattle.seen_files.specs.Seen.{HasSeenNone, HasRightLeaves};
ghost use Rattle.workspace.specs.Fixes.{IsFixReport, FixesPass, files_fixed};
ghost use Rattle.workspace.specs.Work.{Works};

use crate::fault::FixFault;
use file_map::{PutFault, SyncFault};
use fix_apply::FixReport;
use node_tree::Steps;
use report_form::Report;
use rx_text::Patterns;
use scan_session::ScanFault;
use scan_world::Tree;
use std::sync::ledger::Ledger;

/// Files and rule files that are put, taken away, scanned and fixed. A call that is refused leaves both as they were.
pub trait Workspace {
    type Reader;

    // What reads the files and the rules, and what they are by it.
    ghost reader: { Self → Self.Reader };

    ghost readings: { Self.Reader → Readings };

    // What is there.
    ghost state: { Self → State };

    // What the last scan saw.
    ghost seen: { Self → a_seen };

    /// Puts a file at a path, of which at most the first 1,000,001 bytes are kept. It is refused where there would be more than
    /// 10,000 files or more than 33,554,432 bytes.
    fn put(&mut self, path: &str, bytes: &[u8]) -> Result<(), PutFault>
        ensures put { OnOk result (state self.new ≡ with_files (state self.old) (files_put (state self.old).files path.now bytes.now)) }
        ensures within { OnOk result (over_limit (files_put (state self.old).files path.now bytes.now) ≡ None) }
        ensures over { IfErr result (TellsOver (over_limit (files_put (state self.old).files path.now bytes.now))) }
        ensures refused { OnErr result (state self.new ≡ state self.old) }
        ensures same_reader { reader self.new ≡ reader self.old }
        ensures unseen { seen self.new ≡ seen self.old };

    /// Takes the file at a path away, and says whether there was one.
    fn del(&mut self, path: &str) -> bool
        ensures removed { state self.new ≡ with_files (state self.old) (without_file path.now (state self.old).files) }
        ensures was_there { result ≡ is_some (bytes_at path.now (state self.old).files) }
        ensures same_reader { reader self.new ≡ reader self.old }
        ensures unseen { seen self.new ≡ seen self.old };

    /// Puts a rule file of a name. It is refused where there would be more than 100 rule files or 1,000 entries in all, or where
    /// it has more than 262,144 bytes.
    fn put_rules(&mut self, name: &str, bytes: &[u8]) -> Result<(), PutFault>
        ensures put { OnOk result (state self.new ≡ with_rules (state self.old) (with_file (state self.old).rules (name.now, bytes.now))) }
        ensures within { OnOk result (PutRuleEnds (readings (reader self.old)).writes (state self.old).rules (name.now, bytes.now) None) }
        ensures over { IfErr result (TellsPut (PutRuleEnds (readings (reader self.old)).writes (state self.old).rules (name.now, bytes.now))) }
        ensures only { (over : option (limit_kind × ℕ)) → PutRuleEnds (readings (reader self.old)).writes (state self.old).rules (name.now, bytes.now) over → TellsEnd (λ told. told ≡ over) result }
        ensures refused { OnErr result (state self.new ≡ state self.old) }
        ensures same_reader { reader self.new ≡ reader self.old }
        ensures unseen { seen self.new ≡ seen self.old };

    /// Takes the rule file of a name away, and says whether there was one.
    fn del_rules(&mut self, name: &str) -> bool
        ensures removed { state self.new ≡ with_rules (state self.old) (without_file name.now (state self.old).rules) }
        ensures was_there { result ≡ is_some (bytes_at name.now (state self.old).rules) }
        ensures same_reader { reader self.new ≡ reader self.old }
        ensures unseen { seen self.new ≡ seen self.old };

    /// The bytes that are kept of the file at a path, None exactly where there is no file.
    fn file(&self, path: &str) -> Option<&[u8]>
        ensures { option_map (λ bytes. bytes.now) result ≡ bytes_at path.now (state self.now).files };

    /// Replaces the files under a prefix, which is a path or `.`, by those of the folder there: each whose path's ending names a
    /// language and has no segment that begins with a dot. The first file with which there are too many files or too many bytes,
    /// those outside the prefix among them, ends the call.
    fn sync<T: Tree>(&mut self, tree: &mut T, prefix: &str) -> Result<(), SyncFault>
        ensures synced { OnOk result (Syncs (T.files tree.old) prefix.now (state self.old).files (state self.new).files) }
        ensures only_files { OnOk result (state self.new ≡ with_files (state self.old) (state self.new).files) }
        ensures within { OnOk result (SyncPasses (T.files tree.old) prefix.now (state self.old).files None) }
        ensures over { IfErr result (TellsLimit (SyncPasses (T.files tree.old) prefix.now (state self.old).files)) }
        ensures refused { OnErr result (state self.new ≡ state self.old) }
        ensures same_reader { reader self.new ≡ reader self.old }
        ensures unseen { seen self.new ≡ seen self.old }
        ensures kept { KeepsFiles (T.files tree.old) (T.files tree.new) }
        ensures unfailed { OnOk result (T.faults tree.new ≡ T.faults tree.old) }
        ensures cause { IfErr result (HasSyncCause (T.faults tree.old) (T.faults tree.new)) };

    /// What a fresh scan of the files by the rules reports. It takes a step for each file that changed since the last scan, and one
    /// for each piece and pattern that weren't needed then (`specs/Work.antt`). A text of a regular expression is given to `build` once in the life of
    /// a workspace, at the first scan by a good rule that has it, in order of rule file, entry and place; the refused ones are those
    /// that the builder's list gained.
    fn scan<P: Patterns, L: Ledger>(
        &mut self,
        patterns: &mut P,
        steps: &mut Steps<L>,
    ) -> Result<Report, ScanFault>
        ensures report { IfOk result (IsReport (readings (reader self.old)) (state self.new).decided.refused (state self.old).files (state self.old).rules) }
        ensures few { IfOk result (λ report. length report.results ≤ (state self.old).most) }
        ensures too_many { (n : ℕ) → result ≡ Err (scan_faults.TooMany n) → (n ≡ (state self.old).most) × HasMoreResults (readings (reader self.old)) (state self.new).decided.refused (state self.old).files (state self.old).rules n }
        // There is one way to read the rule files, so there is one report.
        ensures one { AreReadOnce (readings (reader self.old)).writes (state self.old).rules }
        ensures only { IfOk result (λ report. (r : a_report) → IsReport (readings (reader self.old)) (state self.new).decided.refused (state self.old).files (state self.old).rules r → r ≡ report) }
        // After want of memory nothing was seen, or what was seen is as before.
        ensures work { (result ≡ Err scan_faults.Memory → ⊥) → Works (readings (reader self.old)) (state self.new).decided.refused (state self.old).files (state self.old).rules (seen self.old) (seen self.new) steps.old steps.new }
        ensures forgotten { result ≡ Err scan_faults.Memory → HasSeenNone (seen self.new) ⊎ (seen self.new ≡ seen self.old) }
        // Each leaf that is kept then has the members of its pattern in its piece.
        ensures leaves { (result ≡ Err scan_faults.Memory → ⊥) → HasRightLeaves (seen self.new) }
        ensures same { state self.new ≡ with_decided (state self.old) (state self.new).decided }
        ensures same_reader { reader self.new ≡ reader self.old }
        ensures refused { (result ≡ Err scan_faults.Memory → ⊥) → (state self.new).decided.refused ≡ (state self.old).decided.refused ++ gained (P.refusals patterns.old) (P.refusals patterns.new) }
        ensures refused_some { GainsSome (state self.old).decided (state self.new).decided (gained (P.refusals patterns.old) (P.refusals patterns.new)) }
        ensures all_decided { (result ≡ Err scan_faults.Memory → ⊥) → AreAllDecided (readings (reader self.old)).writes (state self.old).rules (state self.new).decided }
        ensures settled { (result ≡ Err scan_faults.Memory → ⊥) → SettlesRules (readings (reader self.old)).writes (state self.old).rules (state self.old).decided (state self.new).decided (P.asked patterns.old) (P.asked patterns.new) }
        ensures stay { StayDecided (state self.old).decided (state self.new).decided }
        ensures asked { AreAsked (readings (reader self.old)).writes (state self.old).rules (state self.old).decided (gained (P.refusals patterns.old) (P.refusals patterns.new)) }
        ensures grows { Gains (P.refusals patterns.old) (P.refusals patterns.new) };

    /// What a scan reports, and what the fixes of the report make of the files, which are put. The fixes of a file are taken in
    /// order; one is passed over whose range is empty or shares a byte with one taken before. A changed file is put as `put`
    /// does, and `whole` is all of it. It is refused where there are too many findings, or where the files would have more than
    /// 33,554,432 bytes then.
    fn fix<P: Patterns, L: Ledger>(
        &mut self,
        patterns: &mut P,
        steps: &mut Steps<L>,
    ) -> Result<FixReport, FixFault>
        ensures report { IfOk result (IsFixReport (readings (reader self.old)) (state self.new).decided.refused (state self.old).files (state self.old).rules) }
        ensures few { IfOk result (λ fixed. length fixed.report.results ≤ (state self.old).most) }
        ensures put { IfOk result (λ fixed. (state self.new).files ≡ files_fixed (state self.old).files fixed.files) }
        ensures within { IfOk result (λ fixed. over_limit (files_fixed (state self.old).files fixed.files) ≡ None) }
        ensures too_many { (n : ℕ) → result ≡ Err (fix_faults.TooMany n) → (n ≡ (state self.old).most) × HasMoreResults (readings (reader self.old)) (state self.new).decided.refused (state self.old).files (state self.old).rules n }
        ensures over { (kind : limit_kind) (n : ℕ) → result ≡ Err (fix_faults.OverLimit kind n) → FixesPass (readings (reader self.old)) (state self.new).decided.refused (state self.old).files (state self.old).rules (state self.old).most kind n }
        ensures one { AreReadOnce (readings (reader self.old)).writes (state self.old).rules }
        ensures only { IfOk result (λ fixed. (f : a_fix_report) → IsFixReport (readings (reader self.old)) (state self.new).decided.refused (state self.old).files (state self.old).rules f → f ≡ fixed) }
        // The files were seen before they were fixed.
        ensures work { (result ≡ Err fix_faults.Memory → ⊥) → Works (readings (reader self.old)) (state self.new).decided.refused (state self.old).files (state self.old).rules (seen self.old) (seen self.new) steps.old steps.new }
        // After want of memory nothing was seen, or what was seen is as before, or the files were seen.
        ensures forgotten { result ≡ Err fix_faults.Memory → HasSeenNone (seen self.new) ⊎ (seen self.new ≡ seen self.old) ⊎ Works (readings (reader self.old)) (state self.new).decided.refused (state self.old).files (state self.old).rules (seen self.old) (seen self.new) steps.old steps.new }
        ensures leaves { (result ≡ Err fix_faults.Memory → ⊥) → HasRightLeaves (seen self.new) }
        ensures refused_fix { OnErr result ((state self.new).files ≡ (state self.old).files) }
        ensures same { state self.new ≡ with_decided (with_files (state self.old) (state self.new).files) (state self.new).decided }
        ensures same_reader { reader self.new ≡ reader self.old }
        ensures refused { (result ≡ Err fix_faults.Memory → ⊥) → (state self.new).decided.refused ≡ (state self.old).decided.refused ++ gained (P.refusals patterns.old) (P.refusals patterns.new) }
        ensures refused_some { GainsSome (state self.old).decided (state self.new).decided (gained (P.refusals patterns.old) (P.refusals patterns.new)) }
        ensures all_decided { (result ≡ Err fix_faults.Memory → ⊥) → AreAllDecided (readings (reader self.old)).writes (state self.old).rules (state self.new).decided }
        ensures settled { (result ≡ Err fix_faults.Memory → ⊥) → SettlesRules (readings (reader self.old)).writes (state self.old).rules (state self.old).decided (state self.new).decided (P.asked patterns.old) (P.asked patterns.new) }
        ensures stay { StayDecided (state self.old).decided (state self.new).decided }
        ensures asked { AreAsked (readings (reader self.old)).writes (state self.old).rules (state self.old).decided (gained (P.refusals patterns.old) (P.refusals patterns.new)) }
        ensures grows { Gains (P.refusals patterns.old) (P.refusals patterns.new) };
}
