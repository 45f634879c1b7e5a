//! The rules of a session, and what the last scan by them saw.

ghost use Rattle.std.specs.Prelude.{◌≡◌, ◌⊎◌, List as list, ℕ, [], None, Option as option, Err, OnOk, OnErr};
ghost use Rattle.std.specs.Option.{is_some};
ghost use Rattle.scan_world.specs.Files.{Files};
ghost use Rattle.file_map.specs.declared.limit.LimitKind.{LimitKind as a_kind};
ghost use Rattle.file_map.specs.FileMap.{bytes_at, with_file, without_file};
ghost use Rattle.rule_files.specs.declared.rule_file.RuleFile.{RuleFile as a_rule_file};
ghost use Rattle.rule_map.specs.RuleMap.{AreRuleFiles, PutRuleEnds, TellsEnd};
ghost use Rattle.decided_texts.specs.Refused.{gained, Gains};
ghost use Rattle.decided_texts.specs.Decided.{AreUndecided};
ghost use Rattle.decided_texts.specs.Deciding.{Grows, TakesAll};
ghost use Rattle.scan_session.specs.declared.fault.ScanFault.TheVariants as faults;
ghost use Rattle.scan_session.specs.Quieted.{grammars_of};
ghost use Rattle.seen_files.specs.Seen.{HasSeenNone, HasRightLeaves};
ghost use Rattle.workspace.specs.Reports.{readings_of, AreAsked, AreAllDecided, AreReadOnce, SettlesRules};
ghost use Rattle.workspace.specs.Work.{Works};
ghost use Rattle.session.specs.Reporting.{TellsReport};

use crate::scanning::report_of;
use code_reader::{PatternReader, TreeReader};
use comment_reader::CommentReader;
use decided_texts::DecidedTexts;
use file_map::{FileMap, PutFault};
use node_tree::{List, Memory, Steps};
use report_form::Report;
use rule_form::Rule;
use rule_map::RuleMap;
use rx_text::Patterns;
use scan_session::{ScanFault, Scanner};
use seen_files::SeenFiles;
use std::alloc::Global;
use std::marker::Model;
use std::sync::ledger::Ledger;

/// The rule files of a session, whether findings have their traces, which texts of regular expressions were decided, and what the
/// last scan saw. Contracts see these four.
#[derive(Drop)]
pub struct ScanState<'r, R: TreeReader + CommentReader + PatternReader> {
    rules: RuleMap<'r, R>,
    traced: bool,
    decided: DecidedTexts,
    seen: SeenFiles,
    // The rules by which the files were seen.
    seen_by: List<Rule>,
}

impl<'r, R: TreeReader + CommentReader + PatternReader> Model for ScanState<'r, R> {
    ghost use Rattle.decided_texts.specs.contracts.decided_texts.DecidedTexts as decisions;
    ghost use Rattle.seen_files.specs.contracts.seen.SeenFiles as seens;
    ghost use Rattle.scan_session.specs.Quieted.{grammars_of};
    ghost use Rattle.session.specs.ScanState.{Scanned, scanned_code, IsUpToDate};

    ghost Value = { Scanned R };

    ghost coded = { scanned_code R.code decisions.the_row.coded seens.the_row.coded };

    ghost view = { λ s. record { rules = s.rules; traced = s.traced; decided = s.decided; seen = s.seen } };

    ghost invariant = { λ s. IsUpToDate (grammars_of (R.spells s.rules.reader) (R.knows s.rules.reader) (R.comments s.rules.reader) s.traced) s.seen_by s.seen };
}

impl<'r, R: TreeReader + CommentReader + PatternReader> ScanState<'r, R> {
    /// No rules, and nothing was seen. Findings will have their traces if `traced` says so. It takes no memory.
    pub fn new(alloc: Global, reader: &'r R, traced: bool) -> ScanState<'r, R>
        ensures reader { result.rules.reader ≡ reader.now }
        ensures traced { result.traced ≡ traced }
        ensures rules { result.rules.files ≡ [] }
        ensures decided { result.decided ≡ record { refused = []; built = [] } }
        ensures seen { HasSeenNone result.seen }
    {
        ScanState {
            rules: RuleMap::new(alloc, reader),
            traced,
            decided: DecidedTexts::new(alloc),
            seen: SeenFiles::new(alloc),
            seen_by: List::new(alloc),
        }
    }

    /// Reads a rule file and puts it, with all its bytes.
    pub fn put_rules(&mut self, name: &str, bytes: &[u8]) -> Result<(), PutFault>
        ensures reader { self.new.rules.reader ≡ self.old.rules.reader }
        ensures traced { self.new.traced ≡ self.old.traced }
        ensures put { OnOk result (self.new.rules.files ≡ with_file self.old.rules.files (name.now, bytes.now)) }
        ensures ends { TellsEnd (PutRuleEnds (R.writes self.old.rules.reader) self.old.rules.files (name.now, bytes.now)) result }
        ensures only { (over : option (a_kind × ℕ)) → PutRuleEnds (R.writes self.old.rules.reader) self.old.rules.files (name.now, bytes.now) over → TellsEnd (λ told. told ≡ over) result }
        ensures refused { OnErr result (self.new.rules.files ≡ self.old.rules.files) }
        ensures decided { self.new.decided ≡ self.old.decided }
        ensures seen { self.new.seen ≡ self.old.seen }
    {
        self.rules.put(name, bytes)
    }

    /// Removes the rule file of that name, and says whether there was one.
    pub fn del_rules(&mut self, name: &str) -> bool
        ensures reader { self.new.rules.reader ≡ self.old.rules.reader }
        ensures traced { self.new.traced ≡ self.old.traced }
        ensures removed { self.new.rules.files ≡ without_file name.now self.old.rules.files }
        ensures was_there { result ≡ is_some (bytes_at name.now self.old.rules.files) }
        ensures decided { self.new.decided ≡ self.old.decided }
        ensures seen { self.new.seen ≡ self.old.seen }
    {
        self.rules.del(name)
    }

    /// What the rules find in the files, which are at most so many findings. Texts of regular expressions that aren't decided yet
    /// are decided.
    pub fn scan<P: Patterns, L: Ledger>(
        &mut self,
        alloc: Global,
        files: &FileMap,
        most: u64,
        patterns: &mut P,
        steps: &mut Steps<L>,
    ) -> Result<Report, ScanFault>
        ensures report { (contents : list a_rule_file) → AreRuleFiles (R.writes self.old.rules.reader) self.old.rules.files contents
            → TellsReport (grammars_of (R.spells self.old.rules.reader) (R.knows self.old.rules.reader) (R.comments self.old.rules.reader) self.old.traced) self.new.decided.refused contents most files.now result }
        ensures one { AreReadOnce (R.writes self.old.rules.reader) self.old.rules.files }
        ensures work { (result ≡ Err faults.Memory → ⊥) → Works (readings_of (R.spells self.old.rules.reader) (R.knows self.old.rules.reader) (R.comments self.old.rules.reader) (R.writes self.old.rules.reader) self.old.traced) self.new.decided.refused files.now self.old.rules.files self.old.seen self.new.seen steps.old steps.new }
        ensures forgotten { result ≡ Err faults.Memory → HasSeenNone self.new.seen ⊎ (self.new.seen ≡ self.old.seen) }
        ensures leaves { (result ≡ Err faults.Memory → ⊥) → HasRightLeaves self.new.seen }
        ensures same_rules { self.new.rules ≡ self.old.rules }
        ensures traced { self.new.traced ≡ self.old.traced }
        ensures grows { Gains (P.refusals patterns.old) (P.refusals patterns.new) }
        ensures asked { AreAsked (R.writes self.old.rules.reader) self.old.rules.files self.old.decided (gained (P.refusals patterns.old) (P.refusals patterns.new)) }
        ensures kept { Grows self.old.decided self.new.decided (gained (P.refusals patterns.old) (P.refusals patterns.new)) }
        ensures refused { (result ≡ Err faults.Memory → ⊥) → TakesAll self.old.decided self.new.decided (P.refusals patterns.old) (P.refusals patterns.new) }
        ensures decided { (result ≡ Err faults.Memory → ⊥) → AreAllDecided (R.writes self.old.rules.reader) self.old.rules.files self.new.decided }
        ensures settled { (result ≡ Err faults.Memory → ⊥) → SettlesRules (R.writes self.old.rules.reader) self.old.rules.files self.old.decided self.new.decided (P.asked patterns.old) (P.asked patterns.new) }
    {
        let reader = self.rules.reader();
        let rules = self.rules.contents();
        let scanner = Scanner::of(
            alloc,
            reader,
            rules,
            most,
            self.traced,
            &mut self.decided,
            patterns,
        )?;
        self.seen.see(
            alloc,
            reader,
            files,
            &mut self.seen_by,
            scanner.running(),
            self.traced,
            steps,
        )?;
        let report = report_of(alloc, &self.seen, scanner);
        if let Err(ScanFault::Memory) = report {
            self.seen = SeenFiles::new(alloc);
            return Err(ScanFault::Memory);
        }
        self.seen.are_leaves_right();
        report
    }
}
