//! What rules find in the files of a folder.

ghost use Rattle.std.specs.Prelude.{◌≡◌, [], ◌∷◌, List as list, Option, ℕ, IsSome};
ghost use Rattle.scan_world.specs.Faults.{Rose};
ghost use Rattle.scan_world.specs.Files.{Files as tree_files};
ghost use Rattle.scan_world.specs.Streams.{AppendsFront};
ghost use Rattle.scan_world.specs.Trees.{KeepsFiles};
ghost use Rattle.decided_texts.specs.Refused.{gained, Gains};
ghost use Rattle.run_status.specs.Status.{IsAnswer};
ghost use Rattle.run_status.specs.Ways.{Printed, PrintedFront, IsOnlyEnd};
ghost use Rattle.wire_words.specs.Commands.{task_of};
ghost use Rattle.stream_run.specs.Printed.{report_line};
ghost use Rattle.stream_run.specs.Reports.{readings_of, AreReadOnce};
ghost use Rattle.stream_run.specs.Still.{setting};
ghost use Rattle.folder_run.specs.Ends.{ScanEnds, status_of, TakesFor};
ghost use Rattle.folder_run.specs.Costs.{ScannedAfter};
ghost use Rattle.folder_run.specs.Asking.{ScannedAsking, ScannedSo};
ghost use Rattle.folder_run.specs.Causes.{IsOfPrinting, IsOfReport};

use crate::taking::take_folder;
use code_reader::{PatternReader, TreeReader};
use comment_reader::CommentReader;
use decided_texts::DecidedTexts;
use file_map::FileMap;
use finding_json::report_text;
use node_tree::Steps;
use report_form::Report;
use rule_map::RuleMap;
use run_status::Status;
use rx_text::Patterns;
use scan_session::ScanFault;
use scan_world::{Sink, Tree};
use session::scan_once;
use std::alloc::Global;
use std::sync::ledger::Ledger;
use wire_words::Job;

// How a scan ends whose report was printed: findings show where the flag asks for that.
fn end_of(flag: bool, report: &Report) -> Status
    ensures { result ≡ status_of flag report.now.results }
{
    if flag && !report.results.is_empty() {
        Status::Findings
    } else {
        Status::Done
    }
}

// Prints the line of a report, in one write.
fn print_report<K: Sink>(alloc: Global, flag: bool, report: &Report, out: &mut K) -> Status
    ensures ends { IsAnswer result → Printed (λ status lines. (status ≡ status_of flag report.now.results) × (lines ≡ report_line report.now ∷ [])) (K.written out.old) (K.written out.new) result }
    ensures cause { IsOfPrinting result }
    ensures unwritten { result ≡ Status.Memory → K.written out.new ≡ K.written out.old }
    ensures output_kept { IsAnswer result → K.faults out.new ≡ K.faults out.old }
    ensures output_fault { result ≡ Status.OutputFault → Rose (K.faults out.old) (K.faults out.new) }
    ensures front_written { result ≡ Status.OutputFault → AppendsFront (K.written out.old) (K.written out.new) (report_line report.now) }
{
    let Ok(line) = report_text(alloc, report) else {
        return Status::Memory;
    };
    match out.write(line.as_slice()) {
        Ok(()) => end_of(flag, report),
        Err(_) => Status::OutputFault,
    }
}

// Scans these files by these rules, where nothing was seen and no text was decided before, and prints the report. What is said of a
// folder is said of each from which the job takes these.
fn scan_and_print<R: TreeReader + CommentReader + PatternReader, K: Sink, P: Patterns, L: Ledger>(
    alloc: Global,
    job: &Job<'_>,
    rules: &RuleMap<'_, R>,
    files: &FileMap,
    out: &mut K,
    patterns: &mut P,
    steps: &mut Steps<L>,
) -> Status
    ensures so { (told : Option tree_files) → TakesFor (setting (readings_of (R.spells rules.now.reader) (R.knows rules.now.reader) (R.comments rules.now.reader) (R.writes rules.now.reader) job.now.trace) told job.now.most (gained (P.refusals patterns.old) (P.refusals patterns.new))) (task_of job.now) (record { files = files.now; rules = rules.now.files })
        → IsAnswer result → ScannedSo (setting (readings_of (R.spells rules.now.reader) (R.knows rules.now.reader) (R.comments rules.now.reader) (R.writes rules.now.reader) job.now.trace) told job.now.most (gained (P.refusals patterns.old) (P.refusals patterns.new))) (task_of job.now) (K.written out.old) (K.written out.new) result steps.old steps.new (P.asked patterns.old) (P.asked patterns.new) }
    ensures front { (told : Option tree_files) → TakesFor (setting (readings_of (R.spells rules.now.reader) (R.knows rules.now.reader) (R.comments rules.now.reader) (R.writes rules.now.reader) job.now.trace) told job.now.most (gained (P.refusals patterns.old) (P.refusals patterns.new))) (task_of job.now) (record { files = files.now; rules = rules.now.files })
        → result ≡ Status.OutputFault → PrintedFront (ScanEnds (setting (readings_of (R.spells rules.now.reader) (R.knows rules.now.reader) (R.comments rules.now.reader) (R.writes rules.now.reader) job.now.trace) told job.now.most (gained (P.refusals patterns.old) (P.refusals patterns.new))) (task_of job.now)) (K.written out.old) (K.written out.new) }
    ensures one { AreReadOnce (R.writes rules.now.reader) rules.now.files }
    ensures cause { IsOfReport result }
    ensures unwritten { result ≡ Status.Memory → K.written out.new ≡ K.written out.old }
    ensures output_kept { IsAnswer result → K.faults out.new ≡ K.faults out.old }
    ensures output_fault { result ≡ Status.OutputFault → Rose (K.faults out.old) (K.faults out.new) }
    ensures patterns_grow { Gains (P.refusals patterns.old) (P.refusals patterns.new) }
{
    let mut decided = DecidedTexts::new(alloc);
    match scan_once(
        alloc,
        rules,
        files,
        job.most,
        job.trace,
        &mut decided,
        patterns,
        steps,
    ) {
        Ok(report) => print_report(alloc, job.flag, &report, out),
        Err(ScanFault::Memory) => Status::Memory,
        Err(ScanFault::TooMany(most)) => Status::TooMany(most),
    }
}

/// Scans the files under the job's prefix by the rules of its config, as `specs/Ends.antt` says, with what reads files and rules, and
/// prints the report. The flag asks that findings show in the status. It takes the steps of one scan, as `specs/Costs.antt` says, and
/// asks the builder for the texts of regular expressions of the good rules, for each once, as `specs/Asking.antt` says.
pub fn scan_folder<
    R: TreeReader + CommentReader + PatternReader,
    T: Tree,
    K: Sink,
    P: Patterns,
    L: Ledger,
>(
    alloc: Global,
    job: &Job<'_>,
    reader: &R,
    tree: &mut T,
    out: &mut K,
    patterns: &mut P,
    steps: &mut Steps<L>,
) -> Status
    ensures ends { IsAnswer result → Printed (ScanEnds (setting (readings_of (R.spells reader.now) (R.knows reader.now) (R.comments reader.now) (R.writes reader.now) job.now.trace) (T.files tree.old) job.now.most (gained (P.refusals patterns.old) (P.refusals patterns.new))) (task_of job.now)) (K.written out.old) (K.written out.new) result }
    ensures only { IsAnswer result → IsSome (T.files tree.old) → IsOnlyEnd (ScanEnds (setting (readings_of (R.spells reader.now) (R.knows reader.now) (R.comments reader.now) (R.writes reader.now) job.now.trace) (T.files tree.old) job.now.most (gained (P.refusals patterns.old) (P.refusals patterns.new))) (task_of job.now)) (K.written out.old) (K.written out.new) result }
    ensures work { IsAnswer result → ScannedAfter (setting (readings_of (R.spells reader.now) (R.knows reader.now) (R.comments reader.now) (R.writes reader.now) job.now.trace) (T.files tree.old) job.now.most (gained (P.refusals patterns.old) (P.refusals patterns.new))) (task_of job.now) (K.written out.old) (K.written out.new) result steps.old steps.new }
    ensures asked { IsAnswer result → ScannedAsking (setting (readings_of (R.spells reader.now) (R.knows reader.now) (R.comments reader.now) (R.writes reader.now) job.now.trace) (T.files tree.old) job.now.most (gained (P.refusals patterns.old) (P.refusals patterns.new))) (task_of job.now) (K.written out.old) (K.written out.new) result (P.asked patterns.old) (P.asked patterns.new) }
    ensures files_kept { KeepsFiles (T.files tree.old) (T.files tree.new) }
    ensures tree_kept { IsAnswer result → T.faults tree.new ≡ T.faults tree.old }
    ensures output_kept { IsAnswer result → K.faults out.new ≡ K.faults out.old }
    ensures no_input { result ≡ Status.InputFault → ⊥ }
    ensures tree_fault { result ≡ Status.TreeFault → Rose (T.faults tree.old) (T.faults tree.new) }
    ensures absent { result ≡ Status.NoSuchPath → Rose (T.absences tree.old) (T.absences tree.new) }
    ensures nothing_written { result ≡ Status.TreeFault → K.written out.new ≡ K.written out.old }
    ensures unwritten { result ≡ Status.Memory → K.written out.new ≡ K.written out.old }
    ensures output_fault { result ≡ Status.OutputFault → Rose (K.faults out.old) (K.faults out.new) }
    ensures front_written { result ≡ Status.OutputFault → PrintedFront (ScanEnds (setting (readings_of (R.spells reader.now) (R.knows reader.now) (R.comments reader.now) (R.writes reader.now) job.now.trace) (T.files tree.old) job.now.most (gained (P.refusals patterns.old) (P.refusals patterns.new))) (task_of job.now)) (K.written out.old) (K.written out.new) }
    ensures patterns_grow { Gains (P.refusals patterns.old) (P.refusals patterns.new) }
{
    let mut rules = RuleMap::new(alloc, reader);
    let mut files = FileMap::new(alloc);
    match take_folder(&mut rules, &mut files, tree, job) {
        Ok(()) => scan_and_print(alloc, job, &rules, &files, out, patterns, steps),
        Err(status) => status,
    }
}
