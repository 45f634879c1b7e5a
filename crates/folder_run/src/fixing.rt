//! What fixes make of the files of a folder.

ghost use Rattle.std.specs.Prelude.{◌≡◌, ◌⊎◌, [], ◌∷◌, if◌then◌else◌, IsSome};
ghost use Rattle.scan_world.specs.Faults.{Rose};
ghost use Rattle.scan_world.specs.Streams.{AppendsFront};
ghost use Rattle.run_status.specs.declared.status.Status.TheVariants as statuses;
ghost use Rattle.stream_run.specs.Printed.{fix_line};
ghost use Rattle.folder_run.specs.Causes.{IsOfWriting};
ghost use Rattle.decided_texts.specs.Refused.{gained, Gains};
ghost use Rattle.run_status.specs.Status.{IsAnswer};
ghost use Rattle.run_status.specs.Ways.{Printed, PrintedFront, IsOnlyEnd};
ghost use Rattle.wire_words.specs.Commands.{task_of};
ghost use Rattle.stream_run.specs.Reports.{readings_of};
ghost use Rattle.stream_run.specs.Still.{setting};
ghost use Rattle.folder_run.specs.Ends.{FixPrints};
ghost use Rattle.folder_run.specs.Costs.{FixedAfter};
ghost use Rattle.folder_run.specs.Asking.{FixedAsking};
ghost use Rattle.folder_run.specs.Written.{WritesAll, LeavesOf, Wrote, Leaves};

use crate::taking::take_folder;
use crate::writing::write_unless;
use code_reader::{PatternReader, TreeReader};
use comment_reader::CommentReader;
use decided_texts::DecidedTexts;
use file_map::FileMap;
use finding_json::fix_text;
use fix_apply::FixReport;
use node_tree::Steps;
use rule_map::RuleMap;
use run_status::Status;
use rx_text::Patterns;
use scan_world::{Sink, Tree};
use session::fix_once;
use std::alloc::Global;
use std::sync::ledger::Ledger;
use stream_run::FixFault;
use wire_words::Job;

// Writes the changed files, unless this is a dry run, and then prints the line, in one write.
fn write_and_print<T: Tree, K: Sink>(
    alloc: Global,
    dry: bool,
    fixed: &FixReport,
    tree: &mut T,
    out: &mut K,
) -> Status
    ensures ends { IsAnswer result → Printed (λ status lines. (status ≡ statuses.Done) × (lines ≡ fix_line fixed.now ∷ [])) (K.written out.old) (K.written out.new) result }
    ensures wrote { IsAnswer result → WritesAll (T.files tree.old) (T.files tree.new) (if dry then [] else fixed.now.files) }
    ensures left { LeavesOf dry fixed.now.files (T.files tree.old) (T.files tree.new) }
    ensures tree_kept { IsAnswer result → T.faults tree.new ≡ T.faults tree.old }
    ensures output_kept { IsAnswer result → K.faults out.new ≡ K.faults out.old }
    ensures cause { IsOfWriting result }
    ensures tree_fault { result ≡ Status.TreeFault → Rose (T.faults tree.old) (T.faults tree.new) }
    ensures nothing_written { (result ≡ Status.TreeFault) ⊎ (result ≡ Status.Memory) → K.written out.new ≡ K.written out.old }
    ensures output_fault { result ≡ Status.OutputFault → Rose (K.faults out.old) (K.faults out.new) }
    ensures front_written { result ≡ Status.OutputFault → AppendsFront (K.written out.old) (K.written out.new) (fix_line fixed.now) }
{
    let Ok(line) = fix_text(alloc, fixed) else {
        return Status::Memory;
    };
    if let Err(status) = write_unless(dry, tree, fixed.files.as_slice()) {
        return status;
    }
    match out.write(line.as_slice()) {
        Ok(()) => Status::Done,
        Err(_) => Status::OutputFault,
    }
}

// Fixes the files under the job's prefix by the rules of its config, where there were neither files nor rules, and no text of a
// regular expression was decided.
fn fix_taken<
    R: TreeReader + CommentReader + PatternReader,
    T: Tree,
    K: Sink,
    P: Patterns,
    L: Ledger,
>(
    alloc: Global,
    job: &Job<'_>,
    rules: &mut RuleMap<'_, R>,
    files: &mut FileMap,
    decided: &mut DecidedTexts,
    tree: &mut T,
    out: &mut K,
    patterns: &mut P,
    steps: &mut Steps<L>,
) -> Status
    requires rules { rules.old.files ≡ [] }
    requires files { files.old ≡ [] }
    requires decided { decided.old ≡ record { refused = []; built = [] } }
    ensures ends { IsAnswer result → Printed (FixPrints (setting (readings_of (R.spells rules.old.reader) (R.knows rules.old.reader) (R.comments rules.old.reader) (R.writes rules.old.reader) job.now.trace) (T.files tree.old) job.now.most (gained (P.refusals patterns.old) (P.refusals patterns.new))) (task_of job.now)) (K.written out.old) (K.written out.new) result }
    ensures only { IsAnswer result → IsSome (T.files tree.old) → IsOnlyEnd (FixPrints (setting (readings_of (R.spells rules.old.reader) (R.knows rules.old.reader) (R.comments rules.old.reader) (R.writes rules.old.reader) job.now.trace) (T.files tree.old) job.now.most (gained (P.refusals patterns.old) (P.refusals patterns.new))) (task_of job.now)) (K.written out.old) (K.written out.new) result }
    ensures work { IsAnswer result → FixedAfter (setting (readings_of (R.spells rules.old.reader) (R.knows rules.old.reader) (R.comments rules.old.reader) (R.writes rules.old.reader) job.now.trace) (T.files tree.old) job.now.most (gained (P.refusals patterns.old) (P.refusals patterns.new))) (task_of job.now) (K.written out.old) (K.written out.new) result steps.old steps.new }
    ensures asked { IsAnswer result → FixedAsking (setting (readings_of (R.spells rules.old.reader) (R.knows rules.old.reader) (R.comments rules.old.reader) (R.writes rules.old.reader) job.now.trace) (T.files tree.old) job.now.most (gained (P.refusals patterns.old) (P.refusals patterns.new))) (task_of job.now) (K.written out.old) (K.written out.new) result (P.asked patterns.old) (P.asked patterns.new) }
    ensures wrote { IsAnswer result → Wrote (setting (readings_of (R.spells rules.old.reader) (R.knows rules.old.reader) (R.comments rules.old.reader) (R.writes rules.old.reader) job.now.trace) (T.files tree.old) job.now.most (gained (P.refusals patterns.old) (P.refusals patterns.new))) (task_of job.now) (T.files tree.new) result }
    ensures left { Leaves (setting (readings_of (R.spells rules.old.reader) (R.knows rules.old.reader) (R.comments rules.old.reader) (R.writes rules.old.reader) job.now.trace) (T.files tree.old) job.now.most (gained (P.refusals patterns.old) (P.refusals patterns.new))) (task_of job.now) (T.files tree.new) }
    ensures tree_kept { IsAnswer result → T.faults tree.new ≡ T.faults tree.old }
    ensures output_kept { IsAnswer result → K.faults out.new ≡ K.faults out.old }
    ensures no_input { result ≡ Status.InputFault → ⊥ }
    ensures tree_fault { result ≡ Status.TreeFault → Rose (T.faults tree.old) (T.faults tree.new) }
    ensures absent { result ≡ Status.NoSuchPath → Rose (T.absences tree.old) (T.absences tree.new) }
    ensures nothing_written { result ≡ Status.TreeFault → K.written out.new ≡ K.written out.old }
    ensures unwritten { result ≡ Status.Memory → K.written out.new ≡ K.written out.old }
    ensures output_fault { result ≡ Status.OutputFault → Rose (K.faults out.old) (K.faults out.new) }
    ensures front_written { result ≡ Status.OutputFault → PrintedFront (FixPrints (setting (readings_of (R.spells rules.old.reader) (R.knows rules.old.reader) (R.comments rules.old.reader) (R.writes rules.old.reader) job.now.trace) (T.files tree.old) job.now.most (gained (P.refusals patterns.old) (P.refusals patterns.new))) (task_of job.now)) (K.written out.old) (K.written out.new) }
    ensures patterns_grow { Gains (P.refusals patterns.old) (P.refusals patterns.new) }
{
    match take_folder(rules, files, tree, job) {
        Ok(()) => {}
        Err(status) => return status,
    }
    match fix_once(
        alloc, rules, files, job.most, job.trace, decided, patterns, steps,
    ) {
        Ok(fixed) => write_and_print(alloc, job.flag, &fixed, tree, out),
        Err(FixFault::Memory) => Status::Memory,
        Err(FixFault::TooMany(most)) => Status::TooMany(most),
        Err(FixFault::OverLimit(kind, count)) => Status::OverLimit(kind, count),
    }
}

/// Fixes the files under the job's prefix by the rules of its config, as `specs/Ends.antt` says, with what reads files and rules:
/// writes each changed file whole, in order of path, and prints the line. The flag asks for a dry run, which writes none. It takes
/// the steps of one scan, as `specs/Costs.antt` says, and asks the builder for the texts of regular expressions of the good rules,
/// for each once, as `specs/Asking.antt` says.
pub fn fix_folder<
    R: TreeReader + CommentReader + PatternReader,
    T: Tree,
    K: Sink,
    P: Patterns,
    L: Ledger,
>(
    alloc: Global,
    job: &Job<'_>,
    reader: &R,
    tree: &mut T,
    out: &mut K,
    patterns: &mut P,
    steps: &mut Steps<L>,
) -> Status
    ensures ends { IsAnswer result → Printed (FixPrints (setting (readings_of (R.spells reader.now) (R.knows reader.now) (R.comments reader.now) (R.writes reader.now) job.now.trace) (T.files tree.old) job.now.most (gained (P.refusals patterns.old) (P.refusals patterns.new))) (task_of job.now)) (K.written out.old) (K.written out.new) result }
    ensures only { IsAnswer result → IsSome (T.files tree.old) → IsOnlyEnd (FixPrints (setting (readings_of (R.spells reader.now) (R.knows reader.now) (R.comments reader.now) (R.writes reader.now) job.now.trace) (T.files tree.old) job.now.most (gained (P.refusals patterns.old) (P.refusals patterns.new))) (task_of job.now)) (K.written out.old) (K.written out.new) result }
    ensures work { IsAnswer result → FixedAfter (setting (readings_of (R.spells reader.now) (R.knows reader.now) (R.comments reader.now) (R.writes reader.now) job.now.trace) (T.files tree.old) job.now.most (gained (P.refusals patterns.old) (P.refusals patterns.new))) (task_of job.now) (K.written out.old) (K.written out.new) result steps.old steps.new }
    ensures asked { IsAnswer result → FixedAsking (setting (readings_of (R.spells reader.now) (R.knows reader.now) (R.comments reader.now) (R.writes reader.now) job.now.trace) (T.files tree.old) job.now.most (gained (P.refusals patterns.old) (P.refusals patterns.new))) (task_of job.now) (K.written out.old) (K.written out.new) result (P.asked patterns.old) (P.asked patterns.new) }
    ensures wrote { IsAnswer result → Wrote (setting (readings_of (R.spells reader.now) (R.knows reader.now) (R.comments reader.now) (R.writes reader.now) job.now.trace) (T.files tree.old) job.now.most (gained (P.refusals patterns.old) (P.refusals patterns.new))) (task_of job.now) (T.files tree.new) result }
    ensures left { Leaves (setting (readings_of (R.spells reader.now) (R.knows reader.now) (R.comments reader.now) (R.writes reader.now) job.now.trace) (T.files tree.old) job.now.most (gained (P.refusals patterns.old) (P.refusals patterns.new))) (task_of job.now) (T.files tree.new) }
    ensures tree_kept { IsAnswer result → T.faults tree.new ≡ T.faults tree.old }
    ensures output_kept { IsAnswer result → K.faults out.new ≡ K.faults out.old }
    ensures no_input { result ≡ Status.InputFault → ⊥ }
    ensures tree_fault { result ≡ Status.TreeFault → Rose (T.faults tree.old) (T.faults tree.new) }
    ensures absent { result ≡ Status.NoSuchPath → Rose (T.absences tree.old) (T.absences tree.new) }
    ensures nothing_written { result ≡ Status.TreeFault → K.written out.new ≡ K.written out.old }
    ensures unwritten { result ≡ Status.Memory → K.written out.new ≡ K.written out.old }
    ensures output_fault { result ≡ Status.OutputFault → Rose (K.faults out.old) (K.faults out.new) }
    ensures front_written { result ≡ Status.OutputFault → PrintedFront (FixPrints (setting (readings_of (R.spells reader.now) (R.knows reader.now) (R.comments reader.now) (R.writes reader.now) job.now.trace) (T.files tree.old) job.now.most (gained (P.refusals patterns.old) (P.refusals patterns.new))) (task_of job.now)) (K.written out.old) (K.written out.new) }
    ensures patterns_grow { Gains (P.refusals patterns.old) (P.refusals patterns.new) }
{
    let mut rules = RuleMap::new(alloc, reader);
    let mut files = FileMap::new(alloc);
    let mut decided = DecidedTexts::new(alloc);
    fix_taken(
        alloc,
        job,
        &mut rules,
        &mut files,
        &mut decided,
        tree,
        out,
        patterns,
        steps,
    )
}
