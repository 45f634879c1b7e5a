//! The commands that scan: `scan`, `fix`, `session` and `drill`.

ghost use Rattle.std.specs.Prelude.{◌≡◌, IsSome};
ghost use Rattle.scan_world.specs.Faults.{Rose};
ghost use Rattle.scan_world.specs.Trees.{KeepsFiles};
ghost use Rattle.wire_words.specs.Commands.{task_of};
ghost use Rattle.decided_texts.specs.Refused.{Gains, gained};
ghost use Rattle.run_status.specs.Status.{IsAnswer, IsCutShort};
ghost use Rattle.run_status.specs.Ways.{Printed, PrintedFront, IsOnlyEnd};
ghost use Rattle.folder_run.specs.Written.{Wrote, Leaves};
ghost use Rattle.stream_run.specs.Playing.{PrintsFirst, PrintsFront};
ghost use Rattle.stream_run.specs.Asking.{FrontAsking};
ghost use Rattle.scan_run.specs.Serving.{setting, Serves, ServesWhole, ServesToSync, Scans, Fixes, Drills, ServesAfter, ScansAfter, FixesAfter, DrillsAfter, ServesAsking, ScansAsking, FixesAsking, DrillsAsking};

use drill_run::drill;
use folder_run::{fix_folder, scan_folder};
use languages::Languages;
use node_tree::Steps;
use run_status::Status;
use rx_text::Patterns;
use scan_world::{Sink, Source, Tree};
use session::Session;
use std::alloc::Global;
use std::sync::ledger::Ledger;
use stream_run::serve;
use wire_words::Job;

// The most findings of a drill's reports.
const MOST_FINDINGS: u64 = 50_000;

/// Scans the files under the job's prefix by the rules of its config, as `specs/Serving.antt` says.
pub fn run_scan<T: Tree, K: Sink, P: Patterns, L: Ledger>(
    alloc: Global,
    job: &Job<'_>,
    tree: &mut T,
    out: &mut K,
    patterns: &mut P,
    steps: &mut Steps<L>,
) -> Status
    ensures ends { IsAnswer result → Printed (Scans (task_of job.now) (T.files tree.old) (gained (P.refusals patterns.old) (P.refusals patterns.new))) (K.written out.old) (K.written out.new) result }
    ensures only { IsAnswer result → IsSome (T.files tree.old) → IsOnlyEnd (Scans (task_of job.now) (T.files tree.old) (gained (P.refusals patterns.old) (P.refusals patterns.new))) (K.written out.old) (K.written out.new) result }
    ensures work { IsAnswer result → ScansAfter (task_of job.now) (T.files tree.old) (gained (P.refusals patterns.old) (P.refusals patterns.new)) (K.written out.old) (K.written out.new) result steps.old steps.new }
    ensures asked { IsAnswer result → ScansAsking (task_of job.now) (T.files tree.old) (gained (P.refusals patterns.old) (P.refusals patterns.new)) (K.written out.old) (K.written out.new) result (P.asked patterns.old) (P.asked patterns.new) }
    ensures files_kept { KeepsFiles (T.files tree.old) (T.files tree.new) }
    ensures tree_kept { IsAnswer result → T.faults tree.new ≡ T.faults tree.old }
    ensures output_kept { IsAnswer result → K.faults out.new ≡ K.faults out.old }
    ensures no_input { result ≡ Status.InputFault → ⊥ }
    ensures tree_fault { result ≡ Status.TreeFault → Rose (T.faults tree.old) (T.faults tree.new) }
    ensures absent { result ≡ Status.NoSuchPath → Rose (T.absences tree.old) (T.absences tree.new) }
    ensures nothing_written { result ≡ Status.TreeFault → K.written out.new ≡ K.written out.old }
    ensures unwritten { result ≡ Status.Memory → K.written out.new ≡ K.written out.old }
    ensures output_fault { result ≡ Status.OutputFault → Rose (K.faults out.old) (K.faults out.new) }
    ensures front_written { result ≡ Status.OutputFault → PrintedFront (Scans (task_of job.now) (T.files tree.old) (gained (P.refusals patterns.old) (P.refusals patterns.new))) (K.written out.old) (K.written out.new) }
    ensures patterns_grow { Gains (P.refusals patterns.old) (P.refusals patterns.new) }
{
    scan_folder(alloc, job, &Languages, tree, out, patterns, steps)
}

/// Fixes the files under the job's prefix by the rules of its config, as `specs/Serving.antt` says.
pub fn run_fix<T: Tree, K: Sink, P: Patterns, L: Ledger>(
    alloc: Global,
    job: &Job<'_>,
    tree: &mut T,
    out: &mut K,
    patterns: &mut P,
    steps: &mut Steps<L>,
) -> Status
    ensures ends { IsAnswer result → Printed (Fixes (task_of job.now) (T.files tree.old) (gained (P.refusals patterns.old) (P.refusals patterns.new))) (K.written out.old) (K.written out.new) result }
    ensures only { IsAnswer result → IsSome (T.files tree.old) → IsOnlyEnd (Fixes (task_of job.now) (T.files tree.old) (gained (P.refusals patterns.old) (P.refusals patterns.new))) (K.written out.old) (K.written out.new) result }
    ensures work { IsAnswer result → FixesAfter (task_of job.now) (T.files tree.old) (gained (P.refusals patterns.old) (P.refusals patterns.new)) (K.written out.old) (K.written out.new) result steps.old steps.new }
    ensures asked { IsAnswer result → FixesAsking (task_of job.now) (T.files tree.old) (gained (P.refusals patterns.old) (P.refusals patterns.new)) (K.written out.old) (K.written out.new) result (P.asked patterns.old) (P.asked patterns.new) }
    ensures wrote { IsAnswer result → Wrote (setting job.now.most job.now.trace (T.files tree.old) (gained (P.refusals patterns.old) (P.refusals patterns.new))) (task_of job.now) (T.files tree.new) result }
    ensures left { Leaves (setting job.now.most job.now.trace (T.files tree.old) (gained (P.refusals patterns.old) (P.refusals patterns.new))) (task_of job.now) (T.files tree.new) }
    ensures tree_kept { IsAnswer result → T.faults tree.new ≡ T.faults tree.old }
    ensures output_kept { IsAnswer result → K.faults out.new ≡ K.faults out.old }
    ensures no_input { result ≡ Status.InputFault → ⊥ }
    ensures tree_fault { result ≡ Status.TreeFault → Rose (T.faults tree.old) (T.faults tree.new) }
    ensures absent { result ≡ Status.NoSuchPath → Rose (T.absences tree.old) (T.absences tree.new) }
    ensures nothing_written { result ≡ Status.TreeFault → K.written out.new ≡ K.written out.old }
    ensures unwritten { result ≡ Status.Memory → K.written out.new ≡ K.written out.old }
    ensures output_fault { result ≡ Status.OutputFault → Rose (K.faults out.old) (K.faults out.new) }
    ensures front_written { result ≡ Status.OutputFault → PrintedFront (Fixes (task_of job.now) (T.files tree.old) (gained (P.refusals patterns.old) (P.refusals patterns.new))) (K.written out.old) (K.written out.new) }
    ensures patterns_grow { Gains (P.refusals patterns.old) (P.refusals patterns.new) }
{
    fix_folder(alloc, job, &Languages, tree, out, patterns, steps)
}

/// Does the commands of the input, each of which prints what it says, as `specs/Serving.antt` says. Findings have their traces if
/// `traced` says so.
pub fn run_session<T: Tree, S: Source, K: Sink, P: Patterns, L: Ledger>(
    alloc: Global,
    most: u64,
    traced: bool,
    tree: &mut T,
    input: &mut S,
    out: &mut K,
    patterns: &mut P,
    steps: &mut Steps<L>,
) -> Status
    ensures ends { IsAnswer result → Printed (Serves most traced (T.files tree.old) (gained (P.refusals patterns.old) (P.refusals patterns.new)) (S.left input.old)) (K.written out.old) (K.written out.new) result }
    ensures only { IsAnswer result → IsSome (S.left input.old) → IsSome (T.files tree.old) → IsOnlyEnd (Serves most traced (T.files tree.old) (gained (P.refusals patterns.old) (P.refusals patterns.new)) (S.left input.old)) (K.written out.old) (K.written out.new) result }
    ensures work { IsAnswer result → ServesAfter most traced (T.files tree.old) (gained (P.refusals patterns.old) (P.refusals patterns.new)) (S.left input.old) (K.written out.old) (K.written out.new) result steps.old steps.new }
    ensures asked { IsAnswer result → ServesAsking most traced (T.files tree.old) (gained (P.refusals patterns.old) (P.refusals patterns.new)) (S.left input.old) (K.written out.old) (K.written out.new) result (P.asked patterns.old) (P.asked patterns.new) }
    ensures asked_to_fault { (IsAnswer result → ⊥) → (result ≡ Status.Memory → ⊥) → FrontAsking (setting most traced (T.files tree.old) (gained (P.refusals patterns.old) (P.refusals patterns.new))) (S.left input.old) (K.written out.old) (K.written out.new) (P.asked patterns.old) (P.asked patterns.new) }
    ensures commands_written { IsCutShort result → PrintsFirst (setting most traced (T.files tree.old) (gained (P.refusals patterns.old) (P.refusals patterns.new))) (S.left input.old) (K.written out.old) (K.written out.new) }
    ensures all_read_written { result ≡ Status.InputFault → ServesWhole most traced (T.files tree.old) (gained (P.refusals patterns.old) (P.refusals patterns.new)) (S.left input.old) (S.left input.new) (K.written out.old) (K.written out.new) }
    ensures before_sync_written { result ≡ Status.TreeFault → ServesToSync most traced (T.files tree.old) (gained (P.refusals patterns.old) (P.refusals patterns.new)) (S.left input.old) (K.written out.old) (K.written out.new) }
    ensures front_written { result ≡ Status.OutputFault → PrintsFront (setting most traced (T.files tree.old) (gained (P.refusals patterns.old) (P.refusals patterns.new))) (S.left input.old) (K.written out.old) (K.written out.new) }
    ensures files_kept { KeepsFiles (T.files tree.old) (T.files tree.new) }
    ensures tree_kept { IsAnswer result → T.faults tree.new ≡ T.faults tree.old }
    ensures input_kept { IsAnswer result → S.faults input.new ≡ S.faults input.old }
    ensures output_kept { IsAnswer result → K.faults out.new ≡ K.faults out.old }
    ensures there { result ≡ Status.NoSuchPath → ⊥ }
    ensures input_fault { result ≡ Status.InputFault → Rose (S.faults input.old) (S.faults input.new) }
    ensures tree_fault { result ≡ Status.TreeFault → Rose (T.faults tree.old) (T.faults tree.new) }
    ensures output_fault { result ≡ Status.OutputFault → Rose (K.faults out.old) (K.faults out.new) }
    ensures patterns_grow { Gains (P.refusals patterns.old) (P.refusals patterns.new) }
{
    let languages = Languages;
    let mut session = Session::new(alloc, &languages, most, traced);
    let status = serve(alloc, &mut session, tree, input, out, patterns, steps);
    let_go(session);
    status
}

/// Does the session that is made from the number, and prints its line, as `specs/Serving.antt` says.
pub fn run_drill<T: Tree, K: Sink, P: Patterns, L: Ledger>(
    alloc: Global,
    count: u32,
    tree: &mut T,
    out: &mut K,
    patterns: &mut P,
    steps: &mut Steps<L>,
) -> Status
    ensures ends { IsAnswer result → Printed (Drills count (gained (P.refusals patterns.old) (P.refusals patterns.new))) (K.written out.old) (K.written out.new) result }
    ensures only { IsAnswer result → IsOnlyEnd (Drills count (gained (P.refusals patterns.old) (P.refusals patterns.new))) (K.written out.old) (K.written out.new) result }
    ensures work { IsAnswer result → DrillsAfter count (gained (P.refusals patterns.old) (P.refusals patterns.new)) (K.written out.old) (K.written out.new) result steps.old steps.new }
    ensures asked { IsAnswer result → DrillsAsking count (gained (P.refusals patterns.old) (P.refusals patterns.new)) (K.written out.old) (K.written out.new) result (P.asked patterns.old) (P.asked patterns.new) }
    ensures files_kept { KeepsFiles (T.files tree.old) (T.files tree.new) }
    ensures tree_kept { IsAnswer result → T.faults tree.new ≡ T.faults tree.old }
    ensures output_kept { IsAnswer result → K.faults out.new ≡ K.faults out.old }
    ensures no_input { result ≡ Status.InputFault → ⊥ }
    ensures there { result ≡ Status.NoSuchPath → ⊥ }
    ensures tree_fault { result ≡ Status.TreeFault → Rose (T.faults tree.old) (T.faults tree.new) }
    ensures nothing_written { result ≡ Status.TreeFault → K.written out.new ≡ K.written out.old }
    ensures unwritten { result ≡ Status.Memory → K.written out.new ≡ K.written out.old }
    ensures output_fault { result ≡ Status.OutputFault → Rose (K.faults out.old) (K.faults out.new) }
    ensures front_written { result ≡ Status.OutputFault → PrintedFront (Drills count (gained (P.refusals patterns.old) (P.refusals patterns.new))) (K.written out.old) (K.written out.new) }
    ensures patterns_grow { Gains (P.refusals patterns.old) (P.refusals patterns.new) }
{
    let languages = Languages;
    let mut session = Session::new(alloc, &languages, MOST_FINDINGS, false);
    let status = drill(alloc, count, &mut session, tree, out, patterns, steps);
    let_go(session);
    status
}

// Lets a value go.
fn let_go<W: Drop>(_value: W) {}
