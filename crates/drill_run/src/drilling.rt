//! The session of a drill.

ghost use Rattle.std.specs.Prelude.{◌≡◌};
ghost use Rattle.scan_world.specs.Faults.{Rose};
ghost use Rattle.scan_world.specs.Trees.{KeepsFiles};
ghost use Rattle.decided_texts.specs.Refused.{gained, Gains};
ghost use Rattle.run_status.specs.Status.{IsAnswer};
ghost use Rattle.run_status.specs.Ways.{Printed, PrintedFront, IsOnlyEnd};
ghost use Rattle.stream_run.specs.Still.{IsNew};
ghost use Rattle.stream_run.specs.Seen.{HasSeenNone};
ghost use Rattle.drill_run.specs.Drilling.{DrillEnds};
ghost use Rattle.drill_run.specs.Costs.{DrilledAfter};
ghost use Rattle.drill_run.specs.Asking.{DrilledAsking};
ghost use Rattle.drill_run.specs.Commands.{drill_setting};

use crate::commands::do_all;
use crate::printing::print_counts;
use node_tree::Steps;
use run_status::Status;
use rx_text::Patterns;
use scan_world::{Sink, Tree};
use std::alloc::Global;
use std::sync::ledger::Ledger;
use stream_run::Workspace;

/// Does the session that is made from the number, on a new workspace, and prints how many files it puts, how many findings both of
/// its scans have, and how many notices the second.
///
/// It has no command that looks at the tree, so how it ends and what it prints is the same whatever the tree tells. It takes the
/// steps of its scans, as `specs/Costs.antt` says, and asks for the texts of regular expressions that they go by, for each once, as
/// `specs/Asking.antt` says.
pub fn drill<W: Workspace, T: Tree, K: Sink, P: Patterns, L: Ledger>(
    alloc: Global,
    count: u32,
    workspace: &mut W,
    tree: &mut T,
    out: &mut K,
    patterns: &mut P,
    steps: &mut Steps<L>,
) -> Status
    requires new { IsNew (W.state workspace.old) }
    requires unseen { HasSeenNone (W.seen workspace.old) }
    ensures ends { IsAnswer result → Printed (DrillEnds (drill_setting (W.readings (W.reader workspace.old)) (W.state workspace.old).most (gained (P.refusals patterns.old) (P.refusals patterns.new))) count) (K.written out.old) (K.written out.new) result }
    ensures only { IsAnswer result → IsOnlyEnd (DrillEnds (drill_setting (W.readings (W.reader workspace.old)) (W.state workspace.old).most (gained (P.refusals patterns.old) (P.refusals patterns.new))) count) (K.written out.old) (K.written out.new) result }
    ensures work { IsAnswer result → DrilledAfter (drill_setting (W.readings (W.reader workspace.old)) (W.state workspace.old).most (gained (P.refusals patterns.old) (P.refusals patterns.new))) count (K.written out.old) (K.written out.new) result steps.old steps.new }
    ensures asked { IsAnswer result → DrilledAsking (drill_setting (W.readings (W.reader workspace.old)) (W.state workspace.old).most (gained (P.refusals patterns.old) (P.refusals patterns.new))) count (K.written out.old) (K.written out.new) result (P.asked patterns.old) (P.asked patterns.new) }
    ensures output_kept { IsAnswer result → K.faults out.new ≡ K.faults out.old }
    ensures tree_kept { IsAnswer result → T.faults tree.new ≡ T.faults tree.old }
    ensures no_input { result ≡ Status.InputFault → ⊥ }
    ensures there { result ≡ Status.NoSuchPath → ⊥ }
    ensures tree_fault { result ≡ Status.TreeFault → Rose (T.faults tree.old) (T.faults tree.new) }
    ensures nothing_written { result ≡ Status.TreeFault → K.written out.new ≡ K.written out.old }
    ensures unwritten { result ≡ Status.Memory → K.written out.new ≡ K.written out.old }
    ensures output_fault { result ≡ Status.OutputFault → Rose (K.faults out.old) (K.faults out.new) }
    ensures front_written { result ≡ Status.OutputFault → PrintedFront (DrillEnds (drill_setting (W.readings (W.reader workspace.old)) (W.state workspace.old).most (gained (P.refusals patterns.old) (P.refusals patterns.new))) count) (K.written out.old) (K.written out.new) }
    ensures files_kept { KeepsFiles (T.files tree.old) (T.files tree.new) }
    ensures patterns_grow { Gains (P.refusals patterns.old) (P.refusals patterns.new) }
{
    let reports = match do_all(alloc, count, workspace, tree, patterns, steps) {
        Ok(reports) => reports,
        Err(status) => return status,
    };
    let [first, second] = reports.as_slice() else {
        unreachable!()
    };
    print_counts(alloc, count, first, second, out)
}
