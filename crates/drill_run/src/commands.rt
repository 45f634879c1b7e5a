//! Doing the commands of a drill.

ghost use Rattle.std.specs.Prelude.{◌≡◌, [], ◌++◌, length, Err, OnOk, IfOk, IfErr};
ghost use Rattle.scan_world.specs.Trees.{KeepsFiles};
ghost use Rattle.decided_texts.specs.Refused.{gained, Gains};
ghost use Rattle.run_status.specs.Status.{IsAnswer};
ghost use Rattle.stream_run.specs.Seen.{HasSeenNone};
ghost use Rattle.stream_run.specs.Asking.{Asks};
ghost use Rattle.stream_run.specs.Reading.{ReadsOnce};
ghost use Rattle.stream_run.specs.Still.{IsNew, CostsStill, Keeps, RefusesGained};
ghost use Rattle.drill_run.specs.Drilling.{report_in, IsWithin, EndsOnlySo, EndsOnlyWith};
ghost use Rattle.drill_run.specs.Costs.{HasDrilledAfter, EndsSo};
ghost use Rattle.drill_run.specs.Asking.{HasDrilledAsking, EndsAskingSo};
ghost use Rattle.drill_run.specs.Commands.{drill_setting, EndsAdding, DoesNext, StopsAt, HasStopCause};

use node_tree::{List, Steps};
use report_form::Report;
use run_status::Status;
use rx_text::Patterns;
use scan_world::Tree;
use std::alloc::Global;
use std::sync::ledger::Ledger;
use stream_run::{Reply, Workspace, play};
use wire_drill::drill_input;
use wire_stream::Wire;

// Adds the report that a command came to, if it was a scan.
fn add_report(reply: Reply, reports: &mut List<Report>) -> Result<(), Status>
    ensures added { OnOk result (reports.new ≡ reports.old ++ report_in reply) }
    ensures within { OnOk result (IsWithin reply) }
    ensures ends { IfErr result (EndsAdding reply) }
{
    match reply {
        Reply::Reported(report) => Ok(reports.push(report)?),
        Reply::TooMany(most) => Err(Status::TooMany(most)),
        Reply::Done | Reply::Removed(_) | Reply::Fixed(_) => Ok(()),
    }
}

// Does a command of a drill, and adds the report of a scan.
fn do_one<W: Workspace, T: Tree, P: Patterns, L: Ledger>(
    wire: &Wire,
    workspace: &mut W,
    tree: &mut T,
    reports: &mut List<Report>,
    patterns: &mut P,
    steps: &mut Steps<L>,
) -> Result<(), Status>
    ensures does { OnOk result (DoesNext (W.readings (W.reader workspace.old)) (W.state workspace.old) wire.now (W.state workspace.new) reports.old reports.new) }
    ensures stops { IfErr result (StopsAt (W.readings (W.reader workspace.old)) (W.state workspace.old) wire.now (W.state workspace.new)) }
    ensures once { (result ≡ Err Status.Memory → ⊥) → ReadsOnce (W.readings (W.reader workspace.old)) (W.state workspace.old).rules wire.now }
    ensures work { (result ≡ Err Status.Memory → ⊥) → CostsStill (W.readings (W.reader workspace.old)) (W.state workspace.old) wire.now (W.state workspace.new) (W.seen workspace.old) (W.seen workspace.new) steps.old steps.new }
    ensures asks { (result ≡ Err Status.Memory → ⊥) → Asks (W.readings (W.reader workspace.old)) (W.state workspace.old).rules wire.now (W.state workspace.old).decided (W.state workspace.new).decided (P.asked patterns.old) (P.asked patterns.new) }
    ensures refused { (result ≡ Err Status.Memory → ⊥) → RefusesGained (W.state workspace.old) (W.state workspace.new) (P.refusals patterns.old) (P.refusals patterns.new) }
    ensures keeps { Keeps (W.state workspace.old) (W.state workspace.new) (P.refusals patterns.old) (P.refusals patterns.new) }
    ensures same_reader { W.reader workspace.new ≡ W.reader workspace.old }
    ensures files_kept { KeepsFiles (T.files tree.old) (T.files tree.new) }
    ensures unfailed { OnOk result (T.faults tree.new ≡ T.faults tree.old) }
    ensures cause { IfErr result (HasStopCause (T.faults tree.old) (T.faults tree.new)) }
{
    match play(wire, workspace, tree, patterns, steps) {
        Ok(reply) => add_report(reply, reports),
        Err(fault) => Err(fault.status()),
    }
}

/// Does the commands of the drill with so many files on a new workspace, each for its steps, and asks the builder for the texts of
/// regular expressions that they go by, for each once. Gives the reports of its scans, of which there are two.
pub fn do_all<W: Workspace, T: Tree, P: Patterns, L: Ledger>(
    alloc: Global,
    count: u32,
    workspace: &mut W,
    tree: &mut T,
    patterns: &mut P,
    steps: &mut Steps<L>,
) -> Result<List<Report>, Status>
    requires new { IsNew (W.state workspace.old) }
    requires unseen { HasSeenNone (W.seen workspace.old) }
    ensures drilled { IfOk result (λ reports. HasDrilledAfter (drill_setting (W.readings (W.reader workspace.old)) (W.state workspace.old).most (gained (P.refusals patterns.old) (P.refusals patterns.new))) count reports steps.old steps.new) }
    ensures only { IfOk result (EndsOnlyWith (drill_setting (W.readings (W.reader workspace.old)) (W.state workspace.old).most (gained (P.refusals patterns.old) (P.refusals patterns.new))) count) }
    ensures asked { IfOk result (λ reports. HasDrilledAsking (drill_setting (W.readings (W.reader workspace.old)) (W.state workspace.old).most (gained (P.refusals patterns.old) (P.refusals patterns.new))) count reports (P.asked patterns.old) (P.asked patterns.new)) }
    ensures two { IfOk result (λ reports. length reports ≡ 2) }
    ensures ends { IfErr result (λ status. IsAnswer status → EndsSo (drill_setting (W.readings (W.reader workspace.old)) (W.state workspace.old).most (gained (P.refusals patterns.old) (P.refusals patterns.new))) count status [] steps.old steps.new) }
    ensures asked_to_end { IfErr result (λ status. IsAnswer status → EndsAskingSo (drill_setting (W.readings (W.reader workspace.old)) (W.state workspace.old).most (gained (P.refusals patterns.old) (P.refusals patterns.new))) count status [] (P.asked patterns.old) (P.asked patterns.new)) }
    ensures only_end { IfErr result (λ status. IsAnswer status → EndsOnlySo (drill_setting (W.readings (W.reader workspace.old)) (W.state workspace.old).most (gained (P.refusals patterns.old) (P.refusals patterns.new))) count status []) }
    ensures files_kept { KeepsFiles (T.files tree.old) (T.files tree.new) }
    ensures unfailed { OnOk result (T.faults tree.new ≡ T.faults tree.old) }
    ensures cause { IfErr result (HasStopCause (T.faults tree.old) (T.faults tree.new)) }
    ensures patterns_grow { Gains (P.refusals patterns.old) (P.refusals patterns.new) }
{
    let wires = drill_input(alloc, count)?;
    let mut reports = List::new(alloc);
    for wire in wires.as_slice() {
        do_one(wire, workspace, tree, &mut reports, patterns, steps)?;
    }
    Ok(reports)
}
