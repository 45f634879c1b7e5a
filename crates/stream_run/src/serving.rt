//! The session of a stream.

ghost use Rattle.std.specs.Prelude.{◌≡◌, IsSome};
ghost use Rattle.scan_world.specs.Faults.{Rose};
ghost use Rattle.scan_world.specs.Trees.{KeepsFiles};
ghost use Rattle.decided_texts.specs.Refused.{gained, Gains};
ghost use Rattle.run_status.specs.Status.{IsAnswer};
ghost use Rattle.run_status.specs.Ways.{IsOnlyEnd};
ghost use Rattle.stream_run.specs.Faults.{status_of_wire};
ghost use Rattle.stream_run.specs.Playing.{SessionEnds, PrintsEnd, PrintsFirst, PrintsFront, PrintsWhole, PrintsToSync};
ghost use Rattle.stream_run.specs.Costs.{EndsAfter, FrontAfter};
ghost use Rattle.stream_run.specs.Asking.{EndsAsking, FrontAsking};
ghost use Rattle.stream_run.specs.Still.{setting, IsNew};
ghost use Rattle.workspace.specs.Seen.{HasSeenNone};

use crate::doing::play;
use crate::printing::print;
use file_map::LimitKind;
use node_tree::Steps;
use run_status::Status;
use rx_text::Patterns;
use scan_world::{Sink, Source, Tree};
use std::alloc::Global;
use std::sync::ledger::Ledger;
use wire_stream::{Feed, Wire, WireFault, next_command};
use workspace::Workspace;

// The most bytes that a stream may have up to its end.
const MOST_STREAM: u64 = 268_435_456;

// How a session ends whose next command was not read.
fn unread(fault: WireFault) -> Status
    ensures { result ≡ status_of_wire fault }
{
    match fault {
        WireFault::Memory => Status::Memory,
        WireFault::Failed => Status::InputFault,
        WireFault::Bad(at) => Status::BadCommand(at),
        WireFault::Stream(number) => Status::OverLimit(LimitKind::Stream, number),
    }
}

/// Does the commands of the stream on a new workspace, one after the other up to `end`, and prints what each comes to, as
/// `specs/Playing.antt` says, by the texts of regular expressions that were refused meanwhile. More findings than a report may
/// have are told in a line, and the session goes on; any other limit that is passed ends it. `specs/Costs.antt` says what that costs
/// in steps, and `specs/Asking.antt` which texts the builder is asked for.
pub fn serve<W: Workspace, T: Tree, S: Source, K: Sink, P: Patterns, L: Ledger>(
    alloc: Global,
    workspace: &mut W,
    tree: &mut T,
    input: &mut S,
    out: &mut K,
    patterns: &mut P,
    steps: &mut Steps<L>,
) -> Status
    requires new { IsNew (W.state workspace.old) }
    requires unseen { HasSeenNone (W.seen workspace.old) }

    // A session without a fault ends and prints as the definition says, if the stream and the tree are told in no other way, and
    // leaves the counts of faults as they were.
    ensures ends { IsAnswer result → PrintsEnd (setting (W.readings (W.reader workspace.old)) (T.files tree.old) (W.state workspace.old).most (gained (P.refusals patterns.old) (P.refusals patterns.new))) (S.left input.old) (K.written out.old) (K.written out.new) result }
    ensures only { IsAnswer result → IsSome (S.left input.old) → IsSome (T.files tree.old) → IsOnlyEnd (SessionEnds (setting (W.readings (W.reader workspace.old)) (T.files tree.old) (W.state workspace.old).most (gained (P.refusals patterns.old) (P.refusals patterns.new))) (S.left input.old)) (K.written out.old) (K.written out.new) result }
    ensures input_kept { IsAnswer result → S.faults input.new ≡ S.faults input.old }
    ensures output_kept { IsAnswer result → K.faults out.new ≡ K.faults out.old }
    ensures tree_kept { IsAnswer result → T.faults tree.new ≡ T.faults tree.old }

    // Where memory runs out, a read or a call of the tree fails, whole lines were written: those of the first commands. After a
    // failed read they are those of all commands that were handed over, and after a failed call of the tree those of all
    // commands before the `sync` that made it.
    ensures first_lines { result ≡ Status.Memory → PrintsFirst (setting (W.readings (W.reader workspace.old)) (T.files tree.old) (W.state workspace.old).most (gained (P.refusals patterns.old) (P.refusals patterns.new))) (S.left input.old) (K.written out.old) (K.written out.new) }
    ensures whole_lines { result ≡ Status.InputFault → PrintsWhole (setting (W.readings (W.reader workspace.old)) (T.files tree.old) (W.state workspace.old).most (gained (P.refusals patterns.old) (P.refusals patterns.new))) (S.left input.old) (S.left input.new) (K.written out.old) (K.written out.new) }
    ensures before_sync { result ≡ Status.TreeFault → PrintsToSync (setting (W.readings (W.reader workspace.old)) (T.files tree.old) (W.state workspace.old).most (gained (P.refusals patterns.old) (P.refusals patterns.new))) (S.left input.old) (K.written out.old) (K.written out.new) }
    ensures front { result ≡ Status.OutputFault → PrintsFront (setting (W.readings (W.reader workspace.old)) (T.files tree.old) (W.state workspace.old).most (gained (P.refusals patterns.old) (P.refusals patterns.new))) (S.left input.old) (K.written out.old) (K.written out.new) }

    // A session takes the steps of the commands that it did: of all up to its end, or up to a fault. After want of memory it is
    // not said how many.
    ensures work { IsAnswer result → EndsAfter (setting (W.readings (W.reader workspace.old)) (T.files tree.old) (W.state workspace.old).most (gained (P.refusals patterns.old) (P.refusals patterns.new))) (S.left input.old) (K.written out.old) (K.written out.new) result steps.old steps.new }
    ensures work_to_fault { (IsAnswer result → ⊥) → (result ≡ Status.Memory → ⊥) → FrontAfter (setting (W.readings (W.reader workspace.old)) (T.files tree.old) (W.state workspace.old).most (gained (P.refusals patterns.old) (P.refusals patterns.new))) (S.left input.old) (K.written out.old) (K.written out.new) steps.old steps.new }

    // It asks the builder for the texts of regular expressions of the good rules at its scans and fixes, in order and for each
    // once, if the builder tells that: at all of them up to its end, or up to a fault. After want of memory it is not said for which.
    ensures asked { IsAnswer result → EndsAsking (setting (W.readings (W.reader workspace.old)) (T.files tree.old) (W.state workspace.old).most (gained (P.refusals patterns.old) (P.refusals patterns.new))) (S.left input.old) (K.written out.old) (K.written out.new) result (P.asked patterns.old) (P.asked patterns.new) }
    ensures asked_to_fault { (IsAnswer result → ⊥) → (result ≡ Status.Memory → ⊥) → FrontAsking (setting (W.readings (W.reader workspace.old)) (T.files tree.old) (W.state workspace.old).most (gained (P.refusals patterns.old) (P.refusals patterns.new))) (S.left input.old) (K.written out.old) (K.written out.new) (P.asked patterns.old) (P.asked patterns.new) }

    // A fault comes only where its count rose.
    ensures input_fault { result ≡ Status.InputFault → Rose (S.faults input.old) (S.faults input.new) }
    ensures output_fault { result ≡ Status.OutputFault → Rose (K.faults out.old) (K.faults out.new) }
    ensures tree_fault { result ≡ Status.TreeFault → Rose (T.faults tree.old) (T.faults tree.new) }

    // However it ends, the files of the tree stay as they are, and the list of refused texts only grows.
    ensures files_kept { KeepsFiles (T.files tree.old) (T.files tree.new) }
    ensures patterns_grow { Gains (P.refusals patterns.old) (P.refusals patterns.new) }
{
    let Ok(mut feed) = Feed::new(alloc) else {
        return Status::Memory;
    };
    for _ in 0..=MOST_STREAM {
        let wire = match next_command(&mut feed, input) {
            Ok(wire) => wire,
            Err(fault) => return unread(fault),
        };
        if let Wire::End = wire {
            return Status::Done;
        }
        let reply = match play(&wire, workspace, tree, patterns, steps) {
            Ok(reply) => reply,
            Err(stop) => return stop.status(),
        };
        if let Err(fault) = print(alloc, out, &reply) {
            return fault.status();
        }
    }
    unreachable!()
}
