//! Doing commands on a workspace.

ghost use Rattle.std.specs.Prelude.{◌≡◌, ℕ, IfOk, IfErr, OnOk, Err};
ghost use Rattle.std.specs.declared.option.Option.{Option};
ghost use Rattle.scan_world.specs.Files.{Files};
ghost use Rattle.scan_world.specs.Trees.{KeepsFiles};
ghost use Rattle.stream_run.specs.declared.fault.PlayFault.TheVariants.{Memory as no_memory};
ghost use Rattle.stream_run.specs.Faults.{TellsPassed, HasPlayCause};
ghost use Rattle.stream_run.specs.Asking.{Asks};
ghost use Rattle.stream_run.specs.Reading.{ReadsOnce};
ghost use Rattle.stream_run.specs.Still.{IsEdit, IsSync, DoesEver, PassesEver, DoesStill, PassesNow, CostsStill, Keeps, RefusesGained};
ghost use Rattle.workspace.specs.Reports.{AreReadOnce};
ghost use Rattle.wire_stream.specs.declared.wire.Wire.TheVariants.{Scan as scan_wire, Fix as fix_wire};

use crate::fault::PlayFault;
use crate::reply::Reply;
use node_tree::Steps;
use rx_text::Patterns;
use scan_world::Tree;
use std::sync::ledger::Ledger;
use wire_stream::Wire;
use workspace::{FixFault, ScanFault, Workspace};

// Does a command that asks for no scan.
fn edit<W: Workspace, T: Tree>(
    wire: &Wire,
    workspace: &mut W,
    tree: &mut T,
) -> Result<Reply, PlayFault>
    requires { IsEdit wire.now }
    ensures does { IfOk result (DoesEver (W.readings (W.reader workspace.old)) (T.files tree.old) (W.state workspace.old) wire.now (W.state workspace.new)) }
    ensures passes { IfErr result (TellsPassed (PassesEver (W.readings (W.reader workspace.old)) (T.files tree.old) (W.state workspace.old) wire.now)) }
    ensures most { (W.state workspace.new).most ≡ (W.state workspace.old).most }
    ensures decided { (W.state workspace.new).decided ≡ (W.state workspace.old).decided }
    ensures unseen { W.seen workspace.new ≡ W.seen workspace.old }
    ensures same_reader { W.reader workspace.new ≡ W.reader workspace.old }
    ensures files_kept { KeepsFiles (T.files tree.old) (T.files tree.new) }
    ensures fails { result ≡ Err PlayFault.Failed → IsSync wire.now }
    ensures once { (result ≡ Err PlayFault.Memory → ⊥) → ReadsOnce (W.readings (W.reader workspace.old)) (W.state workspace.old).rules wire.now }
    ensures cause { HasPlayCause (T.faults tree.old) (T.faults tree.new) result }
{
    match wire {
        Wire::Put(path, bytes) => {
            workspace.put(path.as_str(), bytes.as_slice())?;
            Ok(Reply::Done)
        }
        Wire::Del(path) => Ok(Reply::Removed(workspace.del(path.as_str()))),
        Wire::Rule(name, bytes) => {
            workspace.put_rules(name.as_str(), bytes.as_slice())?;
            Ok(Reply::Done)
        }
        Wire::Unrule(name) => Ok(Reply::Removed(workspace.del_rules(name.as_str()))),
        Wire::Sync(prefix) => {
            workspace.sync(tree, prefix.as_str())?;
            Ok(Reply::Done)
        }
        Wire::End => Ok(Reply::Done),
        Wire::Scan | Wire::Fix => unreachable!(),
    }
}

// Scans.
fn scan<W: Workspace, P: Patterns, L: Ledger>(
    workspace: &mut W,
    patterns: &mut P,
    steps: &mut Steps<L>,
) -> Result<Reply, PlayFault>
    ensures does { IfOk result (λ reply. (told : Option Files) → DoesStill (W.readings (W.reader workspace.old)) told (W.state workspace.old) scan_wire (W.state workspace.new) reply) }
    ensures cause { IfErr result (λ fault. fault ≡ no_memory) }
    ensures once { AreReadOnce (W.readings (W.reader workspace.old)).writes (W.state workspace.old).rules }
    ensures work { (result ≡ Err PlayFault.Memory → ⊥) → CostsStill (W.readings (W.reader workspace.old)) (W.state workspace.old) scan_wire (W.state workspace.new) (W.seen workspace.old) (W.seen workspace.new) steps.old steps.new }
    ensures asks { (result ≡ Err PlayFault.Memory → ⊥) → Asks (W.readings (W.reader workspace.old)) (W.state workspace.old).rules scan_wire (W.state workspace.old).decided (W.state workspace.new).decided (P.asked patterns.old) (P.asked patterns.new) }
    ensures refused { OnOk result (RefusesGained (W.state workspace.old) (W.state workspace.new) (P.refusals patterns.old) (P.refusals patterns.new)) }
    ensures keeps { Keeps (W.state workspace.old) (W.state workspace.new) (P.refusals patterns.old) (P.refusals patterns.new) }
    ensures same_reader { W.reader workspace.new ≡ W.reader workspace.old }
{
    match workspace.scan(patterns, steps) {
        Ok(report) => Ok(Reply::Reported(report)),
        Err(ScanFault::TooMany(most)) => Ok(Reply::TooMany(most)),
        Err(ScanFault::Memory) => Err(PlayFault::Memory),
    }
}

// Fixes.
fn fix<W: Workspace, P: Patterns, L: Ledger>(
    workspace: &mut W,
    patterns: &mut P,
    steps: &mut Steps<L>,
) -> Result<Reply, PlayFault>
    ensures does { IfOk result (λ reply. (told : Option Files) → DoesStill (W.readings (W.reader workspace.old)) told (W.state workspace.old) fix_wire (W.state workspace.new) reply) }
    ensures passes { IfErr result (TellsPassed (λ kind n. (told : Option Files) → PassesNow (W.readings (W.reader workspace.old)) told (W.state workspace.old) fix_wire (W.state workspace.new) kind n)) }
    ensures unfailed { result ≡ Err PlayFault.Failed → ⊥ }
    ensures once { AreReadOnce (W.readings (W.reader workspace.old)).writes (W.state workspace.old).rules }
    ensures work { (result ≡ Err PlayFault.Memory → ⊥) → CostsStill (W.readings (W.reader workspace.old)) (W.state workspace.old) fix_wire (W.state workspace.new) (W.seen workspace.old) (W.seen workspace.new) steps.old steps.new }
    ensures asks { (result ≡ Err PlayFault.Memory → ⊥) → Asks (W.readings (W.reader workspace.old)) (W.state workspace.old).rules fix_wire (W.state workspace.old).decided (W.state workspace.new).decided (P.asked patterns.old) (P.asked patterns.new) }
    ensures refused { (result ≡ Err PlayFault.Memory → ⊥) → RefusesGained (W.state workspace.old) (W.state workspace.new) (P.refusals patterns.old) (P.refusals patterns.new) }
    ensures keeps { Keeps (W.state workspace.old) (W.state workspace.new) (P.refusals patterns.old) (P.refusals patterns.new) }
    ensures same_reader { W.reader workspace.new ≡ W.reader workspace.old }
{
    match workspace.fix(patterns, steps) {
        Ok(fixed) => Ok(Reply::Fixed(fixed)),
        Err(FixFault::TooMany(most)) => Ok(Reply::TooMany(most)),
        Err(FixFault::OverLimit(kind, number)) => Err(PlayFault::OverLimit(kind, number)),
        Err(FixFault::Memory) => Err(PlayFault::Memory),
    }
}

/// Does a command of a session, and says what it came to. A command that passes a limit does nothing.
///
/// The texts of regular expressions that are refused later change nothing of it: `does` holds for any that the workspace has not
/// decided. So it is with the steps that it takes, as `specs/Costs.antt` says. `specs/Asking.antt` says which texts it asks for.
pub fn play<W: Workspace, T: Tree, P: Patterns, L: Ledger>(
    wire: &Wire,
    workspace: &mut W,
    tree: &mut T,
    patterns: &mut P,
    steps: &mut Steps<L>,
) -> Result<Reply, PlayFault>
    ensures does { IfOk result (DoesStill (W.readings (W.reader workspace.old)) (T.files tree.old) (W.state workspace.old) wire.now (W.state workspace.new)) }
    ensures passes { IfErr result (TellsPassed (PassesNow (W.readings (W.reader workspace.old)) (T.files tree.old) (W.state workspace.old) wire.now (W.state workspace.new))) }
    ensures work { (result ≡ Err PlayFault.Memory → ⊥) → CostsStill (W.readings (W.reader workspace.old)) (W.state workspace.old) wire.now (W.state workspace.new) (W.seen workspace.old) (W.seen workspace.new) steps.old steps.new }
    ensures unspent { result ≡ Err PlayFault.Failed → steps.new ≡ steps.old }
    ensures asks { (result ≡ Err PlayFault.Memory → ⊥) → Asks (W.readings (W.reader workspace.old)) (W.state workspace.old).rules wire.now (W.state workspace.old).decided (W.state workspace.new).decided (P.asked patterns.old) (P.asked patterns.new) }
    ensures refused { (result ≡ Err PlayFault.Memory → ⊥) → RefusesGained (W.state workspace.old) (W.state workspace.new) (P.refusals patterns.old) (P.refusals patterns.new) }
    ensures keeps { Keeps (W.state workspace.old) (W.state workspace.new) (P.refusals patterns.old) (P.refusals patterns.new) }
    ensures same_reader { W.reader workspace.new ≡ W.reader workspace.old }
    ensures files_kept { KeepsFiles (T.files tree.old) (T.files tree.new) }
    ensures fails { result ≡ Err PlayFault.Failed → IsSync wire.now }
    ensures once { (result ≡ Err PlayFault.Memory → ⊥) → ReadsOnce (W.readings (W.reader workspace.old)) (W.state workspace.old).rules wire.now }
    ensures cause { HasPlayCause (T.faults tree.old) (T.faults tree.new) result }
{
    match wire {
        Wire::Scan => scan(workspace, patterns, steps),
        Wire::Fix => fix(workspace, patterns, steps),
        _ => edit(wire, workspace, tree),
    }
}
