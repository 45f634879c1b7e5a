//! The top call.

ghost use Rattle.std.specs.Prelude.{◌≡◌, ◌⊎◌, ◌↔◌, map, string_bytes, IsTrue, IfSome, IsSomeAnd};
ghost use Rattle.std.specs.Io.KnownBytes.{IsAtEnd};
ghost use Rattle.scan_world.specs.Faults.{Rose};
ghost use Rattle.scan_world.specs.Trees.{KeepsFiles};
ghost use Rattle.decided_texts.specs.Refused.{Gains, gained};
ghost use Rattle.run_status.specs.Status.{IsAnswer, IsCutShort};
ghost use Rattle.run_status.specs.Ways.{Printed, IsOnlyEnd};
ghost use Rattle.wire_words.specs.Commands.{Request, request as requested};
ghost use Rattle.scan_run.specs.Run.{Asks, IsBuilt, Ends, WritesFront, WritesSome, WritesCommands, WritesAllRead, WritesToSync, FixWrote, FixLeaves, AreTold, AskToMatch, AskToRead, AskToServe, AskToWrite, AskForNoScan, AskForNoSearch, Takes};
ghost use Rattle.scan_run.specs.Steps.{TakesSteps};
ghost use Rattle.scan_run.specs.Asking.{Gives, GivesFirst};

use crate::checking::run_check;
use crate::matching::run_match;
use crate::serving::{run_drill, run_fix, run_scan, run_session};
use node_tree::Steps;
use run_status::Status;
use rx_text::Patterns;
use scan_world::{Sink, Source, Tree};
use std::alloc::Global;
use std::sync::ledger::Ledger;
use wire_words::{Command, read_words};

// Whether a run does what a command asks for. Stores are not built yet: their words are as those outside the table.
fn is_built(command: &Command<'_>) -> bool
    ensures { IsTrue result ↔ IsBuilt (requested command.now) }
{
    match command {
        Command::Match(_, _) => true,
        Command::Check => true,
        Command::Scan(job) => job.store.is_none(),
        Command::Fix(_) => true,
        Command::Session(_, _) => true,
        Command::Drill(_) => true,
    }
}

// The command that the words ask for, if a run does it.
fn asked(words: &Vec<String>) -> Option<Command<'_>>
    ensures read { IfSome result (λ command. Asks (map string_bytes words.now.items) (requested command)) }
    ensures only { (r : Request) → Asks (map string_bytes words.now.items) r → IsSomeAnd result (λ command. requested command ≡ r) }
{
    let command = read_words(words)?;
    if !is_built(&command) {
        return None;
    }
    Some(command)
}

/// Does what the words ask for, from the input or the tree of files to the lines on the output. `specs/Run.antt` says what a
/// run is, by the texts of regular expressions that were refused in it; the clauses say which part of it each status promises.
pub fn run<T: Tree, S: Source, K: Sink, P: Patterns, L: Ledger>(
    alloc: Global,
    words: &Vec<String>,
    tree: &mut T,
    input: &mut S,
    out: &mut K,
    patterns: &mut P,
    steps: &mut Steps<L>,
) -> Status
    // A run without a fault ends and prints as the definition says, and in no other way.
    ensures ends { IsAnswer result → Printed (Ends (map string_bytes words.now.items) (S.left input.old) (T.files tree.old) (gained (P.refusals patterns.old) (P.refusals patterns.new))) (K.written out.old) (K.written out.new) result }
    ensures only { IsAnswer result → AreTold (map string_bytes words.now.items) (S.left input.old) (T.files tree.old) → IsOnlyEnd (Ends (map string_bytes words.now.items) (S.left input.old) (T.files tree.old) (gained (P.refusals patterns.old) (P.refusals patterns.new))) (K.written out.old) (K.written out.new) result }

    // It reads the input only for a match, a check or a session, and looks into the tree only for what scans.
    ensures input_alone { (AskToRead (map string_bytes words.now.items) → ⊥) → (AskToServe (map string_bytes words.now.items) → ⊥) → input.new ≡ input.old }
    ensures tree_alone { AskForNoScan (map string_bytes words.now.items) → tree.new ≡ tree.old }

    // It leaves the counts of faults as they were, and a match or a check is done only at the end of the input.
    ensures tree_kept { IsAnswer result → T.faults tree.new ≡ T.faults tree.old }
    ensures input_kept { IsAnswer result → S.faults input.new ≡ S.faults input.old }
    ensures output_kept { IsAnswer result → K.faults out.new ≡ K.faults out.old }
    ensures read_to_its_end { AskToRead (map string_bytes words.now.items) → result ≡ Status.Done → IsAtEnd (S.left input.new) }

    // The files stay as they are, however it ends, unless the words ask for fixes that are written; then it is said which were.
    ensures files_kept { (AskToWrite (map string_bytes words.now.items) → ⊥) → KeepsFiles (T.files tree.old) (T.files tree.new) }
    ensures files_fixed { IsAnswer result → FixWrote (map string_bytes words.now.items) (T.files tree.old) (gained (P.refusals patterns.old) (P.refusals patterns.new)) (T.files tree.new) result }
    ensures files_left { FixLeaves (map string_bytes words.now.items) (T.files tree.old) (gained (P.refusals patterns.old) (P.refusals patterns.new)) (T.files tree.new) }

    // A fault comes only where its count rose, and what was written by then is a front of what was to be written.
    ensures input_fault { result ≡ Status.InputFault → Rose (S.faults input.old) (S.faults input.new) }
    ensures tree_fault { result ≡ Status.TreeFault → Rose (T.faults tree.old) (T.faults tree.new) }
    ensures absent { result ≡ Status.NoSuchPath → Rose (T.absences tree.old) (T.absences tree.new) }
    ensures nothing_written { (AskToServe (map string_bytes words.now.items) → ⊥) → (result ≡ Status.InputFault) ⊎ (result ≡ Status.TreeFault) → K.written out.new ≡ K.written out.old }
    ensures commands_written { AskToServe (map string_bytes words.now.items) → IsCutShort result → WritesCommands (map string_bytes words.now.items) (S.left input.old) (T.files tree.old) (gained (P.refusals patterns.old) (P.refusals patterns.new)) (K.written out.old) (K.written out.new) }
    ensures all_read_written { AskToServe (map string_bytes words.now.items) → result ≡ Status.InputFault → WritesAllRead (map string_bytes words.now.items) (S.left input.old) (S.left input.new) (T.files tree.old) (gained (P.refusals patterns.old) (P.refusals patterns.new)) (K.written out.old) (K.written out.new) }
    ensures before_sync_written { AskToServe (map string_bytes words.now.items) → result ≡ Status.TreeFault → WritesToSync (map string_bytes words.now.items) (S.left input.old) (T.files tree.old) (gained (P.refusals patterns.old) (P.refusals patterns.new)) (K.written out.old) (K.written out.new) }
    ensures output_fault { result ≡ Status.OutputFault → Rose (K.faults out.old) (K.faults out.new) }
    ensures front_written { result ≡ Status.OutputFault → WritesFront (map string_bytes words.now.items) (S.left input.old) (T.files tree.old) (gained (P.refusals patterns.old) (P.refusals patterns.new)) (K.written out.old) (K.written out.new) }
    ensures whole_lines { result ≡ Status.Memory → (K.written out.new ≡ K.written out.old) ⊎ WritesSome (map string_bytes words.now.items) (S.left input.old) (T.files tree.old) (gained (P.refusals patterns.old) (P.refusals patterns.new)) (K.written out.old) (K.written out.new) }

    // The list of refused texts gains those that were refused in the run, however it ends; where no scan is asked for there is none.
    ensures patterns_grow { Gains (P.refusals patterns.old) (P.refusals patterns.new) }
    ensures patterns_kept { AskForNoScan (map string_bytes words.now.items) → P.refusals patterns.new ≡ P.refusals patterns.old }

    // If the builder tells what it is asked for, these are the texts of regular expressions that the scans go by, in order and each
    // once. After a fault in a session they are those of its first commands, and where no scan is asked for there are none.
    ensures texts_asked { IsAnswer result → Gives (map string_bytes words.now.items) (S.left input.old) (T.files tree.old) (gained (P.refusals patterns.old) (P.refusals patterns.new)) (K.written out.old) (K.written out.new) result (P.asked patterns.old) (P.asked patterns.new) }
    ensures texts_to_fault { AskToServe (map string_bytes words.now.items) → (IsAnswer result → ⊥) → (result ≡ Status.Memory → ⊥) → GivesFirst (map string_bytes words.now.items) (S.left input.old) (T.files tree.old) (gained (P.refusals patterns.old) (P.refusals patterns.new)) (K.written out.old) (K.written out.new) (P.asked patterns.old) (P.asked patterns.new) }
    ensures none_asked { AskForNoScan (map string_bytes words.now.items) → P.asked patterns.new ≡ P.asked patterns.old }

    // A match takes steps as its status says, and a run that searches nothing takes none.
    ensures work { AskToMatch (map string_bytes words.now.items) → TakesSteps result steps.old steps.new }
    ensures no_work { AskForNoSearch (map string_bytes words.now.items) → steps.new ≡ steps.old }

    // A scan, a fix, a session and a drill take a step for each file that they open, and one for each piece and pattern that they ask
    // for and that is not kept.
    ensures session_work { IsAnswer result → Takes (map string_bytes words.now.items) (S.left input.old) (T.files tree.old) (gained (P.refusals patterns.old) (P.refusals patterns.new)) (K.written out.old) (K.written out.new) result steps.old steps.new }
{
    match asked(words) {
        None => Status::Usage,
        Some(Command::Match(lang, text)) => run_match(alloc, lang, text, input, out, steps),
        Some(Command::Check) => run_check(alloc, input, out),
        Some(Command::Scan(job)) => run_scan(alloc, &job, tree, out, patterns, steps),
        Some(Command::Fix(job)) => run_fix(alloc, &job, tree, out, patterns, steps),
        Some(Command::Session(most, trace)) => {
            run_session(alloc, most, trace, tree, input, out, patterns, steps)
        }
        Some(Command::Drill(count)) => run_drill(alloc, count, tree, out, patterns, steps),
    }
}
