//! The command `match`: where a pattern matches in the input.

ghost use Rattle.std.specs.Prelude.{◌≡◌, ◌⊎◌, ◌+◌, ◌≤◌, IfOk, IsSome};
ghost use Rattle.std.specs.Io.KnownBytes.{IsAtEnd};
ghost use Rattle.scan_world.specs.Faults.{Rose};
ghost use Rattle.run_status.specs.Status.{IsAnswer};
ghost use Rattle.scan_run.specs.Status.{IsOfSearch, IsOfInput};
ghost use Rattle.run_status.specs.Ways.{Printed, PrintedFront, PrintedSome, IsOnlyEnd};
ghost use Rattle.scan_run.specs.Matching.{by_names, ServesPattern, SearchEnds, Matches};
ghost use Rattle.scan_run.specs.Steps.{TakesSteps};

use crate::input::read_target;
use crate::output::{OutputError, print_all};
use file_match::match_leaf;
use file_open::{Opened, open_file, with_names};
use languages::Languages;
use literal_use::uses_literals;
use node_tree::{Bytes, FileView, Lang, Memory, Pattern, Steps};
use pattern_read::{PatternFault, read_pattern};
use run_status::Status;
use scan_world::{Sink, Source};
use std::alloc::Global;
use std::sync::ledger::Ledger;
use tree_match::{Leaf, MOST_MEMBERS};

// The file with the names that are known in it, where the pattern may take them; else as it is.
fn named_for(alloc: Global, pattern: &Pattern, file: FileView) -> Result<FileView, Memory>
    ensures same { IfOk result (λ named. named.tree ≡ file.tree) }
    ensures serves { IfOk result (λ named. ServesPattern file.lang file.tree named.known pattern.now) }
{
    if !uses_literals(pattern) {
        return Ok(file);
    }
    with_names(alloc, &Languages, file)
}

// Prints the members of the pattern in the file.
fn print_members<K: Sink, L: Ledger>(
    alloc: Global,
    file: &FileView,
    pattern: &Pattern,
    out: &mut K,
    steps: &mut Steps<L>,
) -> Status
    ensures ends { IsAnswer result → Printed (SearchEnds (by_names file.now.known file.now.tree pattern.now)) (K.written out.old) (K.written out.new) result }
    ensures output_kept { IsAnswer result → K.faults out.new ≡ K.faults out.old }
    ensures output_fault { result ≡ Status.OutputFault → Rose (K.faults out.old) (K.faults out.new) }
    ensures front_written { result ≡ Status.OutputFault → PrintedFront (SearchEnds (by_names file.now.known file.now.tree pattern.now)) (K.written out.old) (K.written out.new) }
    ensures whole_lines { result ≡ Status.Memory → (K.written out.new ≡ K.written out.old) ⊎ PrintedSome (SearchEnds (by_names file.now.known file.now.tree pattern.now)) (K.written out.old) (K.written out.new) }
    ensures one_step { steps.new ≡ steps.old + 1 }
    ensures cause { IsOfSearch result }
{
    let members = match match_leaf(alloc, file, pattern, steps) {
        Ok(Leaf::Full(members)) => members,
        Ok(Leaf::Crowded) => return Status::TooMany(MOST_MEMBERS as u64),
        Err(_) => return Status::Memory,
    };
    match print_all(alloc, out, &members) {
        Ok(()) => Status::Done,
        Err(OutputError::Memory) => Status::Memory,
        Err(OutputError::Failed) => Status::OutputFault,
    }
}

/// Prints where the pattern that the text writes matches in the input, as `specs/Matching.antt` says.
pub fn run_match<S: Source, K: Sink, L: Ledger>(
    alloc: Global,
    lang: Lang,
    text: &str,
    input: &mut S,
    out: &mut K,
    steps: &mut Steps<L>,
) -> Status
    ensures ends { IsAnswer result → Printed (Matches lang text.now (S.left input.old)) (K.written out.old) (K.written out.new) result }
    ensures only { IsAnswer result → IsSome (S.left input.old) → IsOnlyEnd (Matches lang text.now (S.left input.old)) (K.written out.old) (K.written out.new) result }
    ensures input_kept { IsAnswer result → S.faults input.new ≡ S.faults input.old }
    ensures output_kept { IsAnswer result → K.faults out.new ≡ K.faults out.old }
    ensures read_to_its_end { result ≡ Status.Done → IsAtEnd (S.left input.new) }
    ensures input_fault { result ≡ Status.InputFault → Rose (S.faults input.old) (S.faults input.new) }
    ensures nothing_written { result ≡ Status.InputFault → K.written out.new ≡ K.written out.old }
    ensures output_fault { result ≡ Status.OutputFault → Rose (K.faults out.old) (K.faults out.new) }
    ensures front_written { result ≡ Status.OutputFault → PrintedFront (Matches lang text.now (S.left input.old)) (K.written out.old) (K.written out.new) }
    ensures whole_lines { result ≡ Status.Memory → (K.written out.new ≡ K.written out.old) ⊎ PrintedSome (Matches lang text.now (S.left input.old)) (K.written out.old) (K.written out.new) }
    ensures cause { IsOfInput result }
    ensures work { TakesSteps result steps.old steps.new }
{
    let pattern = match read_pattern(alloc, lang, text) {
        Ok(pattern) => pattern,
        Err(fault) => match fault {
            PatternFault::Memory => return Status::Memory,
            _ => return Status::BadPattern,
        },
    };
    let bytes = match read_target(alloc, input) {
        Ok(bytes) => bytes,
        Err(status) => return status,
    };
    let Ok(opened) = open_file(alloc, &Languages, lang, Bytes::from_vec(bytes), steps) else {
        return Status::Memory;
    };
    let Opened::Read(file) = opened else {
        return Status::BadTarget;
    };
    let Ok(named) = named_for(alloc, &pattern, file) else {
        return Status::Memory;
    };
    print_members(alloc, &named, &pattern, out, steps)
}
