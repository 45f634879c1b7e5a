//! The command `check`: whether the input is JSON.

ghost use Rattle.std.specs.Prelude.{◌≡◌, IfOk, IsSome, string_bytes};
ghost use Rattle.std.specs.Io.KnownBytes.{IsAtEnd};
ghost use Rattle.scan_world.specs.Faults.{Rose};
ghost use Rattle.run_status.specs.Status.{IsAnswer};
ghost use Rattle.scan_run.specs.Status.{IsOfInput};
ghost use Rattle.run_status.specs.Ways.{Printed, PrintedFront, IsOnlyEnd};
ghost use Rattle.scan_run.specs.Checking.{check_line, Checks};

use crate::input::read_target;
use json_check::first_bad;
use run_status::Status;
use scan_world::{Sink, Source};
use std::alloc::{AllocError, Global};
use std::str::from_utf8;

// The line of a text that is JSON, or that stops being it at this place.
fn line(alloc: Global, bad: Option<u32>) -> Result<String, AllocError>
    ensures { IfOk result (λ text. string_bytes text ≡ check_line bad) }
{
    match bad {
        None => String::from_str(alloc, "ok\n"),
        Some(place) => format!(in alloc; "bad {place}\n"),
    }
}

/// Prints whether the input is JSON, or where it stops being that, as `specs/Checking.antt` says.
pub fn run_check<S: Source, K: Sink>(alloc: Global, input: &mut S, out: &mut K) -> Status
    ensures ends { IsAnswer result → Printed (Checks (S.left input.old)) (K.written out.old) (K.written out.new) result }
    ensures only { IsAnswer result → IsSome (S.left input.old) → IsOnlyEnd (Checks (S.left input.old)) (K.written out.old) (K.written out.new) result }
    ensures input_kept { IsAnswer result → S.faults input.new ≡ S.faults input.old }
    ensures output_kept { IsAnswer result → K.faults out.new ≡ K.faults out.old }
    ensures read_to_its_end { result ≡ Status.Done → IsAtEnd (S.left input.new) }
    ensures input_fault { result ≡ Status.InputFault → Rose (S.faults input.old) (S.faults input.new) }
    ensures nothing_written { result ≡ Status.InputFault → K.written out.new ≡ K.written out.old }
    ensures output_fault { result ≡ Status.OutputFault → Rose (K.faults out.old) (K.faults out.new) }
    ensures front_written { result ≡ Status.OutputFault → PrintedFront (Checks (S.left input.old)) (K.written out.old) (K.written out.new) }
    ensures unwritten { result ≡ Status.Memory → K.written out.new ≡ K.written out.old }
    ensures cause { IsOfInput result }
{
    let bytes = match read_target(alloc, input) {
        Ok(bytes) => bytes,
        Err(status) => return status,
    };
    let Ok(text) = from_utf8(bytes.as_slice()) else {
        return Status::BadTarget;
    };
    let Ok(bad) = first_bad(alloc, text) else {
        return Status::Memory;
    };
    let Ok(line) = line(alloc, bad) else {
        return Status::Memory;
    };
    match out.write(line.as_bytes()) {
        Ok(()) => Status::Done,
        Err(_) => Status::OutputFault,
    }
}
