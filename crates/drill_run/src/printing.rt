//! The line of a drill.

ghost use Rattle.std.specs.Prelude.{◌≡◌, IfOk, string_bytes};
ghost use Rattle.std.specs.Io.KnownBytes.{Appends};
ghost use Rattle.scan_world.specs.Faults.{Rose};
ghost use Rattle.scan_world.specs.Streams.{AppendsFront};
ghost use Rattle.run_status.specs.Status.{IsAnswer};
ghost use Rattle.drill_run.specs.Drilling.{drill_line};
ghost use Rattle.drill_run.specs.Commands.{IsOfPrinting};

use report_form::Report;
use run_status::Status;
use scan_world::Sink;
use std::alloc::{AllocError, Global};

// The line of a drill with these reports.
fn line_of(alloc: Global, count: u32, first: &Report, second: &Report) -> Result<String, AllocError>
    ensures { IfOk result (λ text. string_bytes text ≡ drill_line count first.now second.now) }
{
    let (before, after) = (first.results.len(), second.results.len());
    let notices = second.notices.len();
    format!(in alloc; "files {count} first {before} second {after} notices {notices}\n")
}

/// Prints how many files a drill puts, how many findings its two reports have, and how many notices the second, in one write.
pub fn print_counts<K: Sink>(
    alloc: Global,
    count: u32,
    first: &Report,
    second: &Report,
    out: &mut K,
) -> Status
    ensures printed { IsAnswer result → (result ≡ Status.Done) × Appends (K.written out.old) (K.written out.new) (drill_line count first.now second.now) }
    ensures cause { IsOfPrinting result }
    ensures kept { IsAnswer result → K.faults out.new ≡ K.faults out.old }
    ensures unwritten { result ≡ Status.Memory → K.written out.new ≡ K.written out.old }
    ensures failed { result ≡ Status.OutputFault → Rose (K.faults out.old) (K.faults out.new) }
    ensures front { result ≡ Status.OutputFault → AppendsFront (K.written out.old) (K.written out.new) (drill_line count first.now second.now) }
{
    let Ok(line) = line_of(alloc, count, first, second) else {
        return Status::Memory;
    };
    match out.write(line.as_bytes()) {
        Ok(()) => Status::Done,
        Err(_) => Status::OutputFault,
    }
}
