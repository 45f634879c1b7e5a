//! Printing what commands come to.

ghost use Rattle.std.specs.Prelude.{◌≡◌, OnOk, IfOk, IsErrOf, string_bytes};
ghost use Rattle.std.specs.List.{concat};
ghost use Rattle.std.specs.Io.KnownBytes.{Appends};
ghost use Rattle.scan_world.specs.Faults.{Rose};
ghost use Rattle.scan_world.specs.Streams.{AppendsFront};
ghost use Rattle.stream_run.specs.Printed.{too_many_line, lines_of};

use crate::fault::PrintFault;
use crate::reply::Reply;
use finding_json::{fix_text, report_text};
use scan_world::Sink;
use std::alloc::{AllocError, Global};

// The line of a scan or a fix with more findings than that.
fn too_many(alloc: Global, most: u64) -> Result<String, AllocError>
    ensures { IfOk result (λ text. string_bytes text ≡ too_many_line most) }
{
    format!(in alloc; "{{\"too_many\":{most}}}\n")
}

// Prints a line, in one write.
fn print_line<K: Sink>(out: &mut K, line: &[u8]) -> Result<(), PrintFault>
    ensures printed { OnOk result (Appends (K.written out.old) (K.written out.new) line.now) }
    ensures memory { IsErrOf result PrintFault.Memory → ⊥ }
    ensures front { IsErrOf result PrintFault.Failed → AppendsFront (K.written out.old) (K.written out.new) line.now }
    ensures kept { OnOk result (K.faults out.new ≡ K.faults out.old) }
    ensures failed { IsErrOf result PrintFault.Failed → Rose (K.faults out.old) (K.faults out.new) }
{
    if out.write(line).is_err() {
        return Err(PrintFault::Failed);
    }
    Ok(())
}

/// Prints what a command came to, in one write of its line if it has one. Where memory runs out nothing was printed.
pub fn print<K: Sink>(alloc: Global, out: &mut K, reply: &Reply) -> Result<(), PrintFault>
    ensures printed { OnOk result (Appends (K.written out.old) (K.written out.new) (concat (lines_of reply.now))) }
    ensures unwritten { IsErrOf result PrintFault.Memory → K.written out.new ≡ K.written out.old }
    ensures front { IsErrOf result PrintFault.Failed → AppendsFront (K.written out.old) (K.written out.new) (concat (lines_of reply.now)) }
    ensures kept { OnOk result (K.faults out.new ≡ K.faults out.old) }
    ensures failed { IsErrOf result PrintFault.Failed → Rose (K.faults out.old) (K.faults out.new) }
{
    match reply {
        Reply::Done => Ok(()),
        Reply::Removed(true) => print_line(out, b"{\"removed\":true}\n"),
        Reply::Removed(false) => print_line(out, b"{\"removed\":false}\n"),
        Reply::Reported(report) => {
            let line = report_text(alloc, report)?;
            print_line(out, line.as_slice())
        }
        Reply::Fixed(fixed) => {
            let line = fix_text(alloc, fixed)?;
            print_line(out, line.as_slice())
        }
        Reply::TooMany(most) => {
            let line = too_many(alloc, *most)?;
            print_line(out, line.as_bytes())
        }
    }
}
