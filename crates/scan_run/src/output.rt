//! Printing the members of a set.

ghost use Rattle.std.specs.Prelude.{◌≡◌, map, OnOk, OnErr, IsErrOf, IfOk, string_bytes};
ghost use Rattle.std.specs.List.{concat};
ghost use Rattle.std.specs.Io.KnownBytes.{Appends};
ghost use Rattle.scan_world.specs.Faults.{Rose};
ghost use Rattle.scan_world.specs.Streams.{AppendsFront};
ghost use Rattle.run_status.specs.Ways.{AppendsSome};
ghost use Rattle.scan_run.specs.Lines.{line_of};

use meta_bind::Binding;
use node_tree::Span;
use scan_world::Sink;
use std::alloc::{AllocError, Global};
use tree_match::LeafSet;

/// Why a line was not printed.
#[derive(Clone, Copy, Debug, PartialEq, Eq)]
pub enum OutputError {
    Memory,
    Failed,
}

// The line of a member.
fn line(alloc: Global, span: &Span, binding: &Binding) -> Result<String, AllocError>
    ensures { IfOk result (λ text. string_bytes text ≡ line_of (span.now, binding.now)) }
{
    let from = span.from;
    let to = span.to;
    let mut text = format!(in alloc; "{from}..{to}")?;
    for bound in binding.bounds() {
        let name = bound.name.as_str();
        let from = bound.span.from;
        let to = bound.span.to;
        let part = format!(in alloc; " {name}={from}..{to}")?;
        text.push_str(part.as_str())?;
    }
    text.push_str("\n")?;
    Ok(text)
}

// Prints the line of a member, in one write.
fn print_line<K: Sink>(
    alloc: Global,
    out: &mut K,
    span: &Span,
    binding: &Binding,
) -> Result<(), OutputError>
    ensures ok { OnOk result (Appends (K.written out.old) (K.written out.new) (line_of (span.now, binding.now))) }
    ensures nothing { IsErrOf result OutputError.Memory → K.written out.new ≡ K.written out.old }
    ensures front { OnErr result (AppendsFront (K.written out.old) (K.written out.new) (line_of (span.now, binding.now))) }
    ensures kept { OnOk result (K.faults out.new ≡ K.faults out.old) }
    ensures failed { IsErrOf result OutputError.Failed → Rose (K.faults out.old) (K.faults out.new) }
{
    let Ok(text) = line(alloc, span, binding) else {
        return Err(OutputError::Memory);
    };
    if out.write(text.as_bytes()).is_err() {
        return Err(OutputError::Failed);
    }
    Ok(())
}

/// A line for each member. Where memory runs out, whole lines were printed; where a write fails, some front of all.
pub fn print_all<K: Sink>(alloc: Global, out: &mut K, members: &LeafSet) -> Result<(), OutputError>
    ensures ok { OnOk result (Appends (K.written out.old) (K.written out.new) (concat (map line_of members.now))) }
    ensures whole { IsErrOf result OutputError.Memory → AppendsSome (K.written out.old) (K.written out.new) (map line_of members.now) }
    ensures front { OnErr result (AppendsFront (K.written out.old) (K.written out.new) (concat (map line_of members.now))) }
    ensures kept { OnOk result (K.faults out.new ≡ K.faults out.old) }
    ensures failed { IsErrOf result OutputError.Failed → Rose (K.faults out.old) (K.faults out.new) }
{
    for at in 0..members.len() {
        let Some((span, binding)) = members.get(at) else {
            unreachable!()
        };
        print_line(alloc, out, span, binding)?;
    }
    Ok(())
}
