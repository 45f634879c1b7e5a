//! A whole command.

ghost use Rattle.std.specs.Prelude.{◌≡◌, ◌<◌, ◌+◌, ◌^◌, ℕ, Some, IfOk, IsErrOf};
ghost use Rattle.wire_stream.specs.Lines.{Line, IsLine};
ghost use Rattle.wire_stream.specs.Commands.{body_length, BeginsNone};
ghost use Rattle.wire_stream.specs.Heads.{IsHead, IsRest, IsNoRest};
ghost use Rattle.wire_stream.specs.Feeds.{Used};
ghost use Rattle.wire_stream.specs.Fronts.{Waits, WaitsWithin};
ghost use Rattle.wire_stream.specs.Streams.{OfStream, HasCauseOf};

use crate::body::read_body;
use crate::hand::Hand;
use crate::head::{Head, read_line, take_line};
use crate::trouble::Trouble;
use crate::wire::Wire;
use node_tree::MOST_BYTES;
use scan_world::{MOST_RULE_BYTES, Source};
use std::alloc::Global;

// The most bytes that are kept of a file: one more than a file that is scanned may have.
const MOST_FILE: usize = MOST_BYTES + 1;

// The most bytes that are kept of a rule file: one more than it may have.
const MOST_RULES: usize = MOST_RULE_BYTES + 1;

/// Reads what follows the line of a command, and tells how many bytes it has.
fn read_rest<S: Source>(
    alloc: Global,
    hand: &mut Hand,
    input: &mut S,
    head: Head,
) -> Result<(Wire, u64), Trouble>
    requires { (line : Line) × IsLine line × IsHead line head }
    ensures rest { IfOk result (λ x. (line : Line) → IsHead line head → IsRest (S.left input.old) (S.left input.new) hand.old hand.new line x.0 x.1) }
    ensures short { IfOk result (λ x. x.1 < 2 ^ 32) }
    ensures failed { IsErrOf result Trouble.Failed → (line : Line) → IsHead line head → (n : ℕ) × (body_length line ≡ Some n) × WaitsWithin (S.left input.old) (S.left input.new) hand.old n }
    ensures bad { IsErrOf result Trouble.Bad → (line : Line) → IsHead line head → OfStream (S.left input.old) hand.old (IsNoRest line) }
    ensures cause { HasCauseOf (S.faults input.old) (S.faults input.new) result }
{
    match head {
        Head::Whole(wire) => Ok((wire, 0)),
        Head::Put(size, path) => {
            let body = read_body(alloc, hand, input, size, MOST_FILE)?;
            Ok((Wire::Put(path, body), size + 1))
        }
        Head::Rule(size, name) => {
            let body = read_body(alloc, hand, input, size, MOST_RULES)?;
            Ok((Wire::Rule(name, body), size + 1))
        }
    }
}

/// Reads the next command, and tells how many bytes it has.
pub fn read_command<S: Source>(
    alloc: Global,
    hand: &mut Hand,
    input: &mut S,
) -> Result<(Wire, u64), Trouble>
    ensures used { IfOk result (λ x. Used (S.left input.old) (S.left input.new) hand.old hand.new x.0 x.1) }
    ensures short { IfOk result (λ x. x.1 < 2 ^ 63 + 2 ^ 33) }
    ensures bad { IsErrOf result Trouble.Bad → OfStream (S.left input.old) hand.old BeginsNone }
    ensures failed { IsErrOf result Trouble.Failed → Waits (S.left input.old) (S.left input.new) hand.old }
    ensures cause { HasCauseOf (S.faults input.old) (S.faults input.new) result }
{
    let end = read_line(alloc, hand, input)?;
    let head = take_line(alloc, hand, end)?;
    let (wire, rest) = read_rest(alloc, hand, input, head)?;
    Ok((wire, end as u64 + 1 + rest))
}
