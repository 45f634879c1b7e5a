//! What stands in a command before its body.

ghost use Rattle.std.specs.Prelude.{◌≡◌, ◌+◌, ◌<◌, ◌^◌, [], List, ℕ, take, drop, IfOk, OnOk, IsErrOf};
ghost use Rattle.wire_stream.specs.Lines.{Line};
ghost use Rattle.wire_stream.specs.Asked.{line_of, IsLineOf, IsNoLine};
ghost use Rattle.wire_stream.specs.Commands.{BeginsNone};
ghost use Rattle.wire_stream.specs.Fronts.{IsLineFront};
ghost use Rattle.wire_stream.specs.Heads.{IsHead, IsLineEnd};
ghost use Rattle.wire_stream.specs.Streams.{Uses, OfStream, HasCauseOf};

use crate::hand::{Hand, fill};
use crate::line::{Asked, asked_of};
use crate::open::is_open;
use crate::trouble::Trouble;
use crate::wire::Wire;
use memchr::memchr;
use node_tree::{Memory, Text};
use scan_world::Source;
use std::alloc::Global;

// The most bytes that a line has, with its end.
const MOST_LINE: usize = 1040;

/// A command without its body.
#[derive(Drop)]
pub enum Head {
    /// A command that has none.
    Whole(Wire),
    /// The length of the body that a file's path is put with.
    Put(u64, Text),
    /// The same of a rule file.
    Rule(u64, Text),
}

/// The command that a line asks for, without its body.
fn head_of(alloc: Global, asked: Asked<'_>) -> Result<Head, Memory>
    ensures { IfOk result (IsHead (line_of asked.entry)) }
{
    Ok(match asked {
        Asked::Put(size, path) => Head::Put(size, Text::from_str(alloc, path)?),
        Asked::Del(path) => Head::Whole(Wire::Del(Text::from_str(alloc, path)?)),
        Asked::Rule(size, name) => Head::Rule(size, Text::from_str(alloc, name)?),
        Asked::Unrule(name) => Head::Whole(Wire::Unrule(Text::from_str(alloc, name)?)),
        Asked::Sync(prefix) => Head::Whole(Wire::Sync(Text::from_str(alloc, prefix)?)),
        Asked::Scan => Head::Whole(Wire::Scan),
        Asked::Fix => Head::Whole(Wire::Fix),
        Asked::End => Head::Whole(Wire::End),
    })
}

/// Reads until a line's end is in hand, and tells its place.
pub fn read_line<S: Source>(alloc: Global, hand: &mut Hand, input: &mut S) -> Result<usize, Trouble>
    ensures end { IfOk result (IsLineEnd hand.new) }
    ensures short { IfOk result (λ end. end < 2 ^ 63) }
    ensures uses { OnOk result (Uses (S.left input.old) (S.left input.new) hand.old hand.new []) }
    ensures bad { IsErrOf result Trouble.Bad → OfStream (S.left input.old) hand.old BeginsNone }
    ensures failed { IsErrOf result Trouble.Failed → (bytes : List ℕ) × IsLineFront bytes × Uses (S.left input.old) (S.left input.new) hand.old [] bytes }
    ensures cause { HasCauseOf (S.faults input.old) (S.faults input.new) result }
{
    for _ in 0..=MOST_LINE {
        let bytes = hand.as_slice();
        if let Some(end) = memchr(b'\n', bytes) {
            return Ok(end);
        }
        let open = is_open(alloc, bytes)?;
        if !open {
            return Err(Trouble::Bad);
        }
        let count = fill(hand, input)?;
        if count == 0 {
            return Err(Trouble::Bad);
        }
    }
    unreachable!()
}

/// Uses a line and its end.
pub fn take_line(alloc: Global, hand: &mut Hand, end: usize) -> Result<Head, Trouble>
    requires { IsLineEnd hand.old end }
    ensures head { IfOk result (λ h. (line : Line) × IsLineOf (take end hand.old) line × IsHead line h) }
    ensures used { OnOk result (hand.new ≡ drop (end + 1) hand.old) }
    ensures bad { IsErrOf result Trouble.Bad → IsNoLine (take end hand.old) }
    ensures others { IsErrOf result Trouble.Failed → ⊥ }
{
    let Some(asked) = asked_of(&hand.as_slice()[..end]) else {
        return Err(Trouble::Bad);
    };
    let head = head_of(alloc, asked)?;
    hand.advance(end + 1);
    Ok(head)
}
