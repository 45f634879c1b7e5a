//! The body of a command.

ghost use Rattle.std.specs.Prelude.{◌≡◌, ◌++◌, ◌∷◌, ◌<◌, ◌≤◌, ◌-◌, [], List, ℕ, length, take, drop, min, OnOk, IfOk, IsErrOf};
ghost use Rattle.wire_stream.specs.Bodies.{IsFront, IsWhole, IsNoFront, IsNoWhole, IsEmpty, IsNoEnd};
ghost use Rattle.std.specs.Io.KnownBytes.{Keeps};
ghost use Rattle.wire_stream.specs.Fronts.{WaitsWithin};
ghost use Rattle.wire_stream.specs.Streams.{Uses, OfStream, HasCauseOf};

use crate::hand::{Hand, fill};
use crate::trouble::Trouble;
use node_tree::{Bytes, Memory};
use scan_world::Source;
use std::alloc::Global;

/// Reads until there is something in hand.
fn want_some<S: Source>(hand: &mut Hand, input: &mut S) -> Result<(), Trouble>
    ensures some { OnOk result (0 < length hand.new) }
    ensures uses { OnOk result (Uses (S.left input.old) (S.left input.new) hand.old hand.new []) }
    ensures bad { IsErrOf result Trouble.Bad → OfStream (S.left input.old) hand.old IsEmpty }
    ensures failed { IsErrOf result Trouble.Failed → (hand.old ≡ []) × Keeps (S.left input.old) (S.left input.new) }
    ensures cause { HasCauseOf (S.faults input.old) (S.faults input.new) result }
{
    if hand.as_slice().is_empty() && fill(hand, input)? == 0 {
        return Err(Trouble::Bad);
    }
    Ok(())
}

/// Keeps a front of a piece, as far as there is room.
fn keep(kept: &mut Bytes, piece: &[u8], most: usize) -> Result<(), Memory>
    requires { length kept.old ≤ most }
    ensures { OnOk result (kept.new ≡ kept.old ++ take (most - length kept.old) piece.now) }
{
    let room = most - kept.len();
    let count = room.min(piece.len());
    kept.extend(&piece[..count])
}

/// Uses what is in hand of the bytes that are left of a body, and tells how many they are.
fn take_some(hand: &mut Hand, kept: &mut Bytes, left: usize, most: usize) -> Result<usize, Memory>
    requires { length kept.old ≤ most }
    ensures count { IfOk result (λ n. n ≡ min (length hand.old) left) }
    ensures used { IfOk result (λ n. hand.new ≡ drop n hand.old) }
    ensures kept { IfOk result (λ n. kept.new ≡ kept.old ++ take (most - length kept.old) (take n hand.old)) }
{
    let bytes = hand.as_slice();
    let count = bytes.len().min(left);
    keep(kept, &bytes[..count], most)?;
    hand.advance(count);
    Ok(count)
}

/// Reads bytes, of which the first ones are kept.
fn read_bytes<S: Source>(
    alloc: Global,
    hand: &mut Hand,
    input: &mut S,
    size: usize,
    most: usize,
) -> Result<Bytes, Trouble>
    ensures front { IfOk result (IsFront (S.left input.old) (S.left input.new) hand.old hand.new size most) }
    ensures bad { IsErrOf result Trouble.Bad → OfStream (S.left input.old) hand.old (IsNoFront size) }
    ensures failed { IsErrOf result Trouble.Failed → WaitsWithin (S.left input.old) (S.left input.new) hand.old size }
    ensures cause { HasCauseOf (S.faults input.old) (S.faults input.new) result }
{
    let mut kept = Bytes::new(alloc);
    let mut left = size;
    while left > 0 {
        want_some(hand, input)?;
        let count = take_some(hand, &mut kept, left, most)?;
        left -= count;
    }
    Ok(kept)
}

/// Reads a body's end.
fn read_end<S: Source>(hand: &mut Hand, input: &mut S) -> Result<(), Trouble>
    ensures uses { OnOk result (Uses (S.left input.old) (S.left input.new) hand.old hand.new (10 ∷ [])) }
    ensures bad { IsErrOf result Trouble.Bad → OfStream (S.left input.old) hand.old IsNoEnd }
    ensures failed { IsErrOf result Trouble.Failed → (hand.old ≡ []) × Keeps (S.left input.old) (S.left input.new) }
    ensures cause { HasCauseOf (S.faults input.old) (S.faults input.new) result }
{
    want_some(hand, input)?;
    if hand.as_slice()[0] != b'\n' {
        return Err(Trouble::Bad);
    }
    hand.advance(1);
    Ok(())
}

/// Reads a body of so many bytes and its end, and keeps the body's first bytes.
pub fn read_body<S: Source>(
    alloc: Global,
    hand: &mut Hand,
    input: &mut S,
    size: u64,
    most: usize,
) -> Result<Bytes, Trouble>
    ensures whole { IfOk result (IsWhole (S.left input.old) (S.left input.new) hand.old hand.new size most) }
    ensures bad { IsErrOf result Trouble.Bad → OfStream (S.left input.old) hand.old (IsNoWhole size) }
    ensures failed { IsErrOf result Trouble.Failed → WaitsWithin (S.left input.old) (S.left input.new) hand.old size }
    ensures cause { HasCauseOf (S.faults input.old) (S.faults input.new) result }
{
    let kept = read_bytes(alloc, hand, input, size as usize, most)?;
    read_end(hand, input)?;
    Ok(kept)
}
