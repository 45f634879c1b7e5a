//! The bytes in hand: those that were read and not yet used.

ghost use Rattle.std.specs.Prelude.{◌≡◌, ◌≤◌, ◌+◌, ◌++◌, [], length, drop, OnOk, OnErr, IfOk, IsErrOf};
ghost use Rattle.std.specs.Io.KnownBytes.{IsAtEnd, Keeps};
ghost use Rattle.wire_stream.specs.Streams.{Uses, HasCauseOf};

use crate::trouble::Trouble;
use node_tree::Memory;
use scan_world::Source;
use std::alloc::Global;
use std::marker::Model;

// How many bytes a source is asked for at a time.
const PIECE: usize = 4096;

/// The bytes that were read and not yet used.
#[derive(Drop)]
pub struct Hand {
    bytes: Vec<u8>,
    at: usize,
}

impl Model for Hand {
    ghost use Rattle.std.specs.Prelude.{List, ℕ, ◌≤◌, drop, vec_len};

    ghost Value = { List ℕ };

    ghost view = { λ h. drop h.at h.bytes.items };

    ghost invariant = { λ h. h.at ≤ vec_len h.bytes };
}

impl Hand {
    /// No bytes.
    pub fn new(alloc: Global) -> Result<Hand, Memory>
        ensures { IfOk result (λ h. h ≡ []) }
    {
        let bytes = Vec::with_capacity(alloc, PIECE)?;
        Ok(Hand { bytes, at: 0 })
    }

    /// The bytes.
    pub fn as_slice(&self) -> &[u8]
        ensures { result.now ≡ self.now }
    {
        &self.bytes[self.at..]
    }

    /// Uses the first bytes.
    pub fn advance(&mut self, count: usize)
        requires { count ≤ length self.old }
        ensures { self.new ≡ drop count self.old }
    {
        self.at += count;
    }

    /// Lets the bytes begin where the memory does.
    fn compact(&mut self)
        ensures { self.new ≡ self.old }
    {
        let left = self.bytes.len() - self.at;
        self.bytes.rotate_left(self.at);
        self.bytes.truncate(left);
        self.at = 0;
    }

    /// Adds bytes at the end.
    fn extend(&mut self, piece: &[u8]) -> Result<(), Memory>
        ensures ok { OnOk result (self.new ≡ self.old ++ piece.now) }
        ensures err { OnErr result (self.new ≡ self.old) }
    {
        self.compact();
        self.bytes.extend_from_slice(piece)?;
        Ok(())
    }
}

/// Reads some more bytes, and tells how many. There are none only at the end of the input.
pub fn fill<S: Source>(hand: &mut Hand, input: &mut S) -> Result<usize, Trouble>
    ensures uses { OnOk result (Uses (S.left input.old) (S.left input.new) hand.old hand.new []) }
    ensures more { IfOk result (λ n. length hand.new ≡ length hand.old + n) }
    ensures end { IfOk result (λ n. n ≡ 0 → IsAtEnd (S.left input.old)) }
    ensures same { IfOk result (λ n. n ≡ 0 → hand.new ≡ hand.old) }
    ensures good { IsErrOf result Trouble.Bad → ⊥ }
    ensures failed { IsErrOf result Trouble.Failed → Keeps (S.left input.old) (S.left input.new) }
    ensures cause { HasCauseOf (S.faults input.old) (S.faults input.new) result }
{
    let mut buf = [0u8; PIECE];
    let Ok(count) = input.read(&mut buf) else {
        return Err(Trouble::Failed);
    };
    hand.extend(&buf[..count])?;
    Ok(count)
}
