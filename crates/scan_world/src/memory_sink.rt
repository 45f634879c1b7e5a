//! A sink in memory.

ghost use Rattle.std.specs.Prelude.{◌≡◌, ◌⊎◌, ◌↔◌, ◌≤◌, ◌+◌, ◌++◌, [], length, take, vec_len, vec_capacity, Some, IsErr, IfOk, OnOk, OnErr};
ghost use Rattle.std.specs.Io.KnownBytes.{Appends};
ghost use Rattle.scan_world.specs.Streams.{AppendsFront};
ghost use Rattle.scan_world.specs.Faults.{HasCause};
ghost use Rattle.scan_world.specs.Memory.{PassesRoom, IsFailingWrite, half_of};

use crate::calls::is_listed;
use crate::streams::{Failed, Sink};
use node_tree::{List, Memory};
use std::alloc::Global;
use std::marker::Model;

/// What was written, up to a room that is reserved when it is made. Calls of `write` are counted from 1. A piece that would
/// pass the room fails, and nothing of it is taken; of a piece whose call is listed half is taken, rounded down.
#[derive(Drop)]
pub struct MemorySink {
    bytes: Vec<u8>,
    room: u64,
    failing: List<u32>,
    calls: u64,
    faults: u64,
}

impl Model for MemorySink {
    ghost use Rattle.std.specs.Prelude.{◌≤◌, vec_len, vec_capacity};
    ghost use Rattle.scan_world.specs.Memory.{SinkState};

    ghost Value = { SinkState };

    ghost view = { λ s. record { written = s.bytes.items; room = s.room; failing = s.failing; calls = s.calls; faults = s.faults } };

    ghost invariant = { λ s. (vec_len s.bytes ≤ s.room) × (s.room ≤ vec_capacity s.bytes) };
}

impl MemorySink {
    /// A sink that takes at most `room` bytes. It takes all its memory here.
    pub fn new(alloc: Global, room: u64, failing: List<u32>) -> Result<MemorySink, Memory>
        ensures { IfOk result (λ s. s ≡ record { written = []; room = room; failing = failing; calls = 0; faults = 0 }) }
    {
        let bytes = Vec::with_capacity(alloc, room as usize)?;
        Ok(MemorySink {
            bytes,
            room,
            failing,
            calls: 0,
            faults: 0,
        })
    }

    /// The bytes that were written.
    pub fn as_slice(&self) -> &[u8]
        ensures { result.now ≡ self.now.written }
    {
        self.bytes.as_slice()
    }
}

// Adds a front of a piece, for which there is room.
fn take_front(bytes: &mut Vec<u8>, piece: &[u8], count: usize)
    requires within { count ≤ length piece.now }
    requires room { vec_len bytes.old + count ≤ vec_capacity bytes.old }
    ensures items { bytes.new.items ≡ bytes.old.items ++ take count piece.now }
    ensures capacity { vec_capacity bytes.old ≤ vec_capacity bytes.new }
{
    let (front, _) = piece.split_at(count);
    let _ = bytes.extend_from_slice(front);
}

impl Sink for MemorySink {
    ghost written = { λ s. Some s.written };

    ghost faults = { λ s. s.faults };

    fn write(&mut self, piece: &[u8]) -> Result<(), Failed>
        ensures ok { OnOk result (Appends (Some self.old.written) (Some self.new.written) piece.now) }
        ensures err { OnErr result (AppendsFront (Some self.old.written) (Some self.new.written) piece.now) }
        ensures cause { HasCause self.old.faults self.new.faults result }
        ensures fails { IsErr result ↔ (PassesRoom self.old piece.now ⊎ IsFailingWrite self.old) }
        ensures refused { PassesRoom self.old piece.now → self.new.written ≡ self.old.written }
        ensures half { IsErr result → ¬ PassesRoom self.old piece.now → self.new.written ≡ self.old.written ++ half_of piece.now }
    {
        self.calls = self.calls.saturating_add(1);
        let left = self.room as usize - self.bytes.len();
        if left < piece.len() {
            self.faults = self.faults.saturating_add(1);
            return Err(Failed);
        }
        if is_listed(&self.failing, self.calls) {
            self.faults = self.faults.saturating_add(1);
            take_front(&mut self.bytes, piece, piece.len() / 2);
            return Err(Failed);
        }
        take_front(&mut self.bytes, piece, piece.len());
        Ok(())
    }
}
