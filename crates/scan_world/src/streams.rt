//! Sources and sinks.

ghost use Rattle.std.specs.Prelude.{List, ℕ, OnOk, OnErr};
ghost use Rattle.std.specs.declared.option.Option.{Option as option};
ghost use Rattle.std.specs.Io.{ReadsAtMost};
ghost use Rattle.std.specs.Io.KnownBytes.{ReadConsumes, Appends};
ghost use Rattle.scan_world.specs.Streams.{AppendsFront};
ghost use Rattle.scan_world.specs.Faults.{HasCause};

/// A read or a write failed.
#[derive(Clone, Copy, Debug, PartialEq, Eq)]
pub struct Failed;

/// Bytes to read.
pub trait Source {
    // The bytes that are left, where the source tells them.
    ghost left: { Self → option (List ℕ) };

    // How many faults there were. The count never falls, and stays at 2^64 - 1 once it is there.
    ghost faults: { Self → ℕ };

    /// Reads bytes into the front of the buffer, and tells how many. It gives 0 for a buffer that isn't empty only at the
    /// end of the input. A failed read takes nothing.
    fn read(&mut self, buf: &mut [u8]) -> Result<usize, Failed>
        ensures bound { ReadsAtMost result buf.new }
        ensures bytes { ReadConsumes (left self.old) (left self.new) result buf.new }
        ensures cause { HasCause (faults self.old) (faults self.new) result };
}

/// Somewhere to write.
pub trait Sink {
    // The bytes that were written, where the sink tells them.
    ghost written: { Self → option (List ℕ) };

    // How many faults there were. The count never falls, and stays at 2^64 - 1 once it is there.
    ghost faults: { Self → ℕ };

    /// Writes the whole piece. A failed write has written some front of it.
    fn write(&mut self, piece: &[u8]) -> Result<(), Failed>
        ensures ok { OnOk result (Appends (written self.old) (written self.new) piece.now) }
        ensures err { OnErr result (AppendsFront (written self.old) (written self.new) piece.now) }
        ensures cause { HasCause (faults self.old) (faults self.new) result };
}
