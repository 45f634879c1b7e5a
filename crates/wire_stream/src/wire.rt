//! The commands of a stream.

use node_tree::{Bytes, Text};

/// A command.
#[derive(Drop)]
pub enum Wire {
    /// Puts a file of this path, with the first 1,000,001 bytes of the command's body.
    Put(Text, Bytes),
    /// Removes the file of this path.
    Del(Text),
    /// Puts a rule file of this name, with the first 262,145 bytes of the command's body.
    Rule(Text, Bytes),
    /// Removes the rule file of this name.
    Unrule(Text),
    /// Takes the files under this prefix from the folder.
    Sync(Text),
    /// Scans.
    Scan,
    /// Applies the fixes.
    Fix,
    /// Ends the session.
    End,
}

/// Why there is no next command.
#[derive(Clone, Copy, Debug, PartialEq, Eq)]
pub enum WireFault {
    /// Memory ran out.
    Memory,
    /// A read failed.
    Failed,
    /// The stream's bytes from this place, counted from 0, begin no command.
    Bad(u64),
    /// The next command ends past the stream's first 268,435,456 bytes. The number is one more.
    Stream(u64),
}
