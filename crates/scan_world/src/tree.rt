//! Trees of files.

ghost use Rattle.std.specs.Prelude.{◌≡◌, List as list, ℕ, ◌+◌, ◌≤◌, length, IfOk, OnOk, Err};
ghost use Rattle.std.specs.declared.option.Option.{Option as option};
ghost use Rattle.scan_world.specs.Files.{Files};
ghost use Rattle.scan_world.specs.Trees.{KeepsFiles, KeepsOthers, PutsFile, LacksFile, HasFront, IsListing, HasTreeCause};
ghost use Rattle.scan_world.specs.declared.tree.TreeFault.TheVariants.{Memory as fault_memory, Absent as fault_absent};

use node_tree::{Bytes, List, Memory, Text};

/// Why a tree did not answer.
#[derive(Clone, Copy, Debug, PartialEq, Eq)]
pub enum TreeFault {
    /// A call failed.
    Failed,
    /// Memory ran out.
    Memory,
    /// There is no file of that path.
    Absent,
}

impl From<Memory> for TreeFault {
    ghost from_gives = { λ _ e. e ≡ fault_memory };

    fn from(_e: Memory) -> TreeFault {
        TreeFault::Memory
    }
}

/// Files by path.
pub trait Tree {
    // The files, where the tree tells them.
    ghost files: { Self → option Files };

    // How many faults there were. The count never falls, and stays at 2^64 - 1 once it is there.
    ghost faults: { Self → ℕ };

    // The same of files that were absent when they were to be read.
    ghost absences: { Self → ℕ };

    /// The paths that are the prefix, or begin with it and `/`, in order of their bytes, each once. The prefix `.` stands for
    /// all. It never answers Absent.
    fn list(&mut self, prefix: &str) -> Result<List<Text>, TreeFault>
        ensures kept { KeepsFiles (files self.old) (files self.new) }
        ensures listed { IfOk result (IsListing prefix.now (files self.old)) }
        ensures present { result ≡ Err fault_absent → ⊥ }
        ensures cause { HasTreeCause (faults self.old) (faults self.new) (absences self.old) (absences self.new) result };

    /// The first `most + 1` bytes of a file, or all of a shorter one.
    fn read(&mut self, path: &str, most: u64) -> Result<Bytes, TreeFault>
        ensures kept { KeepsFiles (files self.old) (files self.new) }
        ensures bound { IfOk result (λ bytes. length bytes ≤ most + 1) }
        ensures front { IfOk result (HasFront (files self.old) path.now (most + 1)) }
        ensures absent { result ≡ Err fault_absent → LacksFile (files self.old) path.now }
        ensures cause { HasTreeCause (faults self.old) (faults self.new) (absences self.old) (absences self.new) result };

    /// Makes these bytes the file of that path. It never answers Absent. After a refusal nothing is said of that file.
    fn write(&mut self, path: &str, bytes: &[u8]) -> Result<(), TreeFault>
        ensures put { OnOk result (PutsFile (files self.old) (files self.new) path.now bytes.now) }
        ensures others { KeepsOthers (files self.old) (files self.new) path.now }
        ensures present { result ≡ Err fault_absent → ⊥ }
        ensures cause { HasTreeCause (faults self.old) (faults self.new) (absences self.old) (absences self.new) result };
}
