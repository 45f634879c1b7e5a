//! Why files were not fixed.

ghost use Rattle.std.specs.Prelude.{◌≡◌};
ghost use Rattle.workspace.specs.declared.fault.FixFault.TheVariants.{Memory as no_memory};

use file_map::LimitKind;
use node_tree::Memory;
use std::alloc::{AllocError, AllocFailed};

/// Why files were not fixed.
#[derive(Clone, Copy, Debug, PartialEq, Eq)]
pub enum FixFault {
    /// Memory ran out.
    Memory,
    /// There are more findings than this many, which are the most that a report may have.
    TooMany(u64),
    /// The files would pass a limit after the fixes, with the number that they would come to.
    OverLimit(LimitKind, u64),
}

impl From<Memory> for FixFault {
    ghost from_gives = { λ _ fault. fault ≡ no_memory };

    fn from(_memory: Memory) -> FixFault {
        FixFault::Memory
    }
}

impl From<AllocError> for FixFault {
    ghost from_gives = { λ _ fault. fault ≡ no_memory };

    fn from(_failed: AllocError) -> FixFault {
        FixFault::Memory
    }
}

impl<T: Drop> From<AllocFailed<T>> for FixFault {
    ghost from_gives = { λ _ fault. fault ≡ no_memory };

    fn from(_failed: AllocFailed<T>) -> FixFault {
        FixFault::Memory
    }
}
