//! Why a scan has no report.

ghost use Rattle.std.specs.Prelude.{◌≡◌};
ghost use Rattle.scan_session.specs.declared.fault.ScanFault.TheVariants.{Memory as no_memory};

use node_tree::Memory;
use std::alloc::{AllocError, AllocFailed};

/// Why a scan has no report.
#[derive(Clone, Copy, Debug, PartialEq, Eq)]
pub enum ScanFault {
    /// Memory ran out.
    Memory,
    /// There are more findings than this many, which are the most that were asked for.
    TooMany(u64),
}

impl From<Memory> for ScanFault {
    ghost from_gives = { λ _ e. e ≡ no_memory };

    fn from(_: Memory) -> ScanFault {
        ScanFault::Memory
    }
}

impl From<AllocError> for ScanFault {
    ghost from_gives = { λ _ e. e ≡ no_memory };

    fn from(_: AllocError) -> ScanFault {
        ScanFault::Memory
    }
}

impl<T: Drop> From<AllocFailed<T>> for ScanFault {
    ghost from_gives = { λ _ e. e ≡ no_memory };

    fn from(_: AllocFailed<T>) -> ScanFault {
        ScanFault::Memory
    }
}
