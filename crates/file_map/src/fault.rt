//! Why files were not put.

ghost use Rattle.std.specs.Prelude.{◌≡◌};
ghost use Rattle.file_map.specs.declared.fault.PutFault.TheVariants.{Memory as put_memory};
ghost use Rattle.file_map.specs.declared.fault.SyncFault.TheVariants.{Memory as sync_memory};
ghost use Rattle.file_map.specs.Faults.{sync_fault};

use crate::limit::LimitKind;
use node_tree::Memory;
use std::alloc::{AllocError, AllocFailed};

/// Why a file was not put.
#[derive(Clone, Copy, Debug, PartialEq, Eq)]
pub enum PutFault {
    /// Memory ran out.
    Memory,
    /// Something would pass its limit, with the number that it would come to.
    OverLimit(LimitKind, u64),
}

impl From<Memory> for PutFault {
    ghost from_gives = { λ _ fault. fault ≡ put_memory };

    fn from(_memory: Memory) -> PutFault {
        PutFault::Memory
    }
}

impl From<AllocError> for PutFault {
    ghost from_gives = { λ _ fault. fault ≡ put_memory };

    fn from(_failed: AllocError) -> PutFault {
        PutFault::Memory
    }
}

impl<T: Drop> From<AllocFailed<T>> for PutFault {
    ghost from_gives = { λ _ fault. fault ≡ put_memory };

    fn from(_failed: AllocFailed<T>) -> PutFault {
        PutFault::Memory
    }
}

/// Why the files of a folder were not taken over.
#[derive(Clone, Copy, Debug, PartialEq, Eq)]
pub enum SyncFault {
    /// Memory ran out.
    Memory,
    /// A call of the tree of files failed.
    Failed,
    /// Something would pass its limit, with the number that it would come to.
    OverLimit(LimitKind, u64),
}

impl From<AllocError> for SyncFault {
    ghost from_gives = { λ _ fault. fault ≡ sync_memory };

    fn from(_failed: AllocError) -> SyncFault {
        SyncFault::Memory
    }
}

impl<T: Drop> From<AllocFailed<T>> for SyncFault {
    ghost from_gives = { λ _ fault. fault ≡ sync_memory };

    fn from(_failed: AllocFailed<T>) -> SyncFault {
        SyncFault::Memory
    }
}

impl From<PutFault> for SyncFault {
    ghost from_gives = { λ put fault. fault ≡ sync_fault put };

    fn from(fault: PutFault) -> SyncFault {
        match fault {
            PutFault::Memory => SyncFault::Memory,
            PutFault::OverLimit(kind, number) => SyncFault::OverLimit(kind, number),
        }
    }
}
