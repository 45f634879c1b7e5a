//! Why a session ends before its stream does.

ghost use Rattle.std.specs.Prelude.{◌≡◌};
ghost use Rattle.stream_run.specs.declared.fault.PlayFault.TheVariants.{Memory as play_memory};
ghost use Rattle.stream_run.specs.declared.fault.PrintFault.TheVariants.{Memory as print_memory};
ghost use Rattle.stream_run.specs.Faults.{of_put, of_sync, status_of_play, status_of_print};

use file_map::{LimitKind, PutFault, SyncFault};
use node_tree::Memory;
use run_status::Status;
use std::alloc::AllocError;

/// Why a command was not done.
#[derive(Clone, Copy, Debug, PartialEq, Eq)]
pub enum PlayFault {
    /// Memory ran out.
    Memory,
    /// A call of the tree of files failed.
    Failed,
    /// Something would pass its limit, with the number that it would come to.
    OverLimit(LimitKind, u64),
}

impl PlayFault {
    /// How the run ends then.
    pub fn status(self) -> Status
        ensures { result ≡ status_of_play self }
    {
        match self {
            PlayFault::Memory => Status::Memory,
            PlayFault::Failed => Status::TreeFault,
            PlayFault::OverLimit(kind, number) => Status::OverLimit(kind, number),
        }
    }
}

impl From<PutFault> for PlayFault {
    ghost from_gives = { λ put fault. fault ≡ of_put put };

    fn from(fault: PutFault) -> PlayFault {
        match fault {
            PutFault::Memory => PlayFault::Memory,
            PutFault::OverLimit(kind, number) => PlayFault::OverLimit(kind, number),
        }
    }
}

impl From<SyncFault> for PlayFault {
    ghost from_gives = { λ sync fault. fault ≡ of_sync sync };

    fn from(fault: SyncFault) -> PlayFault {
        match fault {
            SyncFault::Memory => PlayFault::Memory,
            SyncFault::Failed => PlayFault::Failed,
            SyncFault::OverLimit(kind, number) => PlayFault::OverLimit(kind, number),
        }
    }
}

/// Why a line was not printed.
#[derive(Clone, Copy, Debug, PartialEq, Eq)]
pub enum PrintFault {
    /// Memory ran out.
    Memory,
    /// The write failed.
    Failed,
}

impl PrintFault {
    /// How the run ends then.
    pub fn status(self) -> Status
        ensures { result ≡ status_of_print self }
    {
        match self {
            PrintFault::Memory => Status::Memory,
            PrintFault::Failed => Status::OutputFault,
        }
    }
}

impl From<Memory> for PrintFault {
    ghost from_gives = { λ _ fault. fault ≡ print_memory };

    fn from(_memory: Memory) -> PrintFault {
        PrintFault::Memory
    }
}

impl From<AllocError> for PrintFault {
    ghost from_gives = { λ _ fault. fault ≡ print_memory };

    fn from(_failed: AllocError) -> PrintFault {
        PrintFault::Memory
    }
}
