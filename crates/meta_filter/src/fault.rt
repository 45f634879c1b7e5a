//! Why a text is no comparison.

ghost use Rattle.std.specs.Prelude.{◌≡◌};
ghost use Rattle.meta_filter.specs.declared.fault.CompareFault.TheVariants.{Memory as out_of_memory};

use node_tree::Memory;
use std::alloc::{AllocError, AllocFailed};

/// Why a text is no comparison.
#[derive(Clone, Copy, Debug, PartialEq, Eq)]
pub enum CompareFault {
    /// Memory ran out.
    Memory,
    /// No comparison within the limits of depth and numbers has this text.
    NoComparison,
}

impl From<Memory> for CompareFault {
    ghost from_gives = { λ _ e. e ≡ out_of_memory };

    fn from(_e: Memory) -> CompareFault {
        CompareFault::Memory
    }
}

impl From<AllocError> for CompareFault {
    ghost from_gives = { λ _ e. e ≡ out_of_memory };

    fn from(_e: AllocError) -> CompareFault {
        CompareFault::Memory
    }
}

impl<T: Drop> From<AllocFailed<T>> for CompareFault {
    ghost from_gives = { λ _ e. e ≡ out_of_memory };

    fn from(_e: AllocFailed<T>) -> CompareFault {
        CompareFault::Memory
    }
}
