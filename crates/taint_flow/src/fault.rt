//! Why no answer is given.

ghost use Rattle.std.specs.Prelude.{◌≡◌};
ghost use Rattle.taint_flow.specs.declared.fault.TaintFault.TheVariants.{Memory as out_of_memory};

use node_tree::Memory;
use std::alloc::{AllocError, AllocFailed};

/// There is no memory, or a unit is too large, which begins there.
#[derive(Clone, Copy, Debug, PartialEq, Eq)]
pub enum TaintFault {
    Memory,
    TooLarge(u32),
}

impl From<Memory> for TaintFault {
    ghost from_gives = { λ _ e. e ≡ out_of_memory };

    fn from(_fault: Memory) -> TaintFault {
        TaintFault::Memory
    }
}

impl From<AllocError> for TaintFault {
    ghost from_gives = { λ _ e. e ≡ out_of_memory };

    fn from(_fault: AllocError) -> TaintFault {
        TaintFault::Memory
    }
}

impl<T: Drop> From<AllocFailed<T>> for TaintFault {
    ghost from_gives = { λ _ e. e ≡ out_of_memory };

    fn from(_fault: AllocFailed<T>) -> TaintFault {
        TaintFault::Memory
    }
}
