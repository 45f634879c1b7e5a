//! Why bytes and values don't fit each other.

ghost use Rattle.std.specs.Prelude.{◌≡◌};
ghost use Rattle.store_form.specs.declared.fault.FormFault.TheVariants.{Memory as no_memory};

use node_tree::Memory;
use std::alloc::{AllocError, AllocFailed};

/// Why a value is not read or not written.
#[derive(Clone, Copy, Debug, PartialEq, Eq)]
pub enum FormFault {
    /// Memory ran out.
    Memory,
    /// The bytes are of no such value, or the value has no bytes.
    NoForm,
}

impl From<Memory> for FormFault {
    ghost from_gives = { λ _ e. e ≡ no_memory };

    fn from(_e: Memory) -> FormFault {
        FormFault::Memory
    }
}

impl From<AllocError> for FormFault {
    ghost from_gives = { λ _ e. e ≡ no_memory };

    fn from(_e: AllocError) -> FormFault {
        FormFault::Memory
    }
}

impl<T: Drop> From<AllocFailed<T>> for FormFault {
    ghost from_gives = { λ _ e. e ≡ no_memory };

    fn from(_e: AllocFailed<T>) -> FormFault {
        FormFault::Memory
    }
}
