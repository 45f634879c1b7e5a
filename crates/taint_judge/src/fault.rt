//! Why data is not followed.

ghost use Rattle.std.specs.Prelude.{◌≡◌};
ghost use Rattle.taint_judge.specs.declared.fault.FollowFault.TheVariants.{Memory as no_memory};

use crate::list::RuleList;
use node_tree::{List, Memory};
use std::alloc::{AllocError, AllocFailed};

/// Why data is not followed.
#[derive(Drop)]
pub enum FollowFault {
    Memory,
    /// A set of that list has more than 10,000 members. The first number is that of the formula in the list, from 0; the others
    /// are those of the children that lead from there to the set.
    Crowded(RuleList, List<u64>),
    /// The function, or the top level, that begins there is too large.
    TooLarge(u32),
}

impl From<Memory> for FollowFault {
    ghost from_gives = { λ _ e. e ≡ no_memory };

    fn from(_: Memory) -> FollowFault {
        FollowFault::Memory
    }
}

impl From<AllocError> for FollowFault {
    ghost from_gives = { λ _ e. e ≡ no_memory };

    fn from(_: AllocError) -> FollowFault {
        FollowFault::Memory
    }
}

impl<T: Drop> From<AllocFailed<T>> for FollowFault {
    ghost from_gives = { λ _ e. e ≡ no_memory };

    fn from(_: AllocFailed<T>) -> FollowFault {
        FollowFault::Memory
    }
}
