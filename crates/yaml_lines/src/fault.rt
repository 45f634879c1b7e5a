//! Why a text has no lines or no value.

ghost use Rattle.std.specs.Prelude.{◌≡◌};
ghost use Rattle.yaml_lines.specs.declared.fault.YFault.TheVariants.{Memory as yfault_memory};

use node_tree::Memory;
use std::alloc::{AllocError, AllocFailed};

/// What the profile of YAML leaves out.
#[derive(Clone, Copy, Debug, PartialEq, Eq)]
pub enum Feature {
    /// A tab in the indentation.
    Tab,
    /// A line that begins with `%`.
    Directive,
    /// `---` or `...` at a line's start, but for the first `---`.
    Document,
    /// The mark `?` of a key that is no scalar on one line.
    ComplexKey,
    /// `&`.
    Anchor,
    /// `*`.
    Alias,
    /// `!`.
    Tag,
    /// `{`.
    FlowMap,
    /// A digit in the header of a block scalar.
    IndentDigit,
}

/// Why a text has no value.
#[derive(Clone, Copy, Debug, PartialEq, Eq)]
pub enum YFault {
    /// Memory ran out.
    Memory,
    /// The bytes are not UTF-8.
    NotUtf8,
    /// The first line that has a feature outside the profile, counted from 1.
    OutsideProfile(Feature, u32),
    /// The lines spell no value.
    NoValue,
}

impl From<Memory> for YFault {
    ghost from_gives = { λ _ e. e ≡ yfault_memory };

    fn from(_e: Memory) -> YFault {
        YFault::Memory
    }
}

impl From<AllocError> for YFault {
    ghost from_gives = { λ _ e. e ≡ yfault_memory };

    fn from(_e: AllocError) -> YFault {
        YFault::Memory
    }
}

impl<T: Drop> From<AllocFailed<T>> for YFault {
    ghost from_gives = { λ _ e. e ≡ yfault_memory };

    fn from(_e: AllocFailed<T>) -> YFault {
        YFault::Memory
    }
}
