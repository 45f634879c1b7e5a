//! Why a text writes no pattern.

ghost use Rattle.std.specs.Prelude.{◌≡◌};
ghost use Rattle.code_reader.specs.declared.fault.PatternFault.TheVariants.{Memory as out_of_memory};
ghost use Rattle.code_reader.specs.Patterns.{fault_of};

use node_tree::{Memory, ReadFault};

/// Why a text writes no pattern. Of several causes the first in this order is given.
#[derive(Clone, Copy, Debug, PartialEq, Eq)]
pub enum PatternFault {
    /// Memory ran out.
    Memory,
    /// The text has no tree as a pattern of the language, it has more than 1,000,000 bytes, or patterns of the language are not
    /// read.
    NoPattern,
    /// Each top item of the pattern is `...` or `$...X`, or there is none.
    OnlyDots,
    /// A `$...X` stands where no list of items is.
    DotsPlace,
}

impl From<Memory> for PatternFault {
    ghost from_gives = { λ _ e. e ≡ out_of_memory };

    fn from(_e: Memory) -> PatternFault {
        PatternFault::Memory
    }
}

impl From<ReadFault> for PatternFault {
    ghost from_gives = { λ e f. f ≡ fault_of e };

    fn from(e: ReadFault) -> PatternFault {
        match e {
            ReadFault::Memory => PatternFault::Memory,
            ReadFault::NoTree => PatternFault::NoPattern,
        }
    }
}
