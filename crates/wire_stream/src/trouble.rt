//! Why a command was not read.

ghost use Rattle.std.specs.Prelude.{◌≡◌};
ghost use Rattle.wire_stream.specs.declared.trouble.Trouble.TheVariants.{Memory as trouble_memory};

use node_tree::Memory;

/// Why a command was not read.
#[derive(Clone, Copy, Debug, PartialEq, Eq)]
pub enum Trouble {
    /// Memory ran out.
    Memory,
    /// A read failed.
    Failed,
    /// The bytes begin no command.
    Bad,
}

impl From<Memory> for Trouble {
    ghost from_gives = { λ _ e. e ≡ trouble_memory };

    fn from(_e: Memory) -> Trouble {
        Trouble::Memory
    }
}
