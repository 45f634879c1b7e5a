//! What builds regular expressions.

ghost use Rattle.std.specs.Prelude.{◌≡◌, ◌∷◌, [], List as list, ℕ, Err, IfOk};
ghost use Rattle.std.specs.declared.option.Option.{Option as option};
ghost use Rattle.rx_text.specs.Asking.{AsksAll};
ghost use Rattle.rx_text.specs.Refusals.{Lists};
ghost use Rattle.rx_text.specs.declared.patterns.BuildFault.TheVariants.{Memory as fault_memory};

use crate::rx::Rx;
use node_tree::{List, Memory, Text};

/// Why a text was not built.
#[derive(Clone, Copy, Debug, PartialEq, Eq)]
pub enum BuildFault {
    /// Memory ran out.
    Memory,
    /// The builder refuses the text.
    Refused,
}

impl From<Memory> for BuildFault {
    ghost from_gives = { λ _ e. e ≡ fault_memory };

    fn from(_e: Memory) -> BuildFault {
        BuildFault::Memory
    }
}

/// A builder of regular expressions, which keeps a list of the texts that it refused.
pub trait Patterns {
    // The texts that were refused so far.
    ghost refusals: { Self → list (list ℕ) };

    // The texts that were asked for so far, in order, if the builder tells them.
    ghost asked: { Self → option (list (list ℕ)) };

    /// The regular expression of a text. Where the answer is Refused the text was put at the end of the refused ones, and
    /// after any other answer these are as before.
    fn build(&mut self, text: &str) -> Result<Rx, BuildFault>
        ensures built { IfOk result (λ rx. rx ≡ text.now) }
        ensures listed { Lists result text.now (refusals self.old) (refusals self.new) }
        ensures asked { (result ≡ Err fault_memory → ⊥) → AsksAll (asked self.old) (asked self.new) (text.now ∷ []) };

    /// The texts that were refused so far, in order.
    fn refused(&self) -> &List<Text>
        ensures { result.now ≡ refusals self.now };
}
