//! The builder over `regex`.

ghost use Rattle.std.specs.Prelude.{◌≡◌, [], None};
ghost use Rattle.rx_text.specs.Refusals.{ListsFault};

use crate::patterns::{BuildFault, Patterns};
use crate::refusals::refuse;
use crate::rx::Rx;
use node_tree::{List, Text};
use std::alloc::Global;
use std::marker::Model;

/// A builder that refuses what `regex` refuses for another cause than want of memory. Contracts see it as the list of the
/// texts that it refused, and it doesn't tell those that it was asked for.
#[derive(Drop)]
pub struct RealPatterns {
    refused: List<Text>,
}

impl Model for RealPatterns {
    ghost use Rattle.std.specs.Prelude.{List as list, ℕ};

    ghost Value = { list (list ℕ) };

    ghost view = { λ p. p.refused };
}

impl RealPatterns {
    /// A builder that refused nothing yet, which takes no memory.
    pub fn new(alloc: Global) -> RealPatterns
        ensures { result ≡ [] }
    {
        RealPatterns {
            refused: List::new(alloc),
        }
    }

    // Refuses the text.
    pub(crate) fn refuse(&mut self, text: &str) -> BuildFault
        ensures { ListsFault result text.now self.old self.new }
    {
        refuse(&mut self.refused, text)
    }
}

impl Patterns for RealPatterns {
    ghost refusals = { λ p. p };

    ghost asked = { λ p. None };

    fn build(&mut self, text: &str) -> Result<Rx, BuildFault> {
        match Rx::compile(self.refused.alloc(), text) {
            Err(BuildFault::Refused) => Err(self.refuse(text)),
            answer => answer,
        }
    }

    fn refused(&self) -> &List<Text> {
        &self.refused
    }
}
