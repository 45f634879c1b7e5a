//! A builder for tests.

ghost use Rattle.std.specs.Prelude.{◌≡◌, ◌↔◌, ◌∷◌, [], ◌++◌, Some, Err, IfOk, OnOk, OnErr, IsTrue};
ghost use Rattle.rx_text.specs.Asking.{AsksAll};
ghost use Rattle.rx_text.specs.Refusals.{Lists, IsDue};
ghost use Rattle.rx_text.specs.declared.patterns.BuildFault.TheVariants.{Memory as fault_memory};

use crate::patterns::{BuildFault, Patterns};
use crate::real::RealPatterns;
use crate::refusals::times_in;
use crate::rx::Rx;
use node_tree::{List, Memory, Text};
use std::marker::Model;

/// A builder that refuses each text of a list the first times that it is asked for it, and then does as [`RealPatterns`]. It tells
/// which texts it was asked for.
#[derive(Drop)]
pub struct FakePatterns {
    listed: List<Text>,
    times: u32,
    real: RealPatterns,
    asked: List<Text>,
}

impl Model for FakePatterns {
    ghost use Rattle.rx_text.specs.Refusals.{FakeState};

    ghost Value = { FakeState };

    ghost view = { λ p. record { listed = p.listed; times = p.times; refused = p.real; asked = p.asked } };
}

impl FakePatterns {
    /// A builder that refuses each of these texts so many times. It was asked for nothing yet, and takes no memory here.
    pub fn new(refused: List<Text>, times: u32) -> FakePatterns
        ensures { result ≡ record { listed = refused; times = times; refused = []; asked = [] } }
    {
        let alloc = refused.alloc();
        FakePatterns {
            listed: refused,
            times,
            real: RealPatterns::new(alloc),
            asked: List::new(alloc),
        }
    }

    /// The texts that were asked for so far, in order.
    pub fn asked(&self) -> &List<Text>
        ensures { result.now ≡ self.now.asked }
    {
        &self.asked
    }

    // Adds the text to those that were asked for.
    fn note(&mut self, text: &str) -> Result<(), Memory>
        ensures noted { OnOk result (self.new ≡ record self.old { asked = self.old.asked ++ text.now ∷ [] }) }
        ensures same { OnErr result (self.new ≡ self.old) }
    {
        let text = Text::from_str(self.asked.alloc(), text)?;
        self.asked.push(text)
    }

    // Whether the text is still to be refused.
    fn is_due(&self, text: &str) -> bool
        ensures { IsTrue result ↔ IsDue self.now text.now }
    {
        0 < times_in(self.listed.as_slice(), text)
            && times_in(self.real.refused().as_slice(), text) < self.times as usize
    }
}

impl Patterns for FakePatterns {
    ghost refusals = { λ p. p.refused };

    ghost asked = { λ p. Some p.asked };

    fn build(&mut self, text: &str) -> Result<Rx, BuildFault>
        ensures built { IfOk result (λ rx. rx ≡ text.now) }
        ensures listed { Lists result text.now self.old.refused self.new.refused }
        ensures refuses { IsDue self.old text.now → IfOk result (λ _. ⊥) }
        ensures asked { (result ≡ Err fault_memory → ⊥) → AsksAll (Some self.old.asked) (Some self.new.asked) (text.now ∷ []) }
        ensures same { self.new ≡ record self.old { refused = self.new.refused; asked = self.new.asked } }
    {
        self.note(text)?;
        if self.is_due(text) {
            Err(self.real.refuse(text))
        } else {
            self.real.build(text)
        }
    }

    fn refused(&self) -> &List<Text> {
        self.real.refused()
    }
}
