//! Texts that are found by what they hold.

ghost use Rattle.std.specs.Prelude.{◌≡◌, [], ◌∷◌, ◌++◌, length, None, IfOk, OnOk};
ghost use Rattle.rule_keys.specs.TextPlaces as spec;

use node_tree::{List, Memory, Text};
use std::alloc::Global;
use std::collections::BTreeMap;
use std::marker::Model;

/// Texts in the order in which they came, with their places. Contracts see the texts.
#[derive(Drop)]
pub struct Texts<'v> {
    all: List<Text>,
    places: BTreeMap<&'v str, u32>,
}

impl<'v> Model for Texts<'v> {
    ghost use Rattle.std.specs.Prelude.{ℕ, List as list};
    ghost use Rattle.rule_keys.specs.TextPlaces.{TellsPlaces};

    ghost Value = { list (list ℕ) };

    ghost view = { λ t. t.all };

    ghost invariant = { λ t. TellsPlaces t.places t.all };
}

impl<'v> Texts<'v> {
    /// No texts, which takes no memory.
    pub fn new(alloc: Global) -> Texts<'v>
        ensures { result ≡ [] }
    {
        Texts {
            all: List::new(alloc),
            places: BTreeMap::new(alloc),
        }
    }

    /// The texts, in the order in which they came.
    pub fn into_list(self) -> List<Text>
        ensures { result ≡ self.entry }
    {
        self.all
    }

    /// Adds a text that isn't there, which comes last.
    fn add(&mut self, alloc: Global, text: &'v str) -> Result<u32, Memory>
        requires { spec.place_if_there text.now self.old ≡ None }
        ensures number { IfOk result (λ n. n ≡ length self.old) }
        ensures ok { OnOk result (self.new ≡ self.old ++ text.now ∷ []) }
    {
        let Ok(number) = u32::try_from(self.all.len()) else {
            return Err(Memory);
        };
        self.all.push(Text::from_str(alloc, text)?)?;
        match self.places.insert(text, number) {
            Ok(_) => Ok(number),
            Err(_) => {
                self.all.pop();
                Err(Memory)
            }
        }
    }

    /// The number of a text among them, from 0. A new one comes last.
    pub fn number_of(&mut self, alloc: Global, text: &'v str) -> Result<u32, Memory>
        ensures number { IfOk result (λ n. n ≡ spec.place_of text.now self.old) }
        ensures ok { OnOk result (self.new ≡ spec.with_text text.now self.old) }
    {
        match self.places.get(text).copied() {
            Some(number) => Ok(number),
            None => self.add(alloc, text),
        }
    }
}
