//! Words that are found by what they are.

ghost use Rattle.std.specs.Prelude.{◌≡◌, ◌<◌, ◌^◌, [], ◌∷◌, ◌++◌, length, map, None, OnOk, IfOk};
ghost use Rattle.unit_names.specs.Seen.{seen_word, all_words};
ghost use Rattle.unit_names.specs.Words as spec;

use crate::word::Word;
use node_tree::{List, Memory};
use std::alloc::Global;
use std::collections::BTreeMap;
use std::marker::Model;

/// Words in the order in which they came, each once, with their places. Contracts see the words.
#[derive(Drop)]
pub struct Words<'t> {
    all: List<Word<'t>>,
    places: BTreeMap<(u8, &'t str), u32>,
}

impl<'t> Model for Words<'t> {
    ghost use Rattle.std.specs.Prelude.{List as list, length, map, ◌<◌, ◌^◌};
    ghost use Rattle.std.specs.Coded.{coded_list};
    ghost use Rattle.unit_names.specs.Words.{Word as word};
    ghost use Rattle.unit_names.specs.Seen.{seen_word, word_code};
    ghost use Rattle.unit_names.specs.Places.{TellsPlaces};

    ghost Value = { list word };

    ghost coded = { coded_list word_code };

    ghost view = { λ t. map seen_word t.all };

    ghost invariant = { λ t. (length t.all < 2 ^ 32) × TellsPlaces t.places (map seen_word t.all) };
}

impl<'t> Words<'t> {
    /// No words, which takes no memory.
    pub fn new(alloc: Global) -> Words<'t>
        ensures { result ≡ [] }
    {
        Words {
            all: List::new(alloc),
            places: BTreeMap::new(alloc),
        }
    }

    /// How many they are.
    pub fn len(&self) -> u32
        ensures { result ≡ length self.now }
    {
        self.all.len() as u32
    }

    /// The words, in the order in which they came.
    pub fn as_slice(&self) -> &[Word<'t>]
        ensures { map seen_word result.now ≡ self.now }
    {
        self.all.as_slice()
    }

    /// The place of a word, from 0, if it is there.
    pub fn place(&self, word: Word<'t>) -> Option<u32>
        ensures place { result ≡ spec.place_of self.now (seen_word word.entry) }
        ensures small { length self.now < 2 ^ 32 }
    {
        self.places.get(&(word.kind.place(), word.text)).copied()
    }

    /// Whether a word is there.
    pub fn contains(&self, word: Word<'t>) -> bool
        ensures { result ≡ spec.is_one_of self.now (seen_word word.entry) }
    {
        self.place(word).is_some()
    }

    // Adds a word that isn't there, which comes last.
    fn push(&mut self, word: Word<'t>) -> Result<(), Memory>
        requires { spec.place_of self.old (seen_word word) ≡ None }
        ensures { OnOk result (self.new ≡ self.old ++ seen_word word.entry ∷ []) }
    {
        if self.all.len() >= u32::MAX as usize {
            return Err(Memory);
        }
        let place = self.all.len() as u32;
        self.all.push(word)?;
        match self.places.insert((word.kind.place(), word.text), place) {
            Ok(_) => Ok(()),
            Err(_) => {
                self.all.pop();
                Err(Memory)
            }
        }
    }

    /// Adds a word, unless it is there.
    pub fn add(&mut self, word: Word<'t>) -> Result<(), Memory>
        ensures { OnOk result (self.new ≡ spec.with_word self.old (seen_word word.entry)) }
    {
        if self.contains(word) {
            return Ok(());
        }
        self.push(word)
    }

    /// These words, each once.
    pub fn of(alloc: Global, words: &[Word<'t>]) -> Result<Words<'t>, Memory>
        ensures { IfOk result (λ w. w ≡ spec.each_once (all_words words.now)) }
    {
        let mut once = Words::new(alloc);
        for word in words {
            once.add(*word)?;
        }
        Ok(once)
    }
}
