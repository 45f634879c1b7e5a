//! What is kept of one piece.

ghost use Rattle.std.specs.Prelude.{◌≡◌, ℕ, Option as option, None, Some, OnOk, OnErr, MatchOption, is_some, option_map, true, false};
ghost use Rattle.std.specs.Option.{option_copied};
ghost use Rattle.piece_store.specs.Slots.{slot, put_at, marked, turned, met_as};

use crate::words::{Word, is_any, is_kept, is_met, keep, make_room, meet, meet_all, turn};
use node_tree::Memory;
use std::alloc::Global;
use std::collections::BTreeMap;

/// The answers of one piece, by the numbers of the patterns: a bit for each that is kept, a bit for each that was met in this
/// turn, and the answers that are not empty.
#[derive(Drop)]
pub struct Row<V> {
    pub words: Vec<Word>,
    pub full: BTreeMap<u32, V>,
}

impl<V: Drop> Row<V> {
    /// Nothing. It takes no memory.
    pub fn new(alloc: Global) -> Row<V>
        ensures { (i : ℕ) → slot result i ≡ None }
    {
        Row {
            words: Vec::new(alloc),
            full: BTreeMap::new(alloc),
        }
    }

    /// The answer of a pattern, where it is kept: None within for the empty one.
    pub fn look(&self, number: u32) -> Option<Option<&V>>
        ensures { option_map (λ k. k.0) (slot self.now number) ≡
            option_map (λ v. option_copied v) result }
    {
        if !is_kept(&self.words, number as usize) {
            return None;
        }
        Some(self.full.get(&number))
    }

    /// Keeps an answer for a pattern, None for the empty one. It is met.
    pub fn keep(&mut self, number: u32, value: Option<V>) -> Result<(), Memory>
        ensures ok { OnOk result ((i : ℕ) →
            slot self.new i ≡ put_at number (Some (value, true)) (slot self.old) i) }
        ensures err { OnErr result ((i : ℕ) → slot self.new i ≡ slot self.old i) }
    {
        make_room(&mut self.words, number as usize)?;
        match value {
            None => {
                let _ = self.full.remove(&number);
            }
            Some(value) => {
                self.full.insert(number, value)?;
            }
        }
        keep(&mut self.words, number as usize);
        Ok(())
    }

    /// Notes that a pattern's answer is met, and tells whether it is kept.
    pub fn mark(&mut self, number: u32) -> bool
        ensures told { result ≡ is_some (slot self.old number) }
        ensures marked { (i : ℕ) →
            slot self.new i ≡ put_at number (marked (slot self.old number)) (slot self.old) i }
    {
        if !is_kept(&self.words, number as usize) {
            return false;
        }
        meet(&mut self.words, number as usize);
        true
    }

    /// Notes of all that is kept that it is met, or that it isn't.
    pub fn meet_all(&mut self, met: bool)
        ensures { (i : ℕ) → slot self.new i ≡ met_as met (slot self.old i) }
    {
        meet_all(&mut self.words, met);
    }

    /// Drops what was not met, and tells whether anything is left, which isn't met then. It takes no memory.
    pub fn turn(&mut self) -> bool
        ensures turned { (i : ℕ) → slot self.new i ≡ turned (slot self.old i) }
        ensures left { result ≡ false → (i : ℕ) → slot self.new i ≡ None }
    {
        turn(&mut self.words);
        let words = &self.words;
        self.full
            .retain(|number, _answer| is_kept(words, *number as usize));
        is_any(&self.words)
    }
}
