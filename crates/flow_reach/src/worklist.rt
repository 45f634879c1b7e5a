//! Numbers that were seen, and those of them that still wait, by words: some two bits for each number.

ghost use Rattle.std.specs.Prelude.{◌≡◌, ◌*◌, ◌<◌, ◌≤◌, ◌^◌, ℕ, length, slice_index, IfOk, OnOk, MatchOption};
ghost use Rattle.flow_reach.specs.Bits.{InWord};
ghost use Rattle.flow_reach.specs.Worklist.{IsShaped, IsNew, Lists, Grows, Takes, IsIdle};

use crate::bits;
use node_tree::Memory;
use std::alloc::Global;

/// The numbers seen, those that wait, and the words in which some wait.
#[derive(Drop)]
pub struct Worklist {
    pub seen: Vec<u64>,
    pub todo: Vec<u64>,
    pub words: Vec<u32>,
}

impl Worklist {
    /// Room for so many words, of which no number is seen.
    pub fn new(alloc: Global, words: usize) -> Result<Worklist, Memory>
        requires { words < 2 ^ 32 }
        ensures { IfOk result (IsNew words) }
    {
        let seen = bits::none(alloc, words)?;
        let todo = bits::none(alloc, words)?;
        Ok(Worklist {
            seen,
            todo,
            words: Vec::new(alloc),
        })
    }

    // The numbers of a word that wait.
    fn waiting(&self, word: usize) -> u64
        requires { word < length self.now.todo.items }
        ensures { result ≡ slice_index self.now.todo.items word }
    {
        self.todo[word]
    }

    // Lists the word, unless some number in it waits.
    fn list(&mut self, word: usize) -> Result<(), Memory>
        requires shaped { IsShaped self.old }
        requires word { word < length self.old.seen.items }
        ensures { OnOk result (Lists word self.old self.new) }
    {
        if self.waiting(word) != 0 {
            return Ok(());
        }
        self.words.push(word as u32)?;
        Ok(())
    }

    /// Sees the numbers of a word. Those that are new wait.
    pub fn see(&mut self, word: usize, bits: u64) -> Result<(), Memory>
        requires shaped { IsShaped self.old }
        requires word { word < length self.old.seen.items }
        ensures { OnOk result (Grows (InWord word bits) self.old self.new) }
    {
        let new = bits::without(bits, self.seen[word]);
        if new == 0 {
            return Ok(());
        }
        self.list(word)?;
        bits::put(&mut self.seen, word, new);
        bits::put(&mut self.todo, word, new);
        Ok(())
    }

    /// Sees a number.
    pub fn see_one(&mut self, at: usize) -> Result<(), Memory>
        requires shaped { IsShaped self.old }
        requires room { at < 64 * length self.old.seen.items }
        ensures { OnOk result (Grows (λ k. k ≡ at) self.old self.new) }
    {
        self.see(at / 64, bits::one(at))?;
        Ok(())
    }

    /// Takes all numbers of a word that wait.
    pub fn take(&mut self) -> Option<(usize, u64)>
        requires { IsShaped self.old }
        ensures { MatchOption result (IsIdle self.old self.new) (λ t. Takes t.0 t.1 self.old self.new) }
    {
        while let Some(word) = self.words.pop() {
            let bits = self.waiting(word as usize);
            if bits != 0 {
                self.todo[word as usize] = 0;
                return Some((word as usize, bits));
            }
        }
        None
    }
}
