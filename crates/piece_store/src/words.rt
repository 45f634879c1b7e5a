//! Sets of numbers, 64 in a word.

ghost use Rattle.std.specs.Prelude.{◌≡◌, ◌≤◌, ◌<◌, ◌/◌, ◌&&◌, ℕ, length, cond, nat_eq, true, false, OnOk};
ghost use Rattle.piece_store.specs.Bits.{word_at, has_kept, has_met, turned_word, met_word};

use node_tree::Memory;

/// What is said of 64 patterns: which of them are kept, and which were met in this turn, a bit for each.
#[derive(Clone, Copy, Debug, PartialEq, Eq)]
pub struct Word {
    pub kept: u64,
    pub met: u64,
}

impl Word {
    // What is left of it after a turn: what was met, which isn't met any more.
    fn turned(self) -> Word
        ensures { result ≡ turned_word self }
    {
        Word {
            kept: self.kept & self.met,
            met: 0,
        }
    }

    // All that is kept as met, or as not met.
    fn with_met(self, met: bool) -> Word
        ensures { result ≡ met_word met self }
    {
        let kept = self.kept;
        Word {
            kept,
            met: if met { kept } else { 0 },
        }
    }
}

/// Whether the number is kept.
pub fn is_kept(words: &[Word], at: usize) -> bool
    ensures { result ≡ has_kept words.now at }
{
    let place = at / 64;
    if words.len() <= place {
        return false;
    }
    (words[place].kept >> (at % 64)) & 1 == 1
}

/// Whether the number was met.
pub fn is_met(words: &[Word], at: usize) -> bool
    ensures { result ≡ has_met words.now at }
{
    let place = at / 64;
    if words.len() <= place {
        return false;
    }
    (words[place].met >> (at % 64)) & 1 == 1
}

/// Makes room for a number. What is said of any number stays.
pub fn make_room(words: &mut Vec<Word>, at: usize) -> Result<(), Memory>
    ensures room { OnOk result (at / 64 < length words.new.items) }
    ensures same { (i : ℕ) → word_at words.new.items i ≡ word_at words.old.items i }
{
    while words.len() <= at / 64 {
        words.push(Word { kept: 0, met: 0 })?;
    }
    Ok(())
}

/// Keeps a number that there is room for. It is met.
pub fn keep(words: &mut Vec<Word>, at: usize)
    requires { at / 64 < length words.old.items }
    ensures kept { (i : ℕ) →
        has_kept words.new.items i ≡ cond (nat_eq at i) true (has_kept words.old.items i) }
    ensures met { (i : ℕ) → has_met words.new.items i ≡
        cond (nat_eq at i) true (has_met words.old.items i) }
{
    let bit: u64 = 1 << (at % 64);
    let word = words[at / 64];
    words[at / 64] = Word {
        kept: word.kept | bit,
        met: word.met | bit,
    };
}

/// Notes that a number is met, for which there is room.
pub fn meet(words: &mut Vec<Word>, at: usize)
    requires { at / 64 < length words.old.items }
    ensures kept { (i : ℕ) → has_kept words.new.items i ≡ has_kept words.old.items i }
    ensures met { (i : ℕ) → has_met words.new.items i ≡
        cond (nat_eq at i) true (has_met words.old.items i) }
{
    let bit: u64 = 1 << (at % 64);
    let word = words[at / 64];
    words[at / 64] = Word {
        kept: word.kept,
        met: word.met | bit,
    };
}

/// Notes of all that is kept that it is met, or that it isn't.
pub fn meet_all(words: &mut Vec<Word>, met: bool)
    ensures kept { (i : ℕ) → has_kept words.new.items i ≡ has_kept words.old.items i }
    ensures met { (i : ℕ) → has_met words.new.items i ≡ met && has_kept words.old.items i }
{
    for word in words.iter_mut() {
        *word = word.with_met(met);
    }
}

/// Keeps only what was met. Nothing is met then.
pub fn turn(words: &mut Vec<Word>)
    ensures kept { (i : ℕ) →
        has_kept words.new.items i ≡ has_kept words.old.items i && has_met words.old.items i }
    ensures met { (i : ℕ) → has_met words.new.items i ≡ false }
{
    for word in words.iter_mut() {
        *word = word.turned();
    }
}

/// Whether anything is kept.
pub fn is_any(words: &[Word]) -> bool
    ensures { result ≡ false → (i : ℕ) → has_kept words.now i ≡ false }
{
    for word in words {
        if word.kept != 0 {
            return true;
        }
    }
    false
}
