//! An automaton that reads characters, and the longest spelling that it accepts.

ghost use Rattle.std.specs.Prelude.{◌≡◌, ℕ, ◌≤◌, ◌<◌, IsTrue, length};
ghost use Rattle.std.specs.Prelude.{List, IfSome};
ghost use Rattle.std.specs.Str.{chars, IsUtf8};
ghost use Rattle.lexing.specs.Rules.{symbol, Rule};
ghost use Rattle.lexing.specs.Automaton.{Table, Started, IsSound, IsStart, Accepts, accepted, IsBest, Takes};

use std::marker::Model;

/// A finite automaton over characters, and the state where it begins to read.
///
/// A state is named by the place where its row begins. A row holds the word that the state accepts, plus 1, or 0
/// where it accepts none, and then the next state for each column; `columns` has the column of each symbol. The row
/// at 0 is the state from which nothing is accepted.
#[derive(Drop)]
pub struct Automaton<'m> {
    columns: &'m [u8],
    rows: &'m [u16],
    width: usize,
    start: usize,
}

impl<'m> Model for Automaton<'m> {
    ghost use Rattle.lexing.specs.Automaton.{Started, IsSound};
    ghost use Rattle.lexing.specs.View.{started};

    ghost Value = { Started };

    ghost view = { started };

    ghost invariant = { λ a. IsSound (started a) };
}

/// A character as rules see it.
#[inline(always)]
#[tactic(auto, unfolding(crate::specs::Rules::symbol))]
fn symbol(c: char) -> usize
    ensures value { result ≡ symbol c }
    ensures few { result < 131 }
{
    let code = c as u32;
    if code < 128 {
        code as usize
    } else if unicode_ident::is_xid_start(c) {
        128
    } else if unicode_ident::is_xid_continue(c) {
        129
    } else {
        130
    }
}

/// The longest spelling at a place: its word, plus 1, or 0 where there is none, and its length in bytes.
#[derive(Clone, Copy, Drop)]
struct Best {
    word: u16,
    len: usize,
}

/// A spelling at the front of a text, the number of its word, and what follows it.
#[derive(Clone, Copy, Drop)]
pub struct Piece<'t> {
    pub word: u16,
    pub text: &'t str,
    pub rest: &'t str,
}

impl<'m> Automaton<'m> {
    /// The automaton of a table, from one of its states on.
    pub fn new(columns: &'m [u8], rows: &'m [u16], width: usize, start: usize) -> Automaton<'m>
        requires { IsSound (record { table = record { columns = columns.now; rows = rows.now; width = width }; start = start }) }
        ensures { result ≡ record { table = record { columns = columns.now; rows = rows.now; width = width }; start = start } }
    {
        Automaton {
            columns,
            rows,
            width,
            start,
        }
    }

    /// The longest spelling at the front of a text.
    fn longest(&self, text: &str) -> Best
        ensures best { IsBest (accepted self.now.table self.now.start) (chars text.now) result }
        ensures begins { IsStart self.now.table self.now.start }
    {
        let mut state = self.start;
        let mut len = 0;
        let mut best = Best { word: 0, len: 0 };
        for c in text.chars() {
            state = self.rows[state + self.columns[symbol(c)] as usize] as usize;
            len += c.len_utf8();
            if state == 0 {
                return best;
            }
            let word = self.rows[state];
            if word != 0 {
                best = Best { word, len };
            }
        }
        best
    }

    /// The longest spelling at the front of a text, by each list of rules that the automaton accepts.
    pub fn next_piece<'t>(&self, text: &'t str) -> Option<Piece<'t>>
        ensures takes { (rules : List Rule) → Accepts self.now.table self.now.start rules → Takes rules text.now result }
        ensures utf8 { IfSome result (λ p. IsUtf8 p.text.now × IsUtf8 p.rest.now) }
    {
        let best = self.longest(text);
        if best.word == 0 {
            return None;
        }
        let (front, rest) = text.split_at(best.len);
        Some(Piece {
            word: best.word - 1,
            text: front,
            rest,
        })
    }
}
