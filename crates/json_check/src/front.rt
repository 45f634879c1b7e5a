//! How much of a text is the front of a JSON text.

ghost use Rattle.std.specs.Prelude.{◌≡◌, ◌≤◌, ◌<◌, ◌+◌, ◌^◌, length, IfOk};
ghost use Rattle.json_check.specs.Viable.{IsFirstBad};
ghost use Rattle.json_check.specs.fronts.Moves.{Takes};
ghost use Rattle.json_check.specs.fronts.Fronts as fronts;

use crate::nest::Nest;
use json_tree::{BEFORE, IN_BLANKS, Word, may_end, next_state};
use lexing::without_mark;
use node_tree::Memory;
use std::alloc::Global;

/// The word of the token that begins with a character: blanks are none.
fn begun(c: char) -> Option<Word>
    ensures { result ≡ fronts.begun c }
{
    match c {
        '{' => Some(Word::LeftBrace),
        '}' => Some(Word::RightBrace),
        '[' => Some(Word::LeftBracket),
        ']' => Some(Word::RightBracket),
        ',' => Some(Word::Comma),
        ':' => Some(Word::Colon),
        '"' => Some(Word::Str),
        '-' | '0'..='9' => Some(Word::Number),
        't' | 'f' | 'n' => Some(Word::Const),
        _ => None,
    }
}

/// Where a front ends: in which state of the automaton, and behind which tokens. That in which it ends is among them.
#[derive(Drop)]
pub struct Front {
    state: usize,
    nest: Nest,
}

impl Front {
    fn new(alloc: Global) -> Front
        ensures front { fronts.held result ≡ fronts.at_start }
        ensures row { result.state + 36 ≤ 1764 }
    {
        Front {
            state: IN_BLANKS,
            nest: Nest::new(alloc),
        }
    }

    /// Takes one more character, which goes on with the lexeme at hand or begins another, or tells that none may.
    fn read(&mut self, c: char) -> Result<bool, Memory>
        requires { self.old.state + 36 ≤ 1764 }
        ensures read { IfOk result (λ b. Takes b (fronts.longer (fronts.held self.old) c) (fronts.held self.new)) }
        ensures row { self.new.state + 36 ≤ 1764 }
    {
        let state = next_state(self.state, c);
        if state != 0 {
            self.state = state;
            return Ok(true);
        }
        if !may_end(self.state) {
            return Ok(false);
        }
        let first = next_state(BEFORE, c);
        if first == 0 {
            return Ok(false);
        }
        self.state = first;
        match begun(c) {
            Some(word) => self.nest.take(word),
            None => Ok(true),
        }
    }

    /// Whether a front is a whole text.
    fn is_whole_text(&self) -> bool
        requires { self.now.state + 36 ≤ 1764 }
        ensures { result ≡ fronts.is_whole_text (fronts.held self.now) }
    {
        may_end(self.state) && self.nest.is_over()
    }
}

/// Where a text stops being JSON: None where it has a tree, as `read_json` reads one in `Mode::Text`, else the number of bytes of
/// its longest front that some text with a tree begins with.
pub fn first_bad(alloc: Global, text: &str) -> Result<Option<u32>, Memory>
    requires { length text.now < 2 ^ 32 }
    ensures { IfOk result (IsFirstBad text.now) }
{
    let rest = without_mark(text);
    let mut front = Front::new(alloc);
    let mut at = text.len() - rest.len();
    for c in rest.chars() {
        if !front.read(c)? {
            return Ok(Some(at as u32));
        }
        at += c.len_utf8();
    }
    if front.is_whole_text() {
        return Ok(None);
    }
    Ok(Some(at as u32))
}
