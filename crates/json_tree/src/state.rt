//! The automaton of the tokens of a text, for those who read character by character.

ghost use Rattle.std.specs.Prelude.{◌≡◌, ◌≤◌, ◌<◌, ◌+◌};
ghost use Rattle.json_tree.specs.States as spec;

use crate::table::{COLUMNS, ROWS};

/// The state before a token or blanks.
pub const BEFORE: usize = 36;

/// The state in blanks.
pub const IN_BLANKS: usize = 108;

/// The column of a character: all beyond ASCII have the same.
#[inline(always)]
fn column(c: char) -> usize
    ensures value { result ≡ spec.column c }
    ensures few { result < 36 }
{
    let code = c as u32;
    let symbol = if code < 128 { code as usize } else { 130 };
    COLUMNS[symbol] as usize
}

/// The state behind one more character, or 0 where no token or blanks go on so.
#[inline(always)]
pub fn next_state(state: usize, c: char) -> usize
    requires { state + 36 ≤ 1764 }
    ensures value { result ≡ spec.next_state state c }
    ensures row { result + 36 ≤ 1764 }
{
    ROWS[state + column(c)] as usize
}

/// Whether a token or blanks may end in the state.
pub fn may_end(state: usize) -> bool
    requires { state + 36 ≤ 1764 }
    ensures { result ≡ spec.may_end state }
{
    ROWS[state] != 0
}
