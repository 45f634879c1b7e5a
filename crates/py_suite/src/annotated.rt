//! Whether a statement is an annotated target.

ghost use Rattle.std.specs.Prelude.{◌≡◌, ◌≤◌, length};
ghost use Rattle.py_suite.specs.Table as table;
ghost use Rattle.py_suite.specs.Build.{source};

use crate::look::is_among;
use py_expr::{Item, Word, is};

/// At how many tokens is looked at most: more than a text has.
const MOST: u64 = 4_294_967_296;

/// Words that open brackets, or `<...`.
const OPENINGS: [Word; 5] = [
    Word::LeftRound,
    Word::LeftSquare,
    Word::LeftBrace,
    Word::BraceDots,
    Word::DeepOpen,
];

/// Words that close brackets, or `...>`.
const CLOSINGS: [Word; 4] = [
    Word::RightRound,
    Word::RightSquare,
    Word::RightBrace,
    Word::DeepClose,
];

/// Words of a primary outside of its brackets.
const PLAIN: [Word; 11] = [
    Word::Name,
    Word::Meta,
    Word::Number,
    Word::Const,
    Word::Ellipsis,
    Word::Dots,
    Word::MetaDots,
    Word::Str,
    Word::FStr,
    Word::StrAny,
    Word::Dot,
];

/// Whether nothing but words of a primary stands before the first colon outside of brackets.
#[tactic(auto, using(crate::proofs::Colons::at_end, crate::proofs::Colons::none_left))]
pub fn annotates(items: &[Item<'_>], at: usize) -> bool
    requires { at ≤ length items.now }
    ensures { result ≡ table.annotates (source items.now).cls at }
{
    let mut end = at;
    let mut open: usize = 0;
    for turn in 0..MOST {
        if end >= items.len() {
            return false;
        }
        if is_among(items, end, &OPENINGS) {
            open += 1;
        } else if open == 0 {
            if !is_among(items, end, &PLAIN) {
                return is(items, end, Word::Colon);
            }
        } else if is_among(items, end, &CLOSINGS) {
            open -= 1;
        } else if is(items, end, Word::Other) {
            return false;
        }
        end += 1;
    }
    false
}
