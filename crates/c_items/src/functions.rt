//! Whether a declaration goes on as a function.

ghost use Rattle.std.specs.Prelude.{◌≡◌, ◌≤◌, length};
ghost use Rattle.c_expr.specs.Build.{source};
ghost use Rattle.c_items.specs.Settling as spec;

use c_expr::{Token, Word, is, is_among};

/// At how many tokens is looked at most: more than a text has.
const MOST: u64 = 4_294_967_296;

/// The words of a declarator outside of its brackets.
const WORDS: [Word; 6] = [
    Word::Star,
    Word::Name,
    Word::Meta,
    Word::TypeWord,
    Word::Tag,
    Word::Qualifier,
];

/// The brackets of a declarator.
const BRACKETS: [Word; 2] = [Word::OpenRound, Word::OpenSquare];

/// Words that open brackets.
const OPENINGS: [Word; 3] = [Word::OpenRound, Word::OpenSquare, Word::OpenCurly];

/// Words that close brackets.
const CLOSINGS: [Word; 3] = [Word::CloseRound, Word::CloseSquare, Word::CloseCurly];

/// Whether a `{` stands behind the declarator that begins there.
#[tactic(auto, using(crate::proofs::Curlies::at_end, crate::proofs::Curlies::none_left))]
pub fn defines(tokens: &[Token<'_>], at: usize) -> bool
    requires { at ≤ length tokens.now }
    ensures { result ≡ spec.defines (source tokens.now).cls at }
{
    let mut end = at;
    let mut open: usize = 0;
    for turn in 0..MOST {
        if end >= tokens.len() {
            return false;
        }
        if open == 0 {
            if is_among(tokens, end, &BRACKETS) {
                open = 1;
            } else if !is_among(tokens, end, &WORDS) {
                return is(tokens, end, Word::OpenCurly);
            }
        } else if is_among(tokens, end, &OPENINGS) {
            open += 1;
        } else if is_among(tokens, end, &CLOSINGS) {
            open -= 1;
        } else if is(tokens, end, Word::End) {
            return false;
        }
        end += 1;
    }
    false
}
