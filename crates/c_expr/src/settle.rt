//! Where the next tokens settle what the grammar alone leaves open.

ghost use Rattle.std.specs.Prelude.{◌≡◌, ◌+◌, ◌<◌, ◌≤◌, true, length, map, IsTrue};
ghost use Rattle.c_expr.specs.Build.{source};
ghost use Rattle.c_expr.specs.Settling as spec;
ghost use Rattle.c_expr.specs.Words.{class, none_is_end};

use crate::look::{is, is_among};
use crate::word::{Token, Word};

/// The words that a spec is made of, besides one name.
pub const SPEC_WORDS: [Word; 3] = [Word::TypeWord, Word::Tag, Word::Qualifier];

/// A name, for which a metavariable may stand.
pub const NAMES: [Word; 2] = [Word::Name, Word::Meta];

/// What stands behind `(` NAME `)` where that is a cast.
const OPERAND_STARTS: [Word; 9] = [
    Word::Name,
    Word::Meta,
    Word::Number,
    Word::Str,
    Word::StrAny,
    Word::Char,
    Word::OpenRound,
    Word::Flip,
    Word::Sizeof,
];

/// The most `*` that are looked past.
const MOST_STARS: usize = 500;

/// The place behind the `*` that stand there.
#[tactic(auto, using(crate::proofs::Stars::stars_turn, crate::proofs::Stars::stars_turned))]
pub fn behind_stars(tokens: &[Token<'_>], at: usize) -> usize
    requires { at ≤ length tokens.now }
    ensures place { result ≡ spec.behind_stars (source tokens.now).cls spec.most_stars at }
    ensures within { result ≤ length tokens.now }
{
    let mut end = at;
    for turn in 0..MOST_STARS {
        if !is(tokens, end, Word::Star) {
            return end;
        }
        end += 1;
    }
    end
}

/// Whether a name, one or more `*` and then one of two words stand there.
fn is_pointer(tokens: &[Token<'_>], at: usize, behind: &[Word]) -> bool
    requires { IsTrue (none_is_end behind.now) }
    ensures { result ≡ spec.is_pointer (map class behind.now) (source tokens.now).cls at }
{
    if !is_among(tokens, at, &NAMES) {
        return false;
    }
    if !is(tokens, at + 1, Word::Star) {
        return false;
    }
    is_among(tokens, behind_stars(tokens, at + 1), behind)
}

/// Whether a type begins there: where a word stands; or a name, one or more `*` and then one of these.
fn is_type(tokens: &[Token<'_>], at: usize, behind: &[Word]) -> bool
    requires { IsTrue (none_is_end behind.now) }
    ensures { result ≡ spec.is_type (map class behind.now) (source tokens.now).cls at }
{
    if is_among(tokens, at, &SPEC_WORDS) {
        return true;
    }
    is_pointer(tokens, at, behind)
}

/// Whether a name, `)` and the start of an operand stand there.
fn is_named_cast(tokens: &[Token<'_>], at: usize) -> bool
    ensures { result ≡ spec.is_named_cast (source tokens.now).cls at }
{
    if !is_among(tokens, at, &NAMES) {
        return false;
    }
    if !is(tokens, at + 1, Word::CloseRound) {
        return false;
    }
    is_among(tokens, at + 2, &OPERAND_STARTS)
}

/// Whether what stands behind a `(` makes it that of a cast.
#[tactic(auto, unfolding(crate::specs::Settling::is_cast))]
fn is_cast(tokens: &[Token<'_>], at: usize) -> bool
    ensures { result ≡ spec.is_cast (source tokens.now).cls at }
{
    if is_type(tokens, at, &[Word::CloseRound]) {
        return true;
    }
    is_named_cast(tokens, at)
}

/// Whether `(` stands there and opens a cast.
pub fn opens_cast(tokens: &[Token<'_>], at: usize) -> bool
    ensures test { result ≡ spec.opens_cast (source tokens.now).cls at }
    ensures within { result ≡ true → at < length tokens.now }
{
    if !is(tokens, at, Word::OpenRound) {
        return false;
    }
    is_cast(tokens, at + 1)
}

/// Whether `sizeof` stands there, and the `(` behind it holds a type.
pub fn sizes_type(tokens: &[Token<'_>], at: usize) -> bool
    ensures test { result ≡ spec.sizes_type (source tokens.now).cls at }
    ensures within { result ≡ true → at + 1 < length tokens.now }
{
    if !is(tokens, at, Word::Sizeof) {
        return false;
    }
    if !is(tokens, at + 1, Word::OpenRound) {
        return false;
    }
    is_type(tokens, at + 2, &[Word::CloseRound])
}

/// Whether the argument there is a type.
pub fn takes_type(tokens: &[Token<'_>], at: usize) -> bool
    ensures { result ≡ spec.takes_type (source tokens.now).cls at }
{
    is_type(tokens, at, &[Word::Comma, Word::CloseRound])
}

/// Whether `(` stands there and opens a nested declarator of a parameter or a type name.
pub fn opens_declarator(tokens: &[Token<'_>], at: usize) -> bool
    ensures within { result ≡ true → at < length tokens.now }
    ensures test { result ≡ spec.opens_declarator (source tokens.now).cls at }
{
    if !is(tokens, at, Word::OpenRound) {
        return false;
    }
    is_among(tokens, at + 1, &[Word::Star, Word::OpenRound])
}

/// Whether `{` stands there and opens enumerators.
pub fn opens_enumerators(tokens: &[Token<'_>], at: usize) -> bool
    ensures test { result ≡ spec.opens_enumerators (source tokens.now).cls at }
    ensures within { result ≡ true → at < length tokens.now }
{
    if !is(tokens, at, Word::OpenCurly) {
        return false;
    }
    if !is_among(tokens, at + 1, &NAMES) {
        return false;
    }
    is_among(
        tokens,
        at + 2,
        &[Word::Comma, Word::Equals, Word::CloseCurly],
    )
}
