//! Where the next tokens settle what stands there.

ghost use Rattle.std.specs.Prelude.{◌≡◌, ◌+◌, ◌<◌, true, length};
ghost use Rattle.c_expr.specs.Build.{source};
ghost use Rattle.c_items.specs.Settling as spec;

use c_expr::{NAMES, SPEC_WORDS, Token, Word, behind_stars, is, is_among};

/// A name or a word of a spec.
const SPEC_OR_NAME: [Word; 5] = [
    Word::Name,
    Word::Meta,
    Word::TypeWord,
    Word::Tag,
    Word::Qualifier,
];

/// What stands behind the name of a variable that is a pointer to a type with a name.
const BEHIND_VARIABLE: [Word; 4] = [Word::Equals, Word::Semicolon, Word::Comma, Word::OpenSquare];

/// What goes on with an expression, and begins no item.
const ONLY_GOES_ON: [Word; 15] = [
    Word::Equals,
    Word::Assigns,
    Word::Slash,
    Word::Shift,
    Word::Order,
    Word::Equality,
    Word::Caret,
    Word::Bar,
    Word::And,
    Word::Or,
    Word::Question,
    Word::Comma,
    Word::OpenSquare,
    Word::Dot,
    Word::Arrow,
];

/// Whether a name and one of `= ; , [` stand there.
fn is_variable(tokens: &[Token<'_>], at: usize) -> bool
    ensures { result ≡ spec.is_variable (source tokens.now).cls at }
{
    if !is_among(tokens, at, &NAMES) {
        return false;
    }
    is_among(tokens, at + 1, &BEHIND_VARIABLE)
}

/// Whether one or more `*`, a name and one of `= ; , [` stand there.
fn is_pointed(tokens: &[Token<'_>], at: usize) -> bool
    ensures { result ≡ spec.is_pointed (source tokens.now).cls at }
{
    if !is(tokens, at, Word::Star) {
        return false;
    }
    is_variable(tokens, behind_stars(tokens, at))
}

/// Whether a name stands there, with what makes it the type of a declaration.
fn is_named_type(tokens: &[Token<'_>], at: usize) -> bool
    ensures { result ≡ spec.is_named_type (source tokens.now).cls at }
{
    if !is_among(tokens, at, &NAMES) {
        return false;
    }
    if is_among(tokens, at + 1, &SPEC_OR_NAME) {
        return true;
    }
    is_pointed(tokens, at + 1)
}

/// Whether a declaration begins there.
pub fn declares(tokens: &[Token<'_>], at: usize) -> bool
    ensures { result ≡ spec.declares (source tokens.now).cls at }
{
    if is_among(tokens, at, &SPEC_WORDS) {
        return true;
    }
    is_named_type(tokens, at)
}

/// Whether a name and a `:` stand there.
pub fn labels(tokens: &[Token<'_>], at: usize) -> bool
    ensures test { result ≡ spec.labels (source tokens.now).cls at }
    ensures within { result ≡ true → at + 1 < length tokens.now }
{
    if !is_among(tokens, at, &NAMES) {
        return false;
    }
    is(tokens, at + 1, Word::Colon)
}

/// Whether a label, `case` or `default` stands there.
pub fn marks(tokens: &[Token<'_>], at: usize) -> bool
    ensures { result ≡ spec.marks (source tokens.now).cls at }
{
    if is_among(tokens, at, &[Word::Case, Word::Default]) {
        return true;
    }
    labels(tokens, at)
}

/// Whether a name and a `(` stand there.
pub fn invokes(tokens: &[Token<'_>], at: usize) -> bool
    ensures test { result ≡ spec.invokes (source tokens.now).cls at }
    ensures within { result ≡ true → at + 1 < length tokens.now }
{
    if !is_among(tokens, at, &NAMES) {
        return false;
    }
    is(tokens, at + 1, Word::OpenRound)
}

/// Whether dots of a pattern stand there that are an item by themselves.
pub fn stands_alone(tokens: &[Token<'_>], at: usize) -> bool
    ensures test { result ≡ spec.stands_alone (source tokens.now).cls at }
    ensures within { result ≡ true → at < length tokens.now }
{
    if !is_among(tokens, at, &[Word::Dots, Word::MetaDots]) {
        return false;
    }
    !is_among(tokens, at + 1, &ONLY_GOES_ON)
}
