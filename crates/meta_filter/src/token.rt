//! The tokens of comparisons.

ghost use Rattle.std.specs.Prelude.{◌≡◌};
ghost use Rattle.meta_filter.specs.Words as spec;

use node_tree::Written;

/// What a token is.
#[derive(Clone, Copy, Debug, PartialEq, Eq)]
pub enum Word {
    /// What stands behind the last token.
    End,
    Digits,
    /// A metavariable `$NAME`.
    Meta,
    Or,
    And,
    Not,
    Int,
    /// A word that comparisons don't have.
    Stray,
    Less,
    LessEqual,
    Greater,
    GreaterEqual,
    Equal,
    NotEqual,
    Plus,
    Minus,
    Times,
    Divide,
    Remainder,
    LeftRound,
    RightRound,
}

/// A token and its text as written.
#[derive(Drop)]
pub struct Token<'t> {
    pub word: Word,
    pub text: Written<'t>,
}

/// What a run of letters is.
fn letters_word(text: &str) -> Word
    ensures { result ≡ spec.letters_word text.now }
{
    let bytes = text.as_bytes();
    if bytes == b"or".as_slice() {
        Word::Or
    } else if bytes == b"and".as_slice() {
        Word::And
    } else if bytes == b"not".as_slice() {
        Word::Not
    } else if bytes == b"int".as_slice() {
        Word::Int
    } else {
        Word::Stray
    }
}

/// The word of a lexeme by its number in the automaton's table, or `None` for blanks.
pub fn word_of(number: u16, text: &str) -> Option<Word>
    ensures { result ≡ spec.word_of number text.now }
{
    match number {
        1 => Some(Word::Digits),
        2 => Some(Word::Meta),
        7 => Some(letters_word(text)),
        8 => Some(Word::Less),
        9 => Some(Word::LessEqual),
        10 => Some(Word::Greater),
        11 => Some(Word::GreaterEqual),
        12 => Some(Word::Equal),
        13 => Some(Word::NotEqual),
        14 => Some(Word::Plus),
        15 => Some(Word::Minus),
        16 => Some(Word::Times),
        17 => Some(Word::Divide),
        18 => Some(Word::Remainder),
        19 => Some(Word::LeftRound),
        20 => Some(Word::RightRound),
        _ => None,
    }
}
