//! The tokens of the example.

/// What a token is.
#[derive(Clone, Copy, PartialEq, Eq, Debug)]
pub enum Word {
    End,
    Name,
    Number,
    OpenRound,
    CloseRound,
    Comma,
    Equal,
    Plus,
    Minus,
    Times,
    Semicolon,
    /// Stands in patterns alone.
    Hole,
}

/// A token.
#[derive(Clone, Copy, PartialEq, Eq, Debug)]
pub struct Token {
    /// What it is.
    pub word: Word,
    /// The number of its text in a list of texts.
    pub text: u32,
    /// The byte where it begins, from 0.
    pub from: u32,
    /// The byte behind it.
    pub to: u32,
}
