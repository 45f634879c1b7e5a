//! The tokens of C.

use node_tree::{Span, Text};

/// The words that tokens are classed by (C11 6.4, in the profile that docs/SCANNERS.md states).
#[derive(Clone, Copy, Debug, PartialEq, Eq)]
pub enum CWord {
    /// A name that is no keyword.
    Name,
    /// One of the 37 keywords.
    Keyword,
    /// A preprocessing number (C11 6.4.8).
    Number,
    /// A string literal with its prefix and quotes.
    Str,
    /// A character constant with its prefix and quotes.
    Char,
    /// A punctuator; in a pattern also `<...` and `...>`.
    Op,
    /// A metavariable `$NAME` of a pattern.
    Meta,
    /// A metavariable `$...NAME` of a pattern.
    MetaDots,
    /// A line whose first token is `#`, with the lines that a backslash joins to it.
    Directive,
    /// The end of the text, with the empty text.
    End,
}

/// A token: its word, its text as written, and the bytes that it takes in the text.
#[derive(Drop)]
pub struct CToken {
    pub word: CWord,
    pub text: Text,
    pub span: Span,
}
