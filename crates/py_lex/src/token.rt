//! The tokens of Python.

ghost use Rattle.std.specs.Prelude.{◌≡◌, [], ◌∷◌, ◌++◌, OnOk};

use node_tree::{List, Memory, Span, Text};
use std::alloc::Global;

/// The words that tokens are classed by, after the Python reference, section "Lexical analysis".
#[derive(Clone, Copy, Debug, PartialEq, Eq)]
pub enum PyWord {
    /// A name that is no keyword.
    Name,
    /// One of the 35 keywords.
    Keyword,
    Number,
    /// A string with its prefix and quotes.
    Str,
    /// An f-string with its prefix and quotes; its parts are beside it.
    FStr,
    /// An operator or a delimiter; in a pattern also `<...` and `...>`.
    Op,
    /// A metavariable `$NAME` of a pattern.
    Meta,
    /// A metavariable `$...NAME` of a pattern.
    MetaDots,
    /// The end of a line that has a token, outside brackets.
    Newline,
    /// A deeper line begins a block.
    Indent,
    /// A block ends.
    Dedent,
    /// The end of the text.
    End,
}

/// A token: its word, its text as written, the bytes that it takes in the text, and the parts of an f-string.
///
/// Spans are bytes of the whole text, also those of parts and of the tokens in them. Only an `FStr` has parts, and the
/// empty f-string has none. The text of `Newline`, `Indent`, `Dedent` and `End` is empty. A `Newline` takes the bytes of its line end, or none at
/// the text's end. An `Indent` or a `Dedent` stands before the first token of its line and takes no bytes.
#[cycle(token)]
#[derive(Drop)]
pub struct PyToken {
    pub word: PyWord,
    pub text: Text,
    pub span: Span,
    pub parts: List<FPart>,
}

/// A part of an f-string, after the Python reference, section "Formatted string literals".
#[cycle(token)]
#[derive(Drop)]
pub enum FPart {
    /// Text as written, with `{{` and `}}` still doubled; it is never empty, and no other text stands beside it.
    Plain(Text, Span),
    /// A field from its `{` to its `}`.
    ///
    /// - The tokens of its expression: neither an `End` nor a `Newline` is among them. The `=` behind an expression, as
    ///   in `{a = }`, is the last of them, as an `Op`. A field as `{}` has no tokens.
    /// - Its conversion `!r`, `!s` or `!a`, or the empty text.
    /// - Its format, which is the texts and fields behind the `:`; it is empty where there is no `:` or nothing behind
    ///   it. A field in a format has no format of its own.
    Field(List<PyToken>, Text, List<FPart>, Span),
}

/// Adds an item. A list of one has room for no other, since most lists within f-strings stay so short.
pub fn push_closely<T: Drop>(alloc: Global, all: &mut List<T>, item: T) -> Result<(), Memory>
    ensures { OnOk result (all.new ≡ all.old ++ item ∷ []) }
{
    if all.is_empty() {
        *all = List::from_vec(Vec::with_capacity(alloc, 1)?);
    }
    all.push(item)
}
