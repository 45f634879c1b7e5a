//! The classes of lexemes: of tokens, and of the parts between them.

ghost use Rattle.std.specs.Prelude.{◌≡◌};
ghost use Rattle.py_lex.specs.Classes.{class_of};

/// The classes of lexemes.
#[derive(Clone, Copy, Debug, PartialEq, Eq)]
pub enum Class {
    Name,
    Number,
    Str,
    Mark,
    /// An opening bracket.
    Opening,
    /// A closing bracket.
    Closing,
    Meta,
    MetaDots,
    Blank,
    LineEnd,
    /// A backslash before a line end.
    Splice,
    Comment,
    /// An f-string in single quotes.
    FShort,
    /// An f-string in three quotes.
    FLong,
    /// Text within an f-string or a field's format.
    Plain,
    FieldStart,
    FieldEnd,
    /// The colon before a field's format.
    Colon,
    /// The conversion of a field, as `!r`.
    Conversion,
}

/// The forms of f-strings that are looked for.
#[derive(Clone, Copy, Debug, PartialEq, Eq)]
pub enum Forms {
    Both,
    Short,
    Long,
    Neither,
}

/// The class of a number in the automaton's table.
pub fn class_at(number: u16) -> Class
    ensures { result ≡ class_of number }
{
    match number {
        0 => Class::Name,
        1 => Class::Number,
        2 => Class::Str,
        3 => Class::Mark,
        4 => Class::Opening,
        5 => Class::Closing,
        6 => Class::Meta,
        7 => Class::MetaDots,
        8 => Class::Blank,
        9 => Class::LineEnd,
        10 => Class::Splice,
        11 => Class::Comment,
        12 => Class::FShort,
        13 => Class::FLong,
        14 => Class::Plain,
        15 => Class::FieldStart,
        16 => Class::FieldEnd,
        17 => Class::Colon,
        _ => Class::Conversion,
    }
}
