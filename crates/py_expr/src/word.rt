//! The words of the grammar: what a token is for it.

ghost use Rattle.std.specs.Prelude.{◌≡◌};
ghost use Rattle.py_expr.specs.Words as spec;

use lexing::is_among;
use node_tree::Mode;
use py_lex::{PyToken, PyWord};

/// What a token is for the grammar of expressions and of statements.
#[derive(Clone, Copy, Debug, PartialEq, Eq)]
pub enum Word {
    /// What stands in no line of the grammar, and what stands behind the last token.
    Other,
    Name,
    Meta,
    Number,
    /// One of the keywords `True`, `False` and `None`.
    Const,
    /// The `...` of a text.
    Ellipsis,
    /// The `...` of a pattern.
    Dots,
    MetaDots,
    Str,
    FStr,
    /// The string `"..."` of a pattern.
    StrAny,
    LeftRound,
    RightRound,
    LeftSquare,
    RightSquare,
    LeftBrace,
    /// An opening brace of a pattern before dots that a comma or a closing brace follows.
    BraceDots,
    RightBrace,
    Comma,
    /// A comma of a pattern before dots that a comma or a closing brace follows.
    CommaDots,
    Colon,
    Dot,
    Equal,
    /// `:=`
    Walrus,
    /// `*`
    Times,
    Slash,
    /// `//` and `%`.
    Factor,
    /// `+` and `-`.
    Sign,
    Tilde,
    /// `**`
    Power,
    Shift,
    Ampersand,
    Caret,
    Bar,
    /// `<`, `>`, `==`, `>=`, `<=` and `!=`.
    Compare,
    In,
    Is,
    Not,
    And,
    Or,
    If,
    Else,
    Lambda,
    For,
    Async,
    Await,
    Yield,
    From,
    /// The `<...` of a pattern.
    DeepOpen,
    /// The `...>` of a pattern.
    DeepClose,
    /// `@`
    At,
    /// `;`
    Semicolon,
    /// `->`
    Arrow,
    /// `+=` and the like.
    Augmented,
    /// The end of a line.
    Newline,
    Indent,
    Dedent,
    /// The end of the text.
    End,
    // The keywords of statements.
    As,
    Assert,
    Break,
    Class,
    Continue,
    Def,
    Del,
    Elif,
    Except,
    Finally,
    Global,
    Import,
    Nonlocal,
    Pass,
    Raise,
    Return,
    Try,
    While,
    With,
}

/// The word of a mark of one byte.
fn short_mark(byte: u8) -> Word
    ensures { result ≡ spec.by_byte spec.short_marks byte }
{
    match byte {
        b'(' => Word::LeftRound,
        b')' => Word::RightRound,
        b'[' => Word::LeftSquare,
        b']' => Word::RightSquare,
        b'{' => Word::LeftBrace,
        b'}' => Word::RightBrace,
        b',' => Word::Comma,
        b':' => Word::Colon,
        b'.' => Word::Dot,
        b'=' => Word::Equal,
        b'*' => Word::Times,
        b'/' => Word::Slash,
        b'%' => Word::Factor,
        b'@' => Word::At,
        b'+' => Word::Sign,
        b'-' => Word::Sign,
        b'~' => Word::Tilde,
        b'&' => Word::Ampersand,
        b'^' => Word::Caret,
        b'|' => Word::Bar,
        b'<' => Word::Compare,
        b'>' => Word::Compare,
        b';' => Word::Semicolon,
        _ => Word::Other,
    }
}

/// The word of a mark of several bytes.
fn long_mark(mode: Mode, text: &str) -> Word
    ensures { result ≡ spec.by_text (spec.long_marks mode) text.now }
{
    match text {
        ":=" => Word::Walrus,
        "**" => Word::Power,
        "//" => Word::Factor,
        "==" => Word::Compare,
        "!=" => Word::Compare,
        "<=" => Word::Compare,
        ">=" => Word::Compare,
        "<<" => Word::Shift,
        ">>" => Word::Shift,
        "..." => match mode {
            Mode::Text => Word::Ellipsis,
            Mode::Pattern => Word::Dots,
        },
        "<..." => match mode {
            Mode::Text => Word::Other,
            Mode::Pattern => Word::DeepOpen,
        },
        "...>" => match mode {
            Mode::Text => Word::Other,
            Mode::Pattern => Word::DeepClose,
        },
        "->" => Word::Arrow,
        "+=" => Word::Augmented,
        "-=" => Word::Augmented,
        "*=" => Word::Augmented,
        "/=" => Word::Augmented,
        "%=" => Word::Augmented,
        "@=" => Word::Augmented,
        "&=" => Word::Augmented,
        "|=" => Word::Augmented,
        "^=" => Word::Augmented,
        "//=" => Word::Augmented,
        ">>=" => Word::Augmented,
        "<<=" => Word::Augmented,
        "**=" => Word::Augmented,
        _ => Word::Other,
    }
}

/// The word of a mark.
fn mark_word(mode: Mode, text: &str) -> Word
    ensures { result ≡ spec.mark_word mode text.now }
{
    match text.as_bytes() {
        [byte] => short_mark(*byte),
        _ => long_mark(mode, text),
    }
}

/// The word of a keyword.
fn keyword_word(text: &str) -> Word
    ensures { result ≡ spec.by_text spec.keywords text.now }
{
    match text {
        "in" => Word::In,
        "is" => Word::Is,
        "not" => Word::Not,
        "and" => Word::And,
        "or" => Word::Or,
        "if" => Word::If,
        "else" => Word::Else,
        "None" => Word::Const,
        "True" => Word::Const,
        "False" => Word::Const,
        "lambda" => Word::Lambda,
        "for" => Word::For,
        "async" => Word::Async,
        "await" => Word::Await,
        "yield" => Word::Yield,
        "from" => Word::From,
        "as" => Word::As,
        "assert" => Word::Assert,
        "break" => Word::Break,
        "class" => Word::Class,
        "continue" => Word::Continue,
        "def" => Word::Def,
        "del" => Word::Del,
        "elif" => Word::Elif,
        "except" => Word::Except,
        "finally" => Word::Finally,
        "global" => Word::Global,
        "import" => Word::Import,
        "nonlocal" => Word::Nonlocal,
        "pass" => Word::Pass,
        "raise" => Word::Raise,
        "return" => Word::Return,
        "try" => Word::Try,
        "while" => Word::While,
        "with" => Word::With,
        _ => Word::Other,
    }
}

const DOTS_STRINGS: [&[u8]; 12] = [
    b"'...'",
    b"\"...\"",
    b"'''...'''",
    b"\"\"\"...\"\"\"",
    b"u'...'",
    b"u\"...\"",
    b"u'''...'''",
    b"u\"\"\"...\"\"\"",
    b"U'...'",
    b"U\"...\"",
    b"U'''...'''",
    b"U\"\"\"...\"\"\"",
];

/// The word of a string, which in a pattern tells `"..."` apart.
fn string_word(mode: Mode, text: &str) -> Word
    ensures { result ≡ spec.string_word mode text.now }
{
    match mode {
        Mode::Text => Word::Str,
        Mode::Pattern => {
            if is_dots_string(text) {
                Word::StrAny
            } else {
                Word::Str
            }
        }
    }
}

/// Whether a string's content is `...` and it has no prefix but `u`.
fn is_dots_string(text: &str) -> bool
    ensures { result ≡ spec.is_dots_string text.now }
{
    is_among(&DOTS_STRINGS, text.as_bytes())
}

/// Whether a token is `...` or `$...NAME`.
fn is_dots(token: &PyToken) -> bool
    ensures { result ≡ spec.is_dots token.now }
{
    match token.word {
        PyWord::MetaDots => true,
        PyWord::Op => token.text.as_str() == "...",
        _ => false,
    }
}

/// Whether a token is a comma or a closing brace.
fn ends_item(token: &PyToken) -> bool
    ensures { result ≡ spec.ends_item token.now }
{
    match token.word {
        PyWord::Op => matches!(token.text.as_str(), "," | "}"),
        _ => false,
    }
}

/// Whether dots stand first here, and then a comma or a closing brace.
fn lone_dots(tokens: &[PyToken]) -> bool
    ensures { result ≡ spec.lone_dots tokens.now }
{
    match tokens {
        [first, second, ..] => is_dots(first) && ends_item(second),
        _ => false,
    }
}

/// The word of a comma or a brace of a pattern, which tells one before dots apart.
fn before_dots(mode: Mode, word: Word, after: &[PyToken]) -> Word
    ensures { result ≡ spec.before_dots mode word after.now }
{
    match mode {
        Mode::Text => word,
        Mode::Pattern => match word {
            Word::Comma => {
                if lone_dots(after) {
                    Word::CommaDots
                } else {
                    Word::Comma
                }
            }
            Word::LeftBrace => {
                if lone_dots(after) {
                    Word::BraceDots
                } else {
                    Word::LeftBrace
                }
            }
            word => word,
        },
    }
}

/// What a word of a pattern alone is in a mode.
fn in_pattern(mode: Mode, word: Word) -> Word
    ensures { result ≡ spec.in_pattern mode word }
{
    match mode {
        Mode::Text => Word::Other,
        Mode::Pattern => word,
    }
}

/// The word of a token, before some others.
pub fn word_of(mode: Mode, token: &PyToken, after: &[PyToken]) -> Word
    ensures { result ≡ spec.word_of mode token.now after.now }
{
    match token.word {
        PyWord::Name => Word::Name,
        PyWord::Number => Word::Number,
        PyWord::Keyword => keyword_word(token.text.as_str()),
        PyWord::Str => string_word(mode, token.text.as_str()),
        PyWord::Op => before_dots(mode, mark_word(mode, token.text.as_str()), after),
        PyWord::Meta => in_pattern(mode, Word::Meta),
        PyWord::MetaDots => in_pattern(mode, Word::MetaDots),
        PyWord::Newline => Word::Newline,
        PyWord::Indent => Word::Indent,
        PyWord::Dedent => Word::Dedent,
        PyWord::End => Word::End,
        _ => Word::Other,
    }
}
