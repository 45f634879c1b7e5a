//! The tokens of C as its grammar sees them.

ghost use Rattle.std.specs.Prelude.{◌≡◌};
ghost use Rattle.c_expr.specs.Words.{class};

use node_tree::{Span, Written};

/// What a token is to the grammar: a word for each part that tokens play in it.
#[derive(Clone, Copy, Debug, PartialEq, Eq)]
pub enum Word {
    /// What stands behind the last token.
    End,
    Name,
    Number,
    Str,
    Char,
    /// `void`, `char`, `short`, `int`, `long`, `float`, `double`, `signed`, `unsigned`, `_Bool` or `_Complex`.
    TypeWord,
    /// `struct`, `union` or `enum`.
    Tag,
    /// `const`, `volatile`, `restrict`, `static`, `extern`, `register`, `auto`, `inline`, `typedef` or `_Noreturn`.
    Qualifier,
    Sizeof,
    Break,
    Case,
    Continue,
    Default,
    Do,
    Else,
    For,
    Goto,
    If,
    Return,
    Switch,
    While,
    OpenRound,
    CloseRound,
    OpenSquare,
    CloseSquare,
    OpenCurly,
    CloseCurly,
    Comma,
    Semicolon,
    Colon,
    Question,
    Dot,
    Arrow,
    /// `++` or `--`.
    Step,
    /// `&`.
    Ampersand,
    /// `*`.
    Star,
    /// `+` or `-`.
    Sign,
    /// `~` or `!`.
    Flip,
    /// `/` or `%`.
    Slash,
    /// `<<` or `>>`.
    Shift,
    /// `<`, `>`, `<=` or `>=`.
    Order,
    /// `==` or `!=`.
    Equality,
    /// `^`.
    Caret,
    /// `|`.
    Bar,
    /// `&&`.
    And,
    /// `||`.
    Or,
    /// `=`.
    Equals,
    /// `*=`, `/=`, `%=`, `+=`, `-=`, `<<=`, `>>=`, `&=`, `^=` or `|=`.
    Assigns,
    /// The `...` of a text.
    Ellipsis,
    /// A line that begins with `#`.
    Directive,
    /// The string `"..."` of a pattern.
    StrAny,
    /// A metavariable `$NAME` of a pattern.
    Meta,
    /// A metavariable `$...NAME` of a pattern.
    MetaDots,
    /// The `...` of a pattern.
    Dots,
    /// The `<...` of a pattern.
    DeepOpen,
    /// The `...>` of a pattern.
    DeepClose,
    /// A token that stands in no tree.
    Other,
}

/// The class of a word in the grammar.
#[tactic(auto, unfolding(crate::specs::Words::class))]
pub fn class_of(word: Word) -> u8
    ensures { result ≡ class word }
{
    word as u8
}

/// A token: its word, its text as written, and where it stands in the whole text.
#[derive(Drop)]
pub struct Token<'t> {
    pub word: Word,
    pub text: Written<'t>,
    pub span: Span,
}
