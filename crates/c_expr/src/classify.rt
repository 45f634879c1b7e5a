//! From the tokens of the scanner to those of the grammar.

ghost use Rattle.std.specs.Prelude.{◌≡◌, IfOk, map};
ghost use Rattle.c_expr.specs.Words as spec;

use crate::word::{Token, Word};
use c_lex::{CToken, CWord};
use node_tree::{List, Memory, Mode, Written};
use std::alloc::Global;

/// A text, and the word that it is.
struct Spelling {
    text: &'static [u8],
    word: Word,
}

/// The marks (C11 6.4.6) but `...`, and those of patterns; the most frequent ones first.
const MARKS: [Spelling; 47] = [
    Spelling {
        text: b"(",
        word: Word::OpenRound,
    },
    Spelling {
        text: b")",
        word: Word::CloseRound,
    },
    Spelling {
        text: b",",
        word: Word::Comma,
    },
    Spelling {
        text: b";",
        word: Word::Semicolon,
    },
    Spelling {
        text: b"*",
        word: Word::Star,
    },
    Spelling {
        text: b"=",
        word: Word::Equals,
    },
    Spelling {
        text: b"->",
        word: Word::Arrow,
    },
    Spelling {
        text: b".",
        word: Word::Dot,
    },
    Spelling {
        text: b"{",
        word: Word::OpenCurly,
    },
    Spelling {
        text: b"}",
        word: Word::CloseCurly,
    },
    Spelling {
        text: b"[",
        word: Word::OpenSquare,
    },
    Spelling {
        text: b"]",
        word: Word::CloseSquare,
    },
    Spelling {
        text: b"&",
        word: Word::Ampersand,
    },
    Spelling {
        text: b"-",
        word: Word::Sign,
    },
    Spelling {
        text: b"+",
        word: Word::Sign,
    },
    Spelling {
        text: b"==",
        word: Word::Equality,
    },
    Spelling {
        text: b"!",
        word: Word::Flip,
    },
    Spelling {
        text: b":",
        word: Word::Colon,
    },
    Spelling {
        text: b"<",
        word: Word::Order,
    },
    Spelling {
        text: b"&&",
        word: Word::And,
    },
    Spelling {
        text: b"||",
        word: Word::Or,
    },
    Spelling {
        text: b"!=",
        word: Word::Equality,
    },
    Spelling {
        text: b">",
        word: Word::Order,
    },
    Spelling {
        text: b"++",
        word: Word::Step,
    },
    Spelling {
        text: b"--",
        word: Word::Step,
    },
    Spelling {
        text: b"|",
        word: Word::Bar,
    },
    Spelling {
        text: b"<<",
        word: Word::Shift,
    },
    Spelling {
        text: b"?",
        word: Word::Question,
    },
    Spelling {
        text: b">>",
        word: Word::Shift,
    },
    Spelling {
        text: b"/",
        word: Word::Slash,
    },
    Spelling {
        text: b">=",
        word: Word::Order,
    },
    Spelling {
        text: b"<=",
        word: Word::Order,
    },
    Spelling {
        text: b"+=",
        word: Word::Assigns,
    },
    Spelling {
        text: b"~",
        word: Word::Flip,
    },
    Spelling {
        text: b"%",
        word: Word::Slash,
    },
    Spelling {
        text: b"|=",
        word: Word::Assigns,
    },
    Spelling {
        text: b"-=",
        word: Word::Assigns,
    },
    Spelling {
        text: b"&=",
        word: Word::Assigns,
    },
    Spelling {
        text: b"^",
        word: Word::Caret,
    },
    Spelling {
        text: b"*=",
        word: Word::Assigns,
    },
    Spelling {
        text: b"/=",
        word: Word::Assigns,
    },
    Spelling {
        text: b"%=",
        word: Word::Assigns,
    },
    Spelling {
        text: b"<<=",
        word: Word::Assigns,
    },
    Spelling {
        text: b">>=",
        word: Word::Assigns,
    },
    Spelling {
        text: b"^=",
        word: Word::Assigns,
    },
    Spelling {
        text: b"<...",
        word: Word::DeepOpen,
    },
    Spelling {
        text: b"...>",
        word: Word::DeepClose,
    },
];

/// The keywords (C11 6.4.1), the most frequent ones first.
const KEYWORDS: [Spelling; 37] = [
    Spelling {
        text: b"int",
        word: Word::TypeWord,
    },
    Spelling {
        text: b"if",
        word: Word::If,
    },
    Spelling {
        text: b"return",
        word: Word::Return,
    },
    Spelling {
        text: b"struct",
        word: Word::Tag,
    },
    Spelling {
        text: b"const",
        word: Word::Qualifier,
    },
    Spelling {
        text: b"static",
        word: Word::Qualifier,
    },
    Spelling {
        text: b"char",
        word: Word::TypeWord,
    },
    Spelling {
        text: b"void",
        word: Word::TypeWord,
    },
    Spelling {
        text: b"unsigned",
        word: Word::TypeWord,
    },
    Spelling {
        text: b"sizeof",
        word: Word::Sizeof,
    },
    Spelling {
        text: b"else",
        word: Word::Else,
    },
    Spelling {
        text: b"for",
        word: Word::For,
    },
    Spelling {
        text: b"case",
        word: Word::Case,
    },
    Spelling {
        text: b"break",
        word: Word::Break,
    },
    Spelling {
        text: b"long",
        word: Word::TypeWord,
    },
    Spelling {
        text: b"while",
        word: Word::While,
    },
    Spelling {
        text: b"goto",
        word: Word::Goto,
    },
    Spelling {
        text: b"enum",
        word: Word::Tag,
    },
    Spelling {
        text: b"switch",
        word: Word::Switch,
    },
    Spelling {
        text: b"default",
        word: Word::Default,
    },
    Spelling {
        text: b"inline",
        word: Word::Qualifier,
    },
    Spelling {
        text: b"extern",
        word: Word::Qualifier,
    },
    Spelling {
        text: b"typedef",
        word: Word::Qualifier,
    },
    Spelling {
        text: b"union",
        word: Word::Tag,
    },
    Spelling {
        text: b"continue",
        word: Word::Continue,
    },
    Spelling {
        text: b"do",
        word: Word::Do,
    },
    Spelling {
        text: b"double",
        word: Word::TypeWord,
    },
    Spelling {
        text: b"float",
        word: Word::TypeWord,
    },
    Spelling {
        text: b"short",
        word: Word::TypeWord,
    },
    Spelling {
        text: b"signed",
        word: Word::TypeWord,
    },
    Spelling {
        text: b"volatile",
        word: Word::Qualifier,
    },
    Spelling {
        text: b"register",
        word: Word::Qualifier,
    },
    Spelling {
        text: b"restrict",
        word: Word::Qualifier,
    },
    Spelling {
        text: b"auto",
        word: Word::Qualifier,
    },
    Spelling {
        text: b"_Bool",
        word: Word::TypeWord,
    },
    Spelling {
        text: b"_Complex",
        word: Word::TypeWord,
    },
    Spelling {
        text: b"_Noreturn",
        word: Word::Qualifier,
    },
];

/// The word that a text is.
fn word_among(mut spellings: &[Spelling], text: &[u8]) -> Word
    ensures { result ≡ spec.word_among (map (λ s. record { text = s.text.now; word = s.word }) spellings.entry.now) text.now }
{
    while let [spelling, rest @ ..] = spellings {
        if spelling.text == text {
            return spelling.word;
        }
        spellings = rest;
    }
    Word::Other
}

/// The word of a mark: `...` is an ellipsis in a text, and dots in a pattern.
#[tactic(auto, unfolding(crate::specs::Words::mark_word))]
fn mark_word(mode: Mode, text: &str) -> Word
    ensures { result ≡ spec.mark_word mode text.now }
{
    if text.as_bytes() == b"...".as_slice() {
        return match mode {
            Mode::Text => Word::Ellipsis,
            Mode::Pattern => Word::Dots,
        };
    }
    other_mark(text)
}

/// The word of a mark but `...`.
fn other_mark(text: &str) -> Word
    ensures { result ≡ spec.other_mark text.now }
{
    word_among(&MARKS, text.as_bytes())
}

/// The word of a keyword.
fn keyword_word(text: &str) -> Word
    ensures { result ≡ spec.keyword_word text.now }
{
    word_among(&KEYWORDS, text.as_bytes())
}

/// The word of a string; in a pattern `"..."` has a word of its own.
#[tactic(auto, unfolding(crate::specs::Words::str_word))]
fn str_word(mode: Mode, text: &str) -> Word
    ensures { result ≡ spec.str_word mode text.now }
{
    match mode {
        Mode::Text => Word::Str,
        Mode::Pattern => {
            if text.as_bytes() == b"\"...\"".as_slice() {
                Word::StrAny
            } else {
                Word::Str
            }
        }
    }
}

/// The word of a token.
fn word_of(mode: Mode, word: CWord, text: &str) -> Word
    ensures { result ≡ spec.word_of mode word text.now }
{
    match word {
        CWord::Name => Word::Name,
        CWord::Keyword => keyword_word(text),
        CWord::Number => Word::Number,
        CWord::Str => str_word(mode, text),
        CWord::Char => Word::Char,
        CWord::Op => mark_word(mode, text),
        CWord::Meta => Word::Meta,
        CWord::MetaDots => Word::MetaDots,
        CWord::Directive => Word::Directive,
        CWord::End => Word::End,
    }
}

/// A word of the mode: what patterns alone have stands in no tree of a text.
#[tactic(auto, unfolding(crate::specs::Words::in_mode, crate::specs::Words::class))]
fn in_mode(mode: Mode, word: Word) -> Word
    ensures { result ≡ spec.in_mode mode word }
{
    match mode {
        Mode::Pattern => word,
        Mode::Text => match word {
            Word::StrAny
            | Word::Meta
            | Word::MetaDots
            | Word::Dots
            | Word::DeepOpen
            | Word::DeepClose => Word::Other,
            word => word,
        },
    }
}

/// The tokens, each with its word.
pub fn classified<'t>(
    alloc: Global,
    tokens: &'t List<CToken>,
    mode: Mode,
) -> Result<List<Token<'t>>, Memory>
    ensures { IfOk result (λ l. l ≡ map (spec.token_of mode) tokens.now) }
{
    let mut classed = List::new(alloc);
    for token in tokens.as_slice() {
        classed.push(Token {
            word: in_mode(mode, word_of(mode, token.word, token.text.as_str())),
            text: Written::new(token.text.as_str()),
            span: token.span,
        })?;
    }
    Ok(classed)
}
