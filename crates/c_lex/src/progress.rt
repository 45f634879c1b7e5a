//! What a lexeme does: it gives a token, or stands between tokens.

ghost use Rattle.std.specs.Prelude.{◌≡◌, ◌≤◌, ◌+◌, length, OnOk};
ghost use Rattle.c_lex.specs.Lexing as spec;
ghost use Rattle.c_lex.specs.Classes.{class_of};
ghost use Rattle.c_lex.specs.Comments as remarks;

use crate::keyword::is_keyword;
use crate::token::{CToken, CWord};
use node_tree::{LexFault, List, MOST_BYTES, Span, Text};
use std::alloc::Global;

/// The classes of lexemes: of tokens, and of the parts between them.
#[derive(Clone, Copy, Debug, PartialEq, Eq)]
pub enum Class {
    Name,
    Number,
    Str,
    Char,
    Op,
    Meta,
    MetaDots,
    Directive,
    Blank,
    /// A line's end, alone or after a backslash.
    LineEnd,
    /// A comment within a line.
    Comment,
    /// A comment over several lines.
    LongComment,
    /// The start of a comment that does not end.
    OpenComment,
}

/// The class of a number in the automaton's table.
fn class_at(number: u16) -> Class
    ensures { result ≡ class_of number }
{
    match number {
        0 => Class::Name,
        1 => Class::Number,
        2 => Class::Str,
        3 => Class::Char,
        4 => Class::Op,
        5 => Class::Meta,
        6 => Class::MetaDots,
        7 => Class::Directive,
        8 => Class::Blank,
        9 => Class::LineEnd,
        10 => Class::Comment,
        11 => Class::LongComment,
        _ => Class::OpenComment,
    }
}

/// How far reading has come: the bytes read, and whether the line has had no token yet.
#[derive(Clone, Copy, Drop)]
pub struct Progress {
    pub at: usize,
    pub fresh: bool,
}

/// The word of a token, or `None` for what stands between tokens.
fn word_of(class: Class, text: &str) -> Option<CWord>
    ensures { result ≡ spec.word_of class text.now }
{
    match class {
        Class::Name => Some(if is_keyword(text) {
            CWord::Keyword
        } else {
            CWord::Name
        }),
        Class::Number => Some(CWord::Number),
        Class::Str => Some(CWord::Str),
        Class::Char => Some(CWord::Char),
        Class::Op => Some(CWord::Op),
        Class::Meta => Some(CWord::Meta),
        Class::MetaDots => Some(CWord::MetaDots),
        Class::Directive => Some(CWord::Directive),
        _ => None,
    }
}

/// Whether the line has had no token, after a part between tokens; `None` where no text may have the part.
fn fresh_after(class: Class, fresh: bool) -> Option<bool>
    ensures { result ≡ spec.fresh_after class fresh }
{
    match class {
        Class::LineEnd | Class::LongComment => Some(true),
        Class::OpenComment => None,
        _ => Some(fresh),
    }
}

/// Keeps a token.
pub fn keep(
    alloc: Global,
    tokens: &mut List<CToken>,
    word: CWord,
    text: &str,
    at: usize,
) -> Result<(), LexFault>
    requires { at + length text.now ≤ MOST_BYTES }
    ensures { spec.Keeps (spec.token word at text.now) tokens.old tokens.new result }
{
    let token = CToken {
        word,
        text: Text::from_str(alloc, text)?,
        span: Span {
            from: at as u32,
            to: (at + text.len()) as u32,
        },
    };
    tokens.push(token)?;
    Ok(())
}

/// Reads one lexeme, of the class that has the number.
pub fn step(
    alloc: Global,
    tokens: &mut List<CToken>,
    progress: &mut Progress,
    number: u16,
    text: &str,
) -> Result<(), LexFault>
    requires { progress.old.at + length text.now ≤ MOST_BYTES }
    ensures turns { spec.Turns (spec.step progress.old number text.now) tokens.old tokens.new progress.new result }
    ensures at { OnOk result (progress.new.at ≡ progress.old.at + length text.now) }
{
    let class = class_at(number);
    let fresh = if let Some(word) = word_of(class, text) {
        keep(alloc, tokens, word, text, progress.at)?;
        false
    } else {
        let Some(fresh) = fresh_after(class, progress.fresh) else {
            return Err(LexFault::NoTokens);
        };
        fresh
    };
    progress.at += text.len();
    progress.fresh = fresh;
    Ok(())
}

/// Whether a lexeme of this class is a comment.
fn is_comment(class: Class) -> bool
    ensures { result ≡ remarks.is_comment class }
{
    match class {
        Class::Comment | Class::LongComment => true,
        _ => false,
    }
}

/// Reads one lexeme, of the class that has the number, and keeps where it stands if it is a comment.
pub fn note(
    comments: &mut List<Span>,
    progress: &mut Progress,
    number: u16,
    text: &str,
) -> Result<(), LexFault>
    requires { progress.old.at + length text.now ≤ MOST_BYTES }
    ensures turns { spec.Turns (remarks.note progress.old number text.now) comments.old comments.new progress.new result }
    ensures at { OnOk result (progress.new.at ≡ progress.old.at + length text.now) }
{
    let class = class_at(number);
    let fresh = if word_of(class, text).is_some() {
        false
    } else {
        let Some(fresh) = fresh_after(class, progress.fresh) else {
            return Err(LexFault::NoTokens);
        };
        fresh
    };
    let end = progress.at + text.len();
    if is_comment(class) {
        comments.push(Span {
            from: progress.at as u32,
            to: end as u32,
        })?;
    }
    progress.at = end;
    progress.fresh = fresh;
    Ok(())
}
