//! The parts of f-strings: a lexeme is looked for together with its parts, and they are read lexeme after lexeme.

ghost use Rattle.std.specs.Prelude.{◌≡◌, ◌≤◌, ◌<◌, ◌+◌, List, length, IfOk, IfSome, MatchOption};
ghost use Rattle.std.specs.Str.{chars, IsUtf8};
ghost use Rattle.lexing.specs.Automaton.{Accepts};
ghost use Rattle.py_lex.specs.Lexing.{Gives};
ghost use Rattle.py_lex.specs.Starts as starts;
ghost use Rattle.py_lex.specs.Parts as spec;
ghost use Rattle.py_lex.specs.declared.token.FPart.{FPart as part};

use crate::class::{Class, Forms, class_at};
use crate::inside::{Inside, Place, step};
use crate::table::{COLUMNS, ROWS, STARTS, WIDTH};
use crate::token::FPart;
use lexing::Automaton;
use node_tree::{LexFault, List, MOST_BYTES, Mode};
use std::alloc::Global;

/// Where lexemes are looked for.
#[derive(Clone, Copy, Debug, PartialEq, Eq)]
pub enum Lexemes {
    /// In a text, and in a field within brackets.
    Text,
    /// In a field outside brackets.
    Field,
    /// Behind the conversion of a field.
    Converted,
    /// In the text of an f-string.
    Plain,
    /// In the format of a field.
    Format,
}

/// The longest lexeme at the front of a text that has parts: its number, its text, what follows it, and its parts.
#[derive(Drop)]
pub struct Found<'t> {
    pub word: u16,
    pub text: &'t str,
    pub rest: &'t str,
    pub parts: List<FPart>,
}

/// The place of a mode and forms among eight.
fn form_place(mode: Mode, forms: Forms) -> usize
    ensures value { result ≡ starts.form_place mode forms }
    ensures bound { result < 8 }
{
    let first = match mode {
        Mode::Text => 0,
        Mode::Pattern => 4,
    };
    match forms {
        Forms::Both => first,
        Forms::Short => first + 1,
        Forms::Long => first + 2,
        Forms::Neither => first + 3,
    }
}

/// The place of a start in the table's list of starts.
fn start_place(lexemes: Lexemes, mode: Mode, forms: Forms) -> usize
    ensures value { result ≡ starts.start_place lexemes mode forms }
    ensures bound { result < 19 }
{
    match lexemes {
        Lexemes::Text => form_place(mode, forms),
        Lexemes::Field => 8 + form_place(mode, forms),
        Lexemes::Converted => 16,
        Lexemes::Plain => 17,
        Lexemes::Format => 18,
    }
}

/// The automaton of lexemes in a mode, with some forms of f-strings.
fn automaton(lexemes: Lexemes, mode: Mode, forms: Forms) -> Automaton<'static>
    ensures { Accepts result.table result.start (starts.rules_of lexemes mode forms) }
{
    let start = STARTS[start_place(lexemes, mode, forms)];
    Automaton::new(&COLUMNS, &ROWS, WIDTH, start)
}

/// Whether a class is one of f-strings.
fn is_f_string(class: Class) -> bool
    ensures { result ≡ spec.is_f_string class }
{
    matches!(class, Class::FShort | Class::FLong)
}

/// The forms of f-strings but that of a class.
fn fewer(class: Class, forms: Forms) -> Forms
    ensures { result ≡ starts.fewer class forms }
{
    match (class, forms) {
        (Class::FShort, Forms::Both) => Forms::Long,
        (Class::FShort, Forms::Short) => Forms::Neither,
        (Class::FLong, Forms::Both) => Forms::Short,
        (Class::FLong, Forms::Long) => Forms::Neither,
        _ => forms,
    }
}

/// The bytes of an f-string's prefix.
fn prefix_len(text: &str) -> usize
    ensures value { result ≡ spec.prefix_len text.now }
    ensures bound { result ≤ length text.now }
{
    let mut len = 0;
    for b in text.as_bytes() {
        if *b == b'"' || *b == b'\'' {
            return len;
        }
        len += 1;
    }
    len
}

/// The quotes at each end of an f-string.
fn quotes_len(class: Class) -> usize
    ensures value { result ≡ spec.quotes_len class }
    ensures bound { result ≤ 3 }
{
    match class {
        Class::FLong => 3,
        _ => 1,
    }
}

/// Where the inside of an f-string begins.
fn inside_start(class: Class, text: &str) -> usize
    ensures value { result ≡ spec.inside_start class text.now }
    ensures bound { result ≤ length text.now + 3 }
{
    prefix_len(text) + quotes_len(class)
}

/// What stands between the quotes of an f-string.
fn inside_of(class: Class, text: &str) -> Option<&str>
    requires { length text.now ≤ MOST_BYTES }
    ensures cases { MatchOption result (spec.IsQuoted class text.now → ⊥) (λ inner. spec.IsQuoted class text.now × (inner.now ≡ spec.inside class text.now)) }
    ensures room { IfSome result (λ inner. spec.inside_start class text.now + length inner.now ≤ length text.now) }
{
    let from = inside_start(class, text);
    let to = text.len().saturating_sub(quotes_len(class));
    if text.is_char_boundary(from) && text.is_char_boundary(to) {
        text.get(from..to)
    } else {
        None
    }
}

/// The lexemes at a place within an f-string, where so many brackets of a field are open.
fn lexemes_at(place: Place, depth: usize) -> Lexemes
    ensures { result ≡ spec.lexemes_at place depth }
{
    match place {
        Place::Plain => Lexemes::Plain,
        Place::Converted | Place::FormatConverted => Lexemes::Converted,
        Place::Format => Lexemes::Format,
        Place::Field | Place::FormatField => {
            if depth == 0 {
                Lexemes::Field
            } else {
                Lexemes::Text
            }
        }
    }
}

/// The longest lexeme at the front of a text that has parts, if it is an f-string, with those parts.
///
/// `levels` bounds how many f-strings stand within one another. `NoTokens` comes just where there is no such lexeme.
#[cycle(parts)]
pub fn look<'t>(
    alloc: Global,
    lexemes: Lexemes,
    mode: Mode,
    forms: Forms,
    text: &'t str,
    at: usize,
    levels: usize,
) -> Result<Found<'t>, LexFault>
    requires { at + length text.now ≤ MOST_BYTES }
    ensures { spec.Looks (spec.HasParts levels mode) (starts.rules_of lexemes mode forms) at text.now result }
{
    let Some(piece) = automaton(lexemes, mode, forms).next_piece(text) else {
        return Err(LexFault::NoTokens);
    };
    let class = class_at(piece.word);
    if !is_f_string(class) {
        return Ok(Found {
            word: piece.word,
            text: piece.text,
            rest: piece.rest,
            parts: List::new(alloc),
        });
    }
    match parts_of(alloc, mode, class, piece.text, at, levels) {
        Ok(parts) => Ok(Found {
            word: piece.word,
            text: piece.text,
            rest: piece.rest,
            parts,
        }),
        Err(fault) => match fault {
            LexFault::Memory => Err(LexFault::Memory),
            LexFault::NoTokens => {
                look(alloc, lexemes, mode, fewer(class, forms), text, at, levels)
            }
        },
    }
}

/// The parts of an f-string at a place.
#[cycle(parts)]
fn parts_of(
    alloc: Global,
    mode: Mode,
    class: Class,
    text: &str,
    at: usize,
    levels: usize,
) -> Result<List<FPart>, LexFault>
    requires { at + length text.now ≤ MOST_BYTES }
    ensures given { IfOk result (λ l. spec.HasParts levels mode at class (chars text.now) l) }
    ensures only { (xs : List part) → spec.HasParts levels mode at class (chars text.now) xs → Gives xs result }
{
    if levels == 0 {
        return Err(LexFault::NoTokens);
    }
    let Some(inner) = inside_of(class, text) else {
        return Err(LexFault::NoTokens);
    };
    parts_within(
        alloc,
        mode,
        inner,
        at + inside_start(class, text),
        levels - 1,
    )
}

/// The parts of a text that stands between the quotes of an f-string, at a place.
#[cycle(parts)]
fn parts_within(
    alloc: Global,
    mode: Mode,
    text: &str,
    at: usize,
    levels: usize,
) -> Result<List<FPart>, LexFault>
    requires { at + length text.now ≤ MOST_BYTES }
    ensures given { IfOk result (λ l. spec.HasInside (spec.HasParts levels mode) mode at (chars text.now) l) }
    ensures only { (xs : List part) → spec.HasInside (spec.HasParts levels mode) mode at (chars text.now) xs → Gives xs result }
{
    let mut all = List::new(alloc);
    let mut rest = text;
    let mut inside = Inside::first(alloc, at);
    'lexemes: while !rest.is_empty() {
        let lexemes = lexemes_at(inside.place, inside.depth);
        let found = match look(alloc, lexemes, mode, Forms::Both, rest, inside.at, levels) {
            Ok(found) => found,
            Err(fault) => return Err(fault),
        };
        step(
            alloc,
            &mut all,
            &mut inside,
            found.word,
            found.text,
            found.parts,
        )?;
        rest = found.rest;
    }
    match inside.place {
        Place::Plain => Ok(all),
        _ => Err(LexFault::NoTokens),
    }
}
