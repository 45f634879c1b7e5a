//! Within an f-string: its text and its fields.

ghost use Rattle.std.specs.Prelude.{◌≡◌, ◌≤◌, ◌+◌, ◌<◌, List, [], ◌∷◌, ◌++◌, length, OnOk};
ghost use Rattle.py_lex.specs.Layout.{Turns};
ghost use Rattle.py_lex.specs.Inside as spec;
ghost use Rattle.py_lex.specs.declared.token.FPart.{FPart as part};

use crate::class::{Class, class_at};
use crate::layout::{depth_after, push_written, word_of};
use crate::token::{FPart, PyToken, push_closely};
use node_tree::{LexFault, List, MOST_BYTES, Span, Text};
use std::alloc::Global;
use std::mem;

/// What of an f-string is being read.
#[derive(Clone, Copy, Debug, PartialEq, Eq)]
pub enum Place {
    /// Its text.
    Plain,
    /// The expression of a field.
    Field,
    /// A field behind its conversion.
    Converted,
    /// The format of a field.
    Format,
    /// The expression of a field in a format.
    FormatField,
    /// A field in a format, behind its conversion.
    FormatConverted,
}

/// A field as far as it was read: where it begins, the tokens of its expression, and its conversion.
#[derive(Drop)]
pub struct Field {
    pub from: usize,
    pub tokens: List<PyToken>,
    pub conversion: Text,
}

/// Where reading stands within an f-string.
#[derive(Drop)]
pub struct Inside {
    pub at: usize,
    pub place: Place,
    pub depth: usize,
    pub field: Field,
    pub format: List<FPart>,
    pub inner: Field,
}

impl Inside {
    /// The start of an f-string's inside.
    pub fn first(alloc: Global, at: usize) -> Inside
        ensures { result ≡ spec.first at }
    {
        Inside {
            at,
            place: Place::Plain,
            depth: 0,
            field: opened(alloc, 0),
            format: List::new(alloc),
            inner: opened(alloc, 0),
        }
    }
}

/// Whether a text has a backslash in it.
fn has_backslash(text: &str) -> bool
    ensures { result ≡ spec.has_backslash text.now }
{
    for b in text.as_bytes() {
        if *b == b'\\' {
            return true;
        }
    }
    false
}

fn span(from: usize, to: usize) -> Span
    requires { (from ≤ MOST_BYTES) × (to ≤ MOST_BYTES) }
    ensures { result ≡ record { from = from; to = to } }
{
    Span {
        from: from as u32,
        to: to as u32,
    }
}

/// A field at its opening brace.
fn opened(alloc: Global, from: usize) -> Field
    ensures { result ≡ spec.opened from }
{
    Field {
        from,
        tokens: List::new(alloc),
        conversion: Text::new(alloc),
    }
}

/// Takes a field that was read, and leaves an empty one.
fn taken(alloc: Global, field: &mut Field) -> Field
    ensures value { result ≡ field.old }
    ensures left { field.new ≡ spec.opened 0 }
{
    mem::replace(field, opened(alloc, 0))
}

/// Keeps a token of a field's expression.
fn keep(
    alloc: Global,
    field: &mut Field,
    class: Class,
    text: &str,
    at: usize,
    parts: List<FPart>,
) -> Result<(), LexFault>
    requires { at + length text.now ≤ MOST_BYTES }
    ensures { spec.Keeps (spec.kept field.old class text.now at parts) field.new result }
{
    let Some(word) = word_of(class, text) else {
        return match class {
            Class::Blank | Class::LineEnd => Ok(()),
            _ => Err(LexFault::NoTokens),
        };
    };
    if has_backslash(text) {
        return Err(LexFault::NoTokens);
    }
    push_written(alloc, &mut field.tokens, word, text, at, parts)
}

/// Ends a field, which is a part.
fn end_field(
    alloc: Global,
    all: &mut List<FPart>,
    inside: &mut Inside,
    text: &str,
) -> Result<(), LexFault>
    requires room { inside.old.at + length text.now ≤ MOST_BYTES }
    requires bounded { spec.IsBounded inside.old }
    ensures { Turns (spec.field_end inside.old text.now) all.old all.new inside.new result }
{
    let field = taken(alloc, &mut inside.field);
    let format = mem::replace(&mut inside.format, List::new(alloc));
    inside.at += text.len();
    inside.place = Place::Plain;
    let part = FPart::Field(
        field.tokens,
        field.conversion,
        format,
        span(field.from, inside.at),
    );
    push_closely(alloc, all, part)?;
    Ok(())
}

/// Ends a field in a format.
fn end_inner(alloc: Global, inside: &mut Inside, text: &str) -> Result<(), LexFault>
    requires room { inside.old.at + length text.now ≤ MOST_BYTES }
    requires bounded { spec.IsBounded inside.old }
    ensures { Turns (spec.inner_end inside.old text.now) [] [] inside.new result }
{
    let inner = taken(alloc, &mut inside.inner);
    inside.at += text.len();
    inside.place = Place::Format;
    let part = FPart::Field(
        inner.tokens,
        inner.conversion,
        List::new(alloc),
        span(inner.from, inside.at),
    );
    push_closely(alloc, &mut inside.format, part)?;
    Ok(())
}

/// A lexeme in the text of an f-string.
fn plain_step(
    alloc: Global,
    all: &mut List<FPart>,
    inside: &mut Inside,
    class: Class,
    text: &str,
) -> Result<(), LexFault>
    requires room { inside.old.at + length text.now ≤ MOST_BYTES }
    ensures { Turns (spec.plain_step inside.old class text.now) all.old all.new inside.new result }
{
    let from = inside.at;
    inside.at += text.len();
    match class {
        Class::Plain => {
            let part = FPart::Plain(Text::from_str(alloc, text)?, span(from, inside.at));
            push_closely(alloc, all, part)?;
            Ok(())
        }
        Class::FieldStart => {
            inside.place = Place::Field;
            inside.depth = 0;
            inside.field = opened(alloc, from);
            Ok(())
        }
        _ => Err(LexFault::NoTokens),
    }
}

/// A lexeme in the expression of a field; an f-string comes with its parts.
fn field_step(
    alloc: Global,
    all: &mut List<FPart>,
    inside: &mut Inside,
    class: Class,
    text: &str,
    parts: List<FPart>,
) -> Result<(), LexFault>
    requires room { inside.old.at + length text.now ≤ MOST_BYTES }
    requires bounded { spec.IsBounded inside.old }
    ensures { Turns (spec.field_step inside.old class text.now parts) all.old all.new inside.new result }
{
    match class {
        Class::FieldEnd => return end_field(alloc, all, inside, text),
        Class::Colon => inside.place = Place::Format,
        Class::Conversion => {
            inside.field.conversion = Text::from_str(alloc, text)?;
            inside.place = Place::Converted;
        }
        _ => {
            keep(alloc, &mut inside.field, class, text, inside.at, parts)?;
            inside.depth = depth_after(class, inside.depth);
        }
    }
    inside.at += text.len();
    Ok(())
}

/// A lexeme behind the conversion of a field.
fn converted_step(
    alloc: Global,
    all: &mut List<FPart>,
    inside: &mut Inside,
    class: Class,
    text: &str,
) -> Result<(), LexFault>
    requires room { inside.old.at + length text.now ≤ MOST_BYTES }
    requires bounded { spec.IsBounded inside.old }
    ensures { Turns (spec.converted_step inside.old class text.now) all.old all.new inside.new result }
{
    match class {
        Class::FieldEnd => end_field(alloc, all, inside, text),
        Class::Colon => {
            inside.place = Place::Format;
            inside.at += text.len();
            Ok(())
        }
        _ => Err(LexFault::NoTokens),
    }
}

/// A lexeme in the format of a field.
fn format_step(
    alloc: Global,
    all: &mut List<FPart>,
    inside: &mut Inside,
    class: Class,
    text: &str,
) -> Result<(), LexFault>
    requires room { inside.old.at + length text.now ≤ MOST_BYTES }
    requires bounded { spec.IsBounded inside.old }
    ensures { Turns (spec.format_step inside.old class text.now) all.old all.new inside.new result }
{
    let from = inside.at;
    match class {
        Class::FieldEnd => return end_field(alloc, all, inside, text),
        Class::Plain => {
            let part = FPart::Plain(Text::from_str(alloc, text)?, span(from, from + text.len()));
            push_closely(alloc, &mut inside.format, part)?;
        }
        Class::FieldStart => {
            inside.place = Place::FormatField;
            inside.depth = 0;
            inside.inner = opened(alloc, from);
        }
        _ => return Err(LexFault::NoTokens),
    }
    inside.at += text.len();
    Ok(())
}

/// A lexeme in the expression of a field in a format.
fn inner_step(
    alloc: Global,
    inside: &mut Inside,
    class: Class,
    text: &str,
    parts: List<FPart>,
) -> Result<(), LexFault>
    requires room { inside.old.at + length text.now ≤ MOST_BYTES }
    requires bounded { spec.IsBounded inside.old }
    ensures { Turns (spec.inner_step inside.old class text.now parts) [] [] inside.new result }
{
    match class {
        Class::FieldEnd => return end_inner(alloc, inside, text),
        Class::Colon => return Err(LexFault::NoTokens),
        Class::Conversion => {
            inside.inner.conversion = Text::from_str(alloc, text)?;
            inside.place = Place::FormatConverted;
        }
        _ => {
            keep(alloc, &mut inside.inner, class, text, inside.at, parts)?;
            inside.depth = depth_after(class, inside.depth);
        }
    }
    inside.at += text.len();
    Ok(())
}

/// Reads one lexeme of the class that has the number; an f-string comes with its parts.
pub fn step(
    alloc: Global,
    all: &mut List<FPart>,
    inside: &mut Inside,
    number: u16,
    text: &str,
    parts: List<FPart>,
) -> Result<(), LexFault>
    requires room { inside.old.at + length text.now ≤ MOST_BYTES }
    requires bounded { spec.IsBounded inside.old }
    requires some { 0 < length text.now }
    ensures turns { Turns (spec.step inside.old number text.now parts) all.old all.new inside.new result }
    ensures moves { OnOk result (inside.new.at ≡ inside.old.at + length text.now) }
    ensures bounded { OnOk result (spec.IsBounded inside.new) }
{
    let class = class_at(number);
    match inside.place {
        Place::Plain => plain_step(alloc, all, inside, class, text),
        Place::Field => field_step(alloc, all, inside, class, text, parts),
        Place::Converted => converted_step(alloc, all, inside, class, text),
        Place::Format => format_step(alloc, all, inside, class, text),
        Place::FormatField => inner_step(alloc, inside, class, text, parts),
        Place::FormatConverted => match class {
            Class::FieldEnd => end_inner(alloc, inside, text),
            _ => Err(LexFault::NoTokens),
        },
    }
}
