//! Quoted scalars.

ghost use Rattle.std.specs.Prelude.{◌≡◌, ◌≤◌, ◌-◌, ◌∷◌, [], true, length, take, drop, IfOk, option_map, string_bytes, encode_utf8_all};
ghost use Rattle.std.specs.Str.{chars};
ghost use Rattle.yaml_lines.specs.Body.{texts};
ghost use Rattle.yaml_cells.specs.Quoted as spec;
ghost use Rattle.yaml_cells.specs.Unescaping.{said};
ghost use Rattle.yaml_lines.specs.declared.escape.Reading.TheVariants.{Plain};

use crate::fold::{Line, fold};
use node_tree::{List, Memory, Text};
use std::alloc::Global;
use std::str::from_utf8;
use yaml_lines::escape::{Reading, Step, first_char, next_step, undoubled};
use yaml_lines::head::{before_blanks, ends_sign, is_blank_line, is_skipped, past_blanks};
use yaml_lines::key::quoted_end;
use yaml_lines::scan::{Place, Scan};

/// A text without its escapes, and what the next character would be.
#[derive(Drop)]
pub struct Unescaped {
    content: String,
    reading: Reading,
}

/// A text without its escapes, if they can be read.
fn unescape(alloc: Global, text: &str) -> Result<Option<Unescaped>, Memory>
    ensures { IfOk result (λ u. option_map said u ≡ option_map spec.encoded (spec.unescaped Plain (chars text.now))) }
{
    let mut content = String::new(alloc);
    let mut reading = Reading::Plain;
    let mut rest = text;
    'chars: while let Some((c, more)) = first_char(rest) {
        match next_step(reading, c) {
            Step::Fails => return Ok(None),
            Step::Reads(next) => reading = next,
            Step::Gives(scalar) => {
                content.push(scalar)?;
                reading = Reading::Plain;
            }
        }
        rest = more;
    }
    Ok(Some(Unescaped { content, reading }))
}

/// The blank that a backslash escapes.
fn escaped_blank(blank: u8) -> &'static str
    ensures { result.now ≡ spec.escaped_blank blank ∷ [] }
{
    if blank == b'\t' { "\t" } else { " " }
}

/// What a line between double quotes says. A backslash at its end escapes the blank behind it, or the line's end.
fn ended(alloc: Global, text: Unescaped, next: Option<u8>) -> Result<Option<Line>, Memory>
    ensures { IfOk result (λ l. l ≡ spec.ended next (string_bytes text.content) text.reading) }
{
    let mut content = Text::from_str(alloc, text.content.as_str())?;
    match text.reading {
        Reading::Plain => Ok(Some(Line::Text(content))),
        Reading::Escape => match next {
            None => Ok(Some(Line::Joined(content))),
            Some(blank) => {
                content.push(escaped_blank(blank))?;
                Ok(Some(Line::Text(content)))
            }
        },
        Reading::Code(_, _) => Ok(None),
    }
}

/// What a line between double quotes says.
fn double_row(alloc: Global, text: &str, next: Option<u8>) -> Result<Option<Line>, Memory>
    ensures { IfOk result (λ l. l ≡ spec.double_row next (chars text.now)) }
{
    match unescape(alloc, text)? {
        Some(text) => ended(alloc, text, next),
        None => Ok(None),
    }
}

/// What a line between single quotes says.
fn single_row(alloc: Global, text: &str) -> Result<Option<Line>, Memory>
    ensures { IfOk result (λ l. l ≡ spec.single_row (chars text.now)) }
{
    let content = undoubled(alloc, text)?;
    Ok(Some(Line::Text(Text::from_str(alloc, content.as_str())?)))
}

/// What a line between such quotes says, where `next` is the blank behind it.
fn row(alloc: Global, quote: u8, text: &[u8], next: Option<u8>) -> Result<Option<Line>, Memory>
    ensures { IfOk result (λ l. l ≡ spec.row quote next text.now) }
{
    match from_utf8(text) {
        Ok(text) => {
            if quote == b'"' {
                double_row(alloc, text, next)
            } else {
                single_row(alloc, text)
            }
        }
        Err(_) => Ok(None),
    }
}

/// What a line says that doesn't end the scalar.
fn inner_row(alloc: Global, quote: u8, text: &[u8], first: bool) -> Result<Option<Line>, Memory>
    ensures { IfOk result (λ l. l ≡ spec.inner_row quote first text.now) }
{
    if !first && is_blank_line(text) {
        return Ok(Some(Line::Blank));
    }
    let cut = before_blanks(text);
    row(alloc, quote, cut, text.get(cut.len()).copied())
}

/// Where such quotes are open.
fn inside(quote: u8) -> Scan
    ensures { result ≡ spec.inside quote }
{
    Scan {
        place: if quote == b'"' {
            Place::Double
        } else {
            Place::Single
        },
        depth: 0,
    }
}

/// Whether nothing follows a scalar but a comment.
pub fn is_rest(rest: &[u8]) -> bool
    ensures { result ≡ spec.is_rest rest.now }
{
    ends_sign(rest) && is_skipped(rest)
}

/// Whether each line from a place on is blank or a comment.
fn are_skipped(lines: &[&[u8]], from: usize) -> bool
    requires { from ≤ length lines.now }
    ensures { result ≡ spec.are_skipped (texts (drop from lines.now)) }
{
    for at in from..lines.len() {
        if !is_skipped(lines[at]) {
            return false;
        }
    }
    true
}

/// A text without its first byte.
fn tail(text: &[u8]) -> &[u8]
    ensures { result.now ≡ spec.tail text.now }
{
    match text.split_first() {
        Some((_, rest)) => rest,
        None => text,
    }
}

/// The part of a line that belongs to a quoted scalar, without the quote that begins it and the blanks before it.
fn part(line: &[u8], first: bool) -> &[u8]
    ensures { result.now ≡ spec.part first line.now }
{
    if first {
        tail(past_blanks(line))
    } else {
        past_blanks(line)
    }
}

/// What the line says that ends a scalar, with so many bytes of it, the quote with them.
fn last_row(alloc: Global, quote: u8, text: &[u8], len: usize) -> Result<Option<Line>, Memory>
    requires { len ≤ length text.now }
    ensures { IfOk result (λ l. l ≡ spec.last_row quote text.now len) }
{
    if is_rest(&text[len..]) {
        row(alloc, quote, &text[..len.saturating_sub(1)], None)
    } else {
        Ok(None)
    }
}

/// The lines of a quoted scalar, of which the first begins with the quote.
fn rows(alloc: Global, quote: u8, lines: &[&[u8]]) -> Result<Option<List<Line>>, Memory>
    ensures { IfOk result (λ ls. ls ≡ spec.rows quote true (texts lines.now)) }
{
    let mut rows = List::new(alloc);
    let mut first = true;
    for (at, line) in lines.iter().enumerate() {
        let text = part(*line, first);
        if let Some(len) = quoted_end(inside(quote), text) {
            if !are_skipped(lines, at + 1) {
                return Ok(None);
            }
            let Some(row) = last_row(alloc, quote, text, len)? else {
                return Ok(None);
            };
            rows.push(row)?;
            return Ok(Some(rows));
        }
        let Some(row) = inner_row(alloc, quote, text, first)? else {
            return Ok(None);
        };
        rows.push(row)?;
        first = false;
    }
    Ok(None)
}

/// What a quoted scalar says that stands on these lines, but for blank lines and comments below it.
pub fn quoted(alloc: Global, quote: u8, lines: &[&[u8]]) -> Result<Option<Text>, Memory>
    ensures { IfOk result (λ t. t ≡ spec.quoted quote (texts lines.now)) }
{
    match rows(alloc, quote, lines)? {
        Some(rows) => Ok(Some(fold(alloc, rows.as_slice())?)),
        None => Ok(None),
    }
}
