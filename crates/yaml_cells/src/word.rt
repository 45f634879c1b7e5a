//! Plain scalars.

ghost use Rattle.std.specs.Prelude.{◌≡◌, ◌≤◌, ◌<◌, ◌+◌, ◌==◌, ◌&&◌, length, drop, IfOk};
ghost use Rattle.yaml_lines.specs.Body.{texts};
ghost use Rattle.yaml_cells.specs.Word as spec;

use crate::fold::{Line, fold};
use node_tree::{List, Memory, Text};
use std::alloc::Global;
use std::str::from_utf8;
use yaml_lines::head::{before_blanks, is_skipped, past_blanks};
use yaml_lines::key::is_indicator;
use yaml_lines::scan::{Place, Scan, Scanned, is_blank, scan_line};

/// Whether a sign stands alone before this rest of a line: before a blank, or at the line's end. `closed` says that `,` or
/// `]` of a flow sequence follows the rest.
fn is_alone(rest: &[u8], closed: bool) -> bool
    ensures { result ≡ spec.is_alone closed rest.now }
{
    match rest.first() {
        None => !closed,
        Some(byte) => is_blank(*byte),
    }
}

/// Whether a plain scalar begins so: with no indicator, or with `-`, `?` or `:` that doesn't stand alone.
fn begins_word(text: &[u8], closed: bool) -> bool
    ensures { result ≡ spec.begins_word closed text.now }
{
    let Some((first, rest)) = text.split_first() else {
        return false;
    };
    if *first == b'-' || *first == b'?' || *first == b':' {
        !is_alone(rest, closed)
    } else {
        !is_indicator(*first)
    }
}

/// Whether a byte is a `:` that stands alone before this rest.
fn is_colon(byte: u8, rest: &[u8], closed: bool) -> bool
    ensures { result ≡ spec.is_colon closed byte rest.now }
{
    byte == b':' && is_alone(rest, closed)
}

/// Whether a `:` stands alone somewhere.
fn holds_colon(text: &[u8], closed: bool) -> bool
    ensures { result ≡ spec.holds_colon closed text.now }
{
    let mut rest = text;
    'bytes: while let Some((byte, more)) = rest.split_first() {
        if is_colon(*byte, more, closed) {
            return true;
        }
        rest = more;
    }
    false
}

/// A text with these bytes, if they are UTF-8.
fn text_of(alloc: Global, bytes: &[u8]) -> Result<Option<Text>, Memory>
    ensures { IfOk result (λ t. t ≡ spec.text_of bytes.now) }
{
    match from_utf8(bytes) {
        Ok(text) => Ok(Some(Text::from_str(alloc, text)?)),
        Err(_) => Ok(None),
    }
}

/// What a line says that has this text between blanks.
fn said(alloc: Global, text: &[u8]) -> Result<Option<Line>, Memory>
    ensures { IfOk result (λ l. l ≡ spec.said text.now) }
{
    if text.is_empty() {
        return Ok(Some(Line::Blank));
    }
    match text_of(alloc, text)? {
        Some(text) => Ok(Some(Line::Text(text))),
        None => Ok(None),
    }
}

/// What a line of a plain scalar says up to its comment, which only the last one may have.
fn row_to(
    alloc: Global,
    scanned: Scanned,
    line: &[u8],
    last: bool,
    closed: bool,
) -> Result<Option<Line>, Memory>
    requires { scanned.len ≤ length line.now }
    ensures { IfOk result (λ l. l ≡ spec.row_to scanned last closed line.now) }
{
    if scanned.comment && !last {
        return Ok(None);
    }
    let text = &line[..scanned.len];
    if holds_colon(text, closed && last && !scanned.comment) {
        return Ok(None);
    }
    said(alloc, before_blanks(past_blanks(text)))
}

/// What a line of a plain scalar says.
fn row(alloc: Global, line: &[u8], last: bool, closed: bool) -> Result<Option<Line>, Memory>
    ensures { IfOk result (λ l. l ≡ spec.row last closed line.now) }
{
    let start = Scan {
        place: Place::Inside,
        depth: 0,
    };
    row_to(alloc, scan_line(start, line), line, last, closed)
}

/// Whether no line follows the one at a place.
fn is_last(lines: &[&[u8]], at: usize) -> bool
    requires { at < length lines.now }
    ensures { result ≡ spec.is_empty (texts (drop (at + 1) lines.now)) }
{
    lines.len() == at + 1
}

/// What the lines of a plain scalar say.
fn rows(alloc: Global, lines: &[&[u8]], closed: bool) -> Result<Option<List<Line>>, Memory>
    ensures { IfOk result (λ ls. ls ≡ spec.rows closed (texts lines.now)) }
{
    let mut rows = List::new(alloc);
    for (at, line) in lines.iter().enumerate() {
        match row(alloc, *line, is_last(lines, at), closed)? {
            Some(row) => rows.push(row)?,
            None => return Ok(None),
        }
    }
    Ok(Some(rows))
}

/// How many lines there are up to the last one that isn't blank and no comment.
fn kept_len(lines: &[&[u8]]) -> usize
    ensures len { result ≡ spec.kept_len (texts lines.now) }
    ensures within { result ≤ length lines.now }
{
    let mut len = 0;
    for (at, line) in lines.iter().enumerate() {
        if !is_skipped(*line) {
            len = at + 1;
        }
    }
    len
}

/// What the lines of a plain scalar say, the last of which has text.
fn word_of(alloc: Global, lines: &[&[u8]], closed: bool) -> Result<Option<Text>, Memory>
    ensures { IfOk result (λ t. t ≡ spec.word_of closed (texts lines.now)) }
{
    let Some((first, more)) = lines.split_first() else {
        return Ok(None);
    };
    if !begins_word(past_blanks(*first), closed && more.is_empty()) {
        return Ok(None);
    }
    match rows(alloc, lines, closed)? {
        Some(rows) => Ok(Some(fold(alloc, rows.as_slice())?)),
        None => Ok(None),
    }
}

/// Whether `,` or `]` follows the last of so many lines, where `closed` says it of the last of all.
fn is_closed(closed: bool, len: usize, lines: &[&[u8]]) -> bool
    ensures { result ≡ (closed && (len == length lines.now)) }
{
    closed && len == lines.len()
}

/// What a plain scalar says that stands on these lines alone, but for blank lines and comments below it. `closed` says that
/// `,` or `]` of a flow sequence follows the last line.
pub fn word(alloc: Global, lines: &[&[u8]], closed: bool) -> Result<Option<Text>, Memory>
    ensures { IfOk result (λ t. t ≡ spec.word closed (texts lines.now)) }
{
    let Some((_, more)) = lines.split_first() else {
        return Ok(None);
    };
    let len = kept_len(more);
    word_of(alloc, &lines[..len + 1], is_closed(closed, len, more))
}
