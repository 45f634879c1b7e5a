//! The lines that go on with a value.

ghost use Rattle.std.specs.Prelude.{◌≡◌, ◌≤◌, ◌<◌, ◌^◌, length, All};
ghost use Rattle.yaml_lines.specs.Body as spec;
ghost use Rattle.yaml_lines.specs.Body.{texts, AreShort};

use crate::feature::header;
use crate::head::{indentation, is_blank_line, is_skipped};
use crate::key::begins_plain;
use crate::scan::{Place, Scan, Scanned, is_open, next_line, scan_line};

/// Whether a line stands deeper than the key or mark that holds a value.
fn is_deeper(line: &[u8], holder: Option<u32>) -> bool
    ensures { result ≡ spec.is_deeper holder line.now }
{
    match holder {
        Some(column) => indentation(line) > column as usize,
        None => true,
    }
}

/// How many lines go on with a quoted value or a flow sequence that is open.
fn open_len(start: Scan, lines: &[&str]) -> usize
    requires depth { start.depth ≤ 2 ^ 20 }
    requires short { AreShort (texts lines.now) }
    ensures len { result ≡ spec.open_len start (texts lines.now) }
    ensures within { result ≤ length lines.now }
{
    let mut scan = start;
    for (at, line) in lines.iter().enumerate() {
        if !is_open(scan) {
            return at;
        }
        scan = scan_line(next_line(scan), line.as_bytes()).scan;
    }
    lines.len()
}

/// Whether a plain value goes on with a line that isn't blank.
fn goes_on(holder: Option<u32>, line: &[u8]) -> bool
    ensures { result ≡ spec.goes_on holder line.now }
{
    !is_skipped(line) && is_deeper(line, holder)
}

/// How many lines go on with a plain value: those that stand deeper than what holds it, up to a comment. Blank lines go on
/// with it only where such a line follows.
fn plain_len(holder: Option<u32>, lines: &[&str]) -> usize
    requires short { AreShort (texts lines.now) }
    ensures len { result ≡ spec.plain_len holder (texts lines.now) }
    ensures within { result ≤ length lines.now }
{
    let mut len = 0;
    for (at, line) in lines.iter().enumerate() {
        let line = line.as_bytes();
        if !is_blank_line(line) {
            if !goes_on(holder, line) {
                return len;
            }
            len = at + 1;
            if scan_line(
                Scan {
                    place: Place::Inside,
                    depth: 0,
                },
                line,
            )
            .comment
            {
                return len;
            }
        }
    }
    len
}

/// How many lines at the start are blank.
fn blank_len(lines: &[&str]) -> usize
    ensures len { result ≡ spec.blank_len (texts lines.now) }
    ensures within { result ≤ length lines.now }
{
    for (at, line) in lines.iter().enumerate() {
        if !is_blank_line(line.as_bytes()) {
            return at;
        }
    }
    lines.len()
}

/// Whether a line is blank or has so many spaces at its start.
fn is_in_column(column: usize, line: &[u8]) -> bool
    ensures { result ≡ spec.is_in_column column line.now }
{
    is_blank_line(line) || column <= indentation(line)
}

/// How many lines are blank or have so many spaces at their start.
fn column_len(column: usize, lines: &[&str]) -> usize
    ensures len { result ≡ spec.column_len column (texts lines.now) }
    ensures within { result ≤ length lines.now }
{
    for (at, line) in lines.iter().enumerate() {
        if !is_in_column(column, line.as_bytes()) {
            return at;
        }
    }
    lines.len()
}

/// How many lines a block scalar has. Its first line that isn't blank sets its column, if that is deeper than what holds it.
fn block_len(holder: Option<u32>, lines: &[&str]) -> usize
    ensures len { result ≡ spec.block_len holder (texts lines.now) }
    ensures within { result ≤ length lines.now }
{
    let blank = blank_len(lines);
    let Some(first) = lines.get(blank) else {
        return blank;
    };
    let first = first.as_bytes();
    if is_deeper(first, holder) {
        column_len(indentation(first), lines)
    } else {
        blank
    }
}

/// Whether a value is the header of a block scalar.
fn is_block(value: &[u8]) -> bool
    ensures { result ≡ spec.is_block value.now }
{
    matches!(header(value), Some(false))
}

/// How many lines go on with a value.
pub fn body_len(value: &[u8], scanned: Scanned, holder: Option<u32>, lines: &[&str]) -> usize
    requires depth { scanned.scan.depth ≤ 2 ^ 20 }
    requires short { AreShort (texts lines.now) }
    ensures len { result ≡ spec.body_len value.now scanned holder (texts lines.now) }
    ensures within { result ≤ length lines.now }
{
    if is_open(scanned.scan) {
        open_len(scanned.scan, lines)
    } else if is_block(value) {
        block_len(holder, lines)
    } else if begins_plain(value) && !scanned.comment {
        plain_len(holder, lines)
    } else {
        0
    }
}
