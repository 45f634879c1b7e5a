//! The lines of a text.

ghost use Rattle.std.specs.Prelude.{◌≡◌, ◌≤◌, ◌^◌, length, IfOk, Option, true, None};
ghost use Rattle.std.specs.Str.{IsUtf8};
ghost use Rattle.yaml_lines.specs.Body.{texts, AreShort};
ghost use Rattle.yaml_lines.specs.Lines.{Gives};
ghost use Rattle.yaml_lines.specs.Heading.{headed, IsHead, Within};
ghost use Rattle.yaml_lines.specs.Lines as spec;

use crate::body::body_len;
use crate::fault::{Feature, YFault};
use crate::feature::{content_feature, is_start, line_feature, value_feature};
use crate::head::{Marks, before_blanks, is_skipped, past_blanks, read_marks};
use crate::key::{Key, read_key, text_of};
use crate::line::YLine;
use crate::scan::{Place, Scan, Scanned, scan_line};
use node_tree::{List, MOST_BYTES, Memory, Text};
use std::alloc::Global;
use std::str::from_utf8;

/// Copies of some lines.
fn copies(alloc: Global, lines: &[&str]) -> Result<List<Text>, Memory>
    ensures { IfOk result (λ all. all ≡ texts lines.now) }
{
    let mut all = List::new(alloc);
    for line in lines {
        all.push(Text::from_str(alloc, line)?)?;
    }
    Ok(all)
}

/// What a line says by itself.
#[derive(Drop)]
pub struct Head<'t> {
    pub marks: Marks<'t>,
    pub key: Option<Text>,
    pub scanned: Scanned,
    pub value: &'t [u8],
}

/// What a line says by itself: its marks, its key, and its value up to a comment.
pub fn read_head<'t>(alloc: Global, line: &'t [u8]) -> Result<Head<'t>, Memory>
    requires utf8 { IsUtf8 line.now }
    requires short { length line.now ≤ 2 ^ 20 }
    ensures head { IfOk result (IsHead line.now) }
    ensures within { IfOk result (Within line.now) }
{
    let marks = read_marks(alloc, line)?;
    let (key, rest) = match read_key(alloc, marks.content)? {
        Some(Key { content, rest }) => (Some(content), past_blanks(rest)),
        None => (None, marks.content),
    };
    let scanned = scan_line(
        Scan {
            place: Place::Begin,
            depth: 0,
        },
        rest,
    );
    let value = before_blanks(&rest[..scanned.len]);
    Ok(Head {
        marks,
        key,
        scanned,
        value,
    })
}

/// The first feature of a line that is outside the profile.
fn feature(line: &[u8], head: &Head<'_>) -> Option<Feature>
    ensures { result ≡ spec.feature_of line.now (headed head.now) }
{
    if let Some(feature) = line_feature(line) {
        return Some(feature);
    }
    if head.marks.tab_before
        || (head.marks.tab_after && (head.marks.dashes.is_empty() || head.key.is_some()))
    {
        return Some(Feature::Tab);
    }
    if let Some(feature) = content_feature(head.marks.content) {
        return Some(feature);
    }
    value_feature(head.value)
}

/// The column of what follows the marks of a line.
fn column_of(line: &[u8], head: &Head<'_>) -> u32
    requires { Within line.now head.now }
    ensures { result ≡ spec.column_of line.now (headed head.now) }
{
    (line.len() - head.marks.content.len()) as u32
}

/// The last mark, or what stands above.
fn last_or(above: Option<u32>, dashes: &[u32]) -> Option<u32>
    ensures { result ≡ spec.last_or above dashes.now }
{
    let mut last = above;
    for dash in dashes {
        last = Some(*dash);
    }
    last
}

/// The column of the last key or mark of a line, also of those above.
fn holder_of(line: &[u8], head: &Head<'_>, above: Option<u32>) -> Option<u32>
    requires { Within line.now head.now }
    ensures { result ≡ spec.holder_of line.now (headed head.now) above }
{
    if head.key.is_some() {
        Some(column_of(line, head))
    } else {
        last_or(above, head.marks.dashes.as_slice())
    }
}

/// A line that says this, with the lines that go on with its value.
fn line_of(
    alloc: Global,
    number: u32,
    line: &[u8],
    head: Head<'_>,
    body: &[&str],
) -> Result<YLine, Memory>
    requires { Within line.now head }
    ensures { IfOk result (λ l. l ≡ spec.line_of number line.now (headed head.entry) (texts body.now)) }
{
    let column = column_of(line, &head);
    let value = text_of(alloc, head.value)?;
    let body = copies(alloc, body)?;
    Ok(YLine {
        number,
        column,
        dashes: head.marks.dashes,
        key: head.key,
        value,
        body,
    })
}

/// A line that begins a value, the column that later lines see as that of the last key or mark, and how many lines go on
/// with the value.
#[derive(Drop)]
pub struct Value {
    pub line: YLine,
    pub holder: Option<u32>,
    pub len: usize,
}

/// The value that a line begins, with the column of the last key or mark above it, and the lines below it.
fn read_value(
    alloc: Global,
    number: u32,
    above: Option<u32>,
    line: &[u8],
    below: &[&str],
) -> Result<Value, YFault>
    requires utf8 { IsUtf8 line.now }
    requires short { length line.now ≤ 2 ^ 20 }
    requires lines { AreShort (texts below.now) }
    ensures value { Gives (spec.value_of number above line.now (texts below.now)) result }
    ensures within { IfOk result (λ v. v.len ≤ length below.now) }
{
    let head = read_head(alloc, line)?;
    if let Some(feature) = feature(line, &head) {
        return Err(YFault::OutsideProfile(feature, number));
    }
    let holder = holder_of(line, &head, above);
    let len = body_len(head.value, head.scanned, holder, below);
    let line = line_of(alloc, number, line, head, &below[..len])?;
    Ok(Value { line, holder, len })
}

/// Whether a line is the mark `---` above all content.
fn is_first_mark(fresh: bool, line: &[u8]) -> bool
    ensures { result ≡ spec.is_first_mark fresh line.now }
{
    fresh && is_start(line)
}

/// The lines of a text that begin a value.
fn read_all(alloc: Global, all: &[&str]) -> Result<List<YLine>, YFault>
    requires { AreShort (texts all.now) }
    ensures { Gives (spec.lines_at (length all.now) 0 true None (texts all.now)) result }
{
    let mut lines = List::new(alloc);
    let mut above = None;
    let mut fresh = true;
    let mut at = 0;
    for turn in 0..all.len() {
        if at == all.len() {
            return Ok(lines);
        }
        let line = all[at].as_bytes();
        at += 1;
        if is_skipped(line) {
            continue;
        }
        if is_first_mark(fresh, line) {
            fresh = false;
            continue;
        }
        let value = read_value(alloc, at as u32, above, line, &all[at..])?;
        fresh = false;
        above = value.holder;
        at += value.len;
        lines.push(value.line)?;
    }
    Ok(lines)
}

/// Bytes without the byte order mark at their start.
pub fn past_order_mark(bytes: &[u8]) -> &[u8]
    ensures rest { result.now ≡ spec.past_order_mark bytes.now }
    ensures len { length result.now ≤ length bytes.now }
{
    match bytes {
        [239, 187, 191, rest @ ..] => rest,
        _ => bytes,
    }
}

/// The lines of a YAML text that begin a value, in order, or why there are none: the bytes, without a byte order mark at
/// their start, are no UTF-8, or a line that begins a value has a feature outside the profile, of which the first is named.
/// `NoValue` is no answer of this call.
pub fn lines(alloc: Global, bytes: &[u8]) -> Result<List<YLine>, YFault>
    requires { length bytes.now ≤ MOST_BYTES }
    ensures { Gives (spec.lines_of bytes.now) result }
{
    let Ok(text) = from_utf8(past_order_mark(bytes)) else {
        return Err(YFault::NotUtf8);
    };
    let all: Vec<&str> = text.lines().collect(alloc)?;
    read_all(alloc, all.as_slice())
}
