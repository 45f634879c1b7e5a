//! What stands on a line: indentation, marks, and where the content begins.

ghost use Rattle.std.specs.Prelude.{◌≡◌, ◌≤◌, ◌^◌, ◌<◌, ◌∷◌, length, IfOk, IfSome};
ghost use Rattle.std.specs.Option.{option_copied};
ghost use Rattle.std.specs.Str.{IsUtf8};
ghost use Rattle.yaml_lines.specs.Blanks as spec;
ghost use Rattle.yaml_lines.specs.Marks.{without_comment as after_comment};
ghost use Rattle.yaml_lines.specs.Marking.{IsMarked};

use crate::scan::is_blank;
use node_tree::{List, Memory};
use std::alloc::Global;

/// A text without the blanks at its start.
pub fn past_blanks(text: &[u8]) -> &[u8]
    ensures rest { result.now ≡ spec.past_blanks text.now }
    ensures utf8 { IsUtf8 text.now → IsUtf8 result.now }
    ensures len { length result.now ≤ length text.now }
{
    let mut rest = text;
    'blanks: while let Some((first, more)) = rest.split_first() {
        if !is_blank(*first) {
            return rest;
        }
        rest = more;
    }
    rest
}

/// A text without the blanks at its end.
pub fn before_blanks(text: &[u8]) -> &[u8]
    ensures front { result.now ≡ spec.before_blanks text.now }
    ensures utf8 { IsUtf8 text.now → IsUtf8 result.now }
{
    let mut rest = text;
    'blanks: while let Some((last, more)) = rest.split_last() {
        if !is_blank(*last) {
            return rest;
        }
        rest = more;
    }
    rest
}

/// How many spaces a line begins with.
pub fn indentation(line: &[u8]) -> usize
    ensures { result ≡ spec.indentation line.now }
{
    line.iter().take_while(|byte| **byte == b' ').count()
}

/// Whether a line has nothing but blanks.
pub fn is_blank_line(line: &[u8]) -> bool
    ensures { result ≡ spec.is_blank_line line.now }
{
    line.iter().all(|byte| is_blank(*byte))
}

/// Whether nothing is there, or a comment.
fn is_comment(rest: &[u8]) -> bool
    ensures { result ≡ spec.is_comment rest.now }
{
    match rest.first() {
        None => true,
        Some(byte) => *byte == b'#',
    }
}

/// Whether a line is blank, or a comment alone.
pub fn is_skipped(line: &[u8]) -> bool
    ensures { result ≡ spec.is_skipped line.now }
{
    is_comment(past_blanks(line))
}

/// Whether a text is at its end or begins with a blank, so that a sign before it stands alone.
pub fn ends_sign(rest: &[u8]) -> bool
    ensures { result ≡ spec.ends_sign rest.now }
{
    match rest.first() {
        None => true,
        Some(byte) => is_blank(*byte),
    }
}

/// Whether a byte is a sign and stands alone before this rest.
pub fn is_sign(sign: u8, byte: u8, rest: &[u8]) -> bool
    ensures { result ≡ spec.is_sign sign byte rest.now }
{
    byte == sign && ends_sign(rest)
}

/// What follows a sign that stands alone at the start of a text.
pub fn past_sign(text: &[u8], sign: u8) -> Option<&[u8]>
    ensures past { option_copied result ≡ spec.past_sign sign text.now }
    ensures rest { IfSome result (λ r. text.now ≡ sign ∷ r.now) }
{
    match text.split_first() {
        Some((first, rest)) if is_sign(sign, *first, rest) => Some(rest),
        _ => None,
    }
}

/// The marks of a line: where they stand, what follows them, and whether a tab stands before one of them, and after the last.
#[derive(Drop)]
pub struct Marks<'t> {
    pub dashes: List<u32>,
    pub content: &'t [u8],
    pub tab_before: bool,
    pub tab_after: bool,
}

/// A text, unless it is a comment.
fn without_comment(text: &[u8]) -> &[u8]
    ensures { result.now ≡ after_comment text.now }
{
    match text.first() {
        Some(b'#') => &[],
        _ => text,
    }
}

/// The marks of a line. Where a comment follows the last, nothing does.
pub fn read_marks<'t>(alloc: Global, line: &'t [u8]) -> Result<Marks<'t>, Memory>
    requires { length line.now < 2 ^ 32 }
    ensures marks { IfOk result (IsMarked line.now) }
    ensures within { IfOk result (λ m. length m.content.now ≤ length line.now) }
{
    let mut dashes = List::new(alloc);
    let mut before = false;
    let mut tab = false;
    for (at, byte) in line.iter().enumerate() {
        if is_blank(*byte) {
            tab = tab || *byte == b'\t';
        } else if is_sign(b'-', *byte, &line[at + 1..]) {
            dashes.push(at as u32)?;
            before = before || tab;
            tab = false;
        } else {
            return Ok(Marks {
                dashes,
                content: without_comment(&line[at..]),
                tab_before: before,
                tab_after: tab,
            });
        }
    }
    Ok(Marks {
        dashes,
        content: &[],
        tab_before: before,
        tab_after: tab,
    })
}
