//! The text of a string's node.

ghost use Rattle.std.specs.Prelude.{◌≡◌, ◌≤◌, ◌<◌, length, IfOk, OnOk, ◌++◌, codes};
ghost use Rattle.py_expr.specs.Strings as spec;

use node_tree::{Memory, Text};
use std::alloc::Global;

/// Whether a byte is a quote.
fn is_quote(byte: u8) -> bool
    ensures { result ≡ spec.is_quote byte }
{
    matches!(byte, b'"' | b'\'')
}

/// How many bytes stand before the first quote.
fn quote_at(bytes: &[u8]) -> usize
    ensures value { result ≡ spec.quote_at bytes.now }
    ensures within { result ≤ length bytes.now }
{
    let mut at = 0;
    for byte in bytes {
        if is_quote(*byte) {
            return at;
        }
        at += 1;
    }
    at
}

/// How many bytes the opening quotes have.
fn quote_width(bytes: &[u8]) -> usize
    ensures value { result ≡ spec.quote_width bytes.now }
    ensures some { (0 < result) × (result < 4) }
{
    match bytes {
        [a, b, c, _, _, _, ..] => { if *a == *b && *b == *c { 3 } else { 1 } }
        _ => 1,
    }
}

/// Whether a letter stands there, in either case.
fn has_letter(small: u8, capital: u8, bytes: &[u8]) -> bool
    ensures { result ≡ spec.has_letter small capital bytes.now }
{
    for byte in bytes {
        if *byte == small || *byte == capital {
            return true;
        }
    }
    false
}

/// What stands between two places.
fn between(text: &str, from: usize, to: usize) -> &str
    requires { 0 < from }
    ensures { result.now ≡ spec.between text.now from to }
{
    let bytes = text.as_bytes();
    if from <= to {
        if to < bytes.len() {
            if bytes[from - 1] < 128 {
                if bytes[to] < 128 {
                    return &text[from..to];
                }
            }
        }
    }
    ""
}

/// Adds a letter where it is to stand.
fn push_letter(text: &mut Text, letter: &str, stands: bool) -> Result<(), Memory>
    ensures { OnOk result (text.new ≡ text.old ++ spec.kept stands letter.now) }
{
    if stands {
        text.push(letter)?;
    }
    Ok(())
}

/// The prefix of a string, in small letters, sorted and without `u`.
pub fn shown_prefix(alloc: Global, text: &str) -> Result<Text, Memory>
    ensures { IfOk result (λ shown. shown ≡ spec.shown_prefix text.now) }
{
    let bytes = text.as_bytes();
    let prefix = &bytes[..quote_at(bytes)];
    let mut shown = Text::new(alloc);
    push_letter(&mut shown, "b", has_letter(b'b', b'B', prefix))?;
    push_letter(&mut shown, "f", has_letter(b'f', b'F', prefix))?;
    push_letter(&mut shown, "r", has_letter(b'r', b'R', prefix))?;
    Ok(shown)
}

/// The text of a string's node: its prefix, a quote, and its content as written.
pub fn shown_string(alloc: Global, text: &str) -> Result<Text, Memory>
    ensures { IfOk result (λ shown. shown ≡ spec.shown_string text.now) }
{
    let bytes = text.as_bytes();
    let start = quote_at(bytes);
    let width = quote_width(&bytes[start..]);
    let mut shown = shown_prefix(alloc, text)?;
    shown.push("\"")?;
    shown.push(between(text, start + width, text.len().saturating_sub(width)))?;
    Ok(shown)
}
