//! Keys.

ghost use Rattle.std.specs.Prelude.{◌≡◌, ◌-◌, ◌<◌, false, take, slice_index, ◌≤◌, ◌^◌, IfOk, IfSome, length};
ghost use Rattle.std.specs.Option.{option_map};
ghost use Rattle.std.specs.Str.{IsUtf8};
ghost use Rattle.yaml_lines.specs.Key as spec;
ghost use Rattle.yaml_lines.specs.Keying.{IsKey, IsRest, keyed_of};

use crate::escape::{undoubled, unescaped};
use crate::head::{before_blanks, ends_sign, is_sign, past_blanks, past_sign};
use crate::scan::{Place, Scan, after, is_blank};
use node_tree::{Memory, Text};
use std::alloc::Global;
use std::str::from_utf8;

/// Whether a byte begins no plain scalar.
pub fn is_indicator(byte: u8) -> bool
    ensures { result ≡ spec.is_indicator byte }
{
    b",[]{}#&*!|>'\"%@`"
        .iter()
        .any(|indicator| *indicator == byte)
}

/// Whether a plain scalar begins so: with no indicator, or with `-`, `?` or `:` that doesn't stand alone.
pub fn begins_plain(text: &[u8]) -> bool
    ensures { result ≡ spec.begins_plain text.now }
{
    let Some((first, rest)) = text.split_first() else {
        return false;
    };
    if *first == b'-' || *first == b'?' || *first == b':' {
        !ends_sign(rest)
    } else {
        !is_indicator(*first)
    }
}

/// Whether a byte begins a comment.
fn is_hash(gap: bool, byte: u8) -> bool
    ensures { result ≡ spec.is_hash gap byte }
{
    gap && byte == b'#'
}

/// Where the `:` after a plain key stands: the first one that stands alone, unless a comment begins before it.
fn colon(text: &[u8]) -> Option<usize>
    ensures at { result ≡ spec.colon_at false text.now }
    ensures colon { IfSome result (λ n. (n < length text.now) × (slice_index text.now n ≡ 58)) }
{
    let mut gap = false;
    for (at, byte) in text.iter().enumerate() {
        if is_sign(b':', *byte, &text[at + 1..]) {
            return Some(at);
        }
        if is_hash(gap, *byte) {
            return None;
        }
        gap = is_blank(*byte);
    }
    None
}

/// Whether a quoted scalar has ended before a byte.
fn has_ended(place: Place, byte: u8) -> bool
    ensures { result ≡ spec.has_ended place byte }
{
    match place {
        Place::Inside => true,
        Place::SingleEnd => byte != b'\'',
        _ => false,
    }
}

/// Whether a quoted scalar may end at a place.
fn may_end(place: Place) -> bool
    ensures { result ≡ spec.may_end place }
{
    matches!(place, Place::Inside | Place::SingleEnd)
}

/// How many bytes are left of a quoted scalar that goes on at a place, the quote that ends it with them.
pub fn quoted_end(start: Scan, text: &[u8]) -> Option<usize>
    requires { start.depth < 2 ^ 63 }
    ensures len { result ≡ spec.quoted_at start text.now }
    ensures within { IfSome result (λ n. n ≤ length text.now) }
{
    let mut scan = start;
    for (at, byte) in text.iter().enumerate() {
        if has_ended(scan.place, *byte) {
            return Some(at);
        }
        scan = after(scan, *byte);
    }
    if may_end(scan.place) {
        Some(text.len())
    } else {
        None
    }
}

/// How many bytes a quoted scalar takes, its quotes with it.
fn quoted_len(text: &[u8]) -> Option<usize>
    ensures len { result ≡ spec.quoted_len text.now }
    ensures within { IfSome result (λ n. n ≤ length text.now) }
{
    quoted_end(
        Scan {
            place: Place::Begin,
            depth: 0,
        },
        text,
    )
}

/// A key and what follows its `:`.
#[derive(Drop)]
pub struct Key<'t> {
    pub content: Text,
    pub rest: &'t [u8],
}

/// A text of its own with these bytes.
pub fn text_of(alloc: Global, bytes: &[u8]) -> Result<Text, Memory>
    requires { IsUtf8 bytes.now }
    ensures { IfOk result (λ t. t ≡ bytes.now) }
{
    match from_utf8(bytes) {
        Ok(text) => Text::from_str(alloc, text),
        Err(_) => Ok(Text::new(alloc)),
    }
}

/// What stands between such quotes, where it can be read.
fn content_of(alloc: Global, quote: u8, inner: &[u8]) -> Result<Option<Text>, Memory>
    ensures { IfOk result (λ t. t ≡ spec.content_of quote inner.now) }
{
    let Ok(text) = from_utf8(inner) else {
        return Ok(None);
    };
    if quote == b'\'' {
        let content = undoubled(alloc, text)?;
        return Ok(Some(Text::from_str(alloc, content.as_str())?));
    }
    match unescaped(alloc, text)? {
        Some(content) => Ok(Some(Text::from_str(alloc, content.as_str())?)),
        None => Ok(None),
    }
}

/// Bytes without the last one.
fn without_last(bytes: &[u8]) -> &[u8]
    ensures { result.now ≡ take (length bytes.now - 1) bytes.now }
{
    match bytes.split_last() {
        Some((_, front)) => front,
        None => bytes,
    }
}

/// What a quoted scalar says.
fn unquoted(alloc: Global, quoted: &[u8]) -> Result<Option<Text>, Memory>
    ensures { IfOk result (λ t. t ≡ spec.unquoted quoted.now) }
{
    match quoted.split_first() {
        Some((quote, more)) => content_of(alloc, *quote, without_last(more)),
        None => Ok(None),
    }
}

/// The key whose quoted scalar has so many bytes.
fn quoted_key<'t>(alloc: Global, text: &'t [u8], len: usize) -> Result<Option<Key<'t>>, Memory>
    requires { len ≤ length text.now }
    ensures key { IfOk result (λ k. option_map keyed_of k ≡ spec.quoted_key text.now len) }
    ensures rest { IfOk result (λ k. IfSome k (λ x. IsRest text.now x.rest.now)) }
{
    let Ok(_) = from_utf8(&text[len..]) else {
        return Ok(None);
    };
    let Some(rest) = past_sign(past_blanks(&text[len..]), b':') else {
        return Ok(None);
    };
    match unquoted(alloc, &text[..len])? {
        Some(content) => Ok(Some(Key { content, rest })),
        None => Ok(None),
    }
}

/// The key of a plain scalar at the start of a text.
fn plain_key<'t>(alloc: Global, text: &'t [u8]) -> Result<Option<Key<'t>>, Memory>
    requires { IsUtf8 text.now }
    ensures key { IfOk result (λ k. option_map keyed_of k ≡ spec.plain_key text.now) }
    ensures rest { IfOk result (λ k. IfSome k (λ x. IsRest text.now x.rest.now)) }
{
    let Some(at) = colon(text) else {
        return Ok(None);
    };
    let content = text_of(alloc, before_blanks(&text[..at]))?;
    Ok(Some(Key {
        content,
        rest: &text[at + 1..],
    }))
}

/// The key at the start of the content of a line.
pub fn read_key<'t>(alloc: Global, text: &'t [u8]) -> Result<Option<Key<'t>>, Memory>
    requires utf8 { IsUtf8 text.now }
    requires short { length text.now ≤ 2 ^ 62 }
    ensures key { IfOk result (IsKey text.now) }
    ensures rest { IfOk result (λ k. IfSome k (λ x. IsRest text.now x.rest.now)) }
{
    let Some(first) = text.first() else {
        return Ok(None);
    };
    if *first == b'\'' || *first == b'"' {
        return match quoted_len(text) {
            Some(len) => quoted_key(alloc, text, len),
            None => Ok(None),
        };
    }
    if begins_plain(text) {
        plain_key(alloc, text)
    } else {
        Ok(None)
    }
}
