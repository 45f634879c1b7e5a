//! What is outside the profile.

ghost use Rattle.std.specs.Prelude.{◌≡◌};
ghost use Rattle.yaml_lines.specs.Feature as spec;

use crate::fault::Feature;
use crate::head::{ends_sign, is_skipped};
use crate::scan::is_blank;

/// Whether a byte is a digit.
fn is_digit(byte: u8) -> bool
    ensures { result ≡ spec.is_digit byte }
{
    b'0' <= byte && byte <= b'9'
}

/// Whether a byte says what becomes of the last line ends.
fn is_sign(byte: u8) -> bool
    ensures { result ≡ spec.is_sign byte }
{
    byte == b'-' || byte == b'+'
}

/// Whether one indicator of a block scalar is a digit, if it is one.
fn indicator(byte: u8) -> Option<bool>
    ensures { result ≡ spec.indicator byte }
{
    if is_sign(byte) {
        Some(false)
    } else if is_digit(byte) {
        Some(true)
    } else {
        None
    }
}

/// Whether what follows `|` or `>` has a digit, if it ends a header.
fn indicators(rest: &[u8]) -> Option<bool>
    ensures { result ≡ spec.indicators rest.now }
{
    let Some((first, more)) = rest.split_first() else {
        return Some(false);
    };
    if is_blank(*first) {
        return Some(false);
    }
    let Some((second, end)) = more.split_first() else {
        return indicator(*first);
    };
    if is_blank(*second) {
        return indicator(*first);
    }
    let both = (is_sign(*first) && is_digit(*second)) || (is_digit(*first) && is_sign(*second));
    if both && ends_sign(end) {
        Some(true)
    } else {
        None
    }
}

/// Whether the header of a block scalar at the start of a value has a digit, if there is one.
pub fn header(value: &[u8]) -> Option<bool>
    ensures { result ≡ spec.header value.now }
{
    match value.split_first() {
        Some((first, rest)) if *first == b'|' || *first == b'>' => indicators(rest),
        _ => None,
    }
}

/// Whether a line begins with three such bytes that stand alone.
fn is_mark(line: &[u8], byte: u8) -> bool
    ensures { result ≡ spec.is_mark byte line.now }
{
    match line {
        [a, b, c, rest @ ..] => *a == byte && *b == byte && *c == byte && ends_sign(rest),
        _ => false,
    }
}

/// Whether a line is the mark `---`, maybe with a comment.
pub fn is_start(line: &[u8]) -> bool
    ensures { result ≡ spec.is_start line.now }
{
    is_mark(line, b'-') && is_skipped(&line[3..])
}

/// The feature that a line begins with.
pub fn line_feature(line: &[u8]) -> Option<Feature>
    ensures { result ≡ spec.line_feature line.now }
{
    if is_mark(line, b'-') || is_mark(line, b'.') {
        return Some(Feature::Document);
    }
    match line.first() {
        Some(b'%') => Some(Feature::Directive),
        _ => None,
    }
}

/// The feature that a key or a value begins with.
fn text_feature(text: &[u8]) -> Option<Feature>
    ensures { result ≡ spec.text_feature text.now }
{
    match text.first() {
        Some(b'&') => Some(Feature::Anchor),
        Some(b'*') => Some(Feature::Alias),
        Some(b'!') => Some(Feature::Tag),
        Some(b'{') => Some(Feature::FlowMap),
        _ => None,
    }
}

/// The feature that the content of a line begins with.
pub fn content_feature(text: &[u8]) -> Option<Feature>
    ensures { result ≡ spec.content_feature text.now }
{
    match text.split_first() {
        Some((first, rest)) if *first == b'?' && ends_sign(rest) => Some(Feature::ComplexKey),
        _ => text_feature(text),
    }
}

/// The feature that a value begins with.
pub fn value_feature(value: &[u8]) -> Option<Feature>
    ensures { result ≡ spec.value_feature value.now }
{
    if let Some(feature) = text_feature(value) {
        return Some(feature);
    }
    match header(value) {
        Some(true) => Some(Feature::IndentDigit),
        _ => None,
    }
}
