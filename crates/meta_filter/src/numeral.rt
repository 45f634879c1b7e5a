//! The numbers that digits write.

ghost use Rattle.std.specs.Prelude.{◌≡◌, ◌+◌, ◌*◌, ◌<◌, ◌≤◌, ◌^◌, drop, slice_index, false};
ghost use Rattle.std.specs.Char.{digit_value};
ghost use Rattle.std.specs.Option.{SomeIff};
ghost use Rattle.meta_filter.specs.Arithmetic.{within, signed as signed_size};
ghost use Rattle.meta_filter.specs.Numerals as spec;

use crate::arithmetic::signed;

/// The value of a digit or letter, or 36.
fn digit_of(byte: u8) -> u128
    ensures { result ≡ digit_value byte }
{
    let value = match byte {
        b'0'..=b'9' => byte - b'0',
        b'A'..=b'Z' => byte - b'A' + 10,
        b'a'..=b'z' => byte - b'a' + 10,
        _ => 36,
    };
    u128::from(value)
}

/// The number with a further digit, if it fits.
fn followed(value: u128, radix: u128, byte: u8) -> Option<u128>
    ensures { SomeIff result (value * radix + digit_value byte < 2 ^ 128) (value * radix + digit_value byte) }
{
    let shifted = value.checked_mul(radix)?;
    shifted.checked_add(digit_of(byte))
}

/// The number that digits write in a radix, where a `_` counts for nothing, if it fits.
pub fn magnitude(radix: u128, text: &[u8]) -> Option<u128>
    requires { 1 ≤ radix }
    ensures { SomeIff result (spec.magnitude radix text.now < 2 ^ 128) (spec.magnitude radix text.now) }
{
    let mut value: u128 = 0;
    for byte in text {
        if *byte != b'_' {
            let Some(next) = followed(value, radix, *byte) else {
                return None;
            };
            value = next;
        }
    }
    Some(value)
}

/// Whether these are digits of the radix.
fn are_digits(radix: u128, text: &[u8]) -> bool
    ensures { result ≡ spec.are_digits radix text.now }
{
    for byte in text {
        if digit_of(*byte) >= radix {
            return false;
        }
    }
    true
}

/// Whether these are decimal digits with single `_` between them.
fn are_separated(text: &[u8]) -> bool
    ensures { result ≡ spec.are_separated false text.now }
{
    let mut behind = false;
    for byte in text {
        if *byte == b'_' {
            if !behind {
                return false;
            }
            behind = false;
        } else {
            if digit_of(*byte) >= 10 {
                return false;
            }
            behind = true;
        }
    }
    behind
}

/// The byte there, or 0.
pub fn byte_at(text: &[u8], at: usize) -> u8
    ensures { result ≡ slice_index text.now at }
{
    match text.get(at) {
        Some(byte) => *byte,
        None => 0,
    }
}

/// Whether this is `0`, or decimal digits with single `_` between them and no leading 0.
fn is_decimal(text: &[u8]) -> bool
    ensures { result ≡ spec.is_decimal text.now }
{
    if !are_separated(text) {
        return false;
    }
    byte_at(text, 0) != b'0' || text.len() == 1
}

/// The radix that `0x`, `0o` or `0b` tells, else 10.
fn radix_of(text: &[u8]) -> u128
    ensures { result ≡ spec.radix_of text.now }
{
    if byte_at(text, 0) != b'0' {
        return 10;
    }
    match byte_at(text, 1) {
        b'x' => 16,
        b'o' => 8,
        b'b' => 2,
        _ => 10,
    }
}

/// The text behind its first bytes.
pub fn behind(text: &[u8], count: usize) -> &[u8]
    ensures { result.now ≡ drop count text.now }
{
    match text.get(count..) {
        Some(rest) => rest,
        None => &[],
    }
}

/// The number of this sign that digits write in a radix, if it fits.
fn sized(negative: bool, radix: u128, digits: &[u8]) -> Option<i128>
    requires { 1 ≤ radix }
    ensures { result ≡ within (signed_size negative (spec.magnitude radix digits.now)) }
{
    match magnitude(radix, digits) {
        Some(size) => signed(negative, size),
        None => None,
    }
}

/// The number of this sign that a text writes, if it fits.
fn numeral(negative: bool, text: &[u8]) -> Option<i128>
    ensures { result ≡ spec.numeral negative text.now }
{
    if is_decimal(text) {
        return sized(negative, 10, text);
    }
    let radix = radix_of(text);
    let digits = behind(text, 2);
    if radix == 10 || text.len() == 2 || !are_digits(radix, digits) {
        return None;
    }
    sized(negative, radix, digits)
}

/// The number that a text writes, with or without a `-`, if it fits in 128 bits.
pub fn written(text: &[u8]) -> Option<i128>
    ensures { result ≡ spec.written text.now }
{
    if byte_at(text, 0) == b'-' {
        numeral(true, behind(text, 1))
    } else {
        numeral(false, text)
    }
}
