//! The content of quoted scalars that stand on one line.

ghost use Rattle.std.specs.Prelude.{◌≡◌, false, [], ◌∷◌, IfOk, MatchOption, string_bytes, encode_utf8_all};
ghost use Rattle.std.specs.Option.{option_map};
ghost use Rattle.std.specs.Str.{chars};
ghost use Rattle.yaml_lines.specs.Escape as spec;
ghost use Rattle.yaml_lines.specs.declared.escape.Reading.TheVariants.{Plain};

use node_tree::Memory;
use std::alloc::Global;

/// What the next character between double quotes is.
#[derive(Clone, Copy, Debug, PartialEq, Eq)]
pub enum Reading {
    /// A character of the content, or a backslash.
    Plain,
    /// What follows a backslash.
    Escape,
    /// One of so many hexadecimal digits that are left, after those that make this number.
    Code(u32, u32),
}

/// The character that an escape of one character names.
fn named(c: char) -> Option<char>
    ensures { result ≡ spec.named_in spec.escapes c }
{
    let named = match c {
        '0' => '\0',
        'a' => '\u{7}',
        'b' => '\u{8}',
        't' | '\t' => '\t',
        'n' => '\n',
        'v' => '\u{b}',
        'f' => '\u{c}',
        'r' => '\r',
        'e' => '\u{1b}',
        ' ' | '"' | '/' | '\\' => c,
        'N' => '\u{85}',
        '_' => '\u{a0}',
        'L' => '\u{2028}',
        'P' => '\u{2029}',
        _ => return None,
    };
    Some(named)
}

/// How many hexadecimal digits follow an escape.
fn digits_after(c: char) -> Option<u32>
    ensures { result ≡ spec.digits_after c }
{
    match c {
        'x' => Some(2),
        'u' => Some(4),
        'U' => Some(8),
        _ => None,
    }
}

/// What a character between double quotes does.
#[derive(Clone, Copy, Debug, PartialEq, Eq)]
pub enum Step {
    /// It can't stand here.
    Fails,
    /// It is part of an escape that goes on.
    Reads(Reading),
    /// It is a character of the content, or ends the escape of one.
    Gives(char),
}

/// What one of so many digits that are left does, after those that make this number.
fn digit_step(left: u32, value: u32, c: char) -> Step
    ensures { result ≡ spec.digit_step left value c }
{
    let Some(digit) = c.to_digit(16) else {
        return Step::Fails;
    };
    let more = value as u64 * 16 + digit as u64;
    if more > 0x10ffff {
        return Step::Fails;
    }
    let more = more as u32;
    if left > 1 {
        return Step::Reads(Reading::Code(left - 1, more));
    }
    match char::from_u32(more) {
        Some(scalar) => Step::Gives(scalar),
        None => Step::Fails,
    }
}

/// What a character after a backslash does.
fn escape_step(c: char) -> Step
    ensures { result ≡ spec.escape_step c }
{
    if let Some(left) = digits_after(c) {
        return Step::Reads(Reading::Code(left, 0));
    }
    match named(c) {
        Some(scalar) => Step::Gives(scalar),
        None => Step::Fails,
    }
}

/// What the next character does.
pub fn next_step(reading: Reading, c: char) -> Step
    ensures { result ≡ spec.step_of reading c }
{
    match reading {
        Reading::Plain => {
            if c == '\\' {
                Step::Reads(Reading::Escape)
            } else {
                Step::Gives(c)
            }
        }
        Reading::Escape => escape_step(c),
        Reading::Code(left, value) => digit_step(left, value, c),
    }
}

/// The first character of a text, and what follows it.
pub fn first_char(text: &str) -> Option<(char, &str)>
    ensures { MatchOption result (chars text.now ≡ []) (λ x. chars text.now ≡ x.0 ∷ chars x.1.now) }
{
    let mut rest = text.chars();
    let first = rest.next()?;
    Some((first, rest.as_str()))
}

/// What stands between double quotes, without its escapes.
pub fn unescaped(alloc: Global, text: &str) -> Result<Option<String>, Memory>
    ensures { IfOk result (λ r. option_map string_bytes r ≡ option_map encode_utf8_all (spec.unescaped_at Plain (chars text.now))) }
{
    let mut content = String::new(alloc);
    let mut reading = Reading::Plain;
    let mut rest = text;
    'chars: while let Some((c, more)) = first_char(rest) {
        match next_step(reading, c) {
            Step::Fails => return Ok(None),
            Step::Reads(next) => reading = next,
            Step::Gives(scalar) => {
                content.push(scalar)?;
                reading = Reading::Plain;
            }
        }
        rest = more;
    }
    match reading {
        Reading::Plain => Ok(Some(content)),
        _ => Ok(None),
    }
}

/// Whether a character is the second of two quotes that stand for one.
fn is_second(second: bool, c: char) -> bool
    ensures { result ≡ spec.is_second second c }
{
    second && c == '\''
}

/// What stands between single quotes, where two stand for one.
pub fn undoubled(alloc: Global, text: &str) -> Result<String, Memory>
    ensures { IfOk result (λ s. string_bytes s ≡ encode_utf8_all (spec.undoubled_at false (chars text.now))) }
{
    let mut content = String::new(alloc);
    let mut second = false;
    let mut rest = text;
    'chars: while let Some((c, more)) = first_char(rest) {
        if is_second(second, c) {
            second = false;
        } else {
            content.push(c)?;
            second = c == '\'';
        }
        rest = more;
    }
    Ok(content)
}
