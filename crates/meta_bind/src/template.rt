//! Texts in which metavariables are filled in.

ghost use Rattle.std.specs.Prelude.{◌≡◌, ◌≤◌, ◌<◌, ◌+◌, ◌++◌, ◌≢◌, ℕ, All, OnOk, IfOk, length, drop, slice_index};
ghost use Rattle.std.specs.Str.{IsUtf8, IsCharBoundary};
ghost use Rattle.meta_bind.specs.declared.bound.Bound.{Bound as bound};
ghost use Rattle.meta_bind.specs.Fills as spec;
ghost use Rattle.meta_bind.specs.Places.{EndsLieIn};

use crate::binding::Binding;
use node_tree::{Memory, Text};
use std::alloc::Global;
use std::str;

// The byte at a place, 0 past the end.
fn byte_at(text: &[u8], at: usize) -> u8
    ensures { result ≡ slice_index text.now at }
{
    if at < text.len() { text[at] } else { 0 }
}

// Whether it is a capital letter or `_`.
fn is_head(byte: u8) -> bool
    ensures { result ≡ spec.is_head byte }
{
    (65 <= byte && byte <= 90) || byte == 95
}

// Whether it is a capital letter, a digit or `_`.
fn is_part(byte: u8) -> bool
    ensures { result ≡ spec.is_part byte }
{
    is_head(byte) || (48 <= byte && byte <= 57)
}

// How many capital letters, digits and `_` the text begins with.
fn part_size(text: &[u8]) -> usize
    ensures size { result ≡ spec.part_size text.now }
    ensures within { result ≤ length text.now }
{
    for (i, byte) in text.iter().enumerate() {
        if !is_part(*byte) {
            return i;
        }
    }
    text.len()
}

// The size of the longest word at the front.
fn word_size(text: &[u8]) -> usize
    ensures size { result ≡ spec.word_size text.now }
    ensures within { result ≤ length text.now }
{
    match text {
        [] => 0,
        [first, rest @ ..] => {
            if is_head(*first) {
                1 + part_size(rest)
            } else {
                0
            }
        }
    }
}

// The size of `$...` or `$` at the front.
fn mark_size(text: &[u8]) -> usize
    ensures size { result ≡ spec.mark_size text.now }
    ensures within { result ≤ length text.now }
{
    if byte_at(text, 0) != b'$' {
        return 0;
    }
    if byte_at(text, 1) == b'.' && byte_at(text, 2) == b'.' && byte_at(text, 3) == b'.' {
        4
    } else {
        1
    }
}

// The size of the longest metavariable at the front.
fn name_size(text: &[u8]) -> usize
    ensures size { result ≡ spec.name_size text.now }
    ensures within { result ≤ length text.now }
{
    let mark = mark_size(text);
    if mark == 0 {
        return 0;
    }
    let word = word_size(&text[mark..]);
    if word == 0 { 0 } else { mark + word }
}

// The place of the next `$` from there on, or the end.
fn next_mark(text: &[u8], from: usize) -> usize
    requires { from ≤ length text.now }
    ensures within { result ≤ length text.now }
    ensures later { from ≤ result }
    ensures between { (k : ℕ) → from ≤ k → k < result → slice_index text.now k ≢ 36 }
    ensures found { result < length text.now → slice_index text.now result ≡ 36 }
{
    for at in from..text.len() {
        if text[at] == b'$' {
            return at;
        }
    }
    text.len()
}

// Adds what the name stands for, or the name where it isn't bound.
fn push_value(name: &str, binding: &Binding, bytes: &[u8], text: &mut Text) -> Result<(), Memory>
    requires utf8 { ∥ IsUtf8 bytes.now ∥₁ }
    requires placed { All (λ (b : bound). EndsLieIn bytes.now b.span) binding.now }
    ensures { OnOk result (text.new ≡ text.old ++ spec.value_of binding.now bytes.now name.now) }
{
    match binding.get(name) {
        None => text.push(name),
        Some(bound) => {
            let from = bound.span.from as usize;
            let to = bound.span.to as usize;
            if to < from {
                return Ok(());
            }
            match str::from_utf8(&bytes[from..to]) {
                Ok(value) => text.push(value),
                Err(_) => unreachable!(),
            }
        }
    }
}

// Fills in the next metavariable, or adds what is there before it, and gives the place of what is left.
fn fill_next(
    template: &str,
    at: usize,
    binding: &Binding,
    bytes: &[u8],
    text: &mut Text,
) -> Result<usize, Memory>
    requires left { at < length template.now }
    requires begins { IsCharBoundary template.now at }
    requires utf8 { ∥ IsUtf8 bytes.now ∥₁ }
    requires placed { All (λ (b : bound). EndsLieIn bytes.now b.span) binding.now }
    ensures on { IfOk result (λ to. (at < to) × (to ≤ length template.now)) }
    ensures ends { IfOk result (λ to. IsCharBoundary template.now to) }
    ensures adds { IfOk result (λ to. text.new ++ spec.filled binding.now bytes.now (drop to template.now) ≡ text.old ++ spec.filled binding.now bytes.now (drop at template.now)) }
{
    let size = name_size(&template.as_bytes()[at..]);
    if size == 0 {
        let end = next_mark(template.as_bytes(), at + 1);
        text.push(&template[at..end])?;
        return Ok(end);
    }
    let end = at + size;
    push_value(&template[at..end], binding, bytes, text)?;
    Ok(end)
}

/// The text with each metavariable replaced by the bytes that it is bound to. At each `$` the longest `$NAME` or `$...NAME`
/// is read; a name that isn't bound stays as it is written, and one whose span ends before it begins gives no bytes.
pub fn fill(alloc: Global, template: &str, binding: &Binding, bytes: &[u8]) -> Result<Text, Memory>
    requires utf8 { ∥ IsUtf8 bytes.now ∥₁ }
    requires placed { All (λ (b : bound). EndsLieIn bytes.now b.span) binding.now }
    ensures { IfOk result (λ text. text ≡ spec.filled binding.now bytes.now template.now) }
{
    let mut text = Text::new(alloc);
    let mut at = 0;
    while at < template.len() {
        at = fill_next(template, at, binding, bytes, &mut text)?;
    }
    Ok(text)
}
