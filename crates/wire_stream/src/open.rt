//! Fronts of lines.

ghost use Rattle.std.specs.Prelude.{◌≡◌, ◌++◌, ◌↔◌, false, ℕ, List, IsTrue, IfOk};
ghost use Rattle.memchr.specs.Find.{is_byte, IsFirstByte};
ghost use Rattle.wire_stream.specs.Lines.{IsName};
ghost use Rattle.wire_stream.specs.Fronts.{IsLineFront, IsSizedFront, IsFrontOf, IsNamedFront, IsBareFront};

use crate::line::{after, name, size};
use memchr::memchr;
use node_tree::Memory;
use std::alloc::Global;

/// Whether bytes with more behind them are a name.
fn is_name_with(alloc: Global, bytes: &[u8], more: &[u8]) -> Result<bool, Memory>
    ensures { IfOk result (λ b. IsTrue b ↔ IsName (bytes.now ++ more.now)) }
{
    let mut whole = Vec::from_slice(alloc, bytes)?;
    whole.extend_from_slice(more)?;
    Ok(name(whole.as_slice()).is_some())
}

/// Whether bytes may go on to a name. A letter may follow a front of a name, if there is room for it. Where the front ends within
/// a character, one of five endings makes it whole, which is as short as any.
fn opens_name(alloc: Global, bytes: &[u8]) -> Result<bool, Memory>
    ensures open { IfOk result (λ b. IsTrue b → (more : List ℕ) × IsName (bytes.now ++ more)) }
    ensures closed { IfOk result (λ b. b ≡ false → (more : List ℕ) → IsName (bytes.now ++ more) → ⊥) }
{
    let bare = is_name_with(alloc, bytes, b"")?;
    if bare {
        return Ok(true);
    }
    let letter = is_name_with(alloc, bytes, b"a")?;
    if letter {
        return Ok(true);
    }
    let one = is_name_with(alloc, bytes, b"\x80")?;
    if one {
        return Ok(true);
    }
    let pair = is_name_with(alloc, bytes, b"\x80\x80")?;
    if pair {
        return Ok(true);
    }
    let triple = is_name_with(alloc, bytes, b"\x80\x80\x80")?;
    if triple {
        return Ok(true);
    }
    let high_pair = is_name_with(alloc, bytes, b"\xa0\x80")?;
    if high_pair {
        return Ok(true);
    }
    let high_triple = is_name_with(alloc, bytes, b"\x90\x80\x80")?;
    Ok(high_triple)
}

/// Whether bytes without a space may go on to a length, a space and a name.
fn opens_size(bytes: &[u8]) -> bool
    requires { IsFirstByte (is_byte 32) bytes.now None }
    ensures open { IsTrue result → IsSizedFront bytes.now }
    ensures closed { result ≡ false → IsSizedFront bytes.now → ⊥ }
{
    if bytes.is_empty() {
        return true;
    }
    match size(bytes) {
        Some(_) => true,
        None => false,
    }
}

/// Whether bytes, whose first space stands at this place, may go on to a length, a space and a name.
fn opens_spaced(alloc: Global, bytes: &[u8], space: usize) -> Result<bool, Memory>
    requires { IsFirstByte (is_byte 32) bytes.now (Some space) }
    ensures open { IfOk result (λ b. IsTrue b → IsSizedFront bytes.now) }
    ensures closed { IfOk result (λ b. b ≡ false → IsSizedFront bytes.now → ⊥) }
{
    match size(&bytes[..space]) {
        Some(_) => opens_name(alloc, &bytes[space + 1..]),
        None => Ok(false),
    }
}

/// Whether bytes may go on to a length, a space and a name.
fn opens_sized(alloc: Global, bytes: &[u8]) -> Result<bool, Memory>
    ensures open { IfOk result (λ b. IsTrue b → IsSizedFront bytes.now) }
    ensures closed { IfOk result (λ b. b ≡ false → IsSizedFront bytes.now → ⊥) }
{
    match memchr(b' ', bytes) {
        Some(space) => opens_spaced(alloc, bytes, space),
        None => Ok(opens_size(bytes)),
    }
}

/// Whether bytes are a front of a word.
fn begins(bytes: &[u8], word: &[u8]) -> bool
    ensures { IsTrue result ↔ IsFrontOf word.now bytes.now }
{
    after(bytes, word).is_some()
}

/// Whether bytes are a front of a word that a name follows, and of the space between.
fn opens_named(bytes: &[u8]) -> bool
    ensures { IsTrue result ↔ IsNamedFront bytes.now }
{
    begins(bytes, b"put ")
        || begins(bytes, b"del ")
        || begins(bytes, b"rule ")
        || begins(bytes, b"unrule ")
        || begins(bytes, b"sync ")
}

/// Whether bytes are a front of a word that stands alone.
fn opens_bare(bytes: &[u8]) -> bool
    ensures { IsTrue result ↔ IsBareFront bytes.now }
{
    begins(bytes, b"scan") || begins(bytes, b"fix") || begins(bytes, b"end")
}

/// Whether bytes may go on to a line.
pub fn is_open(alloc: Global, bytes: &[u8]) -> Result<bool, Memory>
    ensures open { IfOk result (λ b. IsTrue b → IsLineFront bytes.now) }
    ensures closed { IfOk result (λ b. b ≡ false → IsLineFront bytes.now → ⊥) }
{
    if let Some(rest) = after(b"put ", bytes) {
        return opens_sized(alloc, rest);
    }
    if let Some(rest) = after(b"rule ", bytes) {
        return opens_sized(alloc, rest);
    }
    if let Some(rest) = after(b"del ", bytes) {
        return opens_name(alloc, rest);
    }
    if let Some(rest) = after(b"unrule ", bytes) {
        return opens_name(alloc, rest);
    }
    if let Some(rest) = after(b"sync ", bytes) {
        return opens_name(alloc, rest);
    }
    Ok(opens_named(bytes) || opens_bare(bytes))
}
