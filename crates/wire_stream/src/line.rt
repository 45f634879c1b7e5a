//! The line of a command.

ghost use Rattle.std.specs.Prelude.{◌≡◌, ◌++◌, ◌≤◌, ℕ, List, MatchOption, codes};
ghost use Rattle.std.specs.Fmt.{decimal};
ghost use Rattle.wire_stream.specs.Lines.{IsName, IsPrefix, IsSized, sized_bytes};
ghost use Rattle.wire_stream.specs.Asked.{line_of, IsLineOf, IsNoLine};

use memchr::memchr;
use path_glob::path_ok;
use std::str::from_utf8;
use wire_words::number;

/// The most bytes that a body may have.
pub const MOST_BODY: u64 = 268_435_456;

/// What a line asks for.
#[derive(Clone, Copy, Drop)]
pub enum Asked<'l> {
    Put(u64, &'l str),
    Del(&'l str),
    Rule(u64, &'l str),
    Unrule(&'l str),
    Sync(&'l str),
    Scan,
    Fix,
    End,
}

/// What follows a word at the front of a line.
pub fn after<'l>(word: &[u8], line: &'l [u8]) -> Option<&'l [u8]>
    ensures { MatchOption result ((rest : List ℕ) → line.now ≡ word.now ++ rest → ⊥) (λ rest. line.now ≡ word.now ++ rest.now) }
{
    line.strip_prefix(word)
}

/// The text of a path.
pub fn name(bytes: &[u8]) -> Option<&str>
    ensures { MatchOption result (IsName bytes.now → ⊥) (λ text. IsName bytes.now × (text.now ≡ bytes.now)) }
{
    match from_utf8(bytes) {
        Ok(text) if path_ok(text) => Some(text),
        _ => None,
    }
}

/// The text of a prefix: a path, or `.` for all.
fn prefix(bytes: &[u8]) -> Option<&str>
    ensures { MatchOption result (IsPrefix bytes.now → ⊥) (λ text. IsPrefix bytes.now × (text.now ≡ bytes.now)) }
{
    if bytes == b".".as_slice() {
        return Some(".");
    }
    name(bytes)
}

/// The length that bytes write.
pub fn size(bytes: &[u8]) -> Option<u64>
    ensures { MatchOption result ((n : ℕ) → n ≤ 268435456 → bytes.now ≡ decimal n → ⊥) (λ n. (n ≤ 268435456) × (bytes.now ≡ decimal n)) }
{
    match from_utf8(bytes) {
        Ok(word) => number(word, MOST_BODY),
        Err(_) => None,
    }
}

/// A length, a space and a path.
fn sized(bytes: &[u8]) -> Option<(u64, &str)>
    ensures { MatchOption result ((n : ℕ) (text : List ℕ) → IsSized n text → bytes.now ≡ sized_bytes n text → ⊥)
        (λ x. IsSized x.0 x.1.now × (bytes.now ≡ sized_bytes x.0 x.1.now)) }
{
    let space = memchr(b' ', bytes)?;
    let size = size(&bytes[..space])?;
    let name = name(&bytes[space + 1..])?;
    Some((size, name))
}

/// What a line without a name asks for.
fn bare(line: &[u8]) -> Option<Asked<'_>>
    ensures { MatchOption result ((line.now ≡ codes "scan" → ⊥) × (line.now ≡ codes "fix" → ⊥) × (line.now ≡ codes "end" → ⊥)) (λ a. IsLineOf line.now (line_of a)) }
{
    if line == b"scan".as_slice() {
        return Some(Asked::Scan);
    }
    if line == b"fix".as_slice() {
        return Some(Asked::Fix);
    }
    if line == b"end".as_slice() {
        return Some(Asked::End);
    }
    None
}

/// What a line, without its end, asks for.
pub fn asked_of(line: &[u8]) -> Option<Asked<'_>>
    ensures { MatchOption result (IsNoLine line.now) (λ a. IsLineOf line.now (line_of a)) }
{
    if let Some(rest) = after(b"put ", line) {
        let (size, path) = sized(rest)?;
        return Some(Asked::Put(size, path));
    }
    if let Some(rest) = after(b"rule ", line) {
        let (size, name) = sized(rest)?;
        return Some(Asked::Rule(size, name));
    }
    if let Some(rest) = after(b"del ", line) {
        return Some(Asked::Del(name(rest)?));
    }
    if let Some(rest) = after(b"unrule ", line) {
        return Some(Asked::Unrule(name(rest)?));
    }
    if let Some(rest) = after(b"sync ", line) {
        return Some(Asked::Sync(prefix(rest)?));
    }
    bare(line)
}
