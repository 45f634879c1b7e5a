//! The entries of a whole text.

ghost use Rattle.std.specs.Prelude.{◌≡◌, ◌↔◌, ℕ, List as list, ◌++◌, IsTrue, MatchOption};
ghost use Rattle.std.specs.declared.cmp.Ordering.TheVariants.{Less as is_less};
ghost use Rattle.sha2.specs.Sha256.{sha256};
ghost use Rattle.tree_match.specs.Ascending.{IsAscending};
ghost use Rattle.store_file.specs.StoreText.{entry_cmp, AreIn, AreOrderedIn, IsStoreText, IsOf, GivesAny};

use crate::digest::Digest;
use crate::entry::{Entry, MARK};
use node_tree::List;
use std::alloc::Global;
use std::cmp::Ordering;
use store_form::{FormFault, Front};

/// The most bytes that the file has.
pub const MOST_BYTES: usize = 33_554_432;

// The entries that stand one after the other, in any order.
fn entries_in(alloc: Global, text: &[u8]) -> Result<List<Entry>, FormFault>
    ensures given { IsOf AreIn text.now result }
    ensures found { GivesAny AreIn text.now result }
{
    let mut front = Front { rest: text };
    let mut entries = Vec::new(alloc);
    while !front.rest.is_empty() {
        let entry = Entry::take(alloc, &mut front)?;
        entries.push(entry)?;
    }
    Ok(List::from_vec(entries))
}

// Whether the first entry is below the second.
fn is_below(a: &Entry, b: &Entry) -> bool
    ensures { IsTrue result ↔ (entry_cmp a.now b.now ≡ is_less) }
{
    match a.order(b) {
        Ordering::Less => true,
        Ordering::Equal => false,
        Ordering::Greater => false,
    }
}

// Whether the entries stand in order, each once.
fn is_in_order(entries: &[Entry]) -> bool
    ensures { IsTrue result ↔ IsAscending entry_cmp entries.now }
{
    for i in 1..entries.len() {
        if !is_below(&entries[i - 1], &entries[i]) {
            return false;
        }
    }
    true
}

// The entries that stand one after the other, in order.
fn ordered_in(alloc: Global, text: &[u8]) -> Result<List<Entry>, FormFault>
    ensures given { IsOf AreOrderedIn text.now result }
    ensures found { GivesAny AreOrderedIn text.now result }
{
    let entries = entries_in(alloc, text)?;
    if !is_in_order(entries.as_slice()) {
        return Err(FormFault::NoForm);
    }
    Ok(entries)
}

// Whether the bytes are the same.
fn is_same(a: &[u8], b: &[u8]) -> bool
    ensures { IsTrue result ↔ (a.now ≡ b.now) }
{
    a == b
}

// The bytes before the digest of them that the text ends with.
fn without_digest(text: &[u8]) -> Option<&[u8]>
    ensures { MatchOption result ((front : list ℕ) → text.now ≡ front ++ sha256 front → ⊥)
        (λ front. text.now ≡ front.now ++ sha256 front.now) }
{
    if text.len() < 32 {
        return None;
    }
    let (front, digest) = text.split_at(text.len() - 32);
    if !is_same(digest, &Digest::of(front).bytes) {
        return None;
    }
    Some(front)
}

// The bytes behind the mark that the text begins with.
fn without_mark(text: &[u8]) -> Option<&[u8]>
    ensures { MatchOption result ((rest : list ℕ) → text.now ≡ MARK ++ rest → ⊥)
        (λ rest. text.now ≡ MARK ++ rest.now) }
{
    if text.len() < MARK.len() {
        return None;
    }
    let (mark, rest) = text.split_at(MARK.len());
    if mark != MARK.as_slice() {
        return None;
    }
    Some(rest)
}

/// The entries of a text.
pub fn entries_of(alloc: Global, text: &[u8]) -> Result<List<Entry>, FormFault>
    ensures given { IsOf IsStoreText text.now result }
    ensures found { GivesAny IsStoreText text.now result }
{
    if text.len() > MOST_BYTES {
        return Err(FormFault::NoForm);
    }
    let Some(front) = without_digest(text) else {
        return Err(FormFault::NoForm);
    };
    let Some(entries) = without_mark(front) else {
        return Err(FormFault::NoForm);
    };
    ordered_in(alloc, entries)
}
