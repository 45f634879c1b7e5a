//! What a file keeps, as it was read.

ghost use Rattle.std.specs.Prelude.{◌≡◌, ◌<◌, [], length, slice_index_or, List as list, IfOk, MatchOption, IfSome};
ghost use Rattle.tree_match.specs.Ascending.{IsAscending};
ghost use Rattle.tree_match.specs.Placed.{IsLeafPlaced};
ghost use Rattle.store_file.specs.declared.entry.Entry.{Entry as an_entry};
ghost use Rattle.store_file.specs.StoreText.{entry_cmp, IsStoreText};
ghost use Rattle.store_file.specs.Found.{IsWith, IsAbsent, IsFound};

use crate::digest::Digest;
use crate::entry::Entry;
use crate::placed::leaf_lies_in;
use crate::whole::entries_of;
use node_tree::{List, Memory, Twin};
use std::alloc::Global;
use std::cmp::Ordering;
use std::marker::Model;
use store_form::FormFault;
use tree_match::Leaf;

/// The entries that a file keeps. Contracts see them in order of their digests.
#[derive(Drop)]
pub struct Saved {
    entries: List<Entry>,
}

impl Model for Saved {
    ghost use Rattle.std.specs.Prelude.{List as list};
    ghost use Rattle.std.specs.Coded.{coded_list};
    ghost use Rattle.tree_match.specs.Ascending.{IsAscending};
    ghost use Rattle.store_file.specs.declared.entry.Entry.{Entry as entry};
    ghost use Rattle.store_file.specs.contracts.entry.Entry as entry_rows;
    ghost use Rattle.store_file.specs.StoreText.{entry_cmp};

    ghost Value = { list entry };

    ghost coded = { coded_list entry_rows.the_row.coded };

    ghost view = { λ s. s.entries };

    ghost invariant = { λ s. IsAscending entry_cmp s.entries };
}

// The place of the entry with these digests.
fn place_of(entries: &[Entry], piece: &Digest, pattern: &Digest) -> Option<usize>
    requires { IsAscending entry_cmp entries.now }
    ensures { MatchOption result (IsAbsent piece.now pattern.now entries.now)
        (λ at. (at < length entries.now) ×
        ((d : an_entry) → IsWith piece.now pattern.now (slice_index_or entries.now at d))) }
{
    let mut low = 0;
    let mut high = entries.len();
    while low < high {
        let middle = low + (high - low) / 2;
        match entries[middle].order_with(piece, pattern) {
            Ordering::Less => low = middle + 1,
            Ordering::Equal => return Some(middle),
            Ordering::Greater => high = middle,
        }
    }
    None
}

impl Saved {
    /// No entries, which takes no memory.
    pub fn empty(alloc: Global) -> Saved
        ensures { result ≡ [] }
    {
        Saved {
            entries: List::new(alloc),
        }
    }

    /// How many entries there are.
    pub fn len(&self) -> usize
        ensures { result ≡ length self.now }
    {
        self.entries.len()
    }

    /// The leaf of the entry with these digests of a piece and of a pattern, where its ranges lie in the bytes of the piece and
    /// cut no character of them. None exactly where there is no such entry.
    pub fn find(
        &self,
        piece: &Digest,
        pattern: &Digest,
        bytes: &[u8],
    ) -> Result<Option<Leaf>, Memory>
        ensures found { IfOk result (IsFound bytes.now piece.now pattern.now self.now) }
        ensures placed { IfOk result (λ leaf. IfSome leaf (IsLeafPlaced bytes.now)) }
    {
        let entries = self.entries.as_slice();
        let Some(at) = place_of(entries, piece, pattern) else {
            return Ok(None);
        };
        let leaf = &entries[at].leaf;
        if !leaf_lies_in(bytes, leaf) {
            return Ok(None);
        }
        Ok(Some(leaf.copy()?))
    }
}

/// Reads a file. It keeps nothing exactly where its bytes are no text of at least one entry.
pub fn read_store(alloc: Global, bytes: &[u8]) -> Result<Saved, Memory>
    ensures exact { IfOk result (λ saved. (entries : list an_entry) →
        IsStoreText entries bytes.now → saved ≡ entries) }
    ensures empty { IfOk result (λ saved. (saved ≡ [] → ⊥) → IsStoreText saved bytes.now) }
{
    match entries_of(alloc, bytes) {
        Ok(entries) => Ok(Saved { entries }),
        Err(FormFault::NoForm) => Ok(Saved::empty(alloc)),
        Err(FormFault::Memory) => Err(Memory),
    }
}
