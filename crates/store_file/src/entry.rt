//! Entries of the file.

ghost use Rattle.std.specs.Prelude.{◌≡◌};
ghost use Rattle.std.specs.Ordering.{ordering_then};
ghost use Rattle.store_form.specs.Takes.{Gives, Finds};
ghost use Rattle.store_form.specs.Adds.{Adds};
ghost use Rattle.store_file.specs.StoreText.{digest_cmp, entry_bytes, entry_cmp, IsEntry};

use crate::digest::Digest;
use crate::leaf::{add_leaf, take_leaf};
use node_tree::Bytes;
use std::alloc::Global;
use std::cmp::Ordering;
use store_form::{FormFault, Front};
use tree_match::Leaf;

/// What the file begins with.
pub const MARK: [u8; 16] = *b"semscan-store 1\n";

/// A leaf that is kept, with the digests of its piece's bytes and of its pattern's bytes.
#[derive(Drop)]
pub struct Entry {
    pub piece: Digest,
    pub pattern: Digest,
    pub leaf: Leaf,
}

impl Entry {
    /// Which of two entries comes first, by their digests.
    pub fn order(&self, other: &Entry) -> Ordering
        ensures { result ≡ entry_cmp self.now other.now }
    {
        self.piece
            .order(&other.piece)
            .then(self.pattern.order(&other.pattern))
    }

    /// Whether the entry comes before one with these digests, after it, or has them.
    pub fn order_with(&self, piece: &Digest, pattern: &Digest) -> Ordering
        ensures { result ≡ ordering_then (digest_cmp self.now.piece piece.now)
            (digest_cmp self.now.pattern pattern.now) }
    {
        self.piece.order(piece).then(self.pattern.order(pattern))
    }

    /// Takes an entry off the front.
    pub fn take(alloc: Global, front: &mut Front<'_>) -> Result<Entry, FormFault>
        ensures given { Gives IsEntry entry_bytes front.old.rest.now result front.new.rest.now }
        ensures found { Finds IsEntry entry_bytes front.old.rest.now result front.new.rest.now }
    {
        let piece = Digest::take(front)?;
        let pattern = Digest::take(front)?;
        let leaf = take_leaf(alloc, front)?;
        Ok(Entry {
            piece,
            pattern,
            leaf,
        })
    }
}
