//! Entries that are offered to be written.

ghost use Rattle.std.specs.Prelude.{◌≡◌, ◌↔◌, IsTrue, IfOk, MatchOption};
ghost use Rattle.store_form.specs.Adds.{Adds};
ghost use Rattle.store_file.specs.StoreText.{entry_bytes, IsEntry, IsStored};
ghost use Rattle.store_file.specs.Written.{entry_of};

use crate::digest::Digest;
use crate::leaf::add_leaf;
use node_tree::{Bytes, Memory};
use std::alloc::Global;
use store_form::FormFault;
use tree_match::Leaf;

/// An entry that is offered to be written: the digests of a piece and of a pattern, and the leaf, which is lent.
#[derive(Clone, Copy)]
pub struct Offer<'l> {
    pub piece: Digest,
    pub pattern: Digest,
    pub leaf: &'l Leaf,
}

impl Offer<'_> {
    // The bytes of the entry, None where it may not be written.
    pub fn bytes(&self, alloc: Global) -> Result<Option<Bytes>, Memory>
        ensures { IfOk result (λ found. MatchOption found (IsEntry (entry_of self.now) → ⊥)
            (λ bytes. IsEntry (entry_of self.now) × (bytes ≡ entry_bytes (entry_of self.now)))) }
    {
        let mut out = Bytes::new(alloc);
        out.extend(&self.piece.bytes)?;
        out.extend(&self.pattern.bytes)?;
        match add_leaf(&mut out, self.leaf) {
            Ok(()) => Ok(Some(out)),
            Err(FormFault::NoForm) => Ok(None),
            Err(FormFault::Memory) => Err(Memory),
        }
    }
}
