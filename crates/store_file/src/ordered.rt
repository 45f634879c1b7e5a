//! Offered entries in order of their digests.

ghost use Rattle.std.specs.Prelude.{◌≡◌, [], map, IfOk, OnOk};
ghost use Rattle.tree_match.specs.Ascending.{IsAscending};
ghost use Rattle.store_file.specs.StoreText.{entry_cmp};
ghost use Rattle.store_file.specs.Written.{entry_of, put_entry, PutsOne, PutsAll};
ghost use Rattle.store_file.specs.Shelf.{entry_in};

use crate::digest::Digest;
use crate::offer::Offer;
use node_tree::Memory;
use std::alloc::Global;
use std::collections::BTreeMap;
use tree_match::Leaf;

// Leaves by the digests of their piece and pattern.
type Shelf<'l> = BTreeMap<([u8; 32], [u8; 32]), &'l Leaf>;

// Puts an entry in, where none has its digests.
fn put<'l>(shelf: &mut Shelf<'l>, offer: &Offer<'l>) -> Result<(), Memory>
    ensures { OnOk result (map entry_in shelf.new.entries ≡
        put_entry (entry_of offer.now) (map entry_in shelf.old.entries)) }
{
    let key = (offer.piece.bytes, offer.pattern.bytes);
    if shelf.contains_key(&key) {
        return Ok(());
    }
    shelf.insert(key, offer.leaf)?;
    Ok(())
}

// Puts the entry in, if it may be written.
fn put_one<'l>(alloc: Global, shelf: &mut Shelf<'l>, offer: &Offer<'l>) -> Result<(), Memory>
    ensures { OnOk result (PutsOne (entry_of offer.now)
        (map entry_in shelf.old.entries) (map entry_in shelf.new.entries)) }
{
    match offer.bytes(alloc)? {
        None => Ok(()),
        Some(_) => put(shelf, offer),
    }
}

// Puts in what may be written of these.
fn shelf_of<'l>(alloc: Global, offers: &[Offer<'l>]) -> Result<Shelf<'l>, Memory>
    ensures { IfOk result (λ shelf.
        PutsAll (map entry_of offers.now) [] (map entry_in shelf.entries)) }
{
    let mut shelf = BTreeMap::new(alloc);
    for offer in offers {
        put_one(alloc, &mut shelf, offer)?;
    }
    Ok(shelf)
}

// The entries in order.
fn listed<'l>(alloc: Global, shelf: &Shelf<'l>) -> Result<Vec<Offer<'l>>, Memory>
    ensures items { IfOk result (λ v. map entry_of v.items ≡ map entry_in shelf.now.entries) }
    ensures ordered { IfOk result (λ v. IsAscending entry_cmp (map entry_of v.items)) }
{
    let mut offers = Vec::new(alloc);
    for (key, leaf) in shelf.iter() {
        offers.push(Offer {
            piece: Digest { bytes: key.0 },
            pattern: Digest { bytes: key.1 },
            leaf: *leaf,
        })?;
    }
    Ok(offers)
}

/// Those of these entries that may be written, in order of their digests; of several with the same digests the first.
pub fn in_order<'l>(alloc: Global, offers: &[Offer<'l>]) -> Result<Vec<Offer<'l>>, Memory>
    ensures items { IfOk result (λ v. PutsAll (map entry_of offers.now) [] (map entry_of v.items)) }
    ensures ordered { IfOk result (λ v. IsAscending entry_cmp (map entry_of v.items)) }
{
    let shelf = shelf_of(alloc, offers)?;
    listed(alloc, &shelf)
}
