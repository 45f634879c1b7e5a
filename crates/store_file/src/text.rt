//! The text that is written.

ghost use Rattle.std.specs.Prelude.{◌≡◌, ◌≤◌, ◌-◌, ◌++◌, List as list, length, map, [], IfOk, OnOk};
ghost use Rattle.std.specs.List.{flat_map};
ghost use Rattle.store_file.specs.declared.entry.Entry.{Entry as an_entry};
ghost use Rattle.store_file.specs.StoreText.{entry_bytes, IsStoreText};
ghost use Rattle.store_file.specs.Written.{entry_of, PutsAll, fitting};

use crate::digest::Digest;
use crate::entry::MARK;
use crate::offer::Offer;
use crate::ordered::in_order;
use node_tree::{Bytes, Memory};
use std::alloc::Global;

// The most bytes before the digest.
const MOST_BEFORE: usize = 33_554_400;

// Adds as many entries from the first on as fit before the digest. `Memory` is also the answer where one may not be
// written.
fn add_fitting(alloc: Global, out: &mut Bytes, offers: &[Offer<'_>]) -> Result<(), Memory>
    requires { length out.old ≤ 33554400 }
    ensures added { OnOk result (out.new ≡ out.old ++ flat_map entry_bytes
        (fitting (33554400 - length out.old) (map entry_of offers.now))) }
    ensures small { length out.new ≤ 33554400 }
{
    for offer in offers {
        let Some(entry) = offer.bytes(alloc)? else {
            return Err(Memory);
        };
        if entry.len() > MOST_BEFORE - out.len() {
            return Ok(());
        }
        out.extend(entry.as_slice())?;
    }
    Ok(())
}

/// The text of a store: of the entries that are offered those that may be written, in order of their digests, of several with
/// the same digests the first, and as many from the first on as the file has room for.
pub fn store_text(alloc: Global, offers: &[Offer<'_>]) -> Result<Bytes, Memory>
    ensures { IfOk result (λ text. (all : list an_entry) × PutsAll (map entry_of offers.now) [] all ×
        IsStoreText (fitting 33554384 all) text) }
{
    let all = in_order(alloc, offers)?;
    let mut out = Bytes::from_slice(alloc, &MARK)?;
    add_fitting(alloc, &mut out, &all)?;
    let digest = Digest::of(out.as_slice());
    out.extend(&digest.bytes)?;
    Ok(out)
}
