//! What is written is read again.

ghost use Rattle.std.specs.Prelude.{◌≡◌, [], List as list, map, IfOk};
ghost use Rattle.store_file.specs.declared.entry.Entry.{Entry as an_entry};
ghost use Rattle.store_file.specs.Written.{entry_of, PutsAll, fitting};

use node_tree::Memory;
use std::alloc::Global;
use store_file::{Offer, Saved, read_store, store_text};

/// Writes entries, and reads what was written: these are the entries that were written.
pub fn read_again(alloc: Global, offers: &[Offer<'_>]) -> Result<Saved, Memory>
    ensures { IfOk result (λ saved. (all : list an_entry) ×
        PutsAll (map entry_of offers.now) [] all × (saved ≡ fitting 33554384 all)) }
{
    let text = store_text(alloc, offers)?;
    read_store(alloc, text.as_slice())
}
