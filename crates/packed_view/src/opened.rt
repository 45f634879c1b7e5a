//! A file as it was opened, in little memory.

ghost use Rattle.std.specs.Prelude.{◌≡◌, IfOk};
ghost use Rattle.packed_view.specs.Opened.{HasText};

use crate::view::PackedView;
use file_open::Opened;
use node_tree::{Bytes, Memory};
use std::alloc::Global;
use std::marker::Model;
use std::rc::Rc;

// As a file was opened.
#[derive(Drop)]
enum Packed {
    TooLarge,
    NotUtf8,
    NoTree(PackedView),
    Read(PackedView),
}

/// A file as it was opened, the tree as bytes. Contracts see how it was opened.
#[derive(Drop)]
pub struct PackedOpened {
    packed: Packed,
}

impl Model for PackedOpened {
    ghost use Rattle.file_open.specs.declared.opened.Opened.{Opened as an_opened};
    ghost use Rattle.file_open.specs.contracts.opened.Opened as openeds;

    ghost Value = { an_opened };

    ghost coded = { openeds.the_row.coded };

    ghost use Rattle.packed_view.specs.Opened.{opened_of};

    ghost view = { λ p. opened_of p.packed };
}

impl PackedOpened {
    /// Packs a file with this text as it was opened.
    pub fn of(alloc: Global, text: &Rc<Bytes>, opened: Opened) -> Result<PackedOpened, Memory>
        requires { HasText text.now.value opened }
        ensures { IfOk result (λ packed. packed ≡ opened) }
    {
        let packed = match opened {
            Opened::TooLarge => Packed::TooLarge,
            Opened::NotUtf8 => Packed::NotUtf8,
            Opened::NoTree(view) => Packed::NoTree(PackedView::of(alloc, text, view)?),
            Opened::Read(view) => Packed::Read(PackedView::of(alloc, text, view)?),
        };
        Ok(PackedOpened { packed })
    }

    /// The file as it was opened.
    pub fn opened(&self, alloc: Global) -> Result<Opened, Memory>
        ensures { IfOk result (λ opened. opened ≡ self.now) }
    {
        match &self.packed {
            Packed::TooLarge => Ok(Opened::TooLarge),
            Packed::NotUtf8 => Ok(Opened::NotUtf8),
            Packed::NoTree(view) => Ok(Opened::NoTree(view.view(alloc)?)),
            Packed::Read(view) => Ok(Opened::Read(view.view(alloc)?)),
        }
    }
}
