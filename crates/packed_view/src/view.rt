//! A file whose tree is kept as bytes.

ghost use Rattle.std.specs.Prelude.{◌≡◌, ◌≤◌, length, IfOk};
ghost use Rattle.std.specs.Str.{IsUtf8};
ghost use Rattle.node_tree.specs.declared.limits.TheConstants.{MOST_BYTES};
ghost use Rattle.node_tree.specs.Spans.{SpansLieIn};
ghost use Rattle.node_tree.specs.KnownNames.{AreNames, AreInOrder};

use node_tree::{Bytes, FileView, Known, Lang, List, Memory, Twin};
use packed_tree::PackedTree;
use std::alloc::Global;
use std::marker::Model;
use std::rc::Rc;

/// A file whose tree is kept as bytes, and whose text may have other owners. Contracts see the file.
#[derive(Drop)]
pub struct PackedView {
    lang: Lang,
    text: Rc<Bytes>,
    tree: PackedTree,
    known: List<Known>,
    ghost utf8: { ∥ IsUtf8 text.value ∥₁ },
    ghost small: { length text.value ≤ MOST_BYTES },
    ghost placed: { SpansLieIn text.value tree },
    ghost names: { AreNames tree known },
    ghost in_order: { AreInOrder known },
}

impl Model for PackedView {
    ghost use Rattle.node_tree.specs.declared.view.FileView.{FileView as file_view};
    ghost use Rattle.node_tree.specs.contracts.view.FileView as file_views;

    ghost Value = { file_view };

    ghost coded = { file_views.the_row.coded };

    ghost use Rattle.packed_view.specs.View.{file_of};

    ghost view = { file_of };
}

impl PackedView {
    /// Packs a file with this text.
    pub fn of(alloc: Global, text: &Rc<Bytes>, view: FileView) -> Result<PackedView, Memory>
        requires { view.bytes ≡ text.now.value }
        ensures { IfOk result (λ packed. packed ≡ view) }
    {
        let tree = PackedTree::of(alloc, &view.tree)?;
        Ok(PackedView {
            lang: view.lang,
            text: text.clone()?,
            tree,
            known: view.known,
        })
    }

    /// The file.
    pub fn view(&self, alloc: Global) -> Result<FileView, Memory>
        ensures { IfOk result (λ view. view ≡ self.now) }
    {
        Ok(FileView {
            lang: self.lang,
            bytes: Rc::as_ref(&self.text).copy()?,
            tree: self.tree.tree(alloc)?,
            known: self.known.copy()?,
        })
    }
}
