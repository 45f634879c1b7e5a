//! The names that are known in files.

ghost use Rattle.std.specs.Prelude.{IfOk};
ghost use Rattle.node_tree.specs.KnownNames.{AreNames, AreInOrder};
ghost use Rattle.file_open.specs.Naming.{IsNamed};

use code_reader::TreeReader;
use node_tree::{FileView, Memory};
use std::alloc::Global;

/// The file with the names that a reader knows in it. Nothing of the file is copied.
pub fn with_names<R: TreeReader>(
    alloc: Global,
    reader: &R,
    view: FileView,
) -> Result<FileView, Memory>
    ensures { IfOk result (IsNamed (R.knows reader.now) view) }
{
    let known = reader.known_names(alloc, view.lang, &view.tree)?;
    Ok(FileView {
        lang: view.lang,
        bytes: view.bytes,
        tree: view.tree,
        known,
    })
}
