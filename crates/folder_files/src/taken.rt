//! The paths of files that are taken.

ghost use Rattle.std.specs.Prelude.{◌≡◌, ◌↔◌, IsTrue, IfOk, Err};
ghost use Rattle.scan_world.specs.Trees.{KeepsFiles, HasTreeCause};
ghost use Rattle.scan_world.specs.declared.tree.TreeFault.TheVariants.{Absent as fault_absent};
ghost use Rattle.folder_files.specs.Folder.{IsTaken, AreTaken, AreTakenUnder};

use node_tree::{List, Memory, Text, Twin};
use path_glob::{has_hidden, lang_of, path_ok};
use scan_world::{Tree, TreeFault};
use std::alloc::Global;

/// Whether a file of this path is taken: it is a path, its ending names a language, and no segment of it begins with a dot.
fn is_taken(path: &str) -> bool
    ensures { IsTrue result ↔ IsTaken path.now }
{
    path_ok(path) && lang_of(path).is_some() && !has_hidden(path)
}

// Those of the paths that are taken.
fn taken_paths(alloc: Global, paths: &List<Text>) -> Result<List<Text>, Memory>
    ensures { IfOk result (AreTaken paths.now) }
{
    let mut taken = List::new(alloc);
    for path in paths.as_slice() {
        if is_taken(path.as_str()) {
            taken.push(path.copy()?)?;
        }
    }
    Ok(taken)
}

/// The paths of the files under the prefix, which is a path or `.`, that are taken, in order of their bytes: each whose ending
/// names a language, and that has no segment that begins with a dot. It never answers Absent.
pub fn taken_under<T: Tree>(
    alloc: Global,
    tree: &mut T,
    prefix: &str,
) -> Result<List<Text>, TreeFault>
    ensures taken { IfOk result (AreTakenUnder (T.files tree.old) prefix.now) }
    ensures kept { KeepsFiles (T.files tree.old) (T.files tree.new) }
    ensures present { result ≡ Err fault_absent → ⊥ }
    ensures cause { HasTreeCause (T.faults tree.old) (T.faults tree.new) (T.absences tree.old) (T.absences tree.new) result }
{
    let paths = tree.list(prefix)?;
    let taken = taken_paths(alloc, &paths)?;
    Ok(taken)
}
