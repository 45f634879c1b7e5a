//! Writing changed files.

ghost use Rattle.std.specs.Prelude.{◌≡◌, [], if◌then◌else◌, IfErr, OnOk, OnErr};
ghost use Rattle.folder_run.specs.Written.{WritesAll, WritesSome, LeavesOf};
ghost use Rattle.folder_run.specs.Causes.{HasWritingCause};

use fix_apply::FixedFile;
use run_status::Status;
use scan_world::{Tree, TreeFault};

// Writes changed files whole, in order.
fn write_all<T: Tree>(tree: &mut T, files: &[FixedFile]) -> Result<(), Status>
    ensures all { OnOk result (WritesAll (T.files tree.old) (T.files tree.new) files.now) }
    ensures some { OnErr result (WritesSome (T.files tree.old) (T.files tree.new) files.now) }
    ensures unfailed { OnOk result (T.faults tree.new ≡ T.faults tree.old) }
    ensures cause { IfErr result (HasWritingCause (T.faults tree.old) (T.faults tree.new)) }
{
    for file in files {
        match tree.write(file.path.as_str(), file.whole.as_slice()) {
            Ok(()) => {}
            Err(TreeFault::Failed) => return Err(Status::TreeFault),
            Err(TreeFault::Memory) => return Err(Status::Memory),
            Err(TreeFault::Absent) => unreachable!(),
        }
    }
    Ok(())
}

/// Writes changed files whole, in order, unless this is a dry run.
pub fn write_unless<T: Tree>(dry: bool, tree: &mut T, files: &[FixedFile]) -> Result<(), Status>
    ensures wrote { OnOk result (WritesAll (T.files tree.old) (T.files tree.new) (if dry then [] else files.now)) }
    ensures left { LeavesOf dry files.now (T.files tree.old) (T.files tree.new) }
    ensures unfailed { OnOk result (T.faults tree.new ≡ T.faults tree.old) }
    ensures cause { IfErr result (HasWritingCause (T.faults tree.old) (T.faults tree.new)) }
{
    if dry {
        return Ok(());
    }
    write_all(tree, files)
}
