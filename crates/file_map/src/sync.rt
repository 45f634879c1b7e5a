//! Taking over the files of a folder.

ghost use Rattle.std.specs.Prelude.{◌≡◌, ◌++◌, List as list, None, map, IfOk, IfErr, OnOk, OnErr};
ghost use Rattle.scan_world.specs.Trees.{KeepsFiles};
ghost use Rattle.file_map.specs.FileMap.{File, TellsPut, TellsOver};
ghost use Rattle.file_map.specs.Sync.{AreOutside, PutsOutside, OutsidePasses, PutsRead, ReadPasses, Syncs, SyncPasses, with_files, first_over};
ghost use Rattle.file_map.specs.Faults.{HasSyncCause, TellsLimit};
ghost use Rattle.file_map.specs.Seen.{lent};

use crate::fault::{PutFault, SyncFault};
use crate::file_map::FileMap;
use folder_files::taken_under;
use node_tree::{Bytes, List, MOST_BYTES, Memory, Text};
use scan_world::{Tree, TreeFault, is_under};
use std::rc::Rc;

impl FileMap {
    // Those of the files that don't lie under the prefix.
    fn outside<'m>(&'m self, prefix: &str) -> Result<List<(&'m str, &'m Rc<Bytes>)>, Memory>
        ensures { IfOk result (λ files. AreOutside prefix.now self.now (map lent files)) }
    {
        let mut files = List::new(self.alloc);
        for (path, bytes) in &self.by_path {
            if !is_under(prefix, path.as_str()) {
                files.push((path.as_str(), bytes))?;
            }
        }
        Ok(files)
    }

    // Puts these files, which this map then shares.
    fn put_all(&mut self, files: &[(&str, &Rc<Bytes>)]) -> Result<(), PutFault>
        ensures put { OnOk result (self.new ≡ with_files self.old (map lent files.now)) }
        ensures within { OnOk result (first_over self.old (map lent files.now) ≡ None) }
        ensures over { IfErr result (λ fault. (later : list File) → TellsOver (first_over self.old (map lent files.now ++ later)) fault) }
    {
        for (path, bytes) in files {
            let shared = Rc::clone(bytes)?;
            self.put_shared(path, shared)?;
        }
        Ok(())
    }

    // A map of those of the files that don't lie under the prefix.
    fn apart_from(&self, prefix: &str) -> Result<FileMap, PutFault>
        ensures put { IfOk result (PutsOutside prefix.now self.now) }
        ensures over { IfErr result (TellsPut (OutsidePasses prefix.now self.now)) }
    {
        let outside = self.outside(prefix)?;
        let mut files = FileMap::new(self.alloc);
        files.put_all(outside.as_slice())?;
        Ok(files)
    }

    // Reads the files at these paths, and puts each as it is read.
    fn put_read<T: Tree>(&mut self, tree: &mut T, paths: &List<Text>) -> Result<(), SyncFault>
        ensures put { OnOk result (PutsRead (T.files tree.old) paths.now self.old self.new) }
        ensures over { IfErr result (TellsLimit (ReadPasses (T.files tree.old) paths.now self.old)) }
        ensures kept { KeepsFiles (T.files tree.old) (T.files tree.new) }
        ensures unfailed { OnOk result (T.faults tree.new ≡ T.faults tree.old) }
        ensures cause { IfErr result (HasSyncCause (T.faults tree.old) (T.faults tree.new)) }
    {
        for path in paths.as_slice() {
            let name = path.as_str();
            let bytes = match tree.read(name, MOST_BYTES as u64) {
                Ok(bytes) => bytes,
                Err(TreeFault::Absent) => continue,
                Err(TreeFault::Memory) => return Err(SyncFault::Memory),
                Err(TreeFault::Failed) => return Err(SyncFault::Failed),
            };
            let shared = Rc::new(self.alloc, bytes)?;
            self.put_shared(name, shared)?;
        }
        Ok(())
    }

    /// Replaces the files under the prefix, which is a path or `.`, by those of the folder there: each whose path's ending names a
    /// language and has no segment that begins with a dot, with at most its first 1,000,001 bytes. It ends with OverLimit at the
    /// first file with which the files, those outside the prefix among them, are too many or have too many bytes.
    pub fn sync<T: Tree>(&mut self, tree: &mut T, prefix: &str) -> Result<(), SyncFault>
        ensures synced { OnOk result (Syncs (T.files tree.old) prefix.now self.old self.new) }
        ensures within { OnOk result (SyncPasses (T.files tree.old) prefix.now self.old None) }
        ensures over { IfErr result (TellsLimit (SyncPasses (T.files tree.old) prefix.now self.old)) }
        ensures refused { OnErr result (self.new ≡ self.old) }
        ensures kept { KeepsFiles (T.files tree.old) (T.files tree.new) }
        ensures unfailed { OnOk result (T.faults tree.new ≡ T.faults tree.old) }
        ensures cause { IfErr result (HasSyncCause (T.faults tree.old) (T.faults tree.new)) }
    {
        let paths = match taken_under(self.alloc, tree, prefix) {
            Ok(paths) => paths,
            Err(TreeFault::Failed) => return Err(SyncFault::Failed),
            Err(_) => return Err(SyncFault::Memory),
        };
        let mut files = self.apart_from(prefix)?;
        files.put_read(tree, &paths)?;
        *self = files;
        Ok(())
    }
}
