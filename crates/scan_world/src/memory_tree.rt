//! A tree in memory.

ghost use Rattle.std.specs.Prelude.{◌≡◌, ◌↔◌, ◌+◌, ◌≤◌, ◌∷◌, length, take, Some, None, Ok, Err, IfOk, IfErr, OnOk, OnErr, MatchOption};
ghost use Rattle.scan_world.specs.Files.{Files, file_at};
ghost use Rattle.scan_world.specs.Trees.{KeepsFiles, KeepsOthers, PutsFile, LacksFile, HasFront, IsListing, HasTreeCause};
ghost use Rattle.scan_world.specs.Memory.{TreeState, IsFailingCall};
ghost use Rattle.scan_world.specs.declared.tree.TreeFault.TheVariants.{Failed as fault_failed, Absent as fault_absent};

use crate::calls::is_listed;
use crate::paths::{is_under, put_path};
use crate::tree::{Tree, TreeFault};
use node_tree::{Bytes, List, Memory, Text};
use std::marker::Model;

/// Files in memory. Calls are counted from 1, and each one whose number is listed fails; a failing write leaves the file as
/// it was. A written file goes before the older ones, since of two files of one path the first counts.
#[derive(Drop)]
pub struct MemoryTree {
    files: List<(Text, Bytes)>,
    failing: List<u32>,
    calls: u64,
    faults: u64,
    absences: u64,
}

impl Model for MemoryTree {
    ghost use Rattle.scan_world.specs.Memory.{TreeState};

    ghost Value = { TreeState };

    ghost view = { λ t. record { files = t.files; failing = t.failing; calls = t.calls; faults = t.faults; absences = t.absences } };
}

// The bytes of the file of that path.
fn find<'t>(files: &'t List<(Text, Bytes)>, path: &str) -> Option<&'t Bytes>
    ensures { MatchOption result (file_at path.now files.now ≡ None) (λ bytes. file_at path.now files.now ≡ Some bytes.now) }
{
    for (name, bytes) in files.as_slice() {
        if name.as_str() == path {
            return Some(bytes);
        }
    }
    None
}

// The paths under a prefix.
fn paths_under(files: &List<(Text, Bytes)>, prefix: &str) -> Result<List<Text>, Memory>
    ensures { IfOk result (IsListing prefix.now (Some files.now)) }
{
    let mut paths = List::new(files.alloc());
    for (name, _) in files.as_slice() {
        if is_under(prefix, name.as_str()) {
            put_path(&mut paths, name.as_str())?;
        }
    }
    Ok(paths)
}

// A front of a file.
fn copy_front(files: &List<(Text, Bytes)>, whole: &Bytes, most: u64) -> Result<Bytes, Memory>
    ensures { IfOk result (λ bytes. bytes ≡ take (most + 1) whole.now) }
{
    let whole = whole.as_slice();
    let count = (whole.len() as u64).min(most.saturating_add(1)) as usize;
    Bytes::from_slice(files.alloc(), &whole[..count])
}

impl MemoryTree {
    /// A tree of these files.
    pub fn new(files: List<(Text, Bytes)>, failing: List<u32>) -> MemoryTree
        ensures { result ≡ record { files = files; failing = failing; calls = 0; faults = 0; absences = 0 } }
    {
        MemoryTree {
            files,
            failing,
            calls: 0,
            faults: 0,
            absences: 0,
        }
    }

    // Counts a call, which fails where it is told to.
    fn count_call(&mut self) -> Result<(), TreeFault>
        ensures files { self.new.files ≡ self.old.files }
        ensures absences { self.new.absences ≡ self.old.absences }
        ensures cause { HasTreeCause self.old.faults self.new.faults self.old.absences self.new.absences result }
        ensures fails { (result ≡ Err fault_failed) ↔ IsFailingCall self.old }
        ensures others { IfErr result (λ e. e ≡ fault_failed) }
    {
        self.calls = self.calls.saturating_add(1);
        if is_listed(&self.failing, self.calls) {
            self.faults = self.faults.saturating_add(1);
            return Err(TreeFault::Failed);
        }
        Ok(())
    }

    // Puts a file before the others.
    fn put(&mut self, path: &str, bytes: &[u8]) -> Result<(), Memory>
        ensures ok { OnOk result (self.new ≡ record { files = (path.now, bytes.now) ∷ self.old.files; failing = self.old.failing; calls = self.old.calls; faults = self.old.faults; absences = self.old.absences }) }
        ensures err { OnErr result (self.new ≡ self.old) }
    {
        let alloc = self.files.alloc();
        let name = Text::from_str(alloc, path)?;
        let written = Bytes::from_slice(alloc, bytes)?;
        self.files.insert(0, (name, written))
    }
}

impl Tree for MemoryTree {
    ghost files = { λ t. Some t.files };

    ghost faults = { λ t. t.faults };

    ghost absences = { λ t. t.absences };

    fn list(&mut self, prefix: &str) -> Result<List<Text>, TreeFault>
        ensures kept { KeepsFiles (Some self.old.files) (Some self.new.files) }
        ensures listed { IfOk result (IsListing prefix.now (Some self.old.files)) }
        ensures present { result ≡ Err fault_absent → ⊥ }
        ensures cause { HasTreeCause self.old.faults self.new.faults self.old.absences self.new.absences result }
        ensures fails { (result ≡ Err fault_failed) ↔ IsFailingCall self.old }
    {
        self.count_call()?;
        Ok(paths_under(&self.files, prefix)?)
    }

    fn read(&mut self, path: &str, most: u64) -> Result<Bytes, TreeFault>
        ensures kept { KeepsFiles (Some self.old.files) (Some self.new.files) }
        ensures bound { IfOk result (λ bytes. length bytes ≤ most + 1) }
        ensures front { IfOk result (HasFront (Some self.old.files) path.now (most + 1)) }
        ensures absent { result ≡ Err fault_absent → LacksFile (Some self.old.files) path.now }
        ensures cause { HasTreeCause self.old.faults self.new.faults self.old.absences self.new.absences result }
        ensures fails { (result ≡ Err fault_failed) ↔ IsFailingCall self.old }
    {
        self.count_call()?;
        let Some(whole) = find(&self.files, path) else {
            self.absences = self.absences.saturating_add(1);
            return Err(TreeFault::Absent);
        };
        Ok(copy_front(&self.files, whole, most)?)
    }

    fn write(&mut self, path: &str, bytes: &[u8]) -> Result<(), TreeFault>
        ensures put { OnOk result (PutsFile (Some self.old.files) (Some self.new.files) path.now bytes.now) }
        ensures others { KeepsOthers (Some self.old.files) (Some self.new.files) path.now }
        ensures present { result ≡ Err fault_absent → ⊥ }
        ensures cause { HasTreeCause self.old.faults self.new.faults self.old.absences self.new.absences result }
        ensures fails { (result ≡ Err fault_failed) ↔ IsFailingCall self.old }
        ensures refused { OnErr result (self.new.files ≡ self.old.files) }
    {
        self.count_call()?;
        Ok(self.put(path, bytes)?)
    }
}
