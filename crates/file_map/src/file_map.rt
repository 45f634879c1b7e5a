//! Files by path.

ghost use Rattle.std.specs.Prelude.{◌≡◌, ◌≤◌, ◌+◌, ℕ, List as list, [], None, Some, length, take, IfOk, IfErr, OnOk, OnErr};
ghost use Rattle.std.specs.Option.{option_map, is_some};
ghost use Rattle.file_map.specs.FileMap.{bytes_at, with_file, without_file, all_bytes, over_limit, TellsOver};

use crate::fault::PutFault;
use crate::limit::LimitKind;
use node_tree::{Bytes, MOST_BYTES, Memory};
use scan_world::{MOST_FILE_BYTES, MOST_FILES};
use std::alloc::Global;
use std::collections::BTreeMap;
use std::marker::Model;
use std::rc::Rc;
use std::string::String;

// The most bytes that are kept of a file: one more than a file may have that is scanned.
const MOST_KEPT: usize = MOST_BYTES + 1;

/// Files by path, at most 10,000 of at most 33,554,432 bytes together. Their bytes can be shared with other owners. Contracts see
/// the files in order of path.
#[derive(Drop)]
pub struct FileMap {
    pub(crate) by_path: BTreeMap<String, Rc<Bytes>>,
    pub(crate) bytes: usize,
    pub(crate) alloc: Global,
}

impl Model for FileMap {
    ghost use Rattle.std.specs.Prelude.{◌≡◌, None};
    ghost use Rattle.scan_world.specs.Files.{Files};
    ghost use Rattle.file_map.specs.FileMap.{all_bytes, over_limit};
    ghost use Rattle.file_map.specs.Seen.{files_of};

    ghost Value = { Files };

    ghost view = { λ m. files_of m.by_path };

    ghost invariant = { λ m. (m.bytes ≡ all_bytes (files_of m.by_path)) × (over_limit (files_of m.by_path) ≡ None) };
}

// At most the first 1,000,001 bytes.
pub(crate) fn front_of(alloc: Global, bytes: &[u8]) -> Result<Bytes, Memory>
    ensures { IfOk result (λ front. front ≡ take 1000001 bytes.now) }
{
    Bytes::from_slice(alloc, &bytes[..MOST_KEPT.min(bytes.len())])
}

impl FileMap {
    /// No files, which takes no memory.
    pub fn new(alloc: Global) -> FileMap
        ensures { result ≡ [] }
    {
        FileMap {
            by_path: BTreeMap::new(alloc),
            bytes: 0,
            alloc,
        }
    }

    /// The number of files.
    pub fn len(&self) -> usize
        ensures { result ≡ length self.now }
    {
        self.by_path.len()
    }

    /// The bytes of the file at the path, if there is one.
    pub fn get(&self, path: &str) -> Option<&[u8]>
        ensures { option_map (λ bytes. bytes.now) result ≡ bytes_at path.now self.now }
    {
        match self.by_path.get(path) {
            Some(bytes) => Some(bytes.as_ref().as_slice()),
            None => None,
        }
    }

    // The number and the bytes of the files at other paths.
    fn others(&self, path: &str) -> (usize, usize)
        ensures files { (bytes : list ℕ) → length (with_file self.now (path.now, bytes)) ≡ result.0 + 1 }
        ensures bytes { (bytes : list ℕ) → all_bytes (with_file self.now (path.now, bytes)) ≡ result.1 + length bytes }
        ensures few { (result.0 ≤ MOST_FILES) × (result.1 ≤ MOST_FILE_BYTES) }
    {
        match self.by_path.get(path) {
            Some(old) => (self.by_path.len() - 1, self.bytes - old.as_ref().len()),
            None => (self.by_path.len(), self.bytes),
        }
    }

    // The bytes of all files, with these at the path.
    fn bytes_with(&self, path: &str, bytes: &[u8]) -> Result<usize, PutFault>
        ensures within { IfOk result (λ all. over_limit (with_file self.now (path.now, bytes.now)) ≡ None) }
        ensures bytes { IfOk result (λ all. all ≡ all_bytes (with_file self.now (path.now, bytes.now))) }
        ensures over { IfErr result (TellsOver (over_limit (with_file self.now (path.now, bytes.now)))) }
    {
        let (files, others) = self.others(path);
        if files == MOST_FILES {
            return Err(PutFault::OverLimit(LimitKind::Files, files as u64 + 1));
        }
        let all = others + bytes.len();
        if all > MOST_FILE_BYTES {
            return Err(PutFault::OverLimit(LimitKind::FileBytes, all as u64));
        }
        Ok(all)
    }

    /// Puts a file with all these bytes, which this map then shares.
    pub fn put_shared(&mut self, path: &str, bytes: Rc<Bytes>) -> Result<(), PutFault>
        ensures put { OnOk result (self.new ≡ with_file self.old (path.now, bytes.value)) }
        ensures within { OnOk result (over_limit (with_file self.old (path.now, bytes.value)) ≡ None) }
        ensures over { IfErr result (TellsOver (over_limit (with_file self.old (path.now, bytes.value)))) }
        ensures refused { OnErr result (self.new ≡ self.old) }
    {
        let all = self.bytes_with(path, bytes.as_ref().as_slice())?;
        let name = String::from_str(self.alloc, path)?;
        self.by_path.insert(name, bytes)?;
        self.bytes = all;
        Ok(())
    }

    /// Puts a file, of which at most the first 1,000,001 bytes are kept.
    pub fn put(&mut self, path: &str, bytes: &[u8]) -> Result<(), PutFault>
        ensures put { OnOk result (self.new ≡ with_file self.old (path.now, take 1000001 bytes.now)) }
        ensures within { OnOk result (over_limit (with_file self.old (path.now, take 1000001 bytes.now)) ≡ None) }
        ensures over { IfErr result (TellsOver (over_limit (with_file self.old (path.now, take 1000001 bytes.now)))) }
        ensures refused { OnErr result (self.new ≡ self.old) }
    {
        let kept = front_of(self.alloc, bytes)?;
        let kept = Rc::new(self.alloc, kept)?;
        self.put_shared(path, kept)?;
        Ok(())
    }

    /// Removes the file at the path, and says whether there was one.
    pub fn del(&mut self, path: &str) -> bool
        ensures removed { self.new ≡ without_file path.now self.old }
        ensures was_there { result ≡ is_some (bytes_at path.now self.old) }
    {
        match self.by_path.remove(path) {
            Some(old) => {
                self.bytes -= old.as_ref().len();
                true
            }
            None => false,
        }
    }
}
