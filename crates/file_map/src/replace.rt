//! Listing the files, and replacing several of them at once.

ghost use Rattle.std.specs.Prelude.{◌≡◌, None, map, IfOk, IfErr, OnOk, OnErr};
ghost use Rattle.std.specs.Option.{option_map};
ghost use Rattle.std.specs.Map.{keys_of};
ghost use Rattle.std.specs.List.Sorted.{IsStrictlySortedBy};
ghost use Rattle.std.specs.Rc.{rc_value};
ghost use Rattle.scan_world.specs.Files.{path_cmp};
ghost use Rattle.file_map.specs.FileMap.{bytes_at, all_bytes, over_limit, TellsOver, front};
ghost use Rattle.file_map.specs.Sync.{with_files};
ghost use Rattle.file_map.specs.Seen.{lent, files_of};

use crate::fault::PutFault;
use crate::file_map::{FileMap, front_of};
use crate::limit::LimitKind;
use node_tree::{Bytes, List, Memory, Text};
use scan_world::{MOST_FILE_BYTES, MOST_FILES};
use std::alloc::Global;
use std::collections::BTreeMap;
use std::rc::Rc;
use std::string::String;

// Puts these files, each cut to what is kept of it.
fn put_fronts(
    alloc: Global,
    by_path: &mut BTreeMap<String, Rc<Bytes>>,
    files: &[(Text, Bytes)],
) -> Result<(), Memory>
    ensures { OnOk result (files_of by_path.new ≡ with_files (files_of by_path.old) (map front files.now)) }
{
    for (path, bytes) in files {
        let kept = front_of(alloc, bytes.as_slice())?;
        let kept = Rc::new(alloc, kept)?;
        let name = String::from_str(alloc, path.as_str())?;
        by_path.insert(name, kept)?;
    }
    Ok(())
}

// The bytes of all files, which are within the limits.
fn measured(by_path: &BTreeMap<String, Rc<Bytes>>) -> Result<usize, PutFault>
    ensures bytes { IfOk result (λ all. all ≡ all_bytes (files_of by_path.now)) }
    ensures within { IfOk result (λ _. over_limit (files_of by_path.now) ≡ None) }
    ensures over { IfErr result (TellsOver (over_limit (files_of by_path.now))) }
{
    let files = by_path.len();
    if files > MOST_FILES {
        return Err(PutFault::OverLimit(LimitKind::Files, files as u64));
    }
    let mut all = 0_usize;
    for (_, bytes) in by_path {
        // No memory holds more bytes than a number counts.
        let Some(more) = all.checked_add(bytes.as_ref().len()) else {
            return Err(PutFault::Memory);
        };
        all = more;
    }
    if all > MOST_FILE_BYTES {
        return Err(PutFault::OverLimit(LimitKind::FileBytes, all as u64));
    }
    Ok(all)
}

impl FileMap {
    /// All files in order of path, each with the bytes that this map shares.
    pub fn entries(&self) -> Result<List<(&str, &Rc<Bytes>)>, Memory>
        ensures files { IfOk result (λ files. map lent files ≡ self.now) }
        ensures ordered { OnOk result (IsStrictlySortedBy path_cmp (keys_of self.now)) }
    {
        let room = Vec::with_capacity(self.alloc, self.by_path.len())?;
        let mut files = List::from_vec(room);
        for (path, bytes) in &self.by_path {
            files.push((path.as_str(), bytes))?;
        }
        Ok(files)
    }

    /// The bytes of the file at the path as this map shares them, if there is one.
    pub fn shared(&self, path: &str) -> Option<&Rc<Bytes>>
        ensures { option_map (λ bytes. rc_value bytes.now) result ≡ bytes_at path.now self.now }
    {
        self.by_path.get(path)
    }

    /// Puts these files one after the other, or none of them: of each at most the first 1,000,001 bytes are kept. It ends with
    /// OverLimit where there are too many files, or too many bytes, once all are put.
    pub fn replace_all(&mut self, files: &[(Text, Bytes)]) -> Result<(), PutFault>
        ensures put { OnOk result (self.new ≡ with_files self.old (map front files.now)) }
        ensures within { OnOk result (over_limit (with_files self.old (map front files.now)) ≡ None) }
        ensures over { IfErr result (TellsOver (over_limit (with_files self.old (map front files.now)))) }
        ensures refused { OnErr result (self.new ≡ self.old) }
    {
        let mut by_path = self.by_path.clone()?;
        put_fronts(self.alloc, &mut by_path, files)?;
        let bytes = measured(&by_path)?;
        self.by_path = by_path;
        self.bytes = bytes;
        Ok(())
    }
}
