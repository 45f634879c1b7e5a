//! The current folder as a tree of files. It tells nothing of what the files hold.

ghost use Rattle.std.specs.Prelude.{◌≡◌, ◌++◌, ◌∷◌, [], ◌≤◌, vec_len, None, All, IfOk, OnOk, IfSome, IsTrue};
ghost use Rattle.scan_world.specs.Files.{IsUnder, PathsAscend};
ghost use Rattle.scan_world.specs.Trees.{IsListing};

use node_tree::{Bytes, List, Memory, Text};
use path_glob::path_ok;
use scan_world::{Tree, TreeFault, is_under};
use std::alloc::Global;
use std::cmp::Ordering;
use std::fs::{Files, Metadata};
use std::io::{ErrorKind, Read};
use std::{fs, io};

const PIECE: usize = 16384;

/// The files below the current folder, with counts of the calls that failed and of the files that were absent. It follows no
/// links, it has regular files alone, and it lists none whose name begins with a dot or that stands in such a folder below the
/// prefix.
#[derive(Drop)]
pub struct FolderTree<R> {
    rt: R,
    faults: u64,
    absences: u64,
}

impl<R: Files + AllocGlobal + Clone + Drop> FolderTree<R> {
    /// A tree that has had no fault.
    pub fn new(rt: R) -> FolderTree<R>
        ensures { result ≡ record { rt = rt; faults = 0; absences = 0 } }
    {
        FolderTree {
            rt,
            faults: 0,
            absences: 0,
        }
    }
}

// Whether an error is want of memory.
fn is_memory(error: &io::Error) -> bool {
    error.kind() == ErrorKind::OutOfMemory
}

// What stands at a path, if anything does. Behind a link stands nothing.
fn entry_at<R: Files>(rt: &R, path: &str) -> io::Result<Option<Metadata>> {
    for (at, byte) in path.bytes().enumerate() {
        if byte == b'/' && !is_folder(rt, path.get(..at).unwrap_or(""))? {
            return Ok(None);
        }
    }
    found(fs::symlink_metadata(rt, path))
}

// What was found, if anything was.
fn found(metadata: io::Result<Metadata>) -> io::Result<Option<Metadata>> {
    match metadata {
        Ok(metadata) => Ok(Some(metadata)),
        Err(e) if matches!(e.kind(), ErrorKind::NotFound | ErrorKind::NotADirectory) => Ok(None),
        Err(e) => Err(e),
    }
}

// Whether a folder stands at a path, and no link to one.
fn is_folder<R: Files>(rt: &R, path: &str) -> io::Result<bool> {
    Ok(found(fs::symlink_metadata(rt, path))?.is_some_and(|metadata| metadata.is_dir()))
}

// The path of a name in a folder.
fn path_in(alloc: Global, folder: &str, name: &str) -> io::Result<String> {
    let mut path = String::new(alloc);
    if folder != "." {
        path.push_str(folder)?;
        path.push('/')?;
    }
    path.push_str(name)?;
    Ok(path)
}

// The files and folders that were found and aren't looked at yet.
#[derive(Drop)]
struct Search {
    files: Vec<String>,
    folders: Vec<String>,
}

impl Search {
    // Adds what stands at a path: a file, or a folder to look into.
    fn add(&mut self, path: String, metadata: &Metadata) -> io::Result<()> {
        if metadata.is_file() {
            self.files.push(path)?;
        } else if metadata.is_dir() {
            self.folders.push(path)?;
        }
        Ok(())
    }

    // Adds what stands in a folder, and is not hidden: no scan takes that, so a hidden folder that can't be read does no harm. A
    // folder that is gone is empty, and a name that is no UTF-8 is in no path.
    fn look_into<R: Files + AllocGlobal + Clone + Drop>(
        &mut self,
        rt: &R,
        folder: &str,
    ) -> io::Result<()> {
        let entries = match fs::read_dir(rt, folder) {
            Ok(entries) => entries,
            Err(e) if matches!(e.kind(), ErrorKind::NotFound | ErrorKind::NotADirectory) => {
                return Ok(());
            }
            Err(e) => return Err(e),
        };
        for entry in entries {
            let entry = match entry {
                Ok(entry) => entry,
                Err(e) if e.kind() == ErrorKind::InvalidFilename => continue,
                Err(e) => return Err(e),
            };
            if entry.file_name().starts_with('.') {
                continue;
            }
            let path = path_in(rt.alloc(), folder, entry.file_name())?;
            if path_ok(&path)
                && let Some(metadata) = found(entry.metadata())?
            {
                self.add(path, &metadata)?;
            }
        }
        Ok(())
    }
}

// The files under a prefix, in any order.
fn files_under<R: Files + AllocGlobal + Clone + Drop>(
    rt: &R,
    prefix: &str,
) -> io::Result<Vec<String>> {
    let mut search = Search {
        files: Vec::new(rt.alloc()),
        folders: Vec::new(rt.alloc()),
    };
    if let Some(metadata) = entry_at(rt, prefix)? {
        search.add(String::from_str(rt.alloc(), prefix)?, &metadata)?;
    }
    for _ in 0..u64::MAX {
        let Some(folder) = search.folders.pop() else {
            break;
        };
        search.look_into(rt, &folder)?;
    }
    Ok(search.files)
}

// Whether a path is above the last of these.
fn is_above(paths: &[Text], path: &str) -> bool
    requires { PathsAscend paths.now }
    ensures { IsTrue result → PathsAscend (paths.now ++ path.now ∷ []) }
{
    let count = paths.len();
    if count == 0 {
        return true;
    }
    match paths[count - 1].as_str().cmp(path) {
        Ordering::Less => true,
        _ => false,
    }
}

// Adds a path that is under the prefix and above the last one.
fn add_path(alloc: Global, prefix: &str, path: &str, paths: &mut List<Text>) -> Result<(), Memory>
    requires ordered { PathsAscend paths.old }
    requires under { All (IsUnder prefix.now) paths.old }
    ensures ordered { OnOk result (PathsAscend paths.new) }
    ensures under { OnOk result (All (IsUnder prefix.now) paths.new) }
{
    if !is_under(prefix, path) {
        return Ok(());
    }
    if !is_above(paths.as_slice(), path) {
        return Ok(());
    }
    paths.push(Text::from_str(alloc, path)?)?;
    Ok(())
}

/// The listing of files: those under the prefix in order, each once.
pub fn listing(alloc: Global, prefix: &str, mut files: Vec<String>) -> Result<List<Text>, Memory>
    ensures { IfOk result (IsListing prefix.now None) }
{
    files.sort_unstable();
    let mut paths = List::new(alloc);
    for file in &files {
        add_path(alloc, prefix, file.as_str(), &mut paths)?;
    }
    Ok(paths)
}

// The first bytes of a file, or all of a shorter one.
fn read_front<F: Read>(alloc: Global, file: &mut F, most: usize) -> io::Result<Vec<u8>>
    ensures { IfOk result (λ bytes. vec_len bytes ≤ most) }
{
    let mut buf = [0u8; PIECE];
    let mut bytes = Vec::new(alloc);
    for _ in 0..u64::MAX {
        let want = (most - bytes.len()).min(PIECE);
        let count = file.read(&mut buf[..want])?;
        if count == 0 {
            break;
        }
        bytes.extend_from_slice(&buf[..count])?;
    }
    Ok(bytes)
}

// The first bytes of the file at a path, if there is one.
fn read_at<R: Files + AllocGlobal>(rt: &R, path: &str, most: usize) -> io::Result<Option<Vec<u8>>>
    ensures { IfOk result (λ found. IfSome found (λ bytes. vec_len bytes ≤ most)) }
{
    match entry_at(rt, path)? {
        Some(metadata) if metadata.is_file() => {}
        _ => return Ok(None),
    }
    match fs::open(rt, path) {
        Ok(mut file) => Ok(Some(read_front(rt.alloc(), &mut file, most)?)),
        Err(e) if e.kind() == ErrorKind::NotFound => Ok(None),
        Err(e) => Err(e),
    }
}

// Makes the folders of a path that are missing.
fn make_folders<R: Files>(rt: &R, path: &str) -> io::Result<()> {
    for (at, byte) in path.bytes().enumerate() {
        if byte == b'/' {
            let folder = path.get(..at).unwrap_or("");
            if !is_folder(rt, folder)? {
                fs::create_dir(rt, folder)?;
            }
        }
    }
    Ok(())
}

// Puts a file in the place of what stands at a path, which may be a file or nothing.
fn replace<R: Files>(rt: &R, path: &str, bytes: &[u8]) -> io::Result<()> {
    make_folders(rt, path)?;
    match found(fs::symlink_metadata(rt, path))? {
        Some(metadata) if !metadata.is_file() => Err(io::Error::from(ErrorKind::AlreadyExists)),
        _ => fs::write(rt, path, bytes),
    }
}

impl<R: Files + AllocGlobal + Clone + Drop> Tree for FolderTree<R> {
    ghost files = { λ t. None };

    ghost faults = { λ t. t.faults };

    ghost absences = { λ t. t.absences };

    fn list(&mut self, prefix: &str) -> Result<List<Text>, TreeFault> {
        let alloc = self.rt.alloc();
        match files_under(&self.rt, prefix) {
            Ok(files) => Ok(listing(alloc, prefix, files)?),
            Err(e) if is_memory(&e) => Err(TreeFault::Memory),
            Err(_) => {
                self.faults = self.faults.saturating_add(1);
                Err(TreeFault::Failed)
            }
        }
    }

    fn read(&mut self, path: &str, most: u64) -> Result<Bytes, TreeFault> {
        match read_at(&self.rt, path, most.saturating_add(1) as usize) {
            Ok(Some(bytes)) => Ok(Bytes::from_vec(bytes)),
            Ok(None) => {
                self.absences = self.absences.saturating_add(1);
                Err(TreeFault::Absent)
            }
            Err(e) if is_memory(&e) => Err(TreeFault::Memory),
            Err(_) => {
                self.faults = self.faults.saturating_add(1);
                Err(TreeFault::Failed)
            }
        }
    }

    fn write(&mut self, path: &str, bytes: &[u8]) -> Result<(), TreeFault> {
        match replace(&self.rt, path, bytes) {
            Ok(()) => Ok(()),
            Err(e) if is_memory(&e) => Err(TreeFault::Memory),
            Err(_) => {
                self.faults = self.faults.saturating_add(1);
                Err(TreeFault::Failed)
            }
        }
    }
}
