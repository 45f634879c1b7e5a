//! One run, with fakes in memory.

ghost use Rattle.std.specs.Prelude.{◌≡◌, ◌<◌};

use node_tree::{Bytes, List, Memory, Steps, Text};
use rx_text::Patterns;
use scan_run::{Status, run};
use scan_world::{MemorySink, MemorySource, MemoryTree};
use std::alloc::{AllocError, Global};
use std::fmt::Write;
use std::marker::Brand;
use std::str;
use std::sync::ledger::{Blank, Ledger};
use std::test::Fail;

// Room for the line of 10,000 results.
const ROOM: u64 = 4_000_000;

/// The bytes of pieces, each as often as its number says.
pub fn bytes_of(alloc: Global, pieces: &[(u32, &[u8])]) -> Result<Bytes, AllocError> {
    let mut bytes = Vec::new(alloc);
    for (times, piece) in pieces {
        for _ in 0..*times {
            bytes.extend_from_slice(*piece)?;
        }
    }
    Ok(Bytes::from_vec(bytes))
}

/// A file of this text.
pub fn file_of(alloc: Global, path: &str, text: &str) -> Result<(Text, Bytes), Memory> {
    let bytes = Bytes::from_slice(alloc, text.as_bytes())?;
    Ok((Text::from_str(alloc, path)?, bytes))
}

/// Files, each by its path and the pieces of its bytes.
pub fn files_of(
    alloc: Global,
    given: &[(&str, &[(u32, &[u8])])],
) -> Result<List<(Text, Bytes)>, Memory> {
    let mut files = List::new(alloc);
    for (path, pieces) in given {
        files.push((Text::from_str(alloc, *path)?, bytes_of(alloc, *pieces)?))?;
    }
    Ok(files)
}

// A run with a counter of its own.
fn counted<P: Patterns, L: Ledger>(
    alloc: Global,
    blank: Blank,
    words: &Vec<String>,
    tree: &mut MemoryTree,
    input: &mut MemorySource,
    out: &mut MemorySink,
    patterns: &mut P,
) -> Status
    requires name { blank.name ≡ L.name }
    requires parts { blank.parts ≡ L.parts }
    requires some { 0 < L.parts }
{
    let mut steps = Steps::<L>::new(blank);
    run(alloc, words, tree, input, out, patterns, &mut steps)
}

/// What a run has in memory: its files, its input and how many bytes of it come by one read, and the numbers of the calls that
/// fail, counted from 1: of the files, of the input and of the output.
#[derive(Drop)]
pub struct World {
    pub files: List<(Text, Bytes)>,
    pub input: Bytes,
    pub piece: u32,
    pub failing: [u32; 3],
}

// The status, where it is not `Done`, and what was written.
fn told(alloc: Global, status: Status, written: &[u8]) -> Result<String, Fail> {
    let mut text = String::new(alloc);
    if status != Status::Done {
        write!(text, "{status:?}")?;
    }
    text.push_str(str::from_utf8(written)?)?;
    Ok(text)
}

// The words of a run.
fn words_of(alloc: Global, words: &[&str]) -> Result<Vec<String>, AllocError> {
    let mut given = Vec::new(alloc);
    for word in words {
        given.push(String::from_str(alloc, *word)?)?;
    }
    Ok(given)
}

/// How a run of these words ends in this world: what it writes, behind the status where that is not `Done`; and the files then.
pub fn outcome_in<P: Patterns>(
    alloc: Global,
    words: &[&str],
    world: World,
    patterns: &mut P,
) -> Result<(String, MemoryTree), Fail>
    requires { 0 < world.piece }
{
    let given = words_of(alloc, words)?;
    let [of_tree, of_input, of_out] = world.failing;
    let mut tree = MemoryTree::new(world.files, List::from_vec(vec![in alloc; of_tree]?));
    let of_input = List::from_vec(vec![in alloc; of_input]?);
    let mut input = MemorySource::new(world.input, world.piece, of_input);
    let mut out = MemorySink::new(alloc, ROOM, List::from_vec(vec![in alloc; of_out]?))?;
    let status = counted::<_, Brand>(
        alloc,
        Blank::new(1),
        &given,
        &mut tree,
        &mut input,
        &mut out,
        patterns,
    );
    Ok((told(alloc, status, out.as_slice())?, tree))
}

/// How a run of these words ends: what it writes, behind the status where that is not `Done`. Its input comes by three bytes at
/// a time. `failing` has the numbers of the calls that fail, counted from 1: of the files, of the input and of the output.
pub fn outcome<P: Patterns>(
    alloc: Global,
    words: &[&str],
    files: List<(Text, Bytes)>,
    input: Bytes,
    failing: [u32; 3],
    patterns: &mut P,
) -> Result<String, Fail> {
    let world = World {
        files,
        input,
        piece: 3,
        failing,
    };
    Ok(outcome_in(alloc, words, world, patterns)?.0)
}
