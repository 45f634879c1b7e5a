//! Sources, sinks and trees of files in memory, and their faults in mid-stream.

use node_tree::{Bytes, List, Memory, Text};
use scan_world::{Failed, MemorySink, MemorySource, MemoryTree, Sink, Source, Tree, TreeFault};
use std::alloc::{AllocError, Global};
use std::fmt::Write;
use std::test::Fail;

// The numbers of the calls that fail.
fn calls(alloc: Global, numbers: &[u32]) -> Result<List<u32>, Memory> {
    let mut calls = List::new(alloc);
    for number in numbers {
        calls.push(*number)?;
    }
    Ok(calls)
}

#[test]
fn sources_fail_when_told(rt: HostRuntime) -> Result<(), Fail> {
    let bytes = Bytes::from_slice(rt.alloc(), b"abcde")?;
    let mut source = MemorySource::new(bytes, 3, calls(rt.alloc(), &[2])?);
    let mut buf = [0; 4];
    for (answer, held) in [
        (Ok(3), [97, 98, 99, 0]),
        (Err(Failed), [97, 98, 99, 0]),
        (Ok(2), [100, 101, 99, 0]),
        (Ok(0), [100, 101, 99, 0]),
    ] {
        assert!(rt; source.read(&mut buf) == answer && buf == held);
    }
    Ok(())
}

// A sink takes half of a failing piece, and nothing past its room.
#[test]
fn sinks_fail_when_told(rt: HostRuntime) -> Result<(), Fail> {
    let mut sink = MemorySink::new(rt.alloc(), 6, calls(rt.alloc(), &[2])?)?;
    for (piece, answer, held) in [
        ("ab", Ok(()), "ab"),
        ("cde", Err(Failed), "abc"),
        ("fghi", Err(Failed), "abc"),
        ("fgh", Ok(()), "abcfgh"),
    ] {
        assert!(rt; sink.write(piece.as_bytes()) == answer);
        assert!(rt; sink.as_slice() == held.as_bytes());
    }
    Ok(())
}

// A tree of some files, each with its path as its bytes, of which these calls fail.
fn tree_of(alloc: Global, paths: &[&str], failing: &[u32]) -> Result<MemoryTree, Memory> {
    let mut files = List::new(alloc);
    for path in paths {
        files.push((
            Text::from_str(alloc, path)?,
            Bytes::from_slice(alloc, path.as_bytes())?,
        ))?;
    }
    Ok(MemoryTree::new(files, calls(alloc, failing)?))
}

// The paths that a tree lists, each with a space behind it, or its fault.
fn listed(alloc: Global, answer: Result<List<Text>, TreeFault>) -> Result<String, AllocError> {
    let mut out = String::new(alloc);
    match answer {
        Ok(paths) => for path in paths.as_slice() {
            write!(out, "{} ", path.as_str())?;
        },
        Err(fault) => write!(out, "{fault:?}")?,
    }
    Ok(out)
}

#[test]
fn trees_list_what_is_under_a_prefix_in_order(rt: HostRuntime) -> Result<(), Fail> {
    let paths = ["src/b.py", "src", "a.py", "src/a.py", "srca", "src/b.py"];
    let mut tree = tree_of(rt.alloc(), &paths, &[])?;
    for (prefix, wanted) in [
        ("src", "src src/a.py src/b.py "),
        (".", "a.py src src/a.py src/b.py srca "),
        ("sr", ""),
    ] {
        assert_eq!(rt; listed(rt.alloc(), tree.list(prefix))?.as_str(), wanted);
    }
    Ok(())
}

// What one call of a tree answers: the paths that it lists, a front of a file, nothing after it wrote, or its fault.
fn answer(
    alloc: Global,
    tree: &mut MemoryTree,
    call: &str,
    path: &str,
    most: u64,
) -> Result<String, AllocError> {
    let mut out = String::new(alloc);
    let fault = match call {
        "list" => return listed(alloc, tree.list(path)),
        "read" => match tree.read(path, most) {
            Ok(bytes) => {
                for byte in bytes.as_slice() {
                    out.push(*byte as char)?;
                }
                return Ok(out);
            }
            Err(fault) => fault,
        },
        piece => match tree.write(path, piece.as_bytes()) {
            Ok(()) => return Ok(out),
            Err(fault) => fault,
        },
    };
    write!(out, "{fault:?}")?;
    Ok(out)
}

#[test]
fn trees_read_fronts_and_write(rt: HostRuntime) -> Result<(), Fail> {
    let mut tree = tree_of(rt.alloc(), &["abc"], &[])?;
    for (call, path, most, wanted) in [
        ("read", "abc", 0, "a"),
        ("read", "abc", 2, "abc"),
        ("read", "abc", u64::MAX, "abc"),
        ("read", "ab", 2, "Absent"),
        ("x", "ab", 0, ""),
        ("y", "abc", 0, ""),
        ("read", "ab", 2, "x"),
        ("read", "abc", 2, "y"),
        ("list", ".", 0, "ab abc "),
    ] {
        assert_eq!(rt;
            answer(rt.alloc(), &mut tree, call, path, most)?.as_str(),
            wanted
        );
    }
    Ok(())
}

#[test]
fn trees_fail_when_told(rt: HostRuntime) -> Result<(), Fail> {
    let mut tree = tree_of(rt.alloc(), &["a"], &[1, 3, 5])?;
    for (call, path, most, wanted) in [
        ("list", ".", 0, "Failed"),
        ("list", ".", 0, "a "),
        ("read", "a", 9, "Failed"),
        ("read", "a", 9, "a"),
        ("z", "a", 0, "Failed"),
        ("read", "a", 9, "a"),
        ("z", "a", 0, ""),
        ("read", "a", 9, "z"),
    ] {
        assert_eq!(rt;
            answer(rt.alloc(), &mut tree, call, path, most)?.as_str(),
            wanted
        );
    }
    Ok(())
}
