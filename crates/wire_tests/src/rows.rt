//! Rows of streams.

use crate::show::read;
use std::alloc::{AllocError, Global};
use std::test::Fail;

// The longest path or body of these streams.
const MOST: usize = 2_000_000;

// Whether the stream is read so, whatever number of bytes a read gives.
fn reads(alloc: Global, bytes: &[u8], shown: &str) -> Result<bool, AllocError> {
    let mut same = true;
    for most in [1, 2, 5, 512, 4096, 100_000] {
        let got = read(alloc, bytes, most, &[])?;
        same = same && got.as_str() == shown;
    }
    Ok(same)
}

#[test]
fn reads_each_command(rt: HostRuntime) -> Result<(), Fail> {
    let alloc = rt.alloc();
    let stream =
        b"put 3 a.py\nx=1\nrule 0 r.yaml\n\ndel a/b.c\nunrule r.yaml\nsync .\nsync src\nscan\nfix\nend\nmore";
    let shown = "put a.py 3;rule r.yaml 0;del a/b.c;unrule r.yaml;sync .;sync src;scan;fix;end;";
    assert!(rt; reads(alloc, stream, shown)?);
    assert!(rt; reads(alloc, b"del  a\nput 1  a\nx\nend\n", "del  a;put  a 1;end;")?);
    assert!(rt; reads(alloc, b"put 4 a\n\n\nb\n\nend\n", "put a 4;end;")?);
    assert!(rt; reads(alloc, b"", "bad at 0")?);
    assert!(rt; reads(alloc, b"scan\nend", "scan;bad at 5")?);
    Ok(())
}

#[test]
fn refuses_other_words_and_lengths(rt: HostRuntime) -> Result<(), Fail> {
    let alloc = rt.alloc();
    for line in [
        b"scan \n".as_slice(),
        b"scans\n",
        b" scan\n",
        b"SCAN\n",
        b"scan\r\n",
        b"\n",
        b"del\n",
        b"del \n",
        b"del a \0\n",
        b"sync ..\n",
        b"sync \n",
        b"unrule .\n",
        b"put 00 a\n\n",
        b"put 01 a\nx\n",
        b"put +1 a\nx\n",
        b"put -1 a\nx\n",
        b"put  1 a\nx\n",
        b"put 1\nx\n",
        b"put 1 \nx\n",
        b"put a\nx\n",
        b"put 0x1 a\nx\n",
        b"put 268435457 a\nx\n",
        b"put 100000000000000000000 a\nx\n",
        b"rule 1 a\nxy\n",
        b"put 1 a\nx",
        b"put 1 a\n\n",
        b"put 2 a\nx\n",
        b"del a\xff\n",
        b"del a\xe2\x82\n",
    ] {
        assert!(rt; reads(alloc, line, "bad at 0")?);
    }
    assert!(rt; reads(alloc, b"put 268435456 a\nx\n", "bad at 0")?);
    assert!(rt;
        reads(
            alloc,
            b"del a b\nsync \xe2\x82\xac\n",
            "del a b;sync \u{20ac};bad at 17"
        )?
    );
    Ok(())
}

#[test]
fn knows_paths(rt: HostRuntime) -> Result<(), Fail> {
    let alloc = rt.alloc();
    for line in [
        b"del /a\n".as_slice(),
        b"del a/\n",
        b"del a//b\n",
        b"del ./a\n",
        b"del a/../b\n",
        b"del ..\n",
        b"del a\tb\n",
        b"del a\0b\n",
    ] {
        assert!(rt; reads(alloc, line, "bad at 0")?);
    }
    assert!(rt; reads(alloc, b"del ...\ndel a/.b\n", "del ...;del a/.b;bad at 17")?);
    Ok(())
}

// A stream that deletes a path of so many bytes.
fn long_path(alloc: Global, count: usize) -> Result<Vec<u8>, AllocError> {
    let mut bytes = Vec::from_slice(alloc, b"del ")?;
    bytes.resize(4 + count.min(MOST), b'a')?;
    bytes.extend_from_slice(b"\nend\n")?;
    Ok(bytes)
}

#[test]
fn knows_the_longest_path(rt: HostRuntime) -> Result<(), Fail> {
    let alloc = rt.alloc();
    let longest = long_path(alloc, 1024)?;
    for most in [1, 512] {
        let shown = read(alloc, &longest, most, &[])?;
        assert_eq!(rt; shown.len(), 1033);
        let longer = long_path(alloc, 1025)?;
        assert_eq!(rt; read(alloc, &longer, most, &[])?.as_str(), "bad at 0");
        let endless = long_path(alloc, 100_000)?;
        assert_eq!(rt; read(alloc, &endless, most, &[])?.as_str(), "bad at 0");
    }
    Ok(())
}

// A stream that puts a body of so many bytes, and scans.
fn long_body(alloc: Global, line: &str, count: usize) -> Result<Vec<u8>, AllocError> {
    let mut bytes = Vec::from_slice(alloc, line.as_bytes())?;
    let end = bytes.len() + count.min(MOST);
    bytes.resize(end, b'\n')?;
    bytes.extend_from_slice(b"\nscan\nend\n")?;
    Ok(bytes)
}

#[test]
fn keeps_a_front_of_a_long_body(rt: HostRuntime) -> Result<(), Fail> {
    let alloc = rt.alloc();
    let file = long_body(alloc, "put 1000000 a\n", 1_000_000)?;
    assert_eq!(rt;
        read(alloc, &file, 100_000, &[])?.as_str(),
        "put a 1000000;scan;end;"
    );
    let file = long_body(alloc, "put 1000002 a\n", 1_000_002)?;
    assert_eq!(rt;
        read(alloc, &file, 100_000, &[])?.as_str(),
        "put a 1000001;scan;end;"
    );
    let rules = long_body(alloc, "rule 262144 r\n", 262_144)?;
    assert_eq!(rt;
        read(alloc, &rules, 100_000, &[])?.as_str(),
        "rule r 262144;scan;end;"
    );
    let rules = long_body(alloc, "rule 300000 r\n", 300_000)?;
    assert_eq!(rt;
        read(alloc, &rules, 100_000, &[])?.as_str(),
        "rule r 262145;scan;end;"
    );
    Ok(())
}
