//! Streams that are cut, and reads that fail.

use crate::show::read;
use std::test::Fail;

#[test]
fn tells_where_a_cut_stream_is_bad(rt: HostRuntime) -> Result<(), Fail> {
    let stream = b"scan\ndel a.py\nscan\nend\n";
    for count in 0..23 {
        let shown = if count < 5 {
            "bad at 0"
        } else if count < 14 {
            "scan;bad at 5"
        } else if count < 19 {
            "scan;del a.py;bad at 14"
        } else {
            "scan;del a.py;scan;bad at 19"
        };
        let got = read(rt.alloc(), &stream[..count], 5, &[])?;
        assert_eq!(rt; got.as_str(), shown);
    }
    let got = read(rt.alloc(), stream, 5, &[])?;
    assert_eq!(rt; got.as_str(), "scan;del a.py;scan;end;");
    Ok(())
}

#[test]
fn takes_no_front_of_a_command(rt: HostRuntime) -> Result<(), Fail> {
    for command in [
        b"put 3 a.py\nx=1\n".as_slice(),
        b"del a/b.c\n",
        b"rule 2 r.yaml\n\n\n\n",
        b"unrule r.yaml\n",
        b"sync .\n",
        b"sync src/a\n",
        b"scan\n",
        b"fix\n",
        b"end\n",
    ] {
        for count in 0..command.len() {
            for most in [1, 512] {
                let got = read(rt.alloc(), &command[..count], most, &[])?;
                assert_eq!(rt; got.as_str(), "bad at 0");
            }
        }
    }
    Ok(())
}

#[test]
fn stops_at_a_read_that_fails(rt: HostRuntime) -> Result<(), Fail> {
    let stream = b"scan\nput 3 a\nx=1\ndel a.py\nend\n";
    let alloc = rt.alloc();
    assert_eq!(rt; read(alloc, stream, 5, &[1])?.as_str(), "failed");
    assert_eq!(rt; read(alloc, stream, 5, &[2])?.as_str(), "scan;failed");
    assert_eq!(rt; read(alloc, stream, 5, &[3])?.as_str(), "scan;failed");
    assert_eq!(rt; read(alloc, stream, 5, &[4])?.as_str(), "scan;failed");
    assert_eq!(rt;
        read(alloc, stream, 5, &[5])?.as_str(),
        "scan;put a 3;failed"
    );
    assert_eq!(rt;
        read(alloc, stream, 512, &[2])?.as_str(),
        "scan;put a 3;del a.py;end;"
    );
    Ok(())
}

#[test]
fn tells_a_bad_front_before_a_read_that_fails(rt: HostRuntime) -> Result<(), Fail> {
    for front in [
        b"x".as_slice(),
        b"scan ",
        b"put 00",
        b"put +",
        b"put 268435457",
        b"put 1 /",
        b"del a//",
        b"del ./",
        b"del a/../",
        b"del a\t",
        b"sync ./",
        b"del \xff",
        b"put 1 a\nxy",
    ] {
        let got = read(rt.alloc(), front, 512, &[2])?;
        assert_eq!(rt; got.as_str(), "bad at 0");
    }
    for front in [
        b"p".as_slice(),
        b"put 268435456",
        b"put 1 a/.",
        b"del a/..",
        b"sync .",
        b"unrule \xe2\x82",
        b"put 1 a\nx",
    ] {
        let got = read(rt.alloc(), front, 512, &[2])?;
        assert_eq!(rt; got.as_str(), "failed");
    }
    Ok(())
}
