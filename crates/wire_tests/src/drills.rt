//! The session of a drill.

use std::test::Fail;
use wire_drill::drill_input;
use wire_stream::Wire;

const PLAIN: &str = "def f0(q):\n    s = read()\n    run(s)\n";

const CLEAN: &str = "def f1(q):\n    s = clean(read())\n    run(s)\n";

const CLEAN_FIRST: &str = "def f0(q):\n    s = clean(read())\n    run(s)\n";

// Whether the command puts this text there.
fn puts(wire: Option<&Wire>, path: &str, text: &str) -> bool {
    match wire {
        Some(Wire::Put(at, bytes)) => at.as_str() == path && bytes.as_slice() == text.as_bytes(),
        _ => false,
    }
}

#[test]
fn makes_a_session(rt: HostRuntime) -> Result<(), Fail> {
    let wires = drill_input(rt.alloc(), 2)?;
    assert_eq!(rt; wires.len(), 6);
    assert!(rt; puts(wires.get(0), "d/f0.py", PLAIN));
    assert!(rt; puts(wires.get(1), "d/f1.py", CLEAN));
    assert!(rt; matches!(wires.get(2), Some(Wire::Rule(name, _)) if name.as_str() == "r"));
    assert!(rt; matches!(wires.get(3), Some(Wire::Scan)));
    assert!(rt; puts(wires.get(4), "d/f0.py", CLEAN_FIRST));
    assert!(rt; matches!(wires.get(5), Some(Wire::Scan)));
    Ok(())
}
