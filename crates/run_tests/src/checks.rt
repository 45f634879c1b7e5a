//! Runs of `check json`.

use crate::runs::{bytes_of, outcome};
use node_tree::List;
use rx_text::RealPatterns;
use shown::same;
use std::alloc::Global;
use std::test::Fail;

// How a run over these pieces ends, of which these calls fail.
fn checked(alloc: Global, input: &[(u32, &[u8])], failing: [u32; 3]) -> Result<String, Fail> {
    let input = bytes_of(alloc, input)?;
    let mut patterns = RealPatterns::new(alloc);
    outcome(
        alloc,
        &["check", "json"],
        List::new(alloc),
        input,
        failing,
        &mut patterns,
    )
}

#[test]
fn prints_where_a_text_stops_being_json(rt: HostRuntime) -> Result<(), Fail> {
    let rows: [(&[(u32, &[u8])], [u32; 3], &str); 18] = [
        (&[(1, b"[1,]")], [0, 0, 0], "bad 3\n"),
        (&[(1, b"[1")], [0, 0, 0], "bad 2\n"),
        (&[(0, b" ")], [0, 0, 0], "bad 0\n"),
        (&[(1, b"\"\\q\"")], [0, 0, 0], "bad 2\n"),
        (&[(1, b"[1]")], [0, 0, 0], "ok\n"),
        (&[(1, b"nul1")], [0, 0, 0], "bad 3\n"),
        (&[(1, b"01")], [0, 0, 0], "bad 1\n"),
        (&[(1, b"{\"a\" 1}")], [0, 0, 0], "bad 5\n"),
        (&[(500, b"[")], [0, 0, 0], "bad 499\n"),
        (&[(1, b"\xff")], [0, 0, 0], "BadTarget"),
        (&[(1, b"[1]\xff")], [0, 0, 0], "BadTarget"),
        (&[(1_000_000, b" ")], [0, 0, 0], "bad 1000000\n"),
        (
            &[(1_000_001, b" ")],
            [0, 0, 0],
            "OverLimit(Target, 1000001)",
        ),
        (&[(1, b"[1]")], [0, 1, 0], "InputFault"),
        (&[(1, b"[1]")], [0, 2, 0], "InputFault"),
        (&[(1, b"[1]")], [0, 0, 1], "OutputFaulto"),
        (&[(1, b"[1")], [0, 0, 1], "OutputFaultbad"),
        (&[(1, b"[1]")], [1, 3, 2], "ok\n"),
    ];
    for (input, failing, wanted) in rows {
        let found = checked(rt.alloc(), input, failing)?;
        same(wanted, found.as_str(), wanted)?;
    }
    Ok(())
}

// Words that the table has and no run does yet end as words outside it.
#[test]
fn refuses_what_is_not_built(rt: HostRuntime) -> Result<(), Fail> {
    let alloc = rt.alloc();
    let rows: [&[&str]; 3] = [
        &["check", "python"],
        &["scan", "--store", "s", "--config", "r.yaml", "."],
        &["scan", "--trace", "--store", "s", "--config", "r.yaml", "."],
    ];
    for words in rows {
        let mut patterns = RealPatterns::new(alloc);
        let input = bytes_of(alloc, &[])?;
        let found = outcome(
            alloc,
            words,
            List::new(alloc),
            input,
            [0, 0, 0],
            &mut patterns,
        )?;
        same(words[0], found.as_str(), "Usage")?;
    }
    Ok(())
}
