//! Runs of `drill`.

use crate::runs::outcome;
use node_tree::{Bytes, List};
use rx_text::RealPatterns;
use shown::same;
use std::test::Fail;

// A number, the calls that fail, and how its drill ends.
#[test]
fn counts_what_both_scans_find(rt: HostRuntime) -> Result<(), Fail> {
    let rows = [
        ("0", [0, 0, 0], "Usage"),
        ("1", [0, 0, 0], "files 1 first 2 second 1 notices 0\n"),
        ("3", [1, 1, 0], "files 3 first 5 second 4 notices 0\n"),
        ("3", [0, 0, 1], "OutputFaultfiles 3 first 5 s"),
        (
            "1000",
            [0, 0, 0],
            "files 1000 first 1500 second 1499 notices 0\n",
        ),
    ];
    for (count, failing, wanted) in rows {
        let alloc = rt.alloc();
        let mut patterns = RealPatterns::new(alloc);
        let words = ["drill", count];
        let (files, input) = (List::new(alloc), Bytes::new(alloc));
        let found = outcome(alloc, &words, files, input, failing, &mut patterns)?;
        same(count, found.as_str(), wanted)?;
    }
    Ok(())
}
