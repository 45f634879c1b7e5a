//! Comments that quiet findings.

use crate::placed::spans_in;
use node_tree::{List, MOST_BYTES, Memory};
use quieting::{Quiet, is_quieted, quiet_lines, quiets};
use std::alloc::Global;
use std::test::Fail;

// What the comments at those ranges of a text quiet, or nothing where the text is too long.
fn quiets_of(alloc: Global, text: &str, comments: &[(u32, u32)]) -> Result<List<Quiet>, Memory> {
    if text.len() > MOST_BYTES {
        return Ok(List::new(alloc));
    }
    let comments = spans_in(alloc, text, comments)?;
    quiets(alloc, text, &comments)
}

// Whether one of them quiets the id on the line.
fn is_quiet(alloc: Global, quiets: &[Quiet], line: u32, id: &str) -> Result<bool, Memory> {
    let lines = quiet_lines(alloc, quiets)?;
    Ok(is_quieted(&lines, line, id))
}

// A text, its comments, a line, an id, and whether a finding of the id there is quieted.
#[test]
fn comments_quiet(rt: HostRuntime) -> Result<(), Fail> {
    let all = "f(1)  # nosemgrep\nf(2)\nf(3)\n";
    let some = "f(1)  # nosemgrep: q\nf(2)\nf(3)\n";
    let long = "/* nosemgrep: a\r\n, p */\nf(2);\nf(3);\n";
    let rows: [(&str, &[(u32, u32)], u32, &str, bool); 11] = [
        (all, &[(6, 17)], 1, "p", true),
        (all, &[(6, 17)], 2, "p", true),
        (all, &[(6, 17)], 3, "p", false),
        (some, &[(6, 20)], 1, "p", false),
        (some, &[(6, 20)], 1, "q", true),
        (some, &[(6, 20)], 2, "q", true),
        (some, &[(6, 20)], 2, "qq", false),
        (long, &[(0, 23)], 1, "a", true),
        (long, &[(0, 23)], 2, "p", true),
        ("# nosemgrep: a b, p", &[(0, 19)], 1, "b", false),
        ("# nosemgrep: a b, p", &[(0, 19)], 1, "p", true),
    ];
    for (text, comments, line, id, wanted) in rows {
        let found = quiets_of(rt.alloc(), text, comments)?;
        if is_quiet(rt.alloc(), found.as_slice(), line, id)? != wanted {
            return Err(Fail::new(format_args!("{text:?} on line {line} for {id}")));
        }
    }
    Ok(())
}
