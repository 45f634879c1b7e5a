//! Fixes that are chosen and applied.

use crate::placed::{are_in_order, lie_in};
use fix_apply::{apply, choose};
use meta_bind::{Binding, Finding};
use node_tree::{Bytes, List, Memory, Place, Span, Text};
use report_form::Reported;
use rule_form::Severity;
use std::alloc::Global;
use std::test::Fail;

// A result at a path, with its range and its fix.
fn result_at(alloc: Global, path: &str, span: Span, fix: &str) -> Result<Reported, Memory> {
    let place = Place {
        line: 1,
        col: 1,
        offset: 0,
    };
    let path = Text::from_str(alloc, path)?;
    let fix = Text::from_str(alloc, fix)?;
    Ok(Reported {
        path,
        id: Text::new(alloc),
        severity: Severity::Info,
        message: Text::new(alloc),
        fix: Some(fix),
        start: place,
        end: place,
        finding: Finding {
            span,
            binding: Binding::empty(alloc),
            source: None,
        },
        trace: List::new(alloc),
    })
}

// Results, each by its path, its range and its fix.
fn results_of(alloc: Global, rows: &[(&str, u32, u32, &str)]) -> Result<List<Reported>, Memory> {
    let mut results = List::new(alloc);
    for (path, from, to, fix) in rows {
        let span = Span {
            from: *from,
            to: *to,
        };
        results.push(result_at(alloc, *path, span, *fix)?)?;
    }
    Ok(results)
}

// What the fixes that are taken in `a.py` make of this text, or nothing where results or edits are out of place.
fn fixed(alloc: Global, text: &str, results: &List<Reported>) -> Result<Bytes, Memory> {
    if !are_in_order(results.as_slice()) {
        return Ok(Bytes::new(alloc));
    }
    let edits = choose(alloc, results, "a.py")?;
    if !lie_in(edits.as_slice(), text.len()) {
        return Ok(Bytes::new(alloc));
    }
    apply(alloc, text.as_bytes(), &edits)
}

// Whether the fixes of these results make just that of the text.
fn is_fixed(
    alloc: Global,
    text: &str,
    rows: &[(&str, u32, u32, &str)],
    wanted: &str,
) -> Result<bool, Memory> {
    let results = results_of(alloc, rows)?;
    let whole = fixed(alloc, text, &results)?;
    Ok(whole.as_slice() == wanted.as_bytes())
}

// A text, the results, and what is made of the text.
#[test]
fn fixes_are_chosen_and_applied(rt: HostRuntime) -> Result<(), Fail> {
    let rows: [(&str, &[(&str, u32, u32, &str)], &str); 6] = [
        (
            "f(f(1))\nf(2)\n",
            &[
                ("a.py", 0, 7, "g(f(1))"),
                ("a.py", 2, 6, "g(1)"),
                ("a.py", 8, 12, "g(2)"),
            ],
            "g(f(1))\ng(2)\n",
        ),
        (
            "g(f(1))\ng(2)\n",
            &[("a.py", 2, 6, "g(1)")],
            "g(g(1))\ng(2)\n",
        ),
        (
            "f(f(1))\nf(2)\nf (  3 )\n",
            &[
                ("a.py", 0, 7, "g(f(1))"),
                ("a.py", 2, 6, "g(1)"),
                ("a.py", 8, 12, "g(2)"),
                ("a.py", 13, 21, "g(3)"),
            ],
            "g(f(1))\ng(2)\ng(3)\n",
        ),
        (
            "abc",
            &[("a.c", 0, 1, "x"), ("a.py", 1, 2, "y"), ("b.py", 2, 3, "z")],
            "ayc",
        ),
        ("abc", &[("a.py", 0, 2, "x"), ("a.py", 2, 3, "y")], "xy"),
        (
            "abc",
            &[
                ("a.py", 0, 0, "x"),
                ("a.py", 1, 2, "y"),
                ("a.py", 1, 2, "z"),
            ],
            "ayc",
        ),
    ];
    for (text, offered, wanted) in rows {
        if !is_fixed(rt.alloc(), text, offered, wanted)? {
            return Err(Fail::new(format_args!("{text:?} is not fixed to {wanted:?}")));
        }
    }
    Ok(())
}
