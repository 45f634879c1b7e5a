//! Texts of comparisons, and whether they hold where `$X` is bound.

use meta_bind::{Binding, Bound};
use meta_filter::{CompareFault, holds_comparison, read_comparison};
use node_tree::{Kind, List, Memory, Node, Span, Text};
use shown::repeated;
use std::alloc::Global;
use std::test::Fail;

// Whether a comparison holds where `$X` is bound to a node of this kind and text, whose span is the text. No comparison holds
// or doesn't.
fn verdict(
    alloc: Global,
    comparison: &str,
    kind: Kind,
    text: &str,
) -> Result<Option<bool>, Memory> {
    let comparison = match read_comparison(alloc, comparison) {
        Ok(read) => read,
        Err(CompareFault::NoComparison) => return Ok(None),
        Err(CompareFault::Memory) => return Err(Memory),
    };
    let span = Span {
        from: 0,
        to: text.len().min(1_000_000) as u32,
    };
    let mut nodes = List::new(alloc);
    nodes.push(Node {
        kind,
        text: Text::from_str(alloc, text)?,
        kids: List::new(alloc),
        span,
    })?;
    let name = Text::from_str(alloc, "$X")?;
    let mut binding = Binding::empty(alloc);
    binding.bind(Bound { name, span, nodes })?;
    Ok(Some(holds_comparison(&comparison, &binding, text.as_bytes())))
}

#[test]
fn comparisons_hold(rt: HostRuntime) -> Result<(), Fail> {
    let low = "-170141183460469231731687303715884105728";
    let rows: [(&str, Option<bool>, &[&str]); 17] = [
        ("8", Some(true), &["$X > 5 and $X % 2 == 0"]),
        ("7", Some(false), &["$X > 5 and $X % 2 == 0"]),
        ("abc", Some(false), &["$X > 5 and $X % 2 == 0"]),
        (
            "5",
            Some(true),
            &[
                "1 < 2",
                "not 2 < 2",
                "2 <= 2",
                "not 2 <= 1",
                "2 > 1",
                "not 2 > 2",
                "2 >= 2",
                "not 1 >= 2",
                "1 == 1",
                "not 1 == 2",
                "1 != 2",
                "not 1 != 1",
                "1 + 2 == 3",
                "1 - 2 == -1",
                "2 * 3 == 6",
                "7 // 2 == 3 and 7 % 2 == 1",
                "-7 // 2 == -4 and -7 % 2 == 1",
                "7 // -2 == -4 and 7 % -2 == -1",
                "-7 // -2 == 3 and -7 % -2 == -1",
                "-6 // 3 == -2 and -6 % 3 == 0 and 6 % -3 == 0",
                "1 + 2 * 3 == 7 and (1 + 2) * 3 == 9",
                "10 - 3 - 2 == 5 and 2 * 7 // 3 == 4",
                "-2 * 3 == -6 and --1 == 1 and - -1 == 1",
                "1 < 2 < 3 and 3 > 1 < 2",
                "not 1 < 3 < 2",
                "1 == 1 or 1 == 1 and 1 == 2",
                "not (1 == 1 or 1 == 1) and 1 == 2 or 2 == 2",
                "not not 1 == 1",
                "((1)) == (1)",
                "007 == 7",
                "1\t==\r\n1or 1 == 2",
                "$X == $Xand 1 == 1",
                "170141183460469231731687303715884105727 > 0",
                "-170141183460469231731687303715884105727 - 1 < 0",
            ],
        ),
        (
            "5",
            Some(false),
            &[
                "1 // 0 == 1 or 1 == 1",
                "170141183460469231731687303715884105727 + 1 > 0",
            ],
        ),
        (
            "5",
            None,
            &[
                "1 <",
                "",
                "1",
                "$X",
                "1 + (1 < 2) == 2",
                "not 1",
                "1 or 1 == 1",
                "(1 < 2) < 3",
                "-(1 == 1)",
                "1 == not 1 == 1",
                "notnot 1 == 1",
                "1 == 1)",
                "(1 == 1",
                "1 == 1 1 == 1",
                "1 = 1",
                "1 / 1 == 1",
                "$x == 1",
                "$...X == 1",
                "int $X == 1",
                "int(5) == 5",
                "1_0 == 10",
                "1.0 == 1",
                "\u{feff}1 == 1",
                "1 == 1 é",
                "170141183460469231731687303715884105728 > 0",
                "-170141183460469231731687303715884105728 < 0",
            ],
        ),
        // A part without a value makes the whole false, under `not` too.
        (
            low,
            Some(false),
            &[
                "1 == 1 or $Y == 1",
                "not $Y == 1",
                "$_ == $_",
                "3 < 2 < 1 // 0",
                "not 3 < 2 < 1 % 0",
                "not $X // -1 > 0",
                "not -$X > 0",
                "not $X - 1 > 0",
                "not $X * 2 > 0",
                "int($X) == 0",
            ],
        ),
        (
            low,
            Some(true),
            &[
                "$X % -1 == 0",
                "$X // -2 == 85070591730234615865843651857942052864",
                "$X < 0",
            ],
        ),
        ("0", Some(true), &["$X == 0"]),
        ("-0", Some(true), &["$X == 0"]),
        ("-12", Some(true), &["$X == -12"]),
        ("1_000", Some(true), &["$X == 1000"]),
        ("0x1F", Some(true), &["$X == 31"]),
        ("0xfF", Some(true), &["$X == 255"]),
        ("-0x10", Some(true), &["$X == -16"]),
        ("0o17", Some(true), &["$X == 15"]),
        ("0b101", Some(true), &["$X == 5"]),
    ];
    for (text, wanted, comparisons) in rows {
        for comparison in comparisons {
            let found = verdict(rt.alloc(), *comparison, Kind::Number, text)?;
            assert_eq!(rt; found, wanted, "{comparison} at {text}");
        }
    }
    let no_numbers = [
        "",
        "-",
        "007",
        "00",
        "0_0",
        "1__0",
        "_1",
        "1_",
        "0X10",
        "0x",
        "0x_f",
        "0b2",
        "0o8",
        "+5",
        "- 5",
        "--5",
        "5 ",
        "(5)",
        "5j",
        "abc",
        "170141183460469231731687303715884105728",
    ];
    for text in no_numbers {
        let found = verdict(rt.alloc(), "$X == $X", Kind::Number, text)?;
        assert_eq!(rt; found, Some(false), "{text}");
    }
    let strings = [
        (Kind::Str, "\"5", true),
        (Kind::Str, "\"-0x5", false),
        (Kind::Str, "\"", false),
        (Kind::Str, "b\"5", false),
        (Kind::Name, "\"5", false),
        (Kind::Number, "5", false),
    ];
    for (kind, text, holds) in strings {
        let found = verdict(rt.alloc(), "int ( $X ) == 5", kind, text)?;
        assert_eq!(rt; found, Some(holds), "{kind:?} {text}");
    }
    Ok(())
}

#[test]
fn comparisons_are_at_most_100_deep(rt: HostRuntime) -> Result<(), Fail> {
    let rows = [
        ([(98, "("), (1, "1 == 1"), (98, ")")], Some(true)),
        ([(99, "("), (1, "1 == 1"), (99, ")")], None),
        ([(98, "1 == 1 and "), (1, "1 == 1"), (0, "")], Some(true)),
        ([(99, "1 == 1 and "), (1, "1 == 1"), (0, "")], None),
        ([(49, "not not "), (1, "1 == 1"), (0, "")], Some(true)),
        ([(1_960, "1 == 1 or "), (1, "1 == 1"), (0, "")], None),
    ];
    for (pieces, wanted) in rows {
        let text = repeated(rt.alloc(), &pieces)?;
        let found = verdict(rt.alloc(), text.as_str(), Kind::Number, "")?;
        assert_eq!(rt; found, wanted, "{pieces:?}");
    }
    Ok(())
}
