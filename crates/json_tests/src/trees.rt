//! Texts and patterns, and their trees as `shown` writes them.

use json_tree::read_json;
use node_tree::{Mode, ReadFault};
use shown::{parted, repeated, same, tree_line};
use std::alloc::Global;
use std::test::Fail;

// The tree of a text or of a pattern, or `none`.
fn read(alloc: Global, text: &str, mode: Mode, spans: bool) -> Result<String, ReadFault> {
    if text.len() > 1_000_000 {
        return Err(ReadFault::NoTree);
    }
    tree_line(alloc, read_json(alloc, text, mode), spans)
}

// Rows of texts and their trees.
fn check(alloc: Global, mode: Mode, spans: bool, rows: &[&str]) -> Result<(), Fail> {
    for row in rows {
        let (text, wanted) = parted(*row);
        same(text, read(alloc, text, mode, spans)?.as_str(), wanted)?;
    }
    Ok(())
}

#[test]
fn reads_trees(rt: HostRuntime) -> Result<(), Fail> {
    check(
        rt.alloc(),
        Mode::Text,
        true,
        &[
            "[1,{\"a\":1}] ⇒ Root 0..11[Array 0..11[Number(1) 1..2 Object 3..10[Member 4..9[Str(\"a) 4..7 Number(1) 8..9]]]]",
            // A string of dots is a string in a text.
            "\"...\" ⇒ Root 0..5[Str(\"...) 0..5]",
        ],
    )?;
    check(
        rt.alloc(),
        Mode::Pattern,
        true,
        &[
            "[$...A,<...$X...>,\"...\"] ⇒ Root 0..24[Array 0..24[MetaDots($...A) 1..6 Deep 7..17[Meta($X) 11..13] StrAny 18..23]]",
        ],
    )?;
    check(
        rt.alloc(),
        Mode::Pattern,
        false,
        &[
            "[..., $X, ...] ⇒ Root[Array[Dots Meta($X) Dots]]",
            "{\"k\": <... 1 ...>} ⇒ Root[Object[Member[Str(\"k) Deep[Number(1)]]]]",
            "[$...A, 2] ⇒ Root[Array[MetaDots($...A) Number(2)]]",
            "$X ⇒ Root[Meta($X)]",
            "... ⇒ Root[Dots]",
            "{...} ⇒ Root[Object[Dots]]",
            "{\"a\": ..., ...} ⇒ Root[Object[Member[Str(\"a) Dots] Dots]]",
            "{\"...\": 1} ⇒ Root[Object[Member[StrAny Number(1)]]]",
            "{$K: \"a...\"} ⇒ Root[Object[Member[Meta($K) Str(\"a...)]]]",
            "<... ... ...> ⇒ Root[Deep[Dots]]",
            "{...: 1} ⇒ none",
            "$x ⇒ none",
            "$ ⇒ none",
            "<... 1 ⇒ none",
            "...> ⇒ none",
            "[...,] ⇒ none",
            "{$...A: 1} ⇒ none",
        ],
    )?;
    Ok(())
}

#[test]
fn tells_texts_with_a_tree(rt: HostRuntime) -> Result<(), Fail> {
    let with = [
        // The examples of RFC 8259, section 13, the first with fewer members.
        "{\n \"Image\": {\n  \"Width\":  800,\n  \"Title\":  \"View from 15th Floor\",\n  \"Animated\" : false,\n  \"IDs\": [116, 943, 234, 38793]\n }\n}",
        "[ { \"precision\": \"zip\", \"Latitude\":  37.7668, \"Longitude\": -122.3959, \"City\": \"SAN FRANCISCO\" } ]",
        "\"Hello world!\"",
        "42",
        "true",
        "[true,false,null,[],{}]",
        " \t\r\n12.5e-3 ",
        "-0",
        "0.0E+00",
        "\"\"",
        "\"\\\"\\\\\\/\\b\\f\\n\\r\\t\\u00e9\"",
        "{\"a\":1,\"a\":2}",
        "\"\u{7f}\"",
        "\"é𝄞\"",
        "\"\\ud800\"",
        "\u{feff}null",
    ];
    for text in with {
        assert!(rt;
            read(rt.alloc(), text, Mode::Text, false)?.as_str() != "none",
            "{text}"
        );
    }
    let without = [
        "",
        " ",
        "[1,]",
        "[,1]",
        "{\"a\":1,}",
        "[1 2]",
        "[1}",
        "{\"a\":1]",
        "{\"a\"}",
        "{1:1}",
        "1 2",
        "01",
        "1.",
        ".5",
        "-",
        "+1",
        "1e",
        "1e+",
        "\"a",
        "\"\\x\"",
        "\"\\u12g4\"",
        "\"a\nb\"",
        "\"\u{1f}\"",
        "True",
        "nul",
        "[1]\u{c}",
        "\u{feff}\u{feff}1",
        "\u{feff}",
        "$X",
    ];
    for text in without {
        assert_eq!(rt;
            read(rt.alloc(), text, Mode::Text, false)?.as_str(),
            "none",
            "{text}"
        );
    }
    Ok(())
}

#[test]
fn keeps_the_limits(rt: HostRuntime) -> Result<(), Fail> {
    let rows = [
        (&[(499, "["), (499, "]")], true),
        (&[(500, "["), (500, "]")], false),
        (&[(500_000, "["), (0, "")], false),
    ];
    for (pieces, works) in rows {
        let text = repeated(rt.alloc(), pieces)?;
        let found = read(rt.alloc(), text.as_str(), Mode::Text, false)?;
        assert!(rt; (found.as_str() != "none") == works, "{pieces:?}");
    }
    Ok(())
}
