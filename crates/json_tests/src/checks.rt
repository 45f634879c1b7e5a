//! Texts, and where each stops being JSON.

use json_check::first_bad;
use shown::repeated;
use std::alloc::Global;
use std::test::Fail;

// The number of bytes of a text's longest viable front, or 999999 where it has a tree.
fn stop(alloc: Global, text: &str) -> Result<u32, Fail> {
    if text.len() > 1_000_000 {
        return Ok(1_000_000);
    }
    match first_bad(alloc, text)? {
        Some(at) => Ok(at),
        None => Ok(999_999),
    }
}

#[test]
fn tells_where_texts_stop(rt: HostRuntime) -> Result<(), Fail> {
    let rows = [
        ("[1]", 999_999),
        ("[1,]", 3),
        ("[1", 2),
        ("", 0),
        ("\"\\q\"", 2),
        ("nul1", 3),
        ("01", 1),
        ("{\"a\" 1}", 5),
        // Each front of a number is viable, until what follows is none.
        ("-", 1),
        ("1.", 2),
        ("1.e", 2),
        ("1e+", 3),
        ("[1.5e-3x", 7),
        ("\"\\u12g4\"", 5),
        ("\"é\n\"", 3),
        // Text behind the value, and a byte order mark.
        ("1 2", 2),
        (" {} ]", 4),
        ("\u{feff}[]", 999_999),
        ("\u{feff}\u{feff}", 3),
        ("\u{feff}", 3),
        ("{\"a\":1,}", 7),
        ("{1", 1),
        ("[}", 1),
        ("é", 0),
    ];
    for (text, wanted) in rows {
        assert_eq!(rt; stop(rt.alloc(), text)?, wanted, "{text}");
    }
    Ok(())
}

#[test]
fn tells_where_limits_stop(rt: HostRuntime) -> Result<(), Fail> {
    let rows = [
        (&[(500, "["), (0, "")], 499),
        (&[(499, "["), (499, "]")], 999_999),
        (&[(499, "["), (1, "1")], 499),
        // An object and its member are two steps.
        (&[(249, "{\"a\":"), (1, "1")], 1246),
        (&[(249, "{\"a\":"), (1, "{\"a\"")], 1246),
    ];
    for (pieces, wanted) in rows {
        let text = repeated(rt.alloc(), pieces)?;
        assert_eq!(rt; stop(rt.alloc(), text.as_str())?, wanted, "{pieces:?}");
    }
    Ok(())
}
