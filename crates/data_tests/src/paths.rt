//! Globs, and what paths say.

use node_tree::Lang;
use path_glob::{has_hidden, lang_of, matches, path_ok};
use std::str::from_utf8;
use std::test::Fail;

#[test]
fn globs_match(rt: HostRuntime) -> Result<(), Fail> {
    let rows = [
        ("tests", "a/tests/b.py", true),
        ("src/**", "src/a/b.py", true),
        ("**/b.p?", "src/a/b.py", true),
        ("src/*.py", "src/a/b.py", false),
        ("/src/", "src/a/b.py", true),
        ("/src/", "a/src/b.py", false),
        ("/", "src", false),
        ("a//b", "a/b", false),
        ("a/**/b", "a/b", true),
        ("a/**", "a", true),
        ("**/a", "a", true),
        ("**", "a/b", true),
        ("a**b", "x/axyb", true),
        ("x/a**b", "x/ax/yb", false),
        ("*.p[y]", "a.p[y]", true),
        ("*.PY", "a.py", false),
        ("a?c", "aéc", true),
        ("a??c", "aéc", false),
        ("a?c", "ac", false),
        (
            "**/a/**/a/**/a/**/b",
            "a/a/a/a/a/a/a/a/a/a/a/a/a/a/a/a/a/a/a/c",
            false,
        ),
    ];
    for (glob, path, wanted) in rows {
        assert!(rt; matches(glob, path) == wanted, "{glob} {path}");
    }
    // Many stars end fast.
    let mut glob = [b'*'; 1001];
    glob[500] = b'a';
    glob[1000] = b'b';
    let segment = [b'a'; 2000];
    assert!(rt; !matches(from_utf8(&glob)?, from_utf8(&segment)?));
    assert!(rt; matches(from_utf8(&glob[..1000])?, from_utf8(&segment)?));
    Ok(())
}

#[test]
fn tells_paths(rt: HostRuntime) -> Result<(), Fail> {
    assert!(rt; path_ok("src/.hidden/a b.py"));
    let segment = [b'a'; 1025];
    assert!(rt; path_ok(from_utf8(&segment[..1024])?) && !path_ok(from_utf8(&segment)?));
    for text in ["", "/a", "a/", "a//b", ".", "a/..", "../a", "a\nb"] {
        assert!(rt; !path_ok(text), "{text}");
    }
    for (path, hidden) in [
        (".a", true),
        ("a/.b", true),
        (".git/a.py", true),
        ("a/.b/c", true),
        ("a", false),
        ("a.b/c.py", false),
        ("a./b", false),
    ] {
        assert!(rt; has_hidden(path) == hidden, "{path}");
    }
    for (path, lang) in [
        ("a/b.py", Some(Lang::Python)),
        ("a/b.pyi", Some(Lang::Python)),
        (".c", Some(Lang::C)),
        ("x/a.h", Some(Lang::C)),
        ("a.json", Some(Lang::Json)),
        ("a.yml", Some(Lang::Regex)),
        ("a.pyc", None),
        ("py", None),
    ] {
        assert!(rt; lang_of(path) == lang, "{path}");
    }
    Ok(())
}
