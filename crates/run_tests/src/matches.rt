//! Runs of `match`.

use crate::runs::{bytes_of, outcome};
use node_tree::List;
use rx_text::RealPatterns;
use shown::{parted, same};
use std::alloc::Global;
use std::fmt::Write;
use std::test::Fail;

// How a run over these pieces ends, of which these calls fail.
fn matched(
    alloc: Global,
    lang: &str,
    pattern: &str,
    input: &[(u32, &[u8])],
    failing: [u32; 3],
) -> Result<String, Fail> {
    let words = ["match", lang, pattern];
    let input = bytes_of(alloc, input)?;
    let mut patterns = RealPatterns::new(alloc);
    outcome(
        alloc,
        &words,
        List::new(alloc),
        input,
        failing,
        &mut patterns,
    )
}

// The language, the pattern, the input and how the run ends.
#[test]
fn prints_where_a_pattern_matches(rt: HostRuntime) -> Result<(), Fail> {
    let rows = [
        "json ⇒ 1 ⇒ [1,{\"a\":1}] ⇒ 1..2\n8..9\n",
        "json ⇒ [] ⇒ [[],[1]] ⇒ 1..3\n",
        "json ⇒ {\"a\": 1} ⇒ [{\"a\":1},{\"b\":1}] ⇒ 1..8\n",
        "json ⇒ 2 ⇒ [1] ⇒ ",
        "json ⇒ [..., $X, ...] ⇒ [1,[2],1] ⇒ 0..9 $X=1..2\n0..9 $X=3..6\n0..9 $X=7..8\n3..6 $X=4..5\n",
        "json ⇒ [$X, $X] ⇒ [1,1] ⇒ 0..5 $X=1..2\n",
        "json ⇒ [$X, $X] ⇒ [1,2] ⇒ ",
        "json ⇒ {\"k\": <... 1 ...>} ⇒ {\"k\":[1,1]} ⇒ 0..11\n",
        "json ⇒ [$...A, 2] ⇒ [2] ⇒ 0..3 $...A=0..0\n",
        "json ⇒ $X ⇒ {\"a\":1} ⇒ 0..7 $X=0..7\n1..4 $X=1..4\n5..6 $X=5..6\n",
        "json ⇒ {$K: \"...\"} ⇒ {\"a\":\"b\"} ⇒ 0..9 $K=1..4\n",
        "json ⇒ [$_, $_] ⇒ [1,2] ⇒ 0..5\n",
        "json ⇒ {\"a\": $X, \"b\": $Y} ⇒ {\"b\":1,\"a\":2} ⇒ 0..13 $X=11..12 $Y=5..6\n",
        "json ⇒ {$K: $V, ...} ⇒ {\"b\":1,\"a\":2} ⇒ 0..13 $K=1..4 $V=5..6\n0..13 $K=7..10 $V=11..12\n",
        "json ⇒ {$K: $V} ⇒ {\"b\":1,\"a\":2} ⇒ ",
        "json ⇒ {\"a\": $X, \"a\": $Y} ⇒ {\"a\":1,\"a\":2} ⇒ 0..13 $X=5..6 $Y=11..12\n0..13 $X=11..12 $Y=5..6\n",
        "json ⇒ {\"a\": $_, ...} ⇒ {\"a\":1,\"a\":2} ⇒ 0..13\n",
        // Lists in which a name stands twice, with more than a few items.
        "json ⇒ [..., $X, ..., $X, ...] ⇒ [10,11,12,13,14,15,16,17,18,19,20,21,22,23,24,25,26,27,28,29,30,31,32,33,34,35,36,37,38,39,40,41,42,43,12,20] ⇒ 0..109 $X=7..9\n0..109 $X=31..33\n",
        "json ⇒ [..., $X, ..., $X] ⇒ [10,11,12,13,14,15,16,17,18,19,20,21,22,23,24,25,26,27,28,29,30,31,32,33,34,35,36,37,38,39,40,41,42,43,12,20] ⇒ 0..109 $X=31..33\n",
        "json ⇒ [..., $X, 13, ..., $X, ...] ⇒ [10,11,12,13,14,15,16,17,18,19,20,21,22,23,24,25,26,27,28,29,30,31,32,33,34,35,36,37,38,39,40,41,42,43,12,20] ⇒ 0..109 $X=7..9\n",
        // Statements in which a name stands again, after many where something else stands.
        "python ⇒ a($X)\n...\nb($X) ⇒ a(1)\na(2)\nb(10)\nb(11)\nb(12)\nb(13)\nb(14)\nb(15)\nb(16)\nb(17)\nb(18)\nb(19)\nb(20)\nb(21)\nb(22)\nb(23)\nb(24)\nb(25)\nb(26)\nb(27)\nb(28)\nb(29)\nb(30)\nb(31)\nb(32)\nb(33)\nb(34)\nb(35)\nb(36)\nb(37)\nb(38)\nb(39)\nb(40)\nb(41)\nb(2)\n ⇒ 5..206 $X=7..8\n",
        "python ⇒ $X = f()\n...\ng(1, $X) ⇒ y = f()\nz = f()\ng(1, a10)\ng(1, a11)\ng(1, a12)\ng(1, a13)\ng(1, a14)\ng(1, a15)\ng(1, a16)\ng(1, a17)\ng(1, a18)\ng(1, a19)\ng(1, a20)\ng(1, a21)\ng(1, a22)\ng(1, a23)\ng(1, a24)\ng(1, a25)\ng(1, a26)\ng(1, a27)\ng(1, a28)\ng(1, a29)\ng(1, a30)\ng(1, a31)\ng(1, a32)\ng(1, a33)\ng(1, a34)\ng(1, a35)\ng(1, a36)\ng(1, a37)\ng(1, a38)\ng(1, a39)\ng(1, a40)\ng(1, a41)\ng(1, z)\n ⇒ 8..343 $X=8..9\n",
        // A search that goes on after a list inside.
        "python ⇒ f([..., $X, ...], $X) ⇒ f([1, 2], 2)\n ⇒ 0..12 $X=6..7\n",
        "python ⇒ f([..., $X, ...], [..., $X, ...], $Y) ⇒ f([1, 2], [3, 2], 4)\n ⇒ 0..20 $X=6..7 $Y=18..19\n",
        // Objects in lists, and a search that goes on in and after them.
        "json ⇒ [{$A: $B, $C: $D, ...}, $B] ⇒ [{\"a\":1,\"b\":2},2] ⇒ 0..17 $A=8..11 $B=12..13 $C=2..5 $D=6..7\n",
        "json ⇒ [{$K: [..., $X, ...], $L: $X, ...}, 1] ⇒ [{\"p\":[1,2],\"q\":2,\"r\":3},1] ⇒ 0..27 $K=2..5 $L=12..15 $X=9..10\n",
        "json ⇒ [{$A: 1, $B: 2}, ...] ⇒ [{\"x\":2,\"y\":1},{\"x\":2,\"y\":1,\"z\":1}] ⇒ 0..35 $A=8..11 $B=2..5\n",
        // Arguments of which some have a name: more than a few, and some inside which a search goes on.
        "python ⇒ f(..., $X, ..., k=$X) ⇒ f(1,2,3,4,5,6,7,8,k=3)\n ⇒ 0..22 $X=6..7\n",
        "python ⇒ f($A=$X, $B=$X, ...) ⇒ f(0,0,0,0,0,0,0,a=1,b=2,c=1)\n ⇒ 0..28 $A=16..17 $B=24..25 $X=18..19\n0..28 $A=24..25 $B=16..17 $X=26..27\n",
        "python ⇒ g(f([..., $X, ...], k=$X), $X) ⇒ g(f([1,2],k=2),2)\n ⇒ 0..17 $X=7..8\n",
        "json ⇒ 1 ⇒  ⇒ BadTarget",
        "json ⇒ 1 ⇒ [1,] ⇒ BadTarget",
        "json ⇒ ... ⇒ 1 ⇒ BadPattern",
        "json ⇒ $...A ⇒ 1 ⇒ BadPattern",
        "json ⇒ {\"a\": $...B} ⇒ 1 ⇒ BadPattern",
        "json ⇒ [1 ⇒ 1 ⇒ BadPattern",
        "json ⇒  ⇒  ⇒ BadPattern",
        "python ⇒ $X == $X ⇒ a.b == (a.b)\n ⇒ 0..12 $X=0..3\n",
        "python ⇒ $X == $X ⇒ a == b\n ⇒ ",
        "python ⇒ foo(..., $X, ...) ⇒ foo(1,2,1)\n ⇒ 0..10 $X=4..5\n0..10 $X=6..7\n0..10 $X=8..9\n",
        "python ⇒ foo(...) ⇒ foo()\n ⇒ 0..5\n",
        "python ⇒ f(<... $X + 1 ...>) ⇒ f(g(a + 1) + 1)\n ⇒ 0..15 $X=2..10\n0..15 $X=4..5\n",
        "python ⇒ f\"{$X}\" ⇒ f\"{a + 1}\"\n ⇒ 0..10 $X=3..8\n",
        "python ⇒ \"...\" ⇒ g(\"a\", 'b' \"c\")\n ⇒ 2..5\n7..10\n7..14\n11..14\n",
        "python ⇒ ...\na()\nb()\n... ⇒ p()\nq()\na()\nb()\nr()\n ⇒ 0..19\n",
        "python ⇒ a()\nb() ⇒ p()\nq()\na()\nb()\nr()\n ⇒ 8..15\n",
        "python ⇒ f($X)\n...\nf($Y) ⇒ f(1)\nf(2)\nf(3)\n ⇒ 0..9 $X=2..3 $Y=7..8\n0..14 $X=2..3 $Y=12..13\n5..14 $X=7..8 $Y=12..13\n",
        "python ⇒ def $F(...): ... ⇒ @d\nasync def f(a): pass\ndef g(): return 1\n ⇒ 0..23 $F=13..14\n24..41 $F=28..29\n",
        "python ⇒ f($X, k=1) ⇒ f(k=1, a)\n ⇒ 0..9 $X=7..8\n",
        "python ⇒ f(..., k=1) ⇒ f(a, j=2, k=1)\n ⇒ 0..14\n",
        "python ⇒ f(k=1) ⇒ f(j=2, k=1)\n ⇒ ",
        "python ⇒ f(k=$X, $X) ⇒ f(1, k=1)\n ⇒ 0..9 $X=2..3\n",
        "python ⇒ f($X, $Y, k=1) ⇒ f(a, k=1, b)\n ⇒ 0..12 $X=2..3 $Y=10..11\n",
        "python ⇒ return ⇒ def f():\n    return\n    return 1\n ⇒ 13..19\n",
        "python ⇒ x ⇒  ⇒ ",
        "python ⇒ foo( ⇒ a\n ⇒ BadPattern",
        "python ⇒ $...A + 1 ⇒ a\n ⇒ BadPattern",
        "python ⇒ ... ⇒ a\n ⇒ BadPattern",
        "python ⇒ ...\n$...A ⇒ a\n ⇒ BadPattern",
        "python ⇒  ⇒ a\n ⇒ BadPattern",
        "python ⇒ x ⇒ x = \n ⇒ BadTarget",
        "python ⇒ x ⇒ match x:\n    case 1: pass\n ⇒ BadTarget",
        "python ⇒ x ⇒ if x:\ny\n ⇒ BadTarget",
        "c ⇒ strcpy($D, $S) ⇒ void f(char *s) { char b[4]; strcpy(b, s); } ⇒ 29..41 $D=36..37 $S=39..40\n",
        "c ⇒ (T)$X ⇒ void f(void) { g((T)a); } ⇒ 17..21 $X=20..21\n",
        "c ⇒ if (b) x(); else y(); ⇒ void f(void) { if (a) if (b) x(); else y(); } ⇒ 22..43\n",
        "c ⇒ printf($F, ...) ⇒ void f(void) { printf(\"%\" PRIu64 \"\\n\", va_arg(p, int)); } ⇒ 15..54 $F=22..37\n",
        // Names that hold a literal on each route to their point.
        "python ⇒ f(\"a\") ⇒ x = \"a\"\nf(x)\n ⇒ 8..12\n",
        "python ⇒ f(\"...\") ⇒ x = \"a\"\nf(x)\n ⇒ 8..12\n",
        "python ⇒ f(\"a\") ⇒ x = \"a\"\nif c: x = \"b\"\nf(x)\n ⇒ ",
        "python ⇒ f(\"b\") ⇒ x = \"a\"\nif c: x = \"b\"\nf(x)\n ⇒ ",
        "python ⇒ 2 ⇒ x = 1\nx = 2\ny = x\n ⇒ 10..11\n16..17\n",
        "python ⇒ f(1) ⇒ x = 1\nwhile c:\n    f(x)\n    x = 2\n ⇒ ",
        "python ⇒ f(\"a\") ⇒ K = \"a\"\ndef g():\n    f(K)\n ⇒ 21..25\n",
        "python ⇒ f(\"a\") ⇒ K = \"a\"\ndef g():\n    f(K)\nK = \"b\"\n ⇒ ",
        "python ⇒ f(\"a\") ⇒ K = \"a\"\ndef g(K):\n    f(K)\n ⇒ ",
        "c ⇒ g(5) ⇒ void f(void) { int a = 5; g(a); } ⇒ 26..30\n",
        "c ⇒ g(5) ⇒ void f(void) { int a = 5; h(&a); g(a); } ⇒ ",
        "c ⇒ 1 ⇒ int main( { ⇒ BadTarget",
        "c ⇒ int main( { ⇒  ⇒ BadPattern",
    ];
    for row in rows {
        let (lang, rest) = parted(row);
        let (pattern, rest) = parted(rest);
        let (input, wanted) = parted(rest);
        let found = matched(
            rt.alloc(),
            lang,
            pattern,
            &[(1, input.as_bytes())],
            [0, 0, 0],
        )?;
        same(row, found.as_str(), wanted)?;
    }
    Ok(())
}

// So many statements that each assign a number to a name of its own, and then a call with one of these names.
fn assigned_and_called(alloc: Global, count: u32) -> Result<String, Fail> {
    let mut text = String::new(alloc);
    for number in 0..count {
        writeln!(text, "a{number} = {number}")?;
    }
    text.push_str("f(a7)\n")?;
    Ok(text)
}

// 303 points times 301 names times 301 literals and one are within the limit of 50,000,000, 403 times 401 times 401 are not.
#[test]
fn knows_no_names_over_the_limit(rt: HostRuntime) -> Result<(), Fail> {
    for (count, wanted) in [(300, "3080..3085\n"), (400, "")] {
        let text = assigned_and_called(rt.alloc(), count)?;
        let found = matched(
            rt.alloc(),
            "python",
            "f(7)",
            &[(1, text.as_bytes())],
            [0, 0, 0],
        )?;
        same("f(7)", found.as_str(), wanted)?;
    }
    Ok(())
}

#[test]
fn ends_at_limits_and_failing_calls(rt: HostRuntime) -> Result<(), Fail> {
    let file: &[(u32, &[u8])] = &[(1, b"[1,{\"a\":1}]")];
    let rows: [(&str, &[(u32, &[u8])], [u32; 3], &str); 11] = [
        (
            "{$A: $B, $C: $D, ...}",
            &[(1, b"{\"a\":0"), (110, b",\"a\":0"), (1, b"}")],
            [0, 0, 0],
            "TooMany(10000)",
        ),
        (
            "0",
            &[(1, b"[0"), (10_000, b",0"), (1, b"]")],
            [0, 0, 0],
            "TooMany(10000)",
        ),
        (
            "1",
            &[(1_000_001, b" ")],
            [0, 0, 0],
            "OverLimit(Target, 1000001)",
        ),
        ("1", &[(1_000_000, b" ")], [0, 0, 0], "BadTarget"),
        ("1", &[(500, b"["), (500, b"]")], [0, 0, 0], "BadTarget"),
        ("1", &[(499, b"["), (499, b"]")], [0, 0, 0], ""),
        ("1", &[(1, b"[\"\xff\"]")], [0, 0, 0], "BadTarget"),
        ("1", file, [0, 1, 0], "InputFault"),
        ("1", file, [0, 4, 0], "InputFault"),
        ("1", file, [0, 0, 1], "OutputFault1."),
        ("1", file, [0, 0, 2], "OutputFault1..2\n8."),
    ];
    for (pattern, input, failing, wanted) in rows {
        let found = matched(rt.alloc(), "json", pattern, input, failing)?;
        same(pattern, found.as_str(), wanted)?;
    }
    let zeros: &[(u32, &[u8])] = &[(1, b"[0"), (9_999, b",0"), (1, b"]")];
    let found = matched(rt.alloc(), "json", "0", zeros, [0, 0, 0])?;
    assert_eq!(rt; found.as_str().lines().count(), 10_000);
    Ok(())
}
