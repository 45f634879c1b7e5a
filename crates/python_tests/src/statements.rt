//! Modules and patterns, and their trees.

use node_tree::{ReadFault, Shape};
use py_stmt::{read_module, read_py_pattern};
use shown::{parted, repeated, same, tree_line};
use std::alloc::{AllocError, Global};
use std::test::Fail;

// The tree of a module, or `none`.
fn module(alloc: Global, text: &str, spans: bool) -> Result<String, ReadFault> {
    if text.len() > 1_000_000 {
        return Err(ReadFault::NoTree);
    }
    tree_line(alloc, read_module(alloc, text), spans)
}

// The shape and the tree of a pattern, or `none`.
fn pattern(alloc: Global, text: &str, spans: bool) -> Result<String, ReadFault> {
    if text.len() > 1_000_000 {
        return Err(ReadFault::NoTree);
    }
    match read_py_pattern(alloc, text) {
        Ok((shape, tree)) => {
            let mut out = tree_line(alloc, Ok(tree), spans)?;
            out.push_str(if shape == Shape::Expr {
                " expression"
            } else {
                " run"
            })?;
            Ok(out)
        }
        Err(fault) => tree_line(alloc, Err(fault), spans),
    }
}

// Rows of modules and their trees.
fn check_modules(alloc: Global, spans: bool, rows: &[&str]) -> Result<(), Fail> {
    for row in rows {
        let (text, wanted) = parted(*row);
        same(text, module(alloc, text, spans)?.as_str(), wanted)?;
    }
    Ok(())
}

// Rows of patterns and their trees.
fn check_patterns(alloc: Global, spans: bool, rows: &[&str]) -> Result<(), Fail> {
    for row in rows {
        let (text, wanted) = parted(*row);
        same(text, pattern(alloc, text, spans)?.as_str(), wanted)?;
    }
    Ok(())
}

#[test]
fn reads_modules(rt: HostRuntime) -> Result<(), Fail> {
    check_modules(
        rt.alloc(),
        true,
        &[
            " ⇒ Root 0..0",
            "\n# a\n ⇒ Root 0..5",
            "\u{feff}a ⇒ Root 0..4[ExprStmt 3..4[Name(a) 3..4]]",
            "é = 1 ⇒ Root 0..6[Assign 0..6[Name(é) 0..2 Number(1) 5..6]]",
            "@d\nasync def f(a): pass\ndef g(): return 1\n ⇒ Root 0..42[FunctionDef(async) 0..23[List 0..2[Name(d) 1..2] Id(f) 13..14 List 15..16[Param 15..16[Id(a) 15..16 Absent 15..15 Absent 15..15]] Absent 0..0 Block 19..23[Pass 19..23]] FunctionDef 24..41[List 24..24 Id(g) 28..29 List 24..24 Absent 24..24 Block 33..41[Return 33..41[Number(1) 40..41]]]]",
            "p()\nq()\na()\nb()\nr()\n ⇒ Root 0..20[ExprStmt 0..3[Call 0..3[Name(p) 0..1 List 0..0]] ExprStmt 4..7[Call 4..7[Name(q) 4..5 List 4..4]] ExprStmt 8..11[Call 8..11[Name(a) 8..9 List 8..8]] ExprStmt 12..15[Call 12..15[Name(b) 12..13 List 12..12]] ExprStmt 16..19[Call 16..19[Name(r) 16..17 List 16..16]]]",
            "(a); b;\n ⇒ Root 0..8[ExprStmt 0..3[Name(a) 1..2] ExprStmt 5..6[Name(b) 5..6]]",
            "if a:\n  b;\n\nelse: c\n ⇒ Root 0..20[If 0..19[Name(a) 3..4 Block 8..9[ExprStmt 8..9[Name(b) 8..9]] Block 18..19[ExprStmt 18..19[Name(c) 18..19]]]]",
            "from a import (b) ⇒ Root 0..17[FromImport 0..17[Id(a) 5..6 List 15..16[Alias 15..16[Id(b) 15..16 Absent 15..15]]]]",
        ],
    )?;
    check_modules(
        rt.alloc(),
        false,
        &[
            "... ⇒ Root[ExprStmt[Ellipsis]]",
            "yield a ⇒ Root[ExprStmt[Yield[Name(a)]]]",
            "x = y = 1 ⇒ Root[Assign[Name(x) Name(y) Number(1)]]",
            "x += yield ⇒ Root[AugAssign(+=)[Name(x) Yield[Absent]]]",
            "x.a: int = 3 ⇒ Root[AnnAssign[Attr(.)[Name(x) Id(a)] Name(int) Number(3)]]",
            "x: int ⇒ Root[AnnAssign[Name(x) Name(int) Absent]]",
            "return; return 1, 2 ⇒ Root[Return[Absent] Return[Tuple[Number(1) Number(2)]]]",
            "del a, b ⇒ Root[Del[Tuple[Name(a) Name(b)]]]",
            "pass; break; continue ⇒ Root[Pass Break Continue]",
            "raise; raise a ⇒ Root[Raise[Absent Absent] Raise[Name(a) Absent]]",
            "raise a from b ⇒ Root[Raise[Name(a) Name(b)]]",
            "assert a; assert a, b ⇒ Root[Assert[Name(a) Absent] Assert[Name(a) Name(b)]]",
            "global a, b\nnonlocal c ⇒ Root[Global[Id(a) Id(b)] Nonlocal[Id(c)]]",
            "import a.b as c, d ⇒ Root[Import[Alias[Id(a.b) Id(c)] Alias[Id(d) Absent]]]",
            "from ...a import (b as c, d,) ⇒ Root[FromImport(...)[Id(a) List[Alias[Id(b) Id(c)] Alias[Id(d) Absent]]]]",
            "from . import * ⇒ Root[FromImport(.)[Absent List[Alias[Id(*) Absent]]]]",
            "from .... import a ⇒ Root[FromImport(....)[Absent List[Alias[Id(a) Absent]]]]",
            "if a: b\nelif c: d\nelse: e\n ⇒ Root[If[Name(a) Block[ExprStmt[Name(b)]] If[Name(c) Block[ExprStmt[Name(d)]] Block[ExprStmt[Name(e)]]]]]",
            "if a:\n  b\n  if c: d\nelse:\n  e\n ⇒ Root[If[Name(a) Block[ExprStmt[Name(b)] If[Name(c) Block[ExprStmt[Name(d)]] Absent]] Block[ExprStmt[Name(e)]]]]",
            "while a: b\nelse: c ⇒ Root[While[Name(a) Block[ExprStmt[Name(b)]] Block[ExprStmt[Name(c)]]]]",
            "for a, b in c, d: e ⇒ Root[For[Tuple[Name(a) Name(b)] Tuple[Name(c) Name(d)] Block[ExprStmt[Name(e)]] Absent]]",
            "async for a in b: c ⇒ Root[For(async)[Name(a) Name(b) Block[ExprStmt[Name(c)]] Absent]]",
            "try: a\nexcept b as c: d\nexcept: e\nelse: f\nfinally: g\n ⇒ Root[Try[Block[ExprStmt[Name(a)]] List[Handler[Name(b) Id(c) Block[ExprStmt[Name(d)]]] Handler[Absent Absent Block[ExprStmt[Name(e)]]]] Block[ExprStmt[Name(f)]] Block[ExprStmt[Name(g)]]]]",
            "try: a\nfinally: b\n ⇒ Root[Try[Block[ExprStmt[Name(a)]] List Absent Block[ExprStmt[Name(b)]]]]",
            "with a as b, c: d ⇒ Root[With[List[WithItem[Name(a) Name(b)] WithItem[Name(c) Absent]] Block[ExprStmt[Name(d)]]]]",
            "class A(b, c=1): pass ⇒ Root[ClassDef[List Id(A) List[Name(b) Keyword[Id(c) Number(1)]] Block[Pass]]]",
            "@a\n@b\nclass A: pass ⇒ Root[ClassDef[List[Name(a) Name(b)] Id(A) List Block[Pass]]]",
            "def f(a, *b, c: int = 1, **d) -> e: pass ⇒ Root[FunctionDef[List Id(f) List[Param[Id(a) Absent Absent] Param(*)[Id(b) Absent Absent] Param[Id(c) Name(int) Number(1)] Param(**)[Id(d) Absent Absent]] Name(e) Block[Pass]]]",
            "foo( ⇒ none",
            "match x:\n  case 1: pass\n ⇒ none",
            "a b ⇒ none",
            "a not b ⇒ none",
            "a =  ⇒ none",
            "a; ; b ⇒ none",
            "$X ⇒ none",
            "a\n  b\n ⇒ none",
            "if a:\nb\n ⇒ none",
            "if a: if b: c ⇒ none",
            "else: a ⇒ none",
            "try: a\n ⇒ none",
            "try: a\nelse: b\n ⇒ none",
            "def f():\n ⇒ none",
            "import a, ⇒ none",
            "from import a ⇒ none",
            "@a\nb = 1 ⇒ none",
            "a\n)\n ⇒ none",
        ],
    )?;
    Ok(())
}

#[test]
fn reads_patterns(rt: HostRuntime) -> Result<(), Fail> {
    check_patterns(
        rt.alloc(),
        false,
        &[
            "f($X) ⇒ Call[Name(f) List[Meta($X)]] expression",
            "f($X);\n ⇒ Call[Name(f) List[Meta($X)]] expression",
            "\"...\" ⇒ StrAny expression",
            "(...) ⇒ Dots expression",
            "a()\nb() ⇒ Block[ExprStmt[Call[Name(a) List]] ExprStmt[Call[Name(b) List]]] run",
            "x = 1 ⇒ Block[Assign[Name(x) Number(1)]] run",
            "def $F(...): ... ⇒ Block[FunctionDef[List Meta($F) List[Dots] Absent Block[Dots]]] run",
            "if $X: ... ⇒ Block[If[Meta($X) Block[Dots] Absent]] run",
            "$...A\nb ⇒ Block[MetaDots($...A) ExprStmt[Name(b)]] run",
            "import $X ⇒ Block[Import[Alias[Meta($X) Absent]]] run",
            "... ⇒ Block[Dots] run",
            " ⇒ Block run",
            "foo( ⇒ none",
            "a b ⇒ none",
        ],
    )?;
    check_patterns(
        rt.alloc(),
        true,
        &[
            "# c\n(a)\nb;\n ⇒ Block 4..9[ExprStmt 4..7[Name(a) 5..6] ExprStmt 8..9[Name(b) 8..9]] run",
            "\n ⇒ Block 0..0 run",
            "(a) ⇒ Name(a) 1..2 expression",
        ],
    )?;
    Ok(())
}

// Conditions, so many within one another.
fn conditions(alloc: Global, times: u32) -> Result<String, AllocError> {
    let mut out = String::new(alloc);
    for at in 0..times {
        out.push_str(repeated(alloc, &[(at, " "), (1, "if a:\n")])?.as_str())?;
    }
    out.push_str(repeated(alloc, &[(times, " "), (1, "pass\n")])?.as_str())?;
    Ok(out)
}

#[test]
fn keeps_the_limits(rt: HostRuntime) -> Result<(), Fail> {
    let rows = [
        ([(497, "-"), (1, "a"), (0, "")], true),
        ([(498, "-"), (1, "a"), (0, "")], false),
        ([(1, "if a: b\n"), (495, "elif a: b\n"), (0, "")], true),
        ([(1, "if a: b\n"), (496, "elif a: b\n"), (0, "")], false),
        ([(150, "("), (1, "a"), (150, ")")], true),
        ([(501, "("), (1, "a"), (501, ")")], false),
        // What is long is read, and what is far past the limits is refused.
        ([(5_000, "a\n"), (0, ""), (0, "")], true),
        ([(20_000, "-"), (1, "a"), (0, "")], false),
        ([(1, "if a: b\n"), (5_000, "elif a: b\n"), (0, "")], false),
        ([(5_000, "lambda: "), (1, "a"), (0, "")], false),
    ];
    for (pieces, works) in rows {
        let text = repeated(rt.alloc(), pieces.as_slice())?;
        assert!(rt;
            (module(rt.alloc(), text.as_str(), false)?.as_str() != "none") == works,
            "{pieces:?}"
        );
    }
    for (times, works) in [(249, true), (250, false)] {
        let text = conditions(rt.alloc(), times)?;
        assert!(rt;
            (module(rt.alloc(), text.as_str(), false)?.as_str() != "none") == works,
            "{times}"
        );
    }
    let rows = [
        ([(0, ""), (499, "-"), (1, "a")], true),
        ([(0, ""), (500, "-"), (1, "a")], false),
        ([(1, "b\n"), (497, "-"), (1, "a")], true),
        ([(1, "b\n"), (498, "-"), (1, "a")], false),
    ];
    for (pieces, works) in rows {
        let text = repeated(rt.alloc(), pieces.as_slice())?;
        assert!(rt;
            (pattern(rt.alloc(), text.as_str(), false)?.as_str() != "none") == works,
            "{pieces:?}"
        );
    }
    Ok(())
}
