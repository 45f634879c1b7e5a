//! Runs of the levels of expressions, from the first token of a text or a pattern.

use node_tree::{LexFault, Mode, Node, ReadFault};
use py_expr::{PyLevel, read_py};
use py_lex::tokens;
use shown::{parted, repeated, same, tree_line};
use std::alloc::Global;
use std::test::Fail;

// The run at the first token: its tree, and where it ends.
fn read(alloc: Global, text: &str, level: PyLevel, mode: Mode) -> Result<(Node, u32), ReadFault> {
    if text.len() > 1_000_000 {
        return Err(ReadFault::NoTree);
    }
    match tokens(alloc, text, mode) {
        Err(LexFault::NoTokens) => Err(ReadFault::NoTree),
        Err(LexFault::Memory) => Err(ReadFault::Memory),
        Ok(tokens) => {
            if tokens.is_empty() {
                return Err(ReadFault::NoTree);
            }
            read_py(alloc, &tokens, 0, level, mode)
        }
    }
}

// How many tokens the run at the first token has, or 0 where there is none.
fn length(alloc: Global, text: &str, level: PyLevel) -> Result<u32, ReadFault> {
    match read(alloc, text, level, Mode::Text) {
        Ok((_, end)) => Ok(end),
        Err(ReadFault::NoTree) => Ok(0),
        Err(ReadFault::Memory) => Err(ReadFault::Memory),
    }
}

// The tree of the run at the first token, or `none`.
fn tree(alloc: Global, text: &str, level: PyLevel, mode: Mode) -> Result<String, ReadFault> {
    match read(alloc, text, level, mode) {
        Ok((tree, _)) => tree_line(alloc, Ok(tree), true),
        Err(fault) => tree_line(alloc, Err(fault), true),
    }
}

// Rows of texts and their trees.
fn check_trees(alloc: Global, level: PyLevel, mode: Mode, rows: &[&str]) -> Result<(), Fail> {
    for row in rows {
        let (text, wanted) = parted(*row);
        same(text, tree(alloc, text, level, mode)?.as_str(), wanted)?;
    }
    Ok(())
}

#[test]
fn reads_trees(rt: HostRuntime) -> Result<(), Fail> {
    check_trees(
        rt.alloc(),
        PyLevel::Exprs,
        Mode::Text,
        &[
            "a - b - c ⇒ Binary(-) 0..9[Binary(-) 0..5[Name(a) 0..1 Name(b) 4..5] Name(c) 8..9]",
            "a ** -b ** c ⇒ Binary(**) 0..12[Name(a) 0..1 Unary(-) 5..12[Binary(**) 6..12[Name(b) 6..7 Name(c) 11..12]]]",
            "a.b == (a.b) ⇒ Compare(==) 0..12[Attr(.) 0..3[Name(a) 0..1 Id(b) 2..3] Attr(.) 8..11[Name(a) 8..9 Id(b) 10..11]]",
            "rF'a{b}' \"c\" ⇒ StrJoin 0..12[FStr(fr) 0..8[FText(a) 3..4 FField 4..7[Name(b) 5..6 List 4..4]] Str(\"c) 9..12]",
            "f'{a + 1 = !r:{b}>3}' ⇒ FStr(f) 0..21[FField(!r) 2..20[Binary(+) 3..8[Name(a) 3..4 Number(1) 7..8] List 14..19[FField 14..17[Name(b) 15..16 List 14..14] FText(>3) 17..19]]]",
            "f'' ⇒ FStr(f) 0..3",
        ],
    )?;
    check_trees(
        rt.alloc(),
        PyLevel::Cmp,
        Mode::Text,
        &["a < b not in c ⇒ Compare(< not in) 0..14[Name(a) 0..1 Name(b) 4..5 Name(c) 13..14]"],
    )?;
    check_trees(
        rt.alloc(),
        PyLevel::Test,
        Mode::Text,
        &[
            "a if b else c ⇒ Cond 0..13[Name(b) 5..6 Name(a) 0..1 Name(c) 12..13]",
            "lambda: x ⇒ Lambda 0..9[List 0..0 Name(x) 8..9]",
        ],
    )?;
    check_trees(
        rt.alloc(),
        PyLevel::Prim,
        Mode::Text,
        &[
            "foo() ⇒ Call 0..5[Name(foo) 0..3 List 0..0]",
            "f(x for y in z) ⇒ Call 0..15[Name(f) 0..1 List 2..14[Comp(gen) 2..14[Name(x) 2..3 CompFor 4..14[Name(y) 8..9 Name(z) 13..14]]]]",
            "x[1:, *a] ⇒ Sub 0..9[Name(x) 0..1 Tuple 2..8[Slice 2..4[Number(1) 2..3 Absent 2..2 Absent 2..2] Star 6..8[Name(a) 7..8]]]",
        ],
    )?;
    check_trees(
        rt.alloc(),
        PyLevel::Atom,
        Mode::Text,
        &[
            "((a, )) ⇒ Tuple 1..6[Name(a) 2..3]",
            "{a: b, **c} ⇒ DictLit 0..11[Pair 1..5[Name(a) 1..2 Name(b) 4..5] Star2 7..10[Name(c) 9..10]]",
            "{...} ⇒ SetLit 0..5[Ellipsis 1..4]",
            "Rb'a' u\"b\" ⇒ StrJoin 0..10[Str(br\"a) 0..5 Str(\"b) 6..10]",
        ],
    )?;
    check_trees(
        rt.alloc(),
        PyLevel::Exprs,
        Mode::Pattern,
        &[
            "f'{$X}' ⇒ FStr(f) 0..7[FField 2..6[Meta($X) 3..5 List 2..2]]",
            "$X == $X ⇒ Compare(==) 0..8[Meta($X) 0..2 Meta($X) 6..8]",
            "foo(..., $X, ...) ⇒ Call 0..17[Name(foo) 0..3 List 4..16[Dots 4..7 Meta($X) 9..11 Dots 13..16]]",
            "f(<... $X + 1 ...>) ⇒ Call 0..19[Name(f) 0..1 List 2..18[Deep 2..18[Binary(+) 7..13[Meta($X) 7..9 Number(1) 12..13]]]]",
            "{..., a} ⇒ SetLit 0..8[Dots 1..4 Name(a) 6..7]",
            "{..., a: b} ⇒ DictLit 0..11[Dots 1..4 Pair 6..10[Name(a) 6..7 Name(b) 9..10]]",
            "{..., $...X} ⇒ DictLit 0..12[Dots 1..4 MetaDots($...X) 6..11]",
            "u'...' ⇒ StrAny 0..6",
            "foo( ⇒ none",
        ],
    )?;
    Ok(())
}

#[test]
fn reads_each_level(rt: HostRuntime) -> Result<(), Fail> {
    let rows = [
        ("a, *b, = c", PyLevel::Exprs, 5),
        ("*a, b", PyLevel::Star, 2),
        ("a := b, c", PyLevel::Named, 3),
        ("a := b", PyLevel::Test, 1),
        ("a or b if", PyLevel::Or, 3),
        ("a and b or", PyLevel::And, 3),
        ("not a and", PyLevel::Not, 2),
        ("a is not b and", PyLevel::Cmp, 4),
        ("a | b in", PyLevel::Bor, 3),
        ("~a *", PyLevel::Unary, 2),
        ("a ** b *", PyLevel::Power, 3),
        ("await a **", PyLevel::Await, 2),
        ("a.b(c)[d] +", PyLevel::Prim, 9),
        ("a.b", PyLevel::Atom, 1),
        ("yield a, b)", PyLevel::Yield, 4),
        ("a, *b in", PyLevel::Targs, 4),
        ("*b, in", PyLevel::Target, 2),
        ("a: int = 1, *, b, /)", PyLevel::Params, 11),
        ("*a, b=c, **d)", PyLevel::Args, 9),
        ("lambda x: int: y", PyLevel::Exprs, 4),
        // No run that the next token goes on with.
        ("a if b", PyLevel::Test, 0),
        ("f(**)", PyLevel::Test, 0),
        ("[x if y]", PyLevel::Test, 0),
        ("{a: b, c}", PyLevel::Test, 0),
        ("{a := 1: 2}", PyLevel::Test, 0),
        ("f(a=1 for x in y)", PyLevel::Test, 0),
        ("(a", PyLevel::Test, 0),
        ("a.", PyLevel::Test, 0),
        (")", PyLevel::Test, 0),
        ("a not b", PyLevel::Cmp, 0),
        ("a =", PyLevel::Args, 0),
        // An f-string in a field of another, and a field whose brackets are its own.
        ("f\"{f'{a}'}\"", PyLevel::Exprs, 1),
        ("f'{[b, (c)]:{d}}'", PyLevel::Exprs, 1),
        // A field without an expression, of two, and with a yield.
        ("f'{}'", PyLevel::Exprs, 0),
        ("f'{=}'", PyLevel::Exprs, 0),
        ("f'{a b}'", PyLevel::Exprs, 0),
        ("f'{yield}'", PyLevel::Exprs, 0),
        ("f'{lambda x: 1}'", PyLevel::Exprs, 0),
        // An f-string that has no tree goes on with nothing.
        ("'a' f'{b c}'", PyLevel::Atom, 1),
    ];
    for (text, level, wanted) in rows {
        assert_eq!(rt; length(rt.alloc(), text, level)?, wanted, "{text}");
    }
    Ok(())
}

// The rows of texts, each by a front and how often it stands, `a` and a back as often, and whether it has a tree.
fn check<'r>(alloc: Global, rows: &[(&'r str, u32, &'r str, &'r str)]) -> Result<(), Fail> {
    for (front, times, back, wanted) in rows {
        let text = repeated(alloc, &[(*times, *front), (1, "a"), (*times, *back)])?;
        let found = length(alloc, text.as_str(), PyLevel::Exprs)?;
        let told = if found == 0 { "none" } else { "a tree" };
        same(*front, told, *wanted)?;
    }
    Ok(())
}

#[test]
fn keeps_the_limits(rt: HostRuntime) -> Result<(), Fail> {
    check(
        rt.alloc(),
        &[
            ("(", 500, ")", "a tree"),
            ("(", 501, ")", "none"),
            ("-", 499, "", "a tree"),
            ("-", 500, "", "none"),
            ("", 499, " + a", "a tree"),
            ("", 500, " + a", "none"),
            ("[", 499, "]", "a tree"),
            ("[", 500, "]", "none"),
        ],
    )
}

#[test]
fn refuses_deep_texts_while_it_reads(rt: HostRuntime) -> Result<(), Fail> {
    let sums = " + a + a + a + a + a + a + a + a + a + a + a + a + a + a + a + a + a + a + a + a)";
    check(
        rt.alloc(),
        &[
            ("-", 30_000, "", "none"),
            ("", 100_000, " + a", "none"),
            ("(", 500_000, "", "none"),
            ("a ** ", 100_000, "", "none"),
            ("a or a and a|a^a&a<<a+a*(", 1_000, "", "none"),
            ("[a for a in (", 1_000, "", "none"),
            ("lambda a={a: (", 1_000, "", "none"),
            // Chains in brackets at the start of chains: each is short enough alone.
            ("(", 400, sums, "none"),
        ],
    )
}
