//! Files, statements and patterns of C, and their trees.

use c_unit::{read_c_pattern, read_unit};
use node_tree::{ReadFault, Shape};
use shown::{parted, repeated, same, tree_line, write_trees};
use std::alloc::Global;
use std::test::Fail;

// The tree of a file, or `none`.
fn file(alloc: Global, text: &str, spans: bool) -> Result<String, ReadFault> {
    if text.len() > 1_000_000 {
        return Err(ReadFault::NoTree);
    }
    tree_line(alloc, read_unit(alloc, text), spans)
}

// The shape and the tree of a pattern, or `none`.
fn pattern(alloc: Global, text: &str, spans: bool) -> Result<String, ReadFault> {
    if text.len() > 1_000_000 {
        return Err(ReadFault::NoTree);
    }
    match read_c_pattern(alloc, text) {
        Ok((shape, tree)) => {
            let mut out = tree_line(alloc, Ok(tree), spans)?;
            out.push_str(if shape == Shape::Expr {
                " expression"
            } else {
                " run"
            })?;
            Ok(out)
        }
        Err(fault) => tree_line(alloc, Err(fault), spans),
    }
}

// The items of a function's block, in which these stand, or `none`.
fn items(alloc: Global, text: &str) -> Result<String, ReadFault> {
    let whole = repeated(alloc, &[(1, "void f(void) {"), (1, text), (1, "}")])?;
    let mut out = String::new(alloc);
    if whole.as_str().len() > 1_000_000 {
        return Ok(out);
    }
    match read_unit(alloc, whole.as_str()) {
        Ok(root) => {
            if let Some(function) = root.kids.get(0)
                && let Some(block) = function.kids.get(2)
            {
                write_trees(&mut out, block.kids.as_slice(), false)?;
            }
        }
        Err(ReadFault::NoTree) => out.push_str("none")?,
        Err(ReadFault::Memory) => return Err(ReadFault::Memory),
    }
    Ok(out)
}

// Rows of files and their trees.
fn check_files(alloc: Global, spans: bool, rows: &[&str]) -> Result<(), Fail> {
    for row in rows {
        let (text, wanted) = parted(*row);
        same(text, file(alloc, text, spans)?.as_str(), wanted)?;
    }
    Ok(())
}

// Rows of items of a block and their trees.
fn check_items(alloc: Global, rows: &[&str]) -> Result<(), Fail> {
    for row in rows {
        let (text, wanted) = parted(*row);
        same(text, items(alloc, text)?.as_str(), wanted)?;
    }
    Ok(())
}

// Rows of patterns and their trees.
fn check_patterns(alloc: Global, spans: bool, rows: &[&str]) -> Result<(), Fail> {
    for row in rows {
        let (text, wanted) = parted(*row);
        same(text, pattern(alloc, text, spans)?.as_str(), wanted)?;
    }
    Ok(())
}

#[test]
fn reads_files(rt: HostRuntime) -> Result<(), Fail> {
    // C11 6.9: declarations, functions, directives and the uses of macros.
    check_files(
        rt.alloc(),
        false,
        &[
            " ⇒ Root",
            "int x; ⇒ Root[Decl[TypeSpec(int) List[Var[Id(x) Absent]]]]",
            "int main(void) { return 0; } ⇒ Root[FuncDef[TypeSpec(int) FuncOf[Id(main) List[ParamC[TypeSpec(void) Absent]]] Block[Return[Number(0)]]]]",
            "#include <a.h>\n; ⇒ Root[Directive(#include <a.h>) Empty]",
            "M(a, int); ⇒ Root[ExprStmt[Call[Name(M) List[Name(a) TypeName[TypeSpec(int) Absent]]]]]",
            "M()\nint x; ⇒ Root[ExprStmt[Call[Name(M) List]] Decl[TypeSpec(int) List[Var[Id(x) Absent]]]]",
            "M(a);; ⇒ Root[ExprStmt[Call[Name(M) List[Name(a)]]] Empty]",
            "x; ⇒ Root[Decl[TypeSpec(x) List]]",
            "enum E { A, B = 2 }; ⇒ Root[Decl[TypeSpec(enum E)[EnumItems[EnumItem[Id(A) Absent] EnumItem[Id(B) Number(2)]]] List]]",
            "struct S { int a : 3, *b; } s = { .a = 1, [2] = { 3 }, }; ⇒ Root[Decl[TypeSpec(struct S)[Fields[Decl[TypeSpec(int) List[Var[Id(a) Absent] Var[Ptr[Id(b)] Absent]]]]] List[Var[Id(s) InitList[Designated[List[DesField[Id(a)]] Number(1)] Designated[List[DesIndex[Number(2)]] InitList[Number(3)]]]]]]]",
            "typedef unsigned long T, *P; ⇒ Root[Decl[TypeSpec(typedef unsigned long) List[Var[Id(T) Absent] Var[Ptr[Id(P)] Absent]]]]",
            "typedef T U; ⇒ Root[Decl[TypeSpec(typedef T) List[Var[Id(U) Absent]]]]",
            "unsigned T; ⇒ Root[Decl[TypeSpec(unsigned) List[Var[Id(T) Absent]]]]",
            "int a = 1, b; ⇒ Root[Decl[TypeSpec(int) List[Var[Id(a) Number(1)] Var[Id(b) Absent]]]]",
            "static T *f(int a[3], ...) { } ⇒ Root[FuncDef[TypeSpec(static T) Ptr[FuncOf[Id(f) List[ParamC[TypeSpec(int) ArrayOf[Id(a) Number(3)]] ParamC(...)[Absent Absent]]]] Block]]",
            "int x { } ⇒ Root[FuncDef[TypeSpec(int) Id(x) Block]]",
            "int (*g(int))(char) { } ⇒ Root[FuncDef[TypeSpec(int) FuncOf[Ptr[FuncOf[Id(g) List[ParamC[TypeSpec(int) Absent]]]] List[ParamC[TypeSpec(char) Absent]]] Block]]",
            "int f(struct { int a; } s) { } ⇒ Root[FuncDef[TypeSpec(int) FuncOf[Id(f) List[ParamC[TypeSpec(struct)[Fields[Decl[TypeSpec(int) List[Var[Id(a) Absent]]]]] Id(s)]]] Block]]",
            "int *struct f { } ⇒ Root[FuncDef[TypeSpec(int) Ptr(struct)[Id(f)] Block]]",
            "struct S { int a; } f(void) { } ⇒ Root[FuncDef[TypeSpec(struct S)[Fields[Decl[TypeSpec(int) List[Var[Id(a) Absent]]]]] FuncOf[Id(f) List[ParamC[TypeSpec(void) Absent]]] Block]]",
            // What the grammar leaves out, and what the next tokens settle otherwise.
            "f(void) { } ⇒ none",
            "DEFINE(x) = 1; ⇒ none",
            "T (*p)(int); ⇒ none",
            "int f(a) int a; { } ⇒ none",
            "extern \"C\" { } ⇒ none",
            "int ⇒ none",
            "int x ⇒ none",
            "int x y; ⇒ none",
            "x = 1; ⇒ none",
            "} ⇒ none",
            "int f() { } } ⇒ none",
            "int f() { ⇒ none",
            "int main( { ⇒ none",
            "int a, ; ⇒ none",
            "if (a) x(); ⇒ none",
            "/* int x; ⇒ none",
        ],
    )?;
    // The root stands in the whole text, and what has no tokens where its parent begins.
    check_files(
        rt.alloc(),
        true,
        &[
            "int a, b;\nT f() { return; }\n ⇒ Root 0..28[Decl 0..9[TypeSpec(int) 0..3 List 4..8[Var 4..5[Id(a) 4..5 Absent 4..4] Var 7..8[Id(b) 7..8 Absent 7..7]]] FuncDef 10..27[TypeSpec(T) 10..11 FuncOf 12..15[Id(f) 12..13 List 12..12] Block 16..27[Return 18..25[Absent 18..18]]]]",
            "M(a) ; ⇒ Root 0..6[ExprStmt 0..6[Call 0..4[Name(M) 0..1 List 2..3[Name(a) 2..3]]]]",
            "x; ⇒ Root 0..2[Decl 0..2[TypeSpec(x) 0..1 List 0..0]]",
            "void f(void) { for (;;) ; } ⇒ Root 0..27[FuncDef 0..27[TypeSpec(void) 0..4 FuncOf 5..12[Id(f) 5..6 List 7..11[ParamC 7..11[TypeSpec(void) 7..11 Absent 7..7]]] Block 13..27[ForC 15..25[Absent 15..15 Absent 15..15 Absent 15..15 Block 24..25[Empty 24..25]]]]]",
            "int (x) = (1); ⇒ Root 0..14[Decl 0..14[TypeSpec(int) 0..3 List 4..13[Var 4..13[Id(x) 5..6 Number(1) 11..12]]]]",
            "\u{feff}x; ⇒ Root 0..5[Decl 3..5[TypeSpec(x) 3..4 List 3..3]]",
        ],
    )?;
    Ok(())
}

#[test]
fn reads_statements(rt: HostRuntime) -> Result<(), Fail> {
    // C11 6.8: the forms of statements.
    check_items(
        rt.alloc(),
        &[
            " ⇒ ",
            "x = 1; ; f(); ⇒ ExprStmt[AssignE(=)[Name(x) Number(1)]] Empty ExprStmt[Call[Name(f) List]]",
            "{ } { x; } ⇒ Block Block[ExprStmt[Name(x)]]",
            "if (a) { } else ; ⇒ If[Name(a) Block Block[Empty]]",
            "if (a) x(); ⇒ If[Name(a) Block[ExprStmt[Call[Name(x) List]]] Absent]",
            "if (a) if (b) x(); else y(); ⇒ If[Name(a) Block[If[Name(b) Block[ExprStmt[Call[Name(x) List]]] Block[ExprStmt[Call[Name(y) List]]]]] Absent]",
            "if (a) { if (b) x(); } else y(); ⇒ If[Name(a) Block[If[Name(b) Block[ExprStmt[Call[Name(x) List]]] Absent]] Block[ExprStmt[Call[Name(y) List]]]]",
            "if (a) while (b) if (c) x(); else y(); else z(); ⇒ If[Name(a) Block[While[Name(b) Block[If[Name(c) Block[ExprStmt[Call[Name(x) List]]] Block[ExprStmt[Call[Name(y) List]]]]] Absent]] Block[ExprStmt[Call[Name(z) List]]]]",
            "while (a, b) ; ⇒ While[Binary(,)[Name(a) Name(b)] Block[Empty] Absent]",
            "do x++; while (x); ⇒ DoWhile[Block[ExprStmt[Postfix(++)[Name(x)]]] Name(x)]",
            "do { } while (0); ⇒ DoWhile[Block Number(0)]",
            "for (;;) ; ⇒ ForC[Absent Absent Absent Block[Empty]]",
            "for (int i = 0; i < n; i++) { } ⇒ ForC[Decl[TypeSpec(int) List[Var[Id(i) Number(0)]]] Binary(<)[Name(i) Name(n)] Postfix(++)[Name(i)] Block]",
            "for (i = 0, j = 1; ; i--) ; ⇒ ForC[Binary(,)[AssignE(=)[Name(i) Number(0)] AssignE(=)[Name(j) Number(1)]] Absent Postfix(--)[Name(i)] Block[Empty]]",
            "for (T * p = a; ; ) x; ⇒ ForC[Decl[TypeSpec(T) List[Var[Ptr[Id(p)] Name(a)]]] Absent Absent Block[ExprStmt[Name(x)]]]",
            "for (a * b; ; ) ; ⇒ ForC[Decl[TypeSpec(a) List[Var[Ptr[Id(b)] Absent]]] Absent Absent Block[Empty]]",
            "for (a * b + c; ; ) ; ⇒ ForC[Binary(+)[Binary(*)[Name(a) Name(b)] Name(c)] Absent Absent Block[Empty]]",
            "return; return a, b; ⇒ Return[Absent] Return[Binary(,)[Name(a) Name(b)]]",
            "break; continue; goto L; L: x; ⇒ Break Continue Goto[Id(L)] Label[Id(L)] ExprStmt[Name(x)]",
            "switch (a) { case A + 1: x; break; default: ; } ⇒ Switch[Name(a) Block[Case[Binary(+)[Name(A) Number(1)]] ExprStmt[Name(x)] Break Default Empty]]",
            "switch (a) case 1: x; ⇒ Switch[Name(a) Block[Case[Number(1)] ExprStmt[Name(x)]]]",
            "case a ? b : c: ; ⇒ Case[Cond[Name(a) Name(b) Name(c)]] Empty",
            "if (a) L: case 1: default: x; ⇒ If[Name(a) Block[Label[Id(L)] Case[Number(1)] Default ExprStmt[Name(x)]] Absent]",
            "if (a) L: { x; } ⇒ If[Name(a) Block[Label[Id(L)] Block[ExprStmt[Name(x)]]] Absent]",
            "a: b ? c : d; ⇒ Label[Id(a)] ExprStmt[Cond[Name(b) Name(c) Name(d)]]",
            "L: ⇒ Label[Id(L)]",
            "\n#define A\nx;\n#undef A\n ⇒ Directive(#define A) ExprStmt[Name(x)] Directive(#undef A)",
            // Declarations against expressions.
            "T * p; ⇒ Decl[TypeSpec(T) List[Var[Ptr[Id(p)] Absent]]]",
            "T ** p[3]; ⇒ Decl[TypeSpec(T) List[Var[Ptr[Ptr[ArrayOf[Id(p) Number(3)]]] Absent]]]",
            "T * p = 0, q; ⇒ Decl[TypeSpec(T) List[Var[Ptr[Id(p)] Number(0)] Var[Id(q) Absent]]]",
            "T * p, q; ⇒ Decl[TypeSpec(T) List[Var[Ptr[Id(p)] Absent] Var[Id(q) Absent]]]",
            "T x; ⇒ Decl[TypeSpec(T) List[Var[Id(x) Absent]]]",
            "T const x; ⇒ Decl[TypeSpec(T const) List[Var[Id(x) Absent]]]",
            "struct S s; ⇒ Decl[TypeSpec(struct S) List[Var[Id(s) Absent]]]",
            "int; ⇒ Decl[TypeSpec(int) List]",
            "int a[] = { 1, }; ⇒ Decl[TypeSpec(int) List[Var[ArrayOf[Id(a) Absent] InitList[Number(1)]]]]",
            "a * b + c; ⇒ ExprStmt[Binary(+)[Binary(*)[Name(a) Name(b)] Name(c)]]",
            "T * f(int); ⇒ ExprStmt[Binary(*)[Name(T) Call[Name(f) List[TypeName[TypeSpec(int) Absent]]]]]",
            "T (*p)(int) = f; ⇒ ExprStmt[AssignE(=)[Call[Call[Name(T) List[Unary(*)[Name(p)]]] List[TypeName[TypeSpec(int) Absent]]] Name(f)]]",
            "(f)(x); ⇒ ExprStmt[Cast[TypeName[TypeSpec(f) Absent] Name(x)]]",
            "if (a) T * b; ⇒ If[Name(a) Block[ExprStmt[Binary(*)[Name(T) Name(b)]]] Absent]",
            "T * const p; ⇒ none",
            "g((T)a); ⇒ ExprStmt[Call[Name(g) List[Cast[TypeName[TypeSpec(T) Absent] Name(a)]]]]",
            "printf(\"%\" PRIu64 \"\\n\", va_arg(p, int)); ⇒ ExprStmt[Call[Name(printf) List[StrJoin[Str(\"%) Name(PRIu64) Str(\"\\n)] Call[Name(va_arg) List[Name(p) TypeName[TypeSpec(int) Absent]]]]]]",
            // What is no statement, or stands where none may.
            "return ⇒ none",
            "if a x; ⇒ none",
            "else x; ⇒ none",
            "do x; while (a) ⇒ none",
            "{ ⇒ none",
            "if (a) int b; ⇒ none",
            "if (a)\n#if 1\nx; ⇒ none",
            "case 1 ... 2: ; ⇒ none",
            "for (;) ; ⇒ none",
            "for (;;;) ; ⇒ none",
            "goto 1; ⇒ none",
            "x ⇒ none",
            "a b c; ⇒ none",
            "default x; ⇒ none",
            "break ⇒ none",
            "int f() { } ⇒ none",
            "if (a) L: } ⇒ none",
            "while () ; ⇒ none",
        ],
    )?;
    Ok(())
}

#[test]
fn reads_patterns(rt: HostRuntime) -> Result<(), Fail> {
    // An expression, or a run of items of a block, or of a file.
    check_patterns(
        rt.alloc(),
        false,
        &[
            "strcpy($D, $S) ⇒ Call[Name(strcpy) List[Meta($D) Meta($S)]] expression",
            "(T)$X ⇒ Cast[TypeName[TypeSpec(T) Absent] Meta($X)] expression",
            "if (b) x(); else y(); ⇒ Block[If[Name(b) Block[ExprStmt[Call[Name(x) List]]] Block[ExprStmt[Call[Name(y) List]]]]] run",
            "printf($F, ...) ⇒ Call[Name(printf) List[Meta($F) Dots]] expression",
            "\"...\" ⇒ StrAny expression",
            "... ⇒ Dots expression",
            "$...A ⇒ MetaDots($...A) expression",
            "$X * $Y ⇒ Binary(*)[Meta($X) Meta($Y)] expression",
            "$X * $Y; ⇒ Block[Decl[Meta($X) List[Var[Ptr[Meta($Y)] Absent]]]] run",
            "$X $Y; ⇒ Block[Decl[Meta($X) List[Var[Meta($Y) Absent]]]] run",
            "$X; ⇒ Block[ExprStmt[Meta($X)]] run",
            "x; ⇒ Block[ExprStmt[Name(x)]] run",
            "int f(char *, ...); ⇒ Block[Decl[TypeSpec(int) List[Var[FuncOf[Id(f) List[ParamC[TypeSpec(char) Ptr[Absent]] Dots]] Absent]]]] run",
            "$T $F(...) { ... } ⇒ Block[FuncDef[Meta($T) FuncOf[Meta($F) List[Dots]] Block[Dots]]] run",
            "$F(...); ⇒ Block[ExprStmt[Call[Meta($F) List[Dots]]]] run",
            "int x; void f(void) { } ⇒ Block[Decl[TypeSpec(int) List[Var[Id(x) Absent]]] FuncDef[TypeSpec(void) FuncOf[Id(f) List[ParamC[TypeSpec(void) Absent]]] Block]] run",
            "... void f(void) { } $...B ⇒ Block[Dots FuncDef[TypeSpec(void) FuncOf[Id(f) List[ParamC[TypeSpec(void) Absent]]] Block] MetaDots($...B)] run",
            "$X: ⇒ Block[Label[Meta($X)]] run",
            "goto $L; ⇒ Block[Goto[Meta($L)]] run",
            "<... f(x) ...>; ⇒ Block[ExprStmt[Deep[Call[Name(f) List[Name(x)]]]]] run",
            "(int)... ⇒ Cast[TypeName[TypeSpec(int) Absent] Dots] expression",
            "const $T; ⇒ Block[Decl[TypeSpec(const) List[Var[Meta($T) Absent]]]] run",
            " ⇒ Block run",
            // Dots at the start of an item: by themselves, or the start of an expression.
            "...; ⇒ Block[Dots] run",
            "...;; ⇒ Block[Dots Empty] run",
            "...\n*p = 1; ⇒ Block[Dots ExprStmt[AssignE(=)[Unary(*)[Name(p)] Number(1)]]] run",
            "... -x; ⇒ Block[Dots ExprStmt[Unary(-)[Name(x)]]] run",
            "... (x); ⇒ Block[Dots ExprStmt[Name(x)]] run",
            "$...A ++x; ⇒ Block[MetaDots($...A) ExprStmt[Unary(++)[Name(x)]]] run",
            "...->f = 1; ⇒ Block[ExprStmt[AssignE(=)[Attr(->)[Dots Id(f)] Number(1)]]] run",
            "... = 1; ⇒ Block[ExprStmt[AssignE(=)[Dots Number(1)]]] run",
            "... , x; ⇒ Block[ExprStmt[Binary(,)[Dots Name(x)]]] run",
            "... * p ⇒ Binary(*)[Dots Name(p)] expression",
            "x = ... * p; ⇒ Block[ExprStmt[AssignE(=)[Name(x) Binary(*)[Dots Name(p)]]]] run",
            "if ($X) ...\nelse y(); ⇒ Block[If[Meta($X) Block[Dots] Block[ExprStmt[Call[Name(y) List]]]]] run",
            "if ($X) ...; else y(); ⇒ Block[If[Meta($X) Block[Dots] Block[ExprStmt[Call[Name(y) List]]]]] run",
            "for (...; ...; ...) ... ⇒ Block[ForC[Dots Dots Dots Block[Dots]]] run",
            "{ ... } ⇒ Block[Block[Dots]] run",
            "...; x; $...B ⇒ Block[Dots ExprStmt[Name(x)] MetaDots($...B)] run",
            // No pattern.
            "const $T x; ⇒ none",
            "struct $S x; ⇒ none",
            "struct $S { int x; }; ⇒ none",
            "union $U { int x; } u; ⇒ none",
            "enum $E { A, B }; ⇒ none",
            "struct $S { ... }; ⇒ none",
            "struct S { ... }; ⇒ none",
            "struct $S *p; ⇒ none",
            "struct $S; ⇒ none",
            "f(struct $S) ⇒ none",
            "static $T $F() { ... } ⇒ none",
            "(T)... ⇒ none",
            "a b c ⇒ none",
            "foo( ⇒ none",
            "... =  ⇒ none",
            "for (...) ... ⇒ none",
            "int ⇒ none",
            "$X $Y $Z; ⇒ none",
        ],
    )?;
    // A run stands from its first token to its last, and one of no tokens at the text's start.
    check_patterns(
        rt.alloc(),
        true,
        &[
            " ; ; ⇒ Block 1..4[Empty 1..2 Empty 3..4] run",
            "  /* a */\n ⇒ Block 0..0 run",
        ],
    )?;
    Ok(())
}

// Rows of pieces of files, and whether the file has a tree.
fn check_limits(alloc: Global, rows: &[([(u32, &str); 4], &str)]) -> Result<(), Fail> {
    for (pieces, wanted) in rows {
        let text = repeated(alloc, pieces.as_slice())?;
        let found = file(alloc, text.as_str(), false)?;
        let told = if found.as_str() == "none" {
            "none"
        } else {
            "a tree"
        };
        same(pieces[0].1, told, *wanted)?;
    }
    Ok(())
}

// A block in a function is the fourth node from the root; an `else if` stands in a block.
#[test]
fn keeps_the_limits(rt: HostRuntime) -> Result<(), Fail> {
    check_limits(
        rt.alloc(),
        &[
            (
                [(1, "void f(void) {"), (497, "{"), (497, "}"), (1, "}")],
                "a tree",
            ),
            (
                [(1, "void f(void) {"), (498, "{"), (498, "}"), (1, "}")],
                "none",
            ),
            (
                [
                    (1, "void f(void) { "),
                    (247, "if (a) ; else "),
                    (1, "if (a) ;"),
                    (1, "}"),
                ],
                "a tree",
            ),
            (
                [
                    (1, "void f(void) { "),
                    (248, "if (a) ; else "),
                    (1, "if (a) ;"),
                    (1, "}"),
                ],
                "none",
            ),
            // The width of a bit field counts as a kid of its variable, which is the seventh node from the root.
            (
                [
                    (1, "struct { int a : "),
                    (492, "~"),
                    (1, "1"),
                    (1, "; } x;"),
                ],
                "a tree",
            ),
            (
                [
                    (1, "struct { int a : "),
                    (493, "~"),
                    (1, "1"),
                    (1, "; } x;"),
                ],
                "none",
            ),
        ],
    )
}

// What is long is read, and what is far past the limits is refused without a deep tree.
#[test]
fn reads_and_refuses_long_texts(rt: HostRuntime) -> Result<(), Fail> {
    check_limits(
        rt.alloc(),
        &[
            ([(20_000, "int x;"), (0, ""), (0, ""), (0, "")], "a tree"),
            ([(20_000, "int f() {"), (0, ""), (0, ""), (0, "")], "none"),
            (
                [(20_000, "int f() { if (a) {"), (0, ""), (0, ""), (0, "")],
                "none",
            ),
            (
                [(1, "int f() {"), (20_000, "for (;;) "), (1, ";"), (1, "}")],
                "none",
            ),
            ([(20_000, "int f("), (0, ""), (0, ""), (0, "")], "none"),
        ],
    )
}
