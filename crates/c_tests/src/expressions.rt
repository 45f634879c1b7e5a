//! Runs of the levels of C's expressions, types and declarators, from the first token of a text or a pattern.

use c_expr::{CLevel, read_c};
use c_lex::c_tokens;
use node_tree::{LexFault, Mode, ReadFault};
use shown::{parted, repeated, same, tree_line};
use std::alloc::Global;
use std::fmt::Write;
use std::test::Fail;

// The run at the first token, its tree and the number of its tokens, or `none`.
fn read(alloc: Global, text: &str, level: CLevel, mode: Mode) -> Result<String, ReadFault> {
    if text.len() > 1_000_000 {
        return Err(ReadFault::NoTree);
    }
    let tokens = match c_tokens(alloc, text, mode) {
        Ok(tokens) => tokens,
        Err(LexFault::NoTokens) => return Err(ReadFault::NoTree),
        Err(LexFault::Memory) => return Err(ReadFault::Memory),
    };
    match read_c(alloc, &tokens, 0, level, mode) {
        Ok((tree, end)) => {
            let mut out = tree_line(alloc, Ok(tree), false)?;
            write!(out, " {end}")?;
            Ok(out)
        }
        Err(fault) => tree_line(alloc, Err(fault), false),
    }
}

// Rows of texts and what is read of them.
fn check_trees(alloc: Global, level: CLevel, mode: Mode, rows: &[&str]) -> Result<(), Fail> {
    for row in rows {
        let (text, wanted) = parted(*row);
        same(text, read(alloc, text, level, mode)?.as_str(), wanted)?;
    }
    Ok(())
}

#[test]
fn reads_trees(rt: HostRuntime) -> Result<(), Fail> {
    check_trees(
        rt.alloc(),
        CLevel::Comma,
        Mode::Text,
        &[
            // C11 6.5: what binds more tightly, from the left or from the right, and where an assignment can't go on.
            "a - b - c * d ⇒ Binary(-)[Binary(-)[Name(a) Name(b)] Binary(*)[Name(c) Name(d)]] 7",
            "a << 1 == b && c || d, e ⇒ Binary(,)[Binary(||)[Binary(&&)[Binary(==)[Binary(<<)[Name(a) Number(1)] Name(b)] Name(c)] Name(d)] Name(e)] 11",
            "(a + b) = c ⇒ AssignE(=)[Binary(+)[Name(a) Name(b)] Name(c)] 7",
            "a + ⇒ none",
            "va_arg(p, int) ⇒ Call[Name(va_arg) List[Name(p) TypeName[TypeSpec(int) Absent]]] 6",
            "f(a * b, T *) ⇒ Call[Name(f) List[Binary(*)[Name(a) Name(b)] TypeName[TypeSpec(T) Ptr[Absent]]]] 9",
            "printf(\"%\" PRIu64 \"\\n\", x) ⇒ Call[Name(printf) List[StrJoin[Str(\"%) Name(PRIu64) Str(\"\\n)] Name(x)]] 8",
            "\"a\" b(c) ⇒ Call[StrJoin[Str(\"a) Name(b)] List[Name(c)]] 5",
        ],
    )?;
    check_trees(
        rt.alloc(),
        CLevel::Assign,
        Mode::Text,
        &[
            "*p++ = b = -c ⇒ AssignE(=)[Unary(*)[Postfix(++)[Name(p)]] AssignE(=)[Name(b) Unary(-)[Name(c)]]] 8",
            "a ? b : c ? d : e ⇒ Cond[Name(a) Name(b) Cond[Name(c) Name(d) Name(e)]] 9",
            "a ? b : c = d ⇒ Cond[Name(a) Name(b) Name(c)] 5",
            "(T)a = b ⇒ Cast[TypeName[TypeSpec(T) Absent] Name(a)] 4",
        ],
    )?;
    check_trees(
        rt.alloc(),
        CLevel::Cast,
        Mode::Text,
        &[
            // Casts against calls, differences and elements; arguments that are types; strings and what follows them.
            "(f)(x) ⇒ Cast[TypeName[TypeSpec(f) Absent] Name(x)] 6",
            "(T)[a] ⇒ Sub[Name(T) Name(a)] 6",
            "(T * const)p ⇒ none",
        ],
    )?;
    check_trees(
        rt.alloc(),
        CLevel::Postfix,
        Mode::Text,
        &["(f)(x) ⇒ Call[Name(f) List[Name(x)]] 6"],
    )?;
    check_trees(
        rt.alloc(),
        CLevel::Lor,
        Mode::Text,
        &["(T)-a ⇒ Binary(-)[Name(T) Name(a)] 5"],
    )?;
    check_trees(
        rt.alloc(),
        CLevel::Unary,
        Mode::Text,
        &[
            "sizeof (T) ⇒ Unary(sizeof)[Name(T)] 4",
            "sizeof(T*) ⇒ SizeofType[TypeName[TypeSpec(T) Ptr[Absent]]] 5",
        ],
    )?;
    check_trees(
        rt.alloc(),
        CLevel::Spec,
        Mode::Text,
        &[
            // C11 6.7: the words of a type, bodies, declarators, and initial values.
            "unsigned x ⇒ TypeSpec(unsigned) 1",
            "const x y ⇒ TypeSpec(const x) 2",
            "struct S { int a : 3, *b; } const ⇒ TypeSpec(struct S const)[Fields[Decl[TypeSpec(int) List[Var[Id(a) Absent] Var[Ptr[Id(b)] Absent]]]]] 13",
            "enum { A, B = 1, } ⇒ TypeSpec(enum)[EnumItems[EnumItem[Id(A) Absent] EnumItem[Id(B) Number(1)]]] 9",
        ],
    )?;
    check_trees(
        rt.alloc(),
        CLevel::Tname,
        Mode::Text,
        &[
            "int (*[3])(void) ⇒ TypeName[TypeSpec(int) FuncOf[Ptr[ArrayOf[Absent Number(3)]] List[ParamC[TypeSpec(void) Absent]]]] 10",
        ],
    )?;
    check_trees(
        rt.alloc(),
        CLevel::Declr,
        Mode::Text,
        &[
            "*int *const x[3][] ⇒ Ptr(int)[Ptr(const)[ArrayOf[ArrayOf[Id(x) Number(3)] Absent]]] 10",
            "(*f)(char *s, T (x), ...) ⇒ FuncOf[Ptr[Id(f)] List[ParamC[TypeSpec(char) Ptr[Id(s)]] ParamC[TypeSpec(T) FuncOf[Absent List[ParamC[TypeSpec(x) Absent]]]] ParamC(...)[Absent Absent]]] 16",
        ],
    )?;
    check_trees(
        rt.alloc(),
        CLevel::Var,
        Mode::Text,
        &[
            "x = { 1, .a[2] = { 3 }, } ⇒ Var[Id(x) InitList[Number(1) Designated[List[DesField[Id(a)] DesIndex[Number(2)]] InitList[Number(3)]]]] 16",
            "x : 3 ⇒ Var[Id(x) Absent] 1",
        ],
    )?;
    check_trees(
        rt.alloc(),
        CLevel::Comma,
        Mode::Pattern,
        &[
            "(T)$X ⇒ Cast[TypeName[TypeSpec(T) Absent] Meta($X)] 4",
            "(int)... ⇒ Cast[TypeName[TypeSpec(int) Absent] Dots] 4",
            "(T)... ⇒ Name(T) 3",
            "$F(..., $...A) ⇒ Call[Meta($F) List[Dots MetaDots($...A)]] 6",
            "<... a, $X ...> ⇒ Deep[Binary(,)[Name(a) Meta($X)]] 5",
        ],
    )?;
    check_trees(
        rt.alloc(),
        CLevel::Prim,
        Mode::Pattern,
        &["\"...\" \"x\" $Y ⇒ StrJoin[StrAny Str(\"x) Meta($Y)] 3"],
    )?;
    check_trees(
        rt.alloc(),
        CLevel::Spec,
        Mode::Pattern,
        &["$T const ⇒ Meta($T) 1"],
    )?;
    check_trees(
        rt.alloc(),
        CLevel::Declr,
        Mode::Pattern,
        &["f(char *, ...) ⇒ FuncOf[Id(f) List[ParamC[TypeSpec(char) Ptr[Absent]] Dots]] 7"],
    )?;
    Ok(())
}

// The rows of texts, each by its pieces, and whether it has a tree.
fn check(alloc: Global, rows: &[([(u32, &str); 3], &str)]) -> Result<(), Fail> {
    for (pieces, wanted) in rows {
        let text = repeated(alloc, pieces.as_slice())?;
        let found = read(alloc, text.as_str(), CLevel::Comma, Mode::Text)?;
        let told = if found.as_str() == "none" {
            "none"
        } else {
            "a tree"
        };
        same(pieces[0].1, told, *wanted)?;
    }
    Ok(())
}

#[test]
fn keeps_the_limits(rt: HostRuntime) -> Result<(), Fail> {
    check(
        rt.alloc(),
        &[
            ([(500, "("), (1, "a"), (500, ")")], "a tree"),
            ([(501, "("), (1, "a"), (501, ")")], "none"),
            ([(499, "- "), (1, "a"), (0, "")], "a tree"),
            ([(500, "- "), (1, "a"), (0, "")], "none"),
            ([(1, "a"), (499, "+a"), (0, "")], "a tree"),
            ([(1, "a"), (500, "+a"), (0, "")], "none"),
        ],
    )
}

#[test]
fn refuses_deep_texts_while_it_reads(rt: HostRuntime) -> Result<(), Fail> {
    check(
        rt.alloc(),
        &[
            ([(30_000, "- "), (1, "a"), (0, "")], "none"),
            ([(100_000, "a + "), (0, ""), (0, "")], "none"),
            ([(100_000, "a + "), (1, "a"), (0, "")], "none"),
            ([(500_000, "("), (0, ""), (0, "")], "none"),
        ],
    )
}
