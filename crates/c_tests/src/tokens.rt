//! Texts and patterns of C, and their tokens: each as its word, its text and its span. And the comments of texts, each as its span.

use c_lex::{c_tokens, comments};
use node_tree::{LexFault, Mode};
use shown::{parted, same};
use std::alloc::Global;
use std::fmt::Write;
use std::test::Fail;

// The tokens of a text or a pattern, or `none`.
fn read(alloc: Global, text: &str, mode: Mode) -> Result<String, LexFault> {
    let mut out = String::new(alloc);
    if text.len() > 1_000_000 {
        return Ok(out);
    }
    match c_tokens(alloc, text, mode) {
        Ok(tokens) => for token in tokens.as_slice() {
            write!(out, "{:?}", token.word)?;
            if token.text.len() > 0 {
                write!(out, "({})", token.text.as_str())?;
            }
            write!(out, " {}..{} ", token.span.from, token.span.to)?;
        },
        Err(LexFault::NoTokens) => out.push_str("none")?,
        Err(LexFault::Memory) => return Err(LexFault::Memory),
    }
    Ok(out)
}

// Rows of texts and their tokens.
fn check(alloc: Global, mode: Mode, rows: &[&str]) -> Result<(), Fail> {
    for row in rows {
        let (text, wanted) = parted(*row);
        same(text, read(alloc, text, mode)?.as_str(), wanted)?;
    }
    Ok(())
}

#[test]
fn reads_tokens(rt: HostRuntime) -> Result<(), Fail> {
    check(
        rt.alloc(),
        Mode::Text,
        &[
            "void f(char *s) { strcpy(b, s); } ⇒ Keyword(void) 0..4 Name(f) 5..6 Op(() 6..7 Keyword(char) 7..11 Op(*) 12..13 Name(s) 13..14 Op()) 14..15 Op({) 16..17 Name(strcpy) 18..24 Op(() 24..25 Name(b) 25..26 Op(,) 26..27 Name(s) 28..29 Op()) 29..30 Op(;) 30..31 Op(}) 32..33 End 33..33 ",
            // A mark, a directive over two lines behind a comment over two, a number with a sign, and a prefix.
            "\u{feff}/*\n*/ #if a \\\r\n b\r\n1e+5-u8\"\\\"\" # // c ⇒ Directive(#if a \\\r\n b) 9..20 Number(1e+5) 22..26 Op(-) 26..27 Str(u8\"\\\"\") 27..33 Op(#) 34..35 End 40..40 ",
            "a+++b<<=L'x'é2 ⇒ Name(a) 0..1 Op(++) 1..3 Op(+) 3..4 Name(b) 4..5 Op(<<=) 5..8 Char(L'x') 8..12 Name(é2) 12..15 End 15..15 ",
            // A metavariable in a text, a comment that does not end, an empty character, a string over two lines, a lone
            // carriage return, and a second mark.
            "$X ⇒ none",
            "a /* b ⇒ none",
            "'' ⇒ none",
            "\"a\\\nb\" ⇒ none",
            "a\rb ⇒ none",
            "\u{feff}\u{feff} ⇒ none",
        ],
    )?;
    check(
        rt.alloc(),
        Mode::Pattern,
        &[
            "f($X, $...A) <... b ...> ⇒ Name(f) 0..1 Op(() 1..2 Meta($X) 2..4 Op(,) 4..5 MetaDots($...A) 6..11 Op()) 11..12 Op(<...) 13..17 Name(b) 18..19 Op(...>) 20..24 End 24..24 ",
        ],
    )?;
    Ok(())
}

// The comments of a text, or `none`.
fn comments_in(alloc: Global, text: &str) -> Result<String, LexFault> {
    let mut out = String::new(alloc);
    if text.len() > 1_000_000 {
        return Ok(out);
    }
    match comments(alloc, text) {
        Ok(found) => for comment in found.as_slice() {
            write!(out, "{}..{} ", comment.from, comment.to)?;
        },
        Err(LexFault::NoTokens) => out.push_str("none")?,
        Err(LexFault::Memory) => return Err(LexFault::Memory),
    }
    Ok(out)
}

// Rows of texts and their comments.
fn check_comments(alloc: Global, rows: &[&str]) -> Result<(), Fail> {
    for row in rows {
        let (text, wanted) = parted(*row);
        same(text, comments_in(alloc, text)?.as_str(), wanted)?;
    }
    Ok(())
}

// C11 6.4.9, where a line comment ends with its line.
#[test]
fn finds_comments(rt: HostRuntime) -> Result<(), Fail> {
    check_comments(
        rt.alloc(),
        &[
            "int x; // a\n/* b */ y;\n ⇒ 7..11 12..19 ",
            "a /* b */ + /**/ c ⇒ 2..9 12..16 ",
            // One of a kind in one of the other; over two lines; behind a byte order mark; at the end without a line end.
            "// a /* b\nx */ 1 ⇒ 0..9 ",
            "/* a // b\n*/ x // c\r\n ⇒ 0..12 15..19 ",
            "\u{feff}// é ⇒ 3..8 ",
            "a // b \\\nc ⇒ 2..8 ",
            // What only looks like one: in a string, in a character, and in a directive.
            "f(\"// a /* b */\", '/*'); ⇒ ",
            "#define A 1 // a\nx // b ⇒ 19..23 ",
            // Texts without tokens.
            "// a\nx /* b ⇒ none",
            "'' // a ⇒ none",
        ],
    )
}
