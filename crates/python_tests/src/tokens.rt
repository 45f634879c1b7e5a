//! Texts and patterns, and their tokens: each as its word, its text, its span and the parts of an f-string.

use node_tree::{LexFault, Mode};
use py_lex::{FPart, PyToken, tokens};
use shown::{parted, repeated, same};
use std::alloc::{AllocError, Global};
use std::fmt::Write;
use std::test::Fail;

// Parts of an f-string: a field with its conversion, the texts of its tokens, and, behind a colon, its format.
fn write_parts(out: &mut String, parts: &[FPart]) -> Result<(), AllocError> {
    for (at, part) in parts.iter().enumerate() {
        if at > 0 {
            out.push(' ')?;
        }
        match part {
            FPart::Plain(text, span) => write!(
                out,
                "Plain({}) {}..{}",
                text.as_str(),
                span.from,
                span.to
            )?,
            FPart::Field(tokens, conversion, format, span) => {
                out.push_str("Field")?;
                if conversion.len() > 0 {
                    write!(out, "({})", conversion.as_str())?;
                }
                write!(out, " {}..{}[", span.from, span.to)?;
                for (at, token) in tokens.as_slice().iter().enumerate() {
                    if at > 0 {
                        out.push(' ')?;
                    }
                    out.push_str(token.text.as_str())?;
                    if !token.parts.is_empty() {
                        out.push('[')?;
                        write_parts(out, token.parts.as_slice())?;
                        out.push(']')?;
                    }
                }
                out.push(']')?;
                if !format.is_empty() {
                    out.push_str(":[")?;
                    write_parts(out, format.as_slice())?;
                    out.push(']')?;
                }
            }
        }
    }
    Ok(())
}

fn write_tokens(out: &mut String, tokens: &[PyToken]) -> Result<(), AllocError> {
    for (at, token) in tokens.iter().enumerate() {
        if at > 0 {
            out.push(' ')?;
        }
        write!(out, "{:?}", token.word)?;
        if token.text.len() > 0 {
            write!(out, "({})", token.text.as_str())?;
        }
        write!(out, " {}..{}", token.span.from, token.span.to)?;
        if !token.parts.is_empty() {
            out.push('[')?;
            write_parts(out, token.parts.as_slice())?;
            out.push(']')?;
        }
    }
    Ok(())
}

// The tokens of a text or a pattern, or `none`.
fn read(alloc: Global, text: &str, mode: Mode) -> Result<String, LexFault> {
    let mut out = String::new(alloc);
    if text.len() > 1_000_000 {
        return Ok(out);
    }
    match tokens(alloc, text, mode) {
        Ok(tokens) => write_tokens(&mut out, tokens.as_slice())?,
        Err(LexFault::NoTokens) => out.push_str("none")?,
        Err(LexFault::Memory) => return Err(LexFault::Memory),
    }
    Ok(out)
}

// Rows of texts and their tokens.
fn check(alloc: Global, mode: Mode, rows: &[&str]) -> Result<(), Fail> {
    for row in rows {
        let (text, wanted) = parted(*row);
        same(text, read(alloc, text, mode)?.as_str(), wanted)?;
    }
    Ok(())
}

#[test]
fn reads_tokens(rt: HostRuntime) -> Result<(), Fail> {
    check(
        rt.alloc(),
        Mode::Text,
        &[
            // A mark, a blank line, a line with a comment alone, a tab, and no last line end.
            "\u{feff}if a:\n  b\n\n# c\n  d\n\te\nf ⇒ Keyword(if) 3..5 Name(a) 6..7 Op(:) 7..8 Newline 8..9 Indent 11..11 Name(b) 11..12 Newline 12..13 Name(d) 20..21 Newline 21..22 Indent 23..23 Name(e) 23..24 Newline 24..25 Dedent 25..25 Dedent 25..25 Name(f) 25..26 Newline 26..26 End 26..26",
            // A space and a tab lead to column 8, as eight spaces do; a form feed leads to column 0.
            "a:\n \tb\n        c\n  \u{c}d ⇒ Name(a) 0..1 Op(:) 1..2 Newline 2..3 Indent 5..5 Name(b) 5..6 Newline 6..7 Name(c) 15..16 Newline 16..17 Dedent 20..20 Name(d) 20..21 Newline 21..21 End 21..21",
            // Within brackets and behind a backslash; the first line has column 0.
            "  f(\r\n# c\n\ta] \\\n +b\n ⇒ Name(f) 2..3 Op(() 3..4 Name(a) 11..12 Op(]) 12..13 Op(+) 17..18 Name(b) 18..19 Newline 19..20 End 20..20",
            "0777 1if 0b12 1.a 1..a 1_0e-5J ⇒ Number(0777) 0..4 Number(1) 5..6 Keyword(if) 6..8 Number(0b1) 9..12 Number(2) 12..13 Number(1.) 14..16 Name(a) 16..17 Number(1.) 18..20 Op(.) 20..21 Name(a) 21..22 Number(1_0e-5J) 23..30 Newline 30..30 End 30..30",
            "Rb'\\'' u\"é\" '''a''\n''' \"\"<... ⇒ Str(Rb'\\'') 0..6 Str(u\"é\") 7..12 Str('''a''\n''') 13..23 Str(\"\") 24..26 Op(<) 26..27 Op(...) 27..30 Newline 30..30 End 30..30",
            // A lone `}` has no token, so the longest spelling is a name, and then a string.
            "f'}' ⇒ Name(f) 0..1 Str('}') 1..4 Newline 4..4 End 4..4",
            // In three quotes, the next shorter spelling is an empty f-string, and then there are strings.
            "f\"\"\"}\"\"\" ⇒ FStr(f\"\") 0..3 Str(\"}\") 3..6 Str(\"\") 6..8 Newline 8..8 End 8..8",
            // `f` and `r` stand in any order and case.
            "f'a{b}' ⇒ FStr(f'a{b}') 0..7[Plain(a) 2..3 Field 3..6[b]] Newline 7..7 End 7..7",
            "F\"a{b}\" ⇒ FStr(F\"a{b}\") 0..7[Plain(a) 2..3 Field 3..6[b]] Newline 7..7 End 7..7",
            "fr'''a{b}''' ⇒ FStr(fr'''a{b}''') 0..12[Plain(a) 5..6 Field 6..9[b]] Newline 12..12 End 12..12",
            "fR\"\"\"a{b}\"\"\" ⇒ FStr(fR\"\"\"a{b}\"\"\") 0..12[Plain(a) 5..6 Field 6..9[b]] Newline 12..12 End 12..12",
            "Fr'a{b}' ⇒ FStr(Fr'a{b}') 0..8[Plain(a) 3..4 Field 4..7[b]] Newline 8..8 End 8..8",
            "FR'a{b}' ⇒ FStr(FR'a{b}') 0..8[Plain(a) 3..4 Field 4..7[b]] Newline 8..8 End 8..8",
            "rf'a{b}' ⇒ FStr(rf'a{b}') 0..8[Plain(a) 3..4 Field 4..7[b]] Newline 8..8 End 8..8",
            "rF'a{b}' ⇒ FStr(rF'a{b}') 0..8[Plain(a) 3..4 Field 4..7[b]] Newline 8..8 End 8..8",
            "Rf'a{b}' ⇒ FStr(Rf'a{b}') 0..8[Plain(a) 3..4 Field 4..7[b]] Newline 8..8 End 8..8",
            "RF'a{b}' ⇒ FStr(RF'a{b}') 0..8[Plain(a) 3..4 Field 4..7[b]] Newline 8..8 End 8..8",
            "f'{{{a}}}é{{' ⇒ FStr(f'{{{a}}}é{{') 0..14[Plain({{) 2..4 Field 4..7[a] Plain(}}é{{) 7..13] Newline 14..14 End 14..14",
            // A field in a format has no format, and in a format no brace is doubled.
            "f'{a!r}{b!s:>{w}.{p!a}}{c:}' ⇒ FStr(f'{a!r}{b!s:>{w}.{p!a}}{c:}') 0..28[Field(!r) 2..7[a] Field(!s) 7..23[b]:[Plain(>) 12..13 Field 13..16[w] Plain(.) 16..17 Field(!a) 17..22[p]] Field 23..27[c]] Newline 28..28 End 28..28",
            // The `=` behind an expression is its last token; `!=` and brackets end none; `:=` outside brackets is a format.
            "f\"{ a = }{b=!r}{c != {':}'}}{d[1:2]}{e:=5}{}\" ⇒ FStr(f\"{ a = }{b=!r}{c != {':}'}}{d[1:2]}{e:=5}{}\") 0..45[Field 2..9[a =] Field(!r) 9..15[b =] Field 15..28[c != { ':}' }] Field 28..36[d [ 1 : 2 ]] Field 36..42[e]:[Plain(=5) 39..41] Field 42..44[]] Newline 45..45 End 45..45",
            // A field holds no quotes of an f-string around it, and there are four kinds of quotes.
            "f\"\"\"{f\"{f'''{f'{a}'}'''}\"}\"\"\" ⇒ FStr(f\"\"\"{f\"{f'''{f'{a}'}'''}\"}\"\"\") 0..29[Field 4..26[f\"{f'''{f'{a}'}'''}\"[Field 7..24[f'''{f'{a}'}'''[Field 12..20[f'{a}'[Field 15..18[a]]]]]]]] Newline 29..29 End 29..29",
            // A field that does not end, a backslash, a comment and a nested format have no place in a field.
            "f'{a' ⇒ Name(f) 0..1 Str('{a') 1..5 Newline 5..5 End 5..5",
            "f'{a!r b}' ⇒ Name(f) 0..1 Str('{a!r b}') 1..10 Newline 10..10 End 10..10",
            "f'{a!x}' ⇒ Name(f) 0..1 Str('{a!x}') 1..8 Newline 8..8 End 8..8",
            "f'{\"\\n\"}' ⇒ Name(f) 0..1 Str('{\"\\n\"}') 1..9 Newline 9..9 End 9..9",
            "f'{a#}' ⇒ Name(f) 0..1 Str('{a#}') 1..7 Newline 7..7 End 7..7",
            "f'{a:{b:c}}' ⇒ Name(f) 0..1 Str('{a:{b:c}}') 1..12 Newline 12..12 End 12..12",
            "f'{a:}}' ⇒ Name(f) 0..1 Str('{a:}}') 1..8 Newline 8..8 End 8..8",
            // Strings that do not end, a stray dollar, a lone carriage return, a second mark, and a column between two.
            "'a\n' ⇒ none",
            "\"\"\"a ⇒ none",
            "f'{a} ⇒ none",
            "f'''{a}'' ⇒ none",
            "b'\\' ⇒ none",
            "a $ b ⇒ none",
            "$X ⇒ none",
            "a\rb ⇒ none",
            "\u{feff}\u{feff} ⇒ none",
            "a:\n  b\n c ⇒ none",
        ],
    )?;
    check(
        rt.alloc(),
        Mode::Pattern,
        &[
            "f($X, $...A, ...)\n<... b ...> ⇒ Name(f) 0..1 Op(() 1..2 Meta($X) 2..4 Op(,) 4..5 MetaDots($...A) 6..11 Op(,) 11..12 Op(...) 13..16 Op()) 16..17 Newline 17..18 Op(<...) 18..22 Name(b) 23..24 Op(...>) 25..29 Newline 29..29 End 29..29",
            "f'{$X}{<... $Y ...>!s}' ⇒ FStr(f'{$X}{<... $Y ...>!s}') 0..23[Field 2..6[$X] Field(!s) 6..22[<... $Y ...>]] Newline 23..23 End 23..23",
        ],
    )?;
    Ok(())
}

#[test]
fn reads_one_token_of_a_million_bytes(rt: HostRuntime) -> Result<(), Fail> {
    let text = repeated(rt.alloc(), &[(1_000_000, "a")])?;
    let rest = ") 0..1000000 Newline 1000000..1000000 End 1000000..1000000";
    let wanted = repeated(rt.alloc(), &[(1, "Name("), (1_000_000, "a"), (1, rest)])?;
    assert!(rt; read(rt.alloc(), text.as_str(), Mode::Text)?.as_str() == wanted.as_str());
    Ok(())
}
