//! Runs and texts of the example language, in which each byte is a token.

use shown::{parted, repeated, same};
use std::alloc::{AllocError, Global};
use std::fmt::Write;
use std::test::Fail;
use sums::{Node, ReadFault, Start, Token, Word, read_run, read_text};

fn word(byte: u8) -> Word {
    match byte {
        b'a'..=b'z' => Word::Name,
        b'0'..=b'9' => Word::Number,
        b'(' => Word::OpenRound,
        b')' => Word::CloseRound,
        b',' => Word::Comma,
        b'=' => Word::Equal,
        b'+' => Word::Plus,
        b'-' => Word::Minus,
        b'*' => Word::Times,
        b';' => Word::Semicolon,
        b'?' => Word::Hole,
        _ => Word::End,
    }
}

// A token for each byte, whose text is the byte.
fn tokens(alloc: Global, text: &str) -> Result<Vec<Token>, AllocError> {
    let mut tokens = Vec::new(alloc);
    let mut at = 0u32;
    for byte in text.as_bytes() {
        tokens.push(Token {
            word: word(*byte),
            text: *byte as u32,
            from: at,
            to: at.saturating_add(1),
        })?;
        at = at.saturating_add(1);
    }
    Ok(tokens)
}

// A tree in a line: kinds with the numbers of their texts, spans, and kids in brackets.
fn write_nodes(out: &mut String, nodes: &[Node]) -> Result<(), AllocError> {
    for (at, node) in nodes.iter().enumerate() {
        if at > 0 {
            out.push(' ')?;
        }
        write!(out, "{:?}", node.kind)?;
        if let Some(sign) = char::from_u32(node.text)
            && node.text > 0
        {
            write!(out, "({sign})")?;
        }
        write!(out, " {}..{}", node.from, node.to)?;
        if !node.kids.is_empty() {
            out.push('[')?;
            write_nodes(out, node.kids.as_slice())?;
            out.push(']')?;
        }
    }
    Ok(())
}

// The run at a token, where it ends and its tree, or `none`.
fn read(alloc: Global, text: &str, at: usize, start: Start) -> Result<String, ReadFault> {
    let mut out = String::new(alloc);
    let tokens = tokens(alloc, text)?;
    if at >= tokens.len() {
        return Ok(out);
    }
    match read_run(alloc, &tokens, at, start) {
        Ok((node, end)) => {
            write!(out, "{end} ")?;
            write_nodes(&mut out, std::slice::from_ref(&node))?;
        }
        Err(ReadFault::NoTree) => out.push_str("none")?,
        Err(ReadFault::Memory) => return Err(ReadFault::Memory),
    }
    Ok(out)
}

fn check(alloc: Global, at: usize, start: Start, rows: &[&str]) -> Result<(), Fail> {
    for row in rows {
        let (text, wanted) = parted(*row);
        same(text, read(alloc, text, at, start)?.as_str(), wanted)?;
    }
    Ok(())
}

#[test]
fn reads_runs(rt: HostRuntime) -> Result<(), Fail> {
    check(
        rt.alloc(),
        0,
        Start::Exprs,
        &[
            "1-2+3*4 ⇒ 7 Binary(+) 0..7[Binary(-) 0..3[Number(1) 0..1 Number(2) 2..3] Binary(*) 4..7[Number(3) 4..5 Number(4) 6..7]]",
            // A tuple has the span of its parentheses.
            "((a,b)) ⇒ 7 Tuple 1..6[Name(a) 2..3 Name(b) 4..5]",
            // A cast opens where a type and an operand follow.
            "(a**)-b(c) ⇒ 10 Cast 0..10[Name(a) 1..2 Star(*) 2..3 Star(*) 3..4 Negative 5..10[Call 6..10[Name(b) 6..7 Name(c) 8..9]]]",
            "(a*)(b+c)d ⇒ 9 Cast 0..9[Name(a) 1..2 Star(*) 2..3 Binary(+) 5..8[Name(b) 5..6 Name(c) 7..8]]",
            "(a)b(c) ⇒ 7 Cast 0..7[Name(a) 1..2 Call 3..7[Name(b) 3..4 Name(c) 5..6]]",
            "(a)1 ⇒ 4 Cast 0..4[Name(a) 1..2 Number(1) 3..4]",
            "a+b;c ⇒ 3 Binary(+) 0..3[Name(a) 0..1 Name(b) 2..3]",
            "a=b ⇒ 1 Name(a) 0..1",
            "a+ ⇒ none",
            "f(a ⇒ none",
            "a*- ⇒ none",
            "(a,b ⇒ none",
        ],
    )?;
    check(
        rt.alloc(),
        0,
        Start::Cast,
        &[
            "(a)(b) ⇒ 6 Call 0..6[Name(a) 1..2 Name(b) 4..5]",
            "(a) ⇒ 3 Name(a) 1..2",
            "(a*b)(c) ⇒ 8 Call 0..8[Binary(*) 1..4[Name(a) 1..2 Name(b) 3..4] Name(c) 6..7]",
            "(1)(a) ⇒ 6 Call 0..6[Number(1) 1..2 Name(a) 4..5]",
            // A cast ends where nothing goes on.
            "(a*)b*c ⇒ 5 Cast 0..5[Name(a) 1..2 Star(*) 2..3 Name(b) 4..5]",
        ],
    )?;
    // Calls, from any place, and a semicolon that follows.
    check(
        rt.alloc(),
        2,
        Start::Exprs,
        &[
            "a+f(x=-1,?)(), b ⇒ 14 Tuple 2..14[Call 2..13[Call 2..11[Name(f) 2..3 Keyword 4..8[Name(x) 4..5 Negative 6..8[Number(1) 7..8]] Hole(?) 9..10]]]",
        ],
    )?;
    check(
        rt.alloc(),
        0,
        Start::Text,
        &["a+b;c ⇒ 4 Binary(+) 0..3[Name(a) 0..1 Name(b) 2..3]"],
    )
}

#[test]
fn reads_500_brackets_round_a_token(rt: HostRuntime) -> Result<(), Fail> {
    for (times, inner, wanted) in [
        (500, "a", "1001 Name(a) 500..501"),
        (500, "()", "1002 Tuple 500..502"),
        (501, "a", "none"),
    ] {
        let text = repeated(rt.alloc(), &[(times, "("), (1, inner), (times, ")")])?;
        same(
            inner,
            read(rt.alloc(), text.as_str(), 0, Start::Exprs)?.as_str(),
            wanted,
        )?;
    }
    Ok(())
}

#[test]
fn reads_a_whole_text(rt: HostRuntime) -> Result<(), Fail> {
    for (text, wanted) in [
        ("a+b;", true),
        ("a+b", true),
        ("a b", false),
        ("a;;", false),
        ("a;b", false),
        ("", false),
    ] {
        let tokens = tokens(rt.alloc(), text)?;
        assert!(rt; read_text(rt.alloc(), &tokens).is_ok() == wanted, "{text}");
    }
    Ok(())
}
