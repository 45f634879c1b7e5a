//! Regular expressions: what they find, and what their builders refuse.

use node_tree::{List, Span, Text};
use rx_text::{BuildFault, FakePatterns, Patterns, RealPatterns};
use shown::same;
use std::alloc::{AllocError, Global};
use std::fmt::Write;
use std::test::Fail;

// Writes ranges, and whether the first match begins at the start.
fn write_found(out: &mut String, spans: &[Span], at_start: bool) -> Result<(), AllocError> {
    for span in spans {
        write!(out, "{}..{} ", span.from, span.to)?;
    }
    write!(out, "{at_start}")?;
    Ok(())
}

// What an expression finds in a text, or that it is refused.
fn answer<P: Patterns>(
    alloc: Global,
    patterns: &mut P,
    expression: &str,
    text: &str,
) -> Result<String, Fail> {
    let mut out = String::new(alloc);
    if text.len() > 1_000_000 {
        return Ok(out);
    }
    match patterns.build(expression) {
        Ok(mut rx) => {
            let spans = rx.all(text)?;
            write_found(&mut out, spans.as_slice(), rx.at_start(text)?)?;
        }
        Err(BuildFault::Refused) => out.push_str("refused")?,
        Err(BuildFault::Memory) => return Err(Fail::new(format_args!("no memory"))),
    }
    Ok(out)
}

// Writes the texts, each with a space behind it.
fn write_texts(out: &mut String, texts: &List<Text>) -> Result<(), AllocError> {
    for text in texts.as_slice() {
        write!(out, "{} ", text.as_str())?;
    }
    Ok(())
}

// The texts that a builder refused.
fn refused<P: Patterns>(alloc: Global, patterns: &P) -> Result<String, AllocError> {
    let mut out = String::new(alloc);
    write_texts(&mut out, patterns.refused())?;
    Ok(out)
}

// The texts that a builder refused, and those that it was asked for.
fn log_of(alloc: Global, patterns: &FakePatterns) -> Result<String, AllocError> {
    let mut out = refused(alloc, patterns)?;
    out.push_str("of ")?;
    write_texts(&mut out, patterns.asked())?;
    Ok(out)
}

#[test]
fn builds_and_finds(rt: HostRuntime) -> Result<(), Fail> {
    let mut patterns = RealPatterns::new(rt.alloc());
    for (expression, text, wanted) in [
        ("a+", "caab", "1..3 false"),
        // After the match 0..1 comes no empty one at 1, and one at 2, which is left out.
        ("a*", "aba", "0..1 2..3 true"),
        ("a*", "", "true"),
        ("a*", "b", "true"),
        ("a(", "", "refused"),
        ("a|", "éaa", "2..3 3..4 true"),
        ("\"l", "\"ls\"", "0..2 true"),
        ("\"l", "c", "false"),
        ("[", "", "refused"),
        ("b|$", "ab", "1..2 false"),
    ] {
        same(
            expression,
            answer(rt.alloc(), &mut patterns, expression, text)?.as_str(),
            wanted,
        )?;
    }
    same("refused", refused(rt.alloc(), &patterns)?.as_str(), "a( [ ")
}

// The fake refuses what it is told to, once, and tells what it was asked for.
#[test]
fn a_fake_refuses_what_it_is_told_to(rt: HostRuntime) -> Result<(), Fail> {
    let mut told = List::new(rt.alloc());
    told.push(Text::from_str(rt.alloc(), "a+")?)?;
    let mut patterns = FakePatterns::new(told, 1);
    for (expression, wanted) in [
        ("b", "1..2 false"),
        ("a+", "refused"),
        ("a+", "0..1 true"),
        ("(", "refused"),
    ] {
        same(
            expression,
            answer(rt.alloc(), &mut patterns, expression, "ab")?.as_str(),
            wanted,
        )?;
    }
    same(
        "log",
        log_of(rt.alloc(), &patterns)?.as_str(),
        "a+ ( of b a+ a+ ( ",
    )
}
