//! The names that are known to hold a literal, as lines of text.
//!
//! A name is written as the line on which it stands, from 1, its text and the text of the literal.

use crate::source::{line_of, root_of};
use const_prop::constants;
use node_tree::{Memory, Node, ReadFault};
use shown::{parted, same};
use std::alloc::{AllocError, Global};
use std::fmt::Write;
use std::test::Fail;

// Writes a name that holds a literal.
fn write_known(
    out: &mut String,
    text: &str,
    name: &Node,
    literal: &Node,
) -> Result<(), AllocError> {
    if out.len() > 0 {
        out.push_str("; ")?;
    }
    let line = line_of(text, name.span.from);
    write!(
        out,
        "{line} {} {}",
        name.text.as_str(),
        literal.text.as_str()
    )?;
    Ok(())
}

// The names of a tree that are known to hold a literal.
fn known_names(alloc: Global, text: &str, root: &Node) -> Result<String, Memory> {
    let mut nodes = Vec::new(alloc);
    let mut walk = root.walk()?;
    while let Some(node) = walk.next() {
        nodes.push(node)?;
    }
    let mut out = String::new(alloc);
    let constants = constants(alloc, root)?;
    for known in constants.as_slice() {
        if let Some(name) = nodes.get(known.at as usize) {
            write_known(&mut out, text, *name, &known.literal)?;
        }
    }
    Ok(out)
}

// Those of a text in Python or in C.
fn line(alloc: Global, text: &str, python: bool) -> Result<String, ReadFault> {
    let root = root_of(alloc, text, python)?;
    Ok(known_names(alloc, text, &root)?)
}

// Rows of texts and known names.
fn check(alloc: Global, python: bool, rows: &[&str]) -> Result<(), Fail> {
    for row in rows {
        let (text, wanted) = parted(*row);
        same(text, line(alloc, text, python)?.as_str(), wanted)?;
    }
    Ok(())
}

#[test]
fn known_on_every_route(rt: HostRuntime) -> Result<(), Fail> {
    check(
        rt.alloc(),
        true,
        &[
            "x = \"a\"\nf(x)\n ⇒ 2 x \"a",
            "x = \"a\"\nif c: x = \"b\"\nf(x)\n ⇒ ",
            "x = \"a\"\nif c: x = \"a\"\nf(x)\n ⇒ 3 x \"a",
            "x = 1\nwhile c:\n f(x)\n x = 2\n ⇒ ",
            "x = 1\nx += 0\nf(x)\n ⇒ ",
            "x = 1\nfor x in y:\n f(x)\n ⇒ ",
            "x = 1\nimport x\nf(x)\n ⇒ ",
            "x = \"a\"\n[f(x) for x in y]\n ⇒ 2 x \"a; 2 x \"a",
            "b = 1\n(a, c) = d = b\nf(a, d)\n ⇒ 2 b 1; 3 d 1",
            "x = (y := \"a\")\nf(x, y)\n ⇒ 2 y \"a",
            "a = \"x\"\na[0] = 1\nf(a)\n ⇒ 2 a \"x; 3 a \"x",
            "x = 1\nx: int\nf(x)\n ⇒ 2 x 1; 3 x 1",
            "x = \"b\"\ntry:\n x = \"a\"\nexcept E:\n f(x)\n ⇒ 5 x \"a",
            "def g():\n x = 1\n return\n f(x)\n ⇒ ",
        ],
    )
}

#[test]
fn fixed_names_of_modules(rt: HostRuntime) -> Result<(), Fail> {
    check(
        rt.alloc(),
        true,
        &[
            "K = \"a\"\ndef g():\n    f(K)\n ⇒ 3 K \"a",
            "K = \"a\"\ndef g():\n    f(K)\nK = \"b\"\n ⇒ ",
            "K = K = 1\ndef g():\n f(K)\n ⇒ ",
            "if c:\n K = \"a\"\ndef g():\n f(K)\n ⇒ 4 K \"a",
            "def g():\n K = 2\n def h():\n  f(K)\nK = 1\ndef h():\n f(K)\n ⇒ 7 K 1",
            "K = 1\ndef g(K):\n f(K)\ndef h():\n f(K)\n ⇒ 5 K 1",
            "K = 1\ndef g():\n global K\ndef h():\n f(K)\nf(K)\n ⇒ ",
            "K = 1\ndef g():\n L = K\n f(L)\n ⇒ 3 K 1; 4 L 1",
        ],
    )
}

#[test]
fn known_in_c(rt: HostRuntime) -> Result<(), Fail> {
    check(
        rt.alloc(),
        false,
        &[
            "void f(void) {\n int x = 1, y = x;\n g(x, y);\n}\n ⇒ 3 x 1; 3 y 1",
            "void f(void) {\n int x = 1;\n g(&x);\n h(x);\n}\n ⇒ ",
            "void f(void) {\n int x = 1;\n x++;\n g(x);\n}\n ⇒ ",
            "void f(void) {\n char b[4] = \"abc\";\n g(b);\n}\n ⇒ 3 b \"abc",
            "void f(void) {\n a = b = 5;\n g(a, b);\n}\n ⇒ 3 b 5",
            "int K = 1;\nvoid f(void) {\n g(K);\n}\nvoid h(void) {\n L = 2;\n}\n ⇒ 3 K 1",
            "int K = 1;\nvoid f(void) {\n g(K);\n}\nvoid h(void) {\n K = 2;\n}\n ⇒ ",
            "int K = 1;\nvoid f(void) {\n g(K);\n}\nvoid h(int K) { }\n ⇒ ",
            "int K = 1;\nvoid f(void) {\n g(K);\n}\nvoid h(void) {\n g(&K);\n}\n ⇒ ",
        ],
    )
}

// A file of so many lines `aK = K`, with numbers from 0, and then `f(a7)`.
fn chain(alloc: Global, lines: u32) -> Result<String, AllocError> {
    let mut text = String::new(alloc);
    for number in 0..lines {
        write!(&mut text, "a{number} = {number}\n")?;
    }
    text.push_str("f(a7)\n")?;
    Ok(text)
}

#[test]
fn large_units_have_no_constants(rt: HostRuntime) -> Result<(), Fail> {
    let alloc = rt.alloc();
    for (lines, wanted) in [(300, "301 a7 7"), (400, "")] {
        let text = chain(alloc, lines)?;
        same(
            "a chain",
            line(alloc, text.as_str(), true)?.as_str(),
            wanted,
        )?;
    }
    Ok(())
}
