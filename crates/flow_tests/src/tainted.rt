//! Which sinks are hit by which sources.
//!
//! What is called in a row says what a call is: `src` and `get` give a source, `sink` and `execute` a sink, `clean` a sanitizer, `dirty` a source that is
//! cleaned as well, and `a.add(b)` carries from b to a. A parameter `tainted` is a source. A hit is written as the range of the sink and that of the source.

use crate::source::root_of;
use node_tree::{Kind, List, Memory, Node, ReadFault, Span};
use shown::{parted, same};
use std::alloc::{AllocError, Global};
use std::fmt::Write;
use std::test::Fail;
use taint_flow::{Carry, TaintFault, TaintSets, taint};

// The name of what a call calls: that of a function or of an attribute.
fn called(node: &Node) -> &str {
    match node.kind {
        Kind::Name => node.text.as_str(),
        Kind::Attr => match node.kids.as_slice().get(1) {
            Some(name) => name.text.as_str(),
            None => "",
        },
        _ => "",
    }
}

// Adds the carry that a call is.
fn add_carry(sets: &mut TaintSets, call: &Node) -> Result<(), Memory> {
    let kids = call.kids.as_slice();
    if kids.len() < 2 {
        return Ok(());
    }
    let Some(target) = kids[0].kids.as_slice().get(0) else {
        return Ok(());
    };
    let Some(source) = kids[1].kids.as_slice().get(0) else {
        return Ok(());
    };
    sets.carries.push(Carry {
        range: call.span,
        source: source.span,
        target: target.span,
    })
}

// Adds what a call is.
fn add_call(sets: &mut TaintSets, call: &Node) -> Result<(), Memory> {
    let Some(callee) = call.kids.as_slice().get(0) else {
        return Ok(());
    };
    let name = called(callee);
    if name == "src" || name == "get" || name == "dirty" {
        sets.sources.push(call.span)?;
    }
    if name == "sink" || name == "execute" {
        sets.sinks.push(call.span)?;
    }
    if name == "clean" || name == "dirty" {
        sets.sanitizers.push(call.span)?;
    }
    if name == "add" {
        add_carry(sets, call)?;
    }
    Ok(())
}

/// The sets that the calls and the parameters of a tree make.
pub fn sets_of(alloc: Global, root: &Node) -> Result<TaintSets, Memory> {
    let mut sets = TaintSets {
        sources: List::new(alloc),
        sinks: List::new(alloc),
        sanitizers: List::new(alloc),
        carries: List::new(alloc),
    };
    let mut walk = root.walk()?;
    while let Some(node) = walk.next() {
        if node.kind == Kind::Call {
            add_call(&mut sets, node)?;
        }
        if node.kind == Kind::Id && node.text.as_str() == "tainted" {
            sets.sources.push(node.span)?;
        }
    }
    Ok(sets)
}

// Writes a span.
fn write_span(out: &mut String, span: Span) -> Result<(), AllocError> {
    write!(out, "{}..{}", span.from, span.to)
}

// The hits of a tree with these sets, as text.
fn hits_of(alloc: Global, root: &Node, sets: &TaintSets) -> Result<String, Memory> {
    let mut out = String::new(alloc);
    match taint(alloc, root, sets) {
        Ok(hits) => {
            for hit in hits.as_slice() {
                if out.len() > 0 {
                    out.push_str("; ")?;
                }
                if let Some(sink) = sets.sinks.get(hit.sink as usize) {
                    write_span(&mut out, *sink)?;
                }
                out.push(' ')?;
                write_span(&mut out, hit.source)?;
            }
        }
        Err(TaintFault::TooLarge(at)) => write!(out, "too large {at}")?,
        Err(TaintFault::Memory) => return Err(Memory),
    }
    Ok(out)
}

// Fails where the hits of one of the rows are not those that stand behind its text.
fn check(alloc: Global, python: bool, rows: &[&str]) -> Result<(), Fail> {
    for row in rows {
        let (text, wanted) = parted(*row);
        let root = root_of(alloc, text, python)?;
        let sets = sets_of(alloc, &root)?;
        let found = hits_of(alloc, &root, &sets)?;
        same(text, found.as_str(), wanted)?;
    }
    Ok(())
}

#[test]
fn hits_in_python(rt: HostRuntime) -> Result<(), Fail> {
    check(
        rt.alloc(),
        true,
        &[
            "def f(req):\n    u = req.args.get(\"u\")\n    if ok:\n        u = clean(u)\n    cur.execute(u)\n ⇒ 74..88 20..37",
            "def f(req):\n    u = req.args.get(\"u\")\n    if ok:\n        u = clean(u)\n    else:\n        u = clean(u)\n    cur.execute(u)\n ⇒ ",
            "def f(req):\n    a = 0\n    while go():\n        cur.execute(a)\n        a = req.args.get(\"u\")\n ⇒ 46..60 73..90",
            "u = src()\na.add(u)\nsink(a)\n ⇒ 19..26 4..9",
            "u = src()\na.bad(u)\nsink(a)\n ⇒ ",
            "x = f(sink(src()))\n ⇒ 6..17 11..16",
            "f(x := src(), sink(x))\nsink(x)\n ⇒ 23..30 7..12",
            "sink(dirty())\n ⇒ ",
            "sink(clean(src()))\n ⇒ ",
            "u = src()\nsink(lambda: u)\n ⇒ ",
            "u = src()\nu += 1\nsink(u)\n ⇒ 17..24 4..9",
            "u = src()\nu = 1\nsink(u)\n ⇒ ",
            "a = {}\na[0] = src()\na = a\na[0] = 1\nsink(a)\n ⇒ 35..42 14..19",
            "sink(x := src())\nsink(x)\n ⇒ 0..16 10..15; 17..24 10..15",
            "a, b = src()\nsink(b)\ndel b[0], b\nsink(b)\n ⇒ 13..20 7..12",
            "def f(tainted, b):\n sink(tainted)\n sink(b)\n ⇒ 20..33 6..13",
            "u = src()\ntry:\n u = 1\nexcept E:\n sink(u)\n ⇒ ",
            "for x in src():\n sink(x)\nwith src() as y:\n sink(y)\n ⇒ 17..24 9..14; 43..50 30..35",
            "def f():\n return\n u = src()\n sink(u)\n ⇒ ",
            "a = src()\nb = src()\nc = b + a\nsink(c)\n ⇒ 30..37 4..9",
        ],
    )
}

#[test]
fn hits_in_c(rt: HostRuntime) -> Result<(), Fail> {
    check(
        rt.alloc(),
        false,
        &[
            "void f(int tainted) {\n int a = tainted, b = a;\n a = 0;\n sink(b);\n sink(a);\n}\n ⇒ 56..63 11..18",
            "void f(char *p) {\n *p = src();\n p++;\n sink(p);\n p = x;\n sink(p);\n}\n ⇒ 38..45 24..29",
        ],
    )
}

// So many names that are tainted each by a source of its own, and then a sink of one of them.
fn many(alloc: Global, names: u32) -> Result<String, AllocError> {
    let mut text = String::new(alloc);
    for name in 0..names {
        write!(text, "a{name} = src()\n")?;
    }
    text.push_str("sink(a7)\n")?;
    Ok(text)
}

#[test]
fn too_large(rt: HostRuntime) -> Result<(), Fail> {
    let alloc = rt.alloc();
    for (names, wanted) in [(300, "3790..3798 82..87"), (400, "too large 0")] {
        let text = many(alloc, names)?;
        let root = root_of(alloc, text.as_str(), true)?;
        let sets = sets_of(alloc, &root)?;
        let found = hits_of(alloc, &root, &sets)?;
        same(text.as_str(), found.as_str(), wanted)?;
    }
    Ok(())
}
