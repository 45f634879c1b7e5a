//! Files in which a name is told to hold a literal, and where patterns match in them.

ghost use Rattle.std.specs.Prelude.{◌≡◌, ◌<◌, ◌≤◌, length, IfOk};
ghost use Rattle.std.specs.Str.{IsUtf8};
ghost use Rattle.node_tree.specs.Spans.{SpansLieIn};
ghost use Rattle.node_tree.specs.KnownNames.{AreNames, AreInOrder};

use file_match::match_leaf;
use node_pool::NodePool;
use node_tree::{
    Bytes, FileView, Kind, Known, Lang, List, MOST_BYTES, Memory, Node, Pattern, Steps,
};
use pattern_read::read_pattern;
use py_stmt::read_module;
use std::alloc::Global;
use std::fmt::Write;
use std::marker::Brand;
use std::str;
use std::sync::ledger::{Blank, Ledger};
use std::test::Fail;
use tree_match::Leaf;

// That the name with this number holds the literal, unless it is the number of another node.
fn known_at(alloc: Global, tree: &Node, at: u32, literal: Node) -> Result<List<Known>, Memory>
    ensures names { IfOk result (AreNames tree.now) }
    ensures in_order { IfOk result AreInOrder }
{
    let mut known = List::new(alloc);
    let Some(count) = tree.count() else {
        return Err(Memory);
    };
    let mut pool = NodePool::with_room(alloc, count)?;
    pool.place(tree);
    if at < count && pool.node(at).kind == Kind::Name {
        known.push(Known { at, literal })?;
    }
    Ok(known)
}

// The file of these bytes, with this tree and these names.
fn file_of(bytes: Bytes, tree: Node, known: List<Known>) -> FileView
    requires utf8 { ∥ IsUtf8 bytes ∥₁ }
    requires small { length bytes ≤ MOST_BYTES }
    requires placed { SpansLieIn bytes tree }
    requires names { AreNames tree known }
    requires in_order { AreInOrder known }
{
    FileView {
        lang: Lang::Python,
        bytes,
        tree,
        known,
    }
}

// The file of a text in Python, in which the name with this number holds the literal.
fn view_of(alloc: Global, text: &str, at: u32, literal: Node) -> Result<FileView, Fail> {
    let bytes = Bytes::from_slice(alloc, text.as_bytes())?;
    let Ok(text) = str::from_utf8(bytes.as_slice()) else {
        return Err(Fail::new(format_args!("no UTF-8")));
    };
    if text.len() > 1_000_000 {
        return Err(Fail::new(format_args!("a long text")));
    }
    let tree = read_module(alloc, text)?;
    let known = known_at(alloc, &tree, at, literal)?;
    Ok(file_of(bytes, tree, known))
}

// Where the pattern matches in the file.
fn found<L: Ledger>(
    alloc: Global,
    blank: Blank,
    view: &FileView,
    pattern: &Pattern,
) -> Result<String, Memory>
    requires name { blank.name ≡ L.name }
    requires parts { blank.parts ≡ L.parts }
    requires some { 0 < L.parts }
{
    let mut steps = Steps::<L>::new(blank);
    let mut out = String::new(alloc);
    let Leaf::Full(set) = match_leaf(alloc, view, pattern, &mut steps)? else {
        out.push_str("crowded")?;
        return Ok(out);
    };
    for (range, _) in set.members() {
        write!(out, "{}..{} ", range.from, range.to)?;
    }
    Ok(out)
}

// Where the pattern matches in `x = "a"` and `f(x)`, if the last name holds the literal. Its node has the number 8.
fn matched(alloc: Global, pattern: &str, literal: &str) -> Result<String, Fail> {
    let pattern = read_pattern(alloc, Lang::Python, pattern)?;
    let literal = read_pattern(alloc, Lang::Python, literal)?;
    let view = view_of(alloc, "x = \"a\"\nf(x)\n", 8, literal.tree)?;
    Ok(found::<Brand>(alloc, Blank::new(1), &view, &pattern)?)
}

// What a name holds is what is told, whatever the text assigns to it.
#[test]
fn matches_names_that_hold_literals(rt: HostRuntime) -> Result<(), Fail> {
    let rows = [
        ("f(\"a\")", "\"a\"", "8..12 "),
        ("f(\"b\")", "\"b\"", "8..12 "),
        ("f(\"a\")", "\"b\"", ""),
        ("f(\"...\")", "\"b\"", "8..12 "),
        ("f(\"...\")", "1", ""),
        ("\"a\"", "\"a\"", "4..7 10..11 "),
        ("<... \"b\" ...>", "\"b\"", "8..12 10..11 "),
        ("<... <... \"b\" ...> ...>", "\"b\"", "8..12 10..11 "),
    ];
    for (pattern, literal, wanted) in rows {
        let found = matched(rt.alloc(), pattern, literal)?;
        assert_eq!(rt;
            found.as_str(),
            wanted,
            "{pattern} where it holds {literal}"
        );
    }
    Ok(())
}
