//! Trees as lines of text, in which tests compare them.
//!
//! A node is written as its kind, its text in round brackets where it has one, its span where spans are asked for, and its
//! kids in square brackets where it has any, as in `Root 0..4[ExprStmt 3..4[Name(a) 3..4]]`.
#![tactic(auto)]

use node_tree::{Node, ReadFault};
use std::alloc::{AllocError, Global};
use std::fmt::Write;
use std::slice;
use std::test::Fail;

/// Writes trees behind what `out` holds, with a space between two.
pub fn write_trees(out: &mut String, trees: &[Node], spans: bool) -> Result<(), AllocError> {
    for (at, node) in trees.iter().enumerate() {
        if at > 0 {
            out.push(' ')?;
        }
        write!(out, "{:?}", node.kind)?;
        if node.text.len() > 0 {
            write!(out, "({})", node.text.as_str())?;
        }
        if spans {
            write!(out, " {}..{}", node.span.from, node.span.to)?;
        }
        if !node.kids.is_empty() {
            out.push('[')?;
            write_trees(out, node.kids.as_slice(), spans)?;
            out.push(']')?;
        }
    }
    Ok(())
}

/// The line of the tree that a reader gave, or `none` where it found no tree.
pub fn tree_line(
    alloc: Global,
    tree: Result<Node, ReadFault>,
    spans: bool,
) -> Result<String, ReadFault> {
    let mut out = String::new(alloc);
    match tree {
        Ok(root) => write_trees(&mut out, slice::from_ref(&root), spans)?,
        Err(ReadFault::NoTree) => out.push_str("none")?,
        Err(ReadFault::Memory) => return Err(ReadFault::Memory),
    }
    Ok(out)
}

/// A text of pieces, each as many times as stands before it.
pub fn repeated(alloc: Global, pieces: &[(u32, &str)]) -> Result<String, AllocError> {
    let mut text = String::new(alloc);
    for (times, piece) in pieces {
        for _ in 0..*times {
            text.push_str(*piece)?;
        }
    }
    Ok(text)
}

/// The text of a row, and what is wanted of it behind ` ⇒ `.
pub fn parted(row: &str) -> (&str, &str) {
    match row.split_once(" ⇒ ") {
        Some((text, wanted)) => (text, wanted),
        None => (row, ""),
    }
}

/// Fails, and says which row it is, where what is found is not what is wanted.
pub fn same(text: &str, found: &str, wanted: &str) -> Result<(), Fail> {
    if found == wanted {
        return Ok(());
    }
    Err(Fail::new(format_args!("{text:?} gives {found}, and not {wanted}")))
}
