//! Texts that are tested: their trees, and the lines of places in them.

use c_unit::read_unit;
use node_tree::{Node, ReadFault};
use py_stmt::read_module;
use std::alloc::Global;

/// The tree of a text in Python or in C.
pub fn root_of(alloc: Global, text: &str, python: bool) -> Result<Node, ReadFault> {
    if text.len() > 1_000_000 {
        return Err(ReadFault::NoTree);
    }
    if python {
        read_module(alloc, text)
    } else {
        read_unit(alloc, text)
    }
}

/// The line of a byte, from 1.
pub fn line_of(text: &str, at: u32) -> u32 {
    let mut line: u32 = 1;
    for byte in &text.as_bytes()[..(at as usize).min(text.len())] {
        if *byte == b'\n' {
            line = line.saturating_add(1);
        }
    }
    line
}
