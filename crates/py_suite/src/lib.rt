//! Python's statements: from tokens to the trees of the statements of a file.
//!
//! The grammar is a table over the levels of expressions (`specs/Table.antt`), a row for each line of it. The crate `py_stmt`
//! reads modules and patterns by it.
#![tactic(auto)]

mod annotated;
mod blocks;
mod build;
mod compound;
mod definitions;
mod expression;
mod file;
mod imports;
mod items;
mod line;
mod look;
mod series;
mod simple;

pub use build::plain;
pub use file::file_input;
