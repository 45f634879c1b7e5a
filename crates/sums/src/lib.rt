//! Sums, products, calls and tuples: a small language, whose reader is written by hand and proved equal to its table's reader.
//!
//! It uses each form that a table may have, and shows how a language is added: its table in `specs/Table.antt`, its functions
//! in `src/reader.rt`, what is promised of them in `src/runs.rt`.
#![tactic(auto)]

mod node;
mod reader;
mod runs;
mod token;

pub use node::{Kind, Node};
pub use reader::ReadFault;
pub use runs::{Start, read_run, read_text};
pub use token::{Token, Word};
