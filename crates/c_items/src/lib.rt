//! C's declarations and statements: from tokens to the parts of the items of a file or a block.
//!
//! The grammar is a table over the levels of expressions (`specs/Table.antt`), a row for each line of it. The crate `c_unit` reads
//! files and patterns by it.
#![tactic(auto)]

mod blocks;
mod declarations;
mod dots;
mod file;
mod functions;
mod look;
mod loops;
mod make;
mod parts;
mod settle;
mod statements;

pub use blocks::items;
pub use file::file_items;
pub use make::nodes_of;
pub use parts::expression;
