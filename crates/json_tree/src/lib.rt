//! JSON texts, read into trees.
//!
//! [`read_json`] is proved against the tokens and the grammar of RFC 8259. The tokens are data for the crate `lexing`
//! (`specs/Tokens.antt`), each the longest at its place. The grammar is a table for the crate `grammar` (`specs/Table.antt`),
//! a row for each line of the standard. Patterns are read by the same grammar over some more tokens.
#![tactic(auto)]

mod lex;
mod limits;
mod read;
mod reader;
mod state;
mod table;
mod token;

pub use read::read_json;
pub use state::{BEFORE, IN_BLANKS, may_end, next_state};
pub use token::Word;
