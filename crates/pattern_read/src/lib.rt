//! From texts to patterns: which pattern a text writes, or why it writes none.
#![tactic(auto)]

mod dots;
mod read;

pub use code_reader::PatternFault;
pub use read::read_pattern;
