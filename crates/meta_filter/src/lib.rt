//! Conditions on what the metavariables of a pattern stand for.
#![tactic(auto)]

mod arithmetic;
mod bound_text;
mod fault;
mod holds;
mod layer;
mod lex;
mod numeral;
mod part;
mod read;
mod reader;
mod table;
mod token;

pub use bound_text::holds_regex;
pub use fault::CompareFault;
pub use holds::holds_comparison;
pub use read::read_comparison;
