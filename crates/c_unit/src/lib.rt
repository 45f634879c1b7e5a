//! C's files and patterns: from a text to its tree, and from a pattern to its shape and tree.
#![tactic(auto)]

mod pattern;
mod unit;
mod whole;

pub use pattern::read_c_pattern;
pub use unit::read_unit;
