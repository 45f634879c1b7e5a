//! Python's modules and patterns: from a text to the tree of its module, and to the pattern that it is.
#![tactic(auto)]

mod laws;
mod module;
mod pattern;
mod whole;

pub use laws::braces_are_lines;
pub use module::read_module;
pub use pattern::read_py_pattern;
