//! Paths of files, the language that a path's ending names, and globs.
//!
//! A path is a text of segments with slashes between them. Nothing here takes memory.
#![tactic(auto)]

mod front;
mod glob;
mod name;
mod path;
mod segments;

pub use glob::matches;
pub use path::{has_hidden, lang_of, path_ok};
