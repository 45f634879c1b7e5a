//! From bytes to files: what the bytes of a file are in a language, and which names are known in it, by a reader of the
//! languages' trees.
#![tactic(auto)]

mod naming;
mod opened;
mod reading;

pub use naming::with_names;
pub use opened::{Opened, open_file};
