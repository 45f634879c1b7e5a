//! The members of a pattern in a file or a tree. For many patterns a tree is made ready once, and a file tells which it may have.
#![tactic(auto)]

mod answer;
mod pattern;
mod ready;
mod tree;
mod words;

pub use answer::match_leaf;
pub use pattern::ReadyPattern;
pub use ready::ReadyFile;
pub use tree::{ReadyTree, match_own_runs, match_tree};
