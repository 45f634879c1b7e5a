//! Which nodes of a tree belong to which points of its units.
#![tactic(auto)]

mod belonging;
mod indexed;

pub use belonging::{holds_statements, nodes, tops};
pub use indexed::IndexedTree;
