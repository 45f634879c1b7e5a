//! Trees that are kept as bytes.
#![tactic(auto)]

mod packed;

pub use packed::PackedTree;
