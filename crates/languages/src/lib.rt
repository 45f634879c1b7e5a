//! The languages that are read here: JSON, Python and C.
#![tactic(auto)]

mod comments;
mod patterns;
mod trees;

pub use patterns::Languages;
