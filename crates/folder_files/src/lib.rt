//! Which files of a folder are taken.
#![tactic(auto)]

mod taken;

pub use taken::taken_under;
