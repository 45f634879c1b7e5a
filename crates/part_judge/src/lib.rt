//! One part of a rule in one file: what it finds there.
#![tactic(auto)]

mod dotted;
mod found;
mod judging;
mod outcome;
mod shared_file;

pub use found::{Found, FoundNotice};
pub use judging::judge;
pub use shared_file::SharedFile;
