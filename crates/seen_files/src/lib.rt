//! What a session has seen of its files at its last scan: each file as it was opened, with what the rules found in it, and the
//! leaves of the pairs of a piece and a pattern that the rules needed.
//!
//! When the files are seen again, a file that stays isn't opened again, and no pattern is matched again in a piece that stays
//! (`specs/Spends.antt`). Trees are kept as bytes, and become trees again only where other rules look at their files.
#![tactic(auto)]

mod adding;
mod finding;
mod found_file;
mod looking;
mod merging;
mod more_rules;
mod one_scan;
mod packing;
mod seeing;
mod seen;
mod walk;

pub use found_file::FoundFile;
pub use one_scan::find_fresh;
pub use seen::{SeenFile, SeenFiles};
