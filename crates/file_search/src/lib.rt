//! The search of one file for what patterns have in it, seen through the file's imports.
//!
//! Scans ask by the trait [`FileSearch`], so they hold for each way to answer. A [`WholeFile`] only says whether a pattern may
//! have members in the file.
#![tactic(auto)]

mod search;
mod whole;

pub use search::FileSearch;
pub use whole::WholeFile;
