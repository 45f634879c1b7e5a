//! The words `scan` and `fix`: what rules find in the files of a folder, and what the fixes of rules make of them.
#![tactic(auto)]

mod fixing;
mod scanning;
mod taking;
mod writing;

pub use fixing::fix_folder;
pub use scanning::scan_folder;
