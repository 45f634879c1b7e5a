//! Comments that quiet findings.
//!
//! A comment that begins with `nosemgrep` quiets the rules that it names, or all where it names none, on its own line and on
//! the next (`specs/Quieting.antt`). This crate is given where the comments of a text are, and knows no language.
#![tactic(auto)]

mod comment;
mod ids;
mod line;
mod quiet;
mod words;

pub use line::{QuietLines, is_quieted, quiet_lines};
pub use quiet::{Quiet, quiets};
