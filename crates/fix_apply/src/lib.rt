//! The fixes of a report: which of them are taken, and what they make of a file.
//!
//! Where the ranges of two fixes share a byte, the one that stands first in the report is taken (`specs/Choices.antt`).
#![tactic(auto)]

mod applying;
mod choosing;
mod fixed;

pub use applying::apply;
pub use choosing::choose;
pub use fixed::{FixReport, FixedFile};
