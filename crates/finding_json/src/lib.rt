//! Reports as lines of JSON.
//!
//! What a report says is a JSON value (`specs/Reports.antt`), and its line is the compact text of that value. No such value is
//! built: its members go to the writer one by one.
#![tactic(auto)]

mod fixes;
mod parts;
mod report;
mod traces;

pub use fix_apply::{FixReport, FixedFile};
pub use fixes::fix_text;
pub use report::report_text;
pub use report_form::{Notice, NoticeKind, Report, Reported};
