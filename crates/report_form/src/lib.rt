//! What a scan finds, and the fixes that it offers.
//!
//! A report is plain data: two reports are equal in a contract exactly where their results and notices are.
#![tactic(auto)]

mod edit;
mod notice;
mod report;

pub use edit::Edit;
pub use notice::{Notice, NoticeKind};
pub use report::{Report, Reported};
