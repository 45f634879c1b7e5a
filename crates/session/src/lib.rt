//! A session: files and rule files that are edited, scanned and fixed, one command after the other.
//!
//! It is a [`Workspace`]: each report is that of a fresh scan of what is there then, and a scan costs what changed since the last one.
//!
//! [`Workspace`]: workspace::Workspace
#![tactic(auto)]

mod copying;
mod fixing;
mod one_fix;
mod scan_state;
mod scanning;
mod session;

pub use one_fix::{fix_once, scan_once};
pub use session::Session;
