//! What a workspace is: files and rule files that are put, taken away, scanned and fixed, one command after the other.
//!
//! Each report is that of a fresh scan of what is there then (`specs/Reports.antt`), whatever a workspace keeps from one scan to
//! the next.
#![tactic(auto)]

mod fault;
mod workspace;

pub use fault::FixFault;
pub use scan_session::ScanFault;
pub use workspace::Workspace;
