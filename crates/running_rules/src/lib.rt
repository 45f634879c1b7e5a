//! The rules that run, and what there is to be said of rule files.
//!
//! The texts of all good rules are decided first. A rule whose id an earlier one has does not run, nor does one with a text that is
//! refused. The notices are gathered as they come, and put in order at the end of a scan.
#![tactic(auto)]

mod note;
mod runner;
mod running;

pub use note::{Noted, add_notice, in_order};
pub use runner::{Runner, rule_at};
pub use running::take_files;
