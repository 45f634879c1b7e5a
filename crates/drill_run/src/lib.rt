//! The command `drill`: a large session that is made from a number, as `specs/Drilling.antt` says.
#![tactic(auto)]

mod commands;
mod drilling;
mod printing;

pub use drilling::drill;
