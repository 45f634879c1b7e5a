//! How a run of the program ends.
#![tactic(auto)]

mod status;

pub use file_map::LimitKind;
pub use status::Status;
