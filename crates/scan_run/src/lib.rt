//! The top call: from the words, the input and the folder to the lines on the output. `specs/Run.antt` defines what a run is.
#![tactic(auto)]

mod checking;
mod entry;
mod input;
mod matching;
mod output;
mod serving;

pub use entry::run;
pub use run_status::{LimitKind, Status};
