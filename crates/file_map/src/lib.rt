//! The files of a session by path, put one by one or taken over from a folder, within the limits on their number and their bytes.
#![tactic(auto)]

mod fault;
mod file_map;
mod limit;
mod replace;
mod sync;

pub use fault::{PutFault, SyncFault};
pub use file_map::FileMap;
pub use limit::LimitKind;
