//! What units do to their names, by the numbers of names and literals, and what the names hold at the entries of units.
#![tactic(auto)]

mod effects;
mod entry;
mod firsts;
mod fixed;

pub use effects::Tables;
pub use entry::{Entry, Function, enter_function, still_open};
pub use fixed::Fixed;
