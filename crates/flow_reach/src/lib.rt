//! Which facts are carried to which points of a control-flow graph.
#![tactic(auto)]

mod added;
mod ask;
pub mod bits;
mod dropped;
mod fault;
mod fitting;
mod moves;
mod pairs;
mod reached;
mod ready;
mod search;
mod spread;
mod successor_table;
mod turning;
mod worklist;

pub use fault::ReachFault;
pub use fitting::{fits, inside};
pub use moves::{Move, Moves};
pub use pairs::{only_seconds, seconds, sorted_pairs};
pub use reached::Reached;
pub use ready::Ready;
pub use search::{prepare, reach, reach_from};
pub use successor_table::successors;
pub use turning::turn;
