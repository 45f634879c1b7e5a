//! Tables for the search of taint: what a rule looks for, and what a unit has, by number and by where it stands.
#![tactic(auto)]

mod carry_index;
mod census;
mod counting;
mod facts;
mod hull;
mod places;
mod sets;
mod sink;
mod sink_index;

pub use carry_index::CarryIndex;
pub use census::Census;
pub use counting::census_of;
pub use facts::{Look, push_all};
pub use hull::Hull;
pub use places::Places;
pub use sets::{Carry, TaintSets};
pub use sink::Sink;
pub use sink_index::SinkIndex;
