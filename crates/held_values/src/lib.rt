//! Which names hold which literals at which points of a control-flow graph.
#![tactic(auto)]

mod ask;
mod assign;
mod held;
mod index;
mod merged;
mod merging;
mod propagation;
mod slots;
mod spread;
mod targets;

pub use assign::{Assign, Effects, Source};
pub use flow_reach::ReachFault;
pub use held::HeldValues;
pub use propagation::propagate;
