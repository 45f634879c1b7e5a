//! The least of the shortest paths that carry a fact of a goal to its point, and what is such a path at all.
#![tactic(auto)]

mod check;
mod expand;
mod goals;
mod queue;
mod search;
mod steps;
mod turning;
mod walk;

pub use check::is_trace;
pub use search::shortest;
