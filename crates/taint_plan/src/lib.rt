//! What the points of a unit do to the facts of a rule that follows data, where these begin, and where they hit.
#![tactic(auto)]

mod carrying;
mod goal;
mod goals;
mod plan;
mod rows;

pub use goal::Goal;
pub use plan::{Plan, counted, plan_of};
