//! What the points of a unit assign.
#![tactic(auto)]

mod assignment;
mod declarator;
mod marks;
mod node_assignment;
mod parameter_names;
mod parts;
mod point_assignments;
mod quiet;
mod target_names;

pub use assignment::{Assignment, Manner, Reach, Target};
pub use parameter_names::parameters;
pub use point_assignments::{add_assignments, assignments};
