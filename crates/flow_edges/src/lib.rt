//! The edges of a unit, from its statements.
#![tactic(auto)]

mod around;
mod first_points;
mod own_cases;
mod own_points;
mod parts;
mod pending_jumps;
mod statement;
mod surroundings;
mod transfer;
mod traversal;
mod unit;

pub use own_points::points_each;
pub use statement::{Form, Statement};
pub use transfer::Transfer;
pub use unit::transfers;
