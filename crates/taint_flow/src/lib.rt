//! Which sinks of a file are hit by which source, on some path of control flow.
#![tactic(auto)]

mod apart;
mod different;
mod fault;
mod find;
mod hit;
mod least;
mod moves;
mod rule;
mod search;
mod sizes;
mod split;
mod still;
mod tables;
mod unit;

pub use fault::TaintFault;
pub use find::{taint, taint_in};
pub use hit::TaintHit;
pub use moves::UnitMoves;
pub use sizes::{Bounds, is_idle, lacks_one};
pub use tables::SetTables;
pub use taint_plan::Goal;
pub use taint_tables::{Carry, TaintSets};
pub use unit::unit_moves;
