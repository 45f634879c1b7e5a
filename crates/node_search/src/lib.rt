//! The search for what metavariables stand for where a pattern matches a node, or a list of patterns the kids of one.
#![tactic(auto)]

mod choice;
mod holder;
mod innermost;
mod list;
mod matched;
mod search;
mod state;
mod steady;
mod taken;

pub use choice::Choice;
pub use holder::Holder;
pub use list::{alone, count_kids, enter, finish, part_of, place, put, span_of_run};
pub use matched::is_matched;
pub use search::{choose, choose_kids, relate, step_at, step_unnamed};
pub use state::State;
pub use steady::{are_steady, is_steady};
pub use taken::mark;
