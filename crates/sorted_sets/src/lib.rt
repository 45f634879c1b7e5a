//! Sets as lists: items in order, each once.
#![tactic(auto)]

mod member;
mod order;

pub use member::Member;
pub use order::{Ordered, settled};
