//! What a formula of a rule means in a file: the ranges that it matches, each with what the metavariables stand for there.
#![tactic(auto)]

mod all;
mod answer;
mod choice;
mod condition;
mod evaluate;
mod leaf;
mod operand;
mod part;
mod scene;
mod search;
mod set;

pub use answer::eval;
pub use member_join::EvalFault;
pub use set::MatchSet;
