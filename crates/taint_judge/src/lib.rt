//! Rules that follow data in one file: from their sources to their sinks.
#![tactic(auto)]

mod fault;
mod flow_tree;
mod following;
mod formulas;
mod gather;
mod list;
mod members;
mod sets;
mod shared_flow;

pub use fault::FollowFault;
pub use flow_tree::FlowTree;
pub use following::follow;
pub use list::RuleList;
pub use sets::{RuleSets, sets_of};
pub use shared_flow::SharedFlow;
