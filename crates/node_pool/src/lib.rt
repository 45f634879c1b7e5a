//! Trees in a pool: their nodes in preorder, each with the number of nodes of its tree, so that a node is named by a number.
#![tactic(auto)]

mod kids;
mod near;
mod pool;
mod put;
mod runs;
mod spot;
mod walk;

pub use kids::PoolKids;
pub use near::spot_at;
pub use pool::NodePool;
pub use runs::PoolRuns;
pub use spot::Spot;
pub use walk::PoolWalk;
