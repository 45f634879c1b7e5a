//! Control-flow graphs as plain data.
#![tactic(auto)]

mod graph;

pub use graph::{Edge, Graph, Point, Role};
