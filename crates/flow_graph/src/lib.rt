//! The control-flow graphs of a file and of its functions.
#![tactic(auto)]

mod arrange;
mod forms;
mod labels;
mod outline;
mod parts;
mod unit_graph;
mod unit_list;

pub use graph_form::{Edge, Graph, Point, Role};
pub use unit_graph::{graph_at, graph_of};
pub use unit_list::units;
