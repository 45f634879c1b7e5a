//! What taint is made of: the expressions in a node that take part, the numbers of names and spans, and what the nodes of a point do
//! together.
#![tactic(auto)]

mod base;
mod exposed;
mod origins;
mod span_set;
mod table;

pub use base::{base_of, is_name};
pub use exposed::{add_exposed, add_outermost};
pub use origins::{Aim, Origins, ordered};
pub use span_set::SpanSet;
pub use table::Table;
