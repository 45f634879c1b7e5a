//! The cells that the lines of a YAML text have: marks, keys, brackets, commas and scalars, with their columns.
//!
//! `yaml_lines` finds the lines that begin a value, and what goes on with each. Here the text of one line, with what goes
//! on with it, becomes cells: a plain or quoted scalar over several lines, a block scalar, or a flow sequence.
#![tactic(auto)]

mod block;
pub mod cell;
mod flow;
mod fold;
mod leaf;
mod quoted;
mod scalar;
mod value;
mod word;

pub use leaf::push_leaf;
pub use value::YValue;
