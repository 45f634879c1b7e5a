//! The value of a YAML text, in a profile without anchors, aliases, tags, flow mappings, complex keys, directives and
//! further documents.
//!
//! A text is read in three steps. `yaml_lines` finds the lines that begin a value, and what goes on with each. Each
//! scalar is read, so that a text becomes a list of cells (`yaml_cells`): marks, keys, brackets, commas and scalars, with
//! their columns. The cells are built into one value.
#![tactic(auto)]

mod build;
mod read;

pub use read::read_yaml;
pub use yaml_cells::YValue;
