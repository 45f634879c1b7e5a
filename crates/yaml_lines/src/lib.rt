//! The lines of a YAML text, in a profile without anchors, aliases, tags, flow mappings, complex keys, directives and
//! further documents.
//!
//! A line that begins a value is read into a [`YLine`] together with the lines that go on with that value. What the values
//! are, and whether they fit one another, is not asked here.
#![tactic(auto)]

mod body;
pub mod escape;
mod fault;
mod feature;
pub mod head;
pub mod key;
mod line;
mod read;
pub mod scan;

pub use fault::{Feature, YFault};
pub use line::YLine;
pub use read::{Head, lines, past_order_mark, read_head};
