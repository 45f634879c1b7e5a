//! The parts of a file: in which pieces a pattern is matched, and what they have together.
//!
//! A file falls apart into its statements, and a pattern of statements is also matched in the file as a whole, for runs at its
//! top level. A file in Python is matched a second time with its imported names resolved, so that a pattern sees through imports.
//! What a pattern has in the file as it is written is the union of what it has in its parts, each moved to where it stands; what
//! it has besides with names resolved is joined to that by place (`specs/Seen.antt`).
#![tactic(auto)]

mod cut;
mod joining;
mod parts;

pub use cut::same_tree;
pub use joining::{PartLeaf, join};
pub use parts::{Part, Parts, parts_of};
