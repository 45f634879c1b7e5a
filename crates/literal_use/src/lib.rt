//! Whether a pattern can depend on which names are known to hold literals.
//!
//! A literal of a pattern, and `"..."`, also take a name that is known to hold one. Which names are known costs more to find
//! than a file costs to read, so callers leave it out for patterns that have no such node.
#![tactic(auto)]

mod literals;

pub use literals::uses_literals;
