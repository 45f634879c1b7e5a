//! What a rule gives in a file.

use meta_bind::Finding;
use node_tree::{List, Text};

/// What a rule finds in a file, or why it doesn't look.
#[derive(Drop)]
pub enum Outcome {
    Findings(List<Finding>),
    /// A set of the rule has too many members. The numbers lead to it, in a rule that follows data after the word of a list.
    Crowded(Text),
    /// The function, or the top level, that begins there is too large.
    FlowTooLarge(u32),
}
