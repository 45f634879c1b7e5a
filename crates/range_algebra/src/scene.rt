//! What a formula is looked at in.

use node_tree::{FileView, List};
use rx_text::Rx;
use tree_match::Leaf;

/// A file, and by number the members of each pattern in it and the regular expressions of the rule.
#[derive(Clone, Copy)]
pub struct Scene<'t> {
    pub view: &'t FileView,
    pub leaves: &'t List<Leaf>,
    pub rx: &'t List<Rx>,
}
