//! What the names of a file are known to hold.

ghost use Rattle.node_tree.specs.KnownNames.{AreInOrder};

use node_tree::Known;

/// Names that are known to hold a literal, in order of number, each once.
#[derive(Clone, Copy)]
pub struct Constants<'c> {
    pub names: &'c [Known],
    pub ghost in_order: { AreInOrder names.now },
}
