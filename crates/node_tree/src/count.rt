//! How many nodes a tree has.

ghost use Rattle.std.specs.Prelude.{◌≡◌, IfSome};
ghost use Rattle.node_tree.specs.Numbers.{count_of};

use crate::node::Node;

impl Node {
    /// How many nodes the tree has, this one among them, where the number fits.
    pub fn count(&self) -> Option<u32>
        ensures { IfSome result (λ count. count ≡ count_of self.now) }
    {
        let mut count: u32 = 1;
        for kid in self.kids.as_slice() {
            count = count.checked_add(kid.count()?)?;
        }
        Some(count)
    }
}
