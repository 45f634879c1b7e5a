//! The order of contents, and lists of nodes with the same contents.

ghost use Rattle.std.specs.Prelude.{◌≡◌, ◌↔◌, map, IsTrue};
ghost use Rattle.std.specs.Cmp.Lexicographic.{slice_cmp};
ghost use Rattle.node_tree.specs.Tree.{content_of};
ghost use Rattle.node_tree.specs.Order.{node_cmp};

use crate::node::Node;
use std::cmp::Ordering;

impl Node {
    /// Which of two contents comes first: by kind, then text, then kids.
    #[cycle(order)]
    pub fn order(&self, other: &Node) -> Ordering
        ensures { result ≡ node_cmp (content_of self.now) (content_of other.now) }
    {
        match self
            .kind
            .content()
            .place()
            .cmp(&other.kind.content().place())
        {
            Ordering::Less => return Ordering::Less,
            Ordering::Greater => return Ordering::Greater,
            Ordering::Equal => {}
        }
        match self.text.as_str().cmp(other.text.as_str()) {
            Ordering::Less => return Ordering::Less,
            Ordering::Greater => return Ordering::Greater,
            Ordering::Equal => {}
        }
        order_all(self.kids.as_slice(), other.kids.as_slice())
    }
}

/// Which of two lists of contents comes first: by the first place where they differ, and a front before the longer list.
#[cycle(order)]
pub fn order_all(a: &[Node], b: &[Node]) -> Ordering
    ensures { result ≡ slice_cmp node_cmp (map content_of a.now) (map content_of b.now) }
{
    for (i, node) in a.iter().enumerate() {
        if b.len() <= i {
            return Ordering::Greater;
        }
        match node.order(&b[i]) {
            Ordering::Less => return Ordering::Less,
            Ordering::Greater => return Ordering::Greater,
            Ordering::Equal => {}
        }
    }
    if a.len() < b.len() {
        Ordering::Less
    } else {
        Ordering::Equal
    }
}

/// Whether two lists of nodes have the same contents in the same order.
pub fn same_all(a: &[Node], b: &[Node]) -> bool
    ensures { IsTrue result ↔ (map content_of a.now ≡ map content_of b.now) }
{
    if a.len() != b.len() {
        return false;
    }
    for (i, node) in a.iter().enumerate() {
        if !node.same_content(&b[i]) {
            return false;
        }
    }
    true
}
