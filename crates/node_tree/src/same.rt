//! Equality of trees, places and all.

ghost use Rattle.std.specs.Prelude.{◌≡◌, ◌↔◌, IsTrue};

use crate::known::Known;
use crate::node::Node;
use crate::view::Pattern;

impl Node {
    /// Whether the nodes are equal in all: kind, text, kids and range, all the way down.
    pub fn same(&self, other: &Node) -> bool
        ensures { IsTrue result ↔ (self.now ≡ other.now) }
    {
        if self.kind != other.kind {
            return false;
        }
        if self.span != other.span {
            return false;
        }
        if !self.text.is_same(&other.text) {
            return false;
        }
        let kids = self.kids.as_slice();
        let others = other.kids.as_slice();
        if kids.len() != others.len() {
            return false;
        }
        for (i, kid) in kids.iter().enumerate() {
            if !kid.same(&others[i]) {
                return false;
            }
        }
        true
    }
}

impl Pattern {
    /// Whether the patterns are equal in all.
    pub fn same(&self, other: &Pattern) -> bool
        ensures { IsTrue result ↔ (self.now ≡ other.now) }
    {
        if self.lang != other.lang {
            return false;
        }
        if self.shape != other.shape {
            return false;
        }
        if self.constants != other.constants {
            return false;
        }
        self.tree.same(&other.tree)
    }
}

impl Known {
    /// Whether the number and the literal are equal.
    pub fn same(&self, other: &Known) -> bool
        ensures { IsTrue result ↔ (self.now ≡ other.now) }
    {
        if self.at != other.at {
            return false;
        }
        self.literal.same(&other.literal)
    }
}
