//! Whether two values are equal.

ghost use Rattle.std.specs.Prelude.{◌≡◌, ◌↔◌, IsTrue};

use node_tree::{List, Pattern, Text};

/// Values that can be told apart.
pub trait Same {
    /// Whether the two values are equal.
    fn same(&self, other: &Self) -> bool
        ensures { IsTrue result ↔ (self.now ≡ other.now) };
}

/// Whether the items are equal, in the same order.
pub fn same_all<T: Same>(a: &[T], b: &[T]) -> bool
    ensures { IsTrue result ↔ (a.now ≡ b.now) }
{
    if a.len() != b.len() {
        return false;
    }
    for (i, item) in a.iter().enumerate() {
        if !item.same(&b[i]) {
            return false;
        }
    }
    true
}

impl<T: Same> Same for List<T> {
    fn same(&self, other: &List<T>) -> bool {
        same_all(self.as_slice(), other.as_slice())
    }
}

impl<T: Same> Same for Option<T> {
    fn same(&self, other: &Option<T>) -> bool {
        match (self, other) {
            (Some(a), Some(b)) => a.same(b),
            (None, None) => true,
            _ => false,
        }
    }
}

impl Same for Text {
    fn same(&self, other: &Text) -> bool {
        self.is_same(other)
    }
}

impl Same for Pattern {
    fn same(&self, other: &Pattern) -> bool {
        Pattern::same(self, other)
    }
}
