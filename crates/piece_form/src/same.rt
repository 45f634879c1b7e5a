//! Equality of pieces.

ghost use Rattle.std.specs.Prelude.{◌≡◌, ◌↔◌, IsTrue};
ghost use Rattle.piece_form.specs.Identity.{IsSamePiece, known_content, known_contents};

use crate::piece::Piece;
use node_tree::Known;

// Whether the same number is known to hold the same literal, wherever that stands.
fn same_one(a: &Known, b: &Known) -> bool
    ensures { IsTrue result ↔ (known_content a.now ≡ known_content b.now) }
{
    if a.at != b.at {
        return false;
    }
    a.literal.same_content(&b.literal)
}

// Whether the same numbers are known to hold the same literals, wherever these stand.
fn same_known(a: &[Known], b: &[Known]) -> bool
    ensures { IsTrue result ↔ (known_contents a.now ≡ known_contents b.now) }
{
    if a.len() != b.len() {
        return false;
    }
    for (i, one) in a.iter().enumerate() {
        if !same_one(one, &b[i]) {
            return false;
        }
    }
    true
}

impl Piece {
    /// Whether the pieces are the same: language, bytes, tree with places, and known names with the contents of their literals.
    pub fn same(&self, other: &Piece) -> bool
        ensures { IsTrue result ↔ IsSamePiece self.now other.now }
    {
        if self.lang != other.lang {
            return false;
        }
        if self.bytes.as_slice() != other.bytes.as_slice() {
            return false;
        }
        if !self.tree.same(&other.tree) {
            return false;
        }
        same_known(self.known.as_slice(), other.known.as_slice())
    }
}
