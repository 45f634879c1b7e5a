//! The literals of a pattern.

ghost use Rattle.std.specs.Prelude.{◌≡◌, false};
ghost use Rattle.literal_use.specs.Literals.{takes_names as takes, has_literal as has, uses_literals as uses, MembersNeedNoNames, LeavesNeedNoNames};

use node_tree::{Kind, Node, Pattern};

// Whether a pattern node of that kind is a literal or `"..."`.
fn takes_names(kind: Kind) -> bool
    ensures { result ≡ takes kind }
{
    match kind {
        Kind::StrAny => true,
        literal => literal.is_literal(),
    }
}

// Whether some node of the pattern is a literal or `"..."`.
fn has_literal(pattern: &Node) -> bool
    ensures { result ≡ has pattern.now }
{
    if takes_names(pattern.kind) {
        return true;
    }
    for kid in pattern.kids.as_slice() {
        if has_literal(kid) {
            return true;
        }
    }
    false
}

/// Whether the pattern may take names that are known to hold literals: it knows of constants, and has a literal or `"..."`.
/// Where it may not, no known names need to be found for it: what it has in a file is the same without them.
pub fn uses_literals(pattern: &Pattern) -> bool
    ensures exact { result ≡ uses pattern.now }
    ensures members { result ≡ false → MembersNeedNoNames pattern.now }
    ensures leaves { result ≡ false → LeavesNeedNoNames pattern.now }
{
    pattern.constants && has_literal(&pattern.tree)
}
