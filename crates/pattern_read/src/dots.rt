//! Where `...` and `$...X` may stand.

ghost use Rattle.std.specs.Prelude.{◌≡◌, ◌↔◌, IsTrue, IfOk};
ghost use Rattle.pattern_read.specs.Dots as spec;

use node_tree::{Kind, Memory, Node};

/// Whether a node of that kind is `...` or `$...X`.
pub fn is_dots(kind: Kind) -> bool
    ensures { result ≡ spec.is_dots kind }
{
    matches!(kind, Kind::Dots | Kind::MetaDots)
}

/// Whether all of these nodes are.
pub fn are_all_dots(items: &[Node]) -> bool
    ensures { result ≡ spec.are_all_dots items.now }
{
    for item in items {
        if !is_dots(item.kind) {
            return false;
        }
    }
    true
}

fn is_named_dots(kind: Kind) -> bool
    ensures { result ≡ spec.is_named_dots kind }
{
    matches!(kind, Kind::MetaDots)
}

fn holds_items(kind: Kind) -> bool
    ensures { result ≡ spec.holds_items kind }
{
    matches!(
        kind,
        Kind::List
            | Kind::Block
            | Kind::Root
            | Kind::Tuple
            | Kind::ListLit
            | Kind::SetLit
            | Kind::DictLit
            | Kind::Array
            | Kind::Object
            | Kind::InitList
    )
}

fn has_named_dots(kids: &[Node]) -> bool
    ensures { result ≡ spec.has_named_dots kids.now }
{
    for kid in kids {
        if is_named_dots(kid.kind) {
            return true;
        }
    }
    false
}

// Whether a kid is a `$...X`, though the node holds no list of items.
fn misplaces_dots(node: &Node) -> bool
    ensures { result ≡ spec.misplaces_dots node.now }
{
    if holds_items(node.kind) {
        return false;
    }
    has_named_dots(node.kids.as_slice())
}

/// Whether each `$...X` below the node stands in a list of items.
pub fn are_dots_placed(tree: &Node) -> Result<bool, Memory>
    ensures { IfOk result (λ b. IsTrue b ↔ spec.DotsArePlaced tree.now) }
{
    for node in tree.walk()? {
        if misplaces_dots(node) {
            return Ok(false);
        }
    }
    Ok(true)
}
