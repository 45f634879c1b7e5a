//! Files that fall apart into pieces.

ghost use Rattle.std.specs.Prelude.{◌≡◌, IfOk};
ghost use Rattle.node_tree.specs.Tree.{kind_of};
ghost use Rattle.piece_match.specs.Pieces.{is_root as is_file, begins_first as begins, stands_alone as alone, falls_apart as apart};

use node_tree::{Kind, Memory, Node};

/// Whether it is the kind of a whole file.
pub fn is_root(kind: Kind) -> bool
    ensures { result ≡ is_file kind }
{
    match kind {
        Kind::Root => true,
        _ => false,
    }
}

// Whether no node of the tree begins before the tree does.
fn begins_first(tree: &Node) -> Result<bool, Memory>
    ensures { IfOk result (λ first. first ≡ begins tree.now) }
{
    for node in tree.walk()? {
        if node.span.from < tree.span.from {
            return Ok(false);
        }
    }
    Ok(true)
}

// Whether the tree can be a piece by itself.
fn stands_alone(tree: &Node) -> Result<bool, Memory>
    ensures { IfOk result (λ stands. stands ≡ alone tree.now) }
{
    if is_root(tree.kind) {
        return Ok(false);
    }
    begins_first(tree)
}

/// Whether each statement of the file can be a piece by itself. So it is of each file that the readers of languages read.
pub fn falls_apart(tree: &Node) -> Result<bool, Memory>
    ensures { IfOk result (λ falls. falls ≡ apart tree.now) }
{
    if !is_root(tree.kind) {
        return Ok(false);
    }
    for kid in tree.kids.as_slice() {
        if !stands_alone(kid)? {
            return Ok(false);
        }
    }
    Ok(true)
}
