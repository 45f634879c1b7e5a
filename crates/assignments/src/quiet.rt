//! Nodes below which nothing is assigned.

ghost use Rattle.std.specs.Prelude.{◌≡◌, Bool, false};
ghost use Rattle.node_pool.specs.Spots.{seen};
ghost use Rattle.assignments.specs.Assignments.{assigned_at, assigned_in, may_assign as may_assign_spec};

use crate::marks::steps;
use node_pool::Spot;
use node_tree::{Kind, Text};

// Trees with more nodes aren't looked through, so that a node is looked at a few times only, however deep it stands.
const MOST_NODES: u32 = 64;

/// Whether a node of that kind and text may assign, which depends on its kids.
pub fn may_assign(kind: Kind, text: &Text) -> bool
    ensures { result ≡ may_assign_spec kind text.now }
{
    match kind {
        Kind::Assign => true,
        Kind::AnnAssign => true,
        Kind::AugAssign => true,
        Kind::AssignE => true,
        Kind::Walrus => true,
        Kind::Var => true,
        Kind::For => true,
        Kind::WithItem => true,
        Kind::Unary => steps(text),
        Kind::Postfix => steps(text),
        Kind::Del => true,
        Kind::Alias => true,
        Kind::Handler => true,
        Kind::FunctionDef => true,
        Kind::ClassDef => true,
        Kind::FuncDef => true,
        _ => false,
    }
}

/// Whether nodes below a node may assign. In a large tree they count as such that may.
pub fn assigns_below(node: Spot<'_, '_>) -> bool
    ensures { result ≡ false → (field : Bool) →
        assigned_in field (seen node.entry) ≡ assigned_at field (seen node.entry) }
{
    let size = node.size();
    if size > MOST_NODES {
        return true;
    }
    for further in 1..size {
        let spot = node.below(further);
        if may_assign(spot.node.kind, &spot.node.text) {
            return true;
        }
    }
    false
}
