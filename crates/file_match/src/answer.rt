//! The search of a file.

ghost use Rattle.std.specs.Prelude.{◌≡◌, ◌+◌, [], if◌then◌else◌, IfOk};
ghost use Rattle.node_pool.specs.Spots.{seen};
ghost use Rattle.tree_match.specs.Members.{MemberOf, IsMember, MemberUnder, known_to as known_for, known_tree};
ghost use Rattle.tree_match.specs.Leaf.{IsLeaf};
ghost use Rattle.tree_match.specs.Starts.{kinds_at};
ghost use Rattle.tree_match.specs.Placed.{IsLeafPlaced};

use crate::ready::{pool_of, root_in};
use node_match::Constants;
use node_pool::Spot;
use node_tree::{FileView, Memory, Node, Pattern, Shape, Steps};
use std::alloc::Global;
use std::sync::ledger::Ledger;
use tree_match::{Leaf, keep_all, kinds_of, members_of};

/// The members below a node for a pattern of this shape. The kinds are those of the nodes.
pub fn leaf_under<'t>(
    alloc: Global,
    known: Constants<'_>,
    shape: Shape,
    pattern: &'t Node,
    root: Spot<'_, 't>,
    kinds: &[u8],
) -> Result<Leaf, Memory>
    requires { kinds.now ≡ kinds_at (seen root) }
    ensures { IfOk result (λ leaf. IsLeaf (MemberUnder known.entry.names.now shape pattern.now (seen root.entry)) leaf) }
{
    match members_of(alloc, known, shape, pattern, root, kinds)? {
        None => Ok(Leaf::Crowded),
        Some(members) => Ok(Leaf::Full(keep_all(alloc, members.as_slice())?)),
    }
}

// The members in a tree for a pattern of this shape, where these names are known to hold literals.
fn leaf_of(
    alloc: Global,
    known: Constants<'_>,
    shape: Shape,
    pattern: &Node,
    tree: &Node,
) -> Result<Leaf, Memory>
    ensures { IfOk result (λ leaf. IsLeaf (MemberOf known.entry.names.now shape pattern.now tree.now) leaf) }
{
    let pool = pool_of(alloc, tree)?;
    let root = root_in(&pool);
    let kinds = kinds_of(alloc, root)?;
    let leaf = leaf_under(alloc, known, shape, pattern, root, kinds.as_slice())?;
    Ok(leaf)
}

/// The constants that a pattern knows of.
pub fn known_to<'v>(pattern: &Pattern, known: Constants<'v>) -> Constants<'v>
    ensures { result.names.now ≡ known_for pattern.now known.entry.names.now }
{
    if pattern.constants {
        return known;
    }
    Constants { names: &[] }
}

// The names that a file is known to hold literals by.
fn constants_of<'v>(view: &'v FileView) -> Constants<'v>
    ensures { result.names.now ≡ view.now.known }
{
    Constants {
        names: view.known.as_slice(),
    }
}

/// The members of the pattern in the file. For an expression they are the range of each node that the pattern matches, with
/// each binding that it takes the empty one to there; a pattern that is one metavariable matches expressions alone. For a
/// run they are the range of each run of at least one statement of a block that the patterns match in order, likewise.
/// Where `constants` is true, a literal also matches a name of the file that is known to hold the same, and `"..."` one that
/// is known to hold a string. The ends of each range and of what is bound cut no character of the file. It is one step.
pub fn match_leaf<L: Ledger>(
    alloc: Global,
    view: &FileView,
    pattern: &Pattern,
    steps: &mut Steps<L>,
) -> Result<Leaf, Memory>
    ensures exact { IfOk result (λ leaf. IsLeaf (IsMember pattern.now (known_tree view.now)) leaf) }
    ensures placed { IfOk result (λ leaf. IsLeafPlaced view.now.bytes leaf) }
    ensures cost { steps.new ≡ steps.old + 1 }
{
    steps.tick();
    let known = known_to(pattern, constants_of(view));
    leaf_of(alloc, known, pattern.shape, &pattern.tree, &view.tree)
}
