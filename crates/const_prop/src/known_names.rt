//! What is known of the names of a file.

ghost use Rattle.std.specs.Prelude.{◌≡◌, List as list, IfOk};
ghost use Rattle.node_tree.specs.KnownNames.{AreNames, AreInOrder};
ghost use Rattle.node_tree.specs.declared.known.Known.{Known as a_known};
ghost use Rattle.const_prop.specs.Constants.{AreConstants};

use crate::scopes::sightings_of;
use crate::settling::settle;
use node_tree::{Known, List, Memory, Node};
use point_nodes::IndexedTree;
use std::alloc::Global;
use unit_names::scopes_in;

/// The names of a file that are known to hold a literal wherever they stand, in order of number, each once. The literal has
/// its kind and text, and no place.
pub fn constants(alloc: Global, root: &Node) -> Result<List<Known>, Memory>
    ensures constants { IfOk result (AreConstants root.now) }
    ensures only { (l : list a_known) → AreConstants root.now l → IfOk result (λ found. found ≡ l) }
    ensures names { IfOk result (AreNames root.now) }
    ensures in_order { IfOk result AreInOrder }
{
    let tree = IndexedTree::of(alloc, root)?;
    let scopes = scopes_in(&tree, root)?;
    let sightings = sightings_of(alloc, root, &tree, scopes.as_slice())?;
    let known = settle(alloc, &tree, tree.count(), &sightings)?;
    Ok(known)
}
