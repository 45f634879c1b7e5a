//! Whether a pattern matches at all.

ghost use Rattle.std.specs.Prelude.{◌≡◌, ◌↔◌, IfOk, IsTrue};
ghost use Rattle.node_tree.specs.Tree.{kind_of};
ghost use Rattle.node_tree.specs.Numbers.{Numbered as numbered};
ghost use Rattle.node_pool.specs.Spots.{seen};
ghost use Rattle.node_search.specs.Steady.{IsMatched};

use crate::search::relate_kid;
use meta_bind::Trail;
use node_match::Constants;
use node_pool::Spot;
use node_tree::{Kind, List, Memory, Node};
use std::alloc::Global;

/// Whether the pattern matches a kid of a holder of that kind with this binding.
pub fn is_matched<'t>(
    alloc: Global,
    known: Constants<'_>,
    pattern: &'t Node,
    holder: Kind,
    spot: Spot<'_, 't>,
    trail: &Trail<'t>,
) -> Result<bool, Memory>
    ensures { IfOk result (λ is. (h : numbered) → kind_of h.node ≡ holder → IsTrue is ↔ IsMatched known.entry.names.now h pattern.now (seen spot.entry) trail.now) }
{
    let mut found = List::new(alloc);
    relate_kid(alloc, known, pattern, holder, spot, trail, &mut found)?;
    if found.is_empty() {
        return Ok(false);
    }
    Ok(true)
}
