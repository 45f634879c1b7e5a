//! The kids of a node with a name, and those without.

ghost use Rattle.std.specs.Prelude.{◌≡◌, IfOk};
ghost use Rattle.node_tree.specs.Numbers.{kids_at};
ghost use Rattle.node_pool.specs.Spots.{seen, all_seen};
ghost use Rattle.node_match.specs.Orders.{parted_at};

use crate::asked::is_in;
use node_pool::Spot;
use node_tree::{List, Memory};
use std::alloc::Global;

/// The kids with a name, or those without.
pub fn kids_that<'p, 't>(
    alloc: Global,
    spot: Spot<'p, 't>,
    named: bool,
) -> Result<List<Spot<'p, 't>>, Memory>
    ensures { IfOk result (λ kids. all_seen kids ≡ parted_at named (kids_at (seen spot.entry))) }
{
    let kids = spot.kids(alloc)?;
    let mut some = List::new(alloc);
    for kid in kids.as_slice() {
        if is_in(named, kid.node) {
            some.push(*kid)?;
        }
    }
    Ok(some)
}
