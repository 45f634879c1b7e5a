//! The nodes that are taken in a choice, and its end.

ghost use Rattle.std.specs.Prelude.{◌≡◌, ◌↔◌, ◌<◌, [], length, slice_set, OnOk, IsTrue};
ghost use Rattle.node_pool.specs.Spots.{all_seen};
ghost use Rattle.node_match.specs.Sets.{Adds};
ghost use Rattle.node_match.specs.Choices.{untaken, Chosen, all_taken as all};

use crate::choice::Choice;
use crate::list::put_trail;
use meta_bind::Trail;
use node_tree::{List, Memory};

// Whether each node is taken.
fn all_taken(taken: &[bool]) -> bool
    ensures { IsTrue result ↔ all taken.now }
{
    for one in taken {
        if !*one {
            return false;
        }
    }
    true
}

/// Marks a node as taken or not.
pub fn mark(taken: &mut Vec<bool>, at: usize, now: bool)
    requires { at < length taken.old.items }
    ensures { taken.new.items ≡ slice_set taken.old.items at now }
{
    taken[at] = now;
}

/// Adds the binding, where the choice may end with these nodes taken.
pub fn settle<'t>(
    choice: Choice<'_, '_, '_, 't>,
    taken: &[bool],
    trail: &Trail<'t>,
    out: &mut List<Trail<'t>>,
) -> Result<(), Memory>
    requires size { length taken.now ≡ length choice.nodes.now }
    ensures { OnOk result (Adds out.old out.new (λ c. Chosen choice.entry.known.names.now choice.entry.named choice.entry.loose [] (untaken taken.now (all_seen choice.entry.nodes.now)) trail.now c)) }
{
    if choice.loose {
        put_trail(out, trail.copy()?)?;
        return Ok(());
    }
    if all_taken(taken) {
        put_trail(out, trail.copy()?)?;
    }
    Ok(())
}
