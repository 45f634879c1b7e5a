//! Parts of lists of nodes.

ghost use Rattle.std.specs.Prelude.{◌≡◌, []};
ghost use Rattle.node_pool.specs.Spots.{all_seen};
ghost use Rattle.point_nodes.specs.Tops.{part};

use node_pool::Spot;

/// The node at that place, alone, or none where there is none.
pub fn part<'s, 'p, 't>(nodes: &'s [Spot<'p, 't>], place: usize) -> &'s [Spot<'p, 't>]
    ensures { all_seen result.now ≡ part place (all_seen nodes.now) }
{
    if place < nodes.len() {
        return &nodes[place..place + 1];
    }
    none(nodes)
}

/// None of the nodes.
pub fn none<'s, 'p, 't>(nodes: &'s [Spot<'p, 't>]) -> &'s [Spot<'p, 't>]
    ensures { all_seen result.now ≡ [] }
{
    &nodes[..0]
}
