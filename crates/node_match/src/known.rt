//! What names are known to hold.

ghost use Rattle.std.specs.Prelude.{◌≡◌, ◌↔◌, IsTrue};
ghost use Rattle.std.specs.Option.{option_copied};
ghost use Rattle.node_pool.specs.Spots.{seen};
ghost use Rattle.node_match.specs.Relation.{held_at as held};
ghost use Rattle.node_match.specs.Holding.{HoldsString, HoldsSame};

use crate::class::is_same;
use crate::constants::Constants;
use node_pool::Spot;
use node_tree::{Kind, Node};

// The literal that the name of this number is known to hold.
fn held_at<'c>(known: Constants<'c>, at: u32) -> Option<&'c Node>
    ensures { option_copied result ≡ held known.entry.names.now at }
{
    let names = known.names;
    let mut low = 0;
    let mut high = names.len();
    while low < high {
        let middle = low + (high - low) / 2;
        let one = &names[middle];
        if one.at == at {
            return Some(&one.literal);
        }
        if one.at < at {
            low = middle + 1;
            continue;
        }
        high = middle;
    }
    None
}

/// Whether the node is a name that is known to hold a string.
pub fn holds_string(known: Constants<'_>, spot: Spot<'_, '_>) -> bool
    ensures { IsTrue result ↔ HoldsString known.entry.names.now (seen spot.entry) }
{
    if !is_same(spot.node.kind, Kind::Name) {
        return false;
    }
    match held_at(known, spot.at) {
        None => false,
        Some(literal) => is_same(literal.kind, Kind::Str),
    }
}

/// Whether the pattern is a literal, and the node a name that is known to hold one of the same content.
pub fn holds_same(known: Constants<'_>, pattern: &Node, spot: Spot<'_, '_>) -> bool
    ensures { IsTrue result ↔ HoldsSame known.entry.names.now pattern.now (seen spot.entry) }
{
    if !pattern.kind.is_literal() {
        return false;
    }
    if !is_same(spot.node.kind, Kind::Name) {
        return false;
    }
    match held_at(known, spot.at) {
        None => false,
        Some(literal) => literal.same_content(pattern),
    }
}
