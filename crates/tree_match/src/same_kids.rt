//! Kids in which a name stands for the same, found by halving.

ghost use Rattle.std.specs.Prelude.{◌≡◌, ◌<◌, ◌≤◌, ℕ, length, IfOk, MatchOption};
ghost use Rattle.std.specs.List.{Contains};
ghost use Rattle.std.specs.List.Sorted.{IsNonDecreasing, IsPartitionPoint};
ghost use Rattle.tree_match.specs.Checksums.{checksum};
ghost use Rattle.tree_match.specs.Same.{place_number, AreKeyPlaces, IsIndex};

use crate::checksum::add_checksum;
use crate::key::key_of;
use node_tree::{Kind, Memory, Node, Text};
use std::alloc::Global;

/// For each kid a number made from the checksum of a node that has the content for which the name stands if a pattern matches the
/// kid, and from the kid's place, in order.
#[derive(Drop)]
pub struct SameKids {
    pub name: Text,
    pub places: Vec<u64>,
}

// The checksum of a node.
fn checksum_of(node: &Node) -> u32
    ensures sum { result ≡ checksum node.now }
    ensures within { result < 65536 }
{
    add_checksum(0, node)
}

// The number of a checksum and a place.
fn number_of(sum: u32, place: u32) -> u64
    ensures { result ≡ place_number sum place }
{
    sum as u64 * 4294967296 + place as u64
}

// The numbers of the kids of a node of that kind, if there is such a node in each.
fn key_places(
    alloc: Global,
    kind: Kind,
    pattern: &Node,
    name: &str,
    kids: &[Node],
) -> Result<Option<Vec<u64>>, Memory>
    ensures { IfOk result (λ found. MatchOption found (Unit {0}) (λ places. AreKeyPlaces kind pattern.now name.now kids.now places.items)) }
{
    let mut places = Vec::with_capacity(alloc, kids.len())?;
    for (i, kid) in kids.iter().enumerate() {
        let Ok(place) = u32::try_from(i) else {
            return Ok(None);
        };
        let Some(key) = key_of(alloc, kind, pattern, name, kid)? else {
            return Ok(None);
        };
        places.push(number_of(checksum_of(key), place))?;
    }
    Ok(Some(places))
}

// The numbers in order.
fn sorted(mut places: Vec<u64>) -> Result<Vec<u64>, Memory>
    ensures same { IfOk result (λ all. (k : ℕ) → Contains places.items k → Contains all.items k) }
    ensures order { IfOk result (λ all. IsNonDecreasing all.items) }
{
    places.sort()?;
    Ok(places)
}

// How many of the numbers are less.
fn count_below(places: &[u64], least: u64) -> usize
    requires { IsNonDecreasing places.now }
    ensures { IsPartitionPoint (λ y. y < least) (λ y. least ≤ y) places.now result }
{
    places.partition_point(|one| *one < least)
}

impl SameKids {
    /// The index of these kids of a node of that kind, if the place of the name is known in each.
    pub fn of(
        alloc: Global,
        kind: Kind,
        pattern: &Node,
        name: &str,
        kids: &[Node],
    ) -> Result<Option<SameKids>, Memory>
        ensures { IfOk result (λ found. MatchOption found (Unit {0}) (IsIndex kind pattern.now kids.now)) }
    {
        let Some(places) = key_places(alloc, kind, pattern, name, kids)? else {
            return Ok(None);
        };
        let places = sorted(places)?;
        Ok(Some(SameKids {
            name: Text::from_str(alloc, name)?,
            places,
        }))
    }

    /// A place from this one on, before which no kid from it on has the checksum of the node: that of the next one that has it, or a
    /// place past all kids.
    pub fn next_place(&self, node: &Node, from: usize) -> usize
        requires { IsNonDecreasing self.now.places.items }
        ensures on { from ≤ result }
        ensures none { (k : ℕ) → from ≤ k → k < result → Contains self.now.places.items (place_number (checksum node.now) k) → ⊥ }
    {
        let Ok(place) = u32::try_from(from) else {
            return from;
        };
        let sum = checksum_of(node);
        let at = count_below(self.places.as_slice(), number_of(sum, place));
        if self.places.len() <= at {
            return usize::MAX;
        }
        (self.places[at] - number_of(sum, 0)) as usize
    }
}
