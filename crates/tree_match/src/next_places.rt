//! Where a part of a pattern may match next among the kids of a node.
//!
//! After `...` a part may match at any later kid. Most kids are ruled out by a look, which doesn't depend on what is bound, or, where a
//! name of the part stands for something, by the checksum of what stands in its place. So they are passed over at once, however many
//! there are, from each place at which a search begins.

ghost use Rattle.std.specs.Prelude.{◌≡◌, ◌<◌, length, IfOk, MatchOption};
ghost use Rattle.node_tree.specs.Tree.{kids_of, kind_of};
ghost use Rattle.node_pool.specs.Spots.{seen};
ghost use Rattle.node_match.specs.Free.{parts_of};
ghost use Rattle.tree_match.specs.Same.{IsIndex};
ghost use Rattle.tree_match.specs.Landing.{LeapsOver, IsNext, IsNextOf, AreNextOf};

use crate::key::names;
use crate::same_kids::SameKids;
use node_match::{LOOK, Role, is_kid_refused, is_one, is_wild, part_at, role_of};
use node_pool::Spot;
use node_tree::{Kind, List, Memory, Node};
use std::alloc::Global;

// For how many parts of a pattern the next places are known.
const KNOWN_PARTS: usize = 8;

// With fewer kids than this they are looked at one by one.
const MANY_KIDS: usize = 32;

/// Where a part may match next among the kids of a node.
#[derive(Drop)]
pub enum NextPlaces {
    /// For each kid the first from it on that a look doesn't rule out, or how many kids there are.
    Looked(Vec<usize>),
    /// The kids in which a name stands for the same, for a part with a name that stands for something already.
    Named(SameKids),
}

// The next places of the pattern among these kids of a node of that kind.
fn next_places(
    alloc: Global,
    kind: Kind,
    pattern: &Node,
    kids: &[Node],
) -> Result<Vec<usize>, Memory>
    ensures { IfOk result (λ next. LeapsOver kind pattern.now kids.now next.items) }
{
    let end = kids.len();
    let mut next = vec![in alloc; end; end]?;
    let mut soon = end;
    let mut at = end;
    while 0 < at {
        at -= 1;
        if !is_kid_refused(kind, pattern, &kids[at], LOOK) {
            soon = at;
        }
        next[at] = soon;
    }
    Ok(next)
}

// Whether `...` stands before the part at this place.
fn follows_dots(pattern: &Node, at: usize) -> bool
    requires { at < length (kids_of pattern.now) }
{
    if at == 0 {
        return false;
    }
    let before = &pattern.kids.as_slice()[at - 1];
    match role_of(before.kind) {
        Role::Dots => true,
        _ => false,
    }
}

// Whether the name stands in a part before this place.
fn stands_before(pattern: &Node, at: usize, name: &str) -> bool {
    for (i, kid) in pattern.kids.as_slice().iter().enumerate() {
        if i < at && names(kid, name) {
            return true;
        }
    }
    false
}

// The first name of this part of the pattern that stands in a part before this place too.
fn name_before<'q>(pattern: &Node, at: usize, part: &'q Node) -> Option<&'q str> {
    if role_of(part.kind) == Role::Meta && !is_wild(&part.text) {
        let name = part.text.as_str();
        if stands_before(pattern, at, name) {
            return Some(name);
        }
    }
    for kid in part.kids.as_slice() {
        let found = name_before(pattern, at, kid);
        if found.is_some() {
            return found;
        }
    }
    None
}

// The kids in which a name of the part stands for the same, if some name stands in a part before this place too.
fn same_kids(
    alloc: Global,
    pattern: &Node,
    at: usize,
    part: &Node,
    holder: &Node,
) -> Result<Option<SameKids>, Memory>
    ensures { IfOk result (λ found. MatchOption found (Unit {0}) (IsIndex (kind_of holder.now) part.now (kids_of holder.now))) }
{
    let Some(name) = name_before(pattern, at, part) else {
        return Ok(None);
    };
    SameKids::of(alloc, holder.kind, part, name, holder.kids.as_slice())
}

// The next places of the part, which stands at this place of the pattern.
fn places_of(
    alloc: Global,
    pattern: &Node,
    at: usize,
    part: &Node,
    holder: &Node,
) -> Result<NextPlaces, Memory>
    ensures { IfOk result (IsNext (kind_of holder.now) part.now (kids_of holder.now)) }
{
    if let Some(same) = same_kids(alloc, pattern, at, part, holder)? {
        return Ok(NextPlaces::Named(same));
    }
    let kids = holder.kids.as_slice();
    Ok(NextPlaces::Looked(next_places(alloc, holder.kind, part, kids)?))
}

// The next places of the part at this place, if it takes one kid and comes after `...`.
fn next_of_part(
    alloc: Global,
    pattern: &Node,
    at: usize,
    holder: Spot<'_, '_>,
) -> Result<Option<NextPlaces>, Memory>
    requires { at < length (kids_of pattern.now) }
    ensures { IfOk result (λ next. MatchOption next (Unit {0}) (IsNextOf (seen holder.entry) (parts_of pattern.now) at)) }
{
    if !follows_dots(pattern, at) {
        return Ok(None);
    }
    let Some(part) = part_at(pattern, at) else {
        return Ok(None);
    };
    if !is_one(role_of(part.kind)) {
        return Ok(None);
    }
    Ok(Some(places_of(alloc, pattern, at, part, holder.node)?))
}

/// For each part of the pattern its next places among the kids of the holder, or None where they aren't looked for.
pub fn next_of_parts(
    alloc: Global,
    pattern: &Node,
    holder: Spot<'_, '_>,
) -> Result<List<Option<NextPlaces>>, Memory>
    ensures { IfOk result (AreNextOf (seen holder.entry) (parts_of pattern.now)) }
{
    let mut all = List::new(alloc);
    if holder.node.kids.len() < MANY_KIDS {
        return Ok(all);
    }
    let mut left = KNOWN_PARTS;
    for at in 0..pattern.kids.len() {
        if left == 0 {
            return Ok(all);
        }
        let next = next_of_part(alloc, pattern, at, holder)?;
        if next.is_some() {
            left -= 1;
        }
        all.push(next)?;
    }
    Ok(all)
}
