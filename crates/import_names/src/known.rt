//! Known constants of trees in which names are replaced.

ghost use Rattle.std.specs.Prelude.{◌≡◌, ◌+◌, ◌++◌, slice_get, IfOk, IfSome, OnOk};
ghost use Rattle.node_tree.specs.Tree.{pre_of};
ghost use Rattle.import_names.specs.Claims as said;
ghost use Rattle.import_names.specs.Ordered.{AreInOrder};
ghost use Rattle.import_names.specs.Resolved as spec;

use crate::claim::Claim;
use crate::replace::meant;
use node_tree::{Kind, Known, List, Memory, Node, Twin, Written};
use std::alloc::Global;

// The number of a name, unless an attribute stands in its place.
fn number(kind: Kind, parts: &[Written<'_>], at: u32) -> Option<u32>
    ensures { result ≡ spec.number_by kind parts.now at }
{
    match kind {
        Kind::Name => {
            if parts.len() > 1 {
                return None;
            }
            Some(at)
        }
        _ => None,
    }
}

// The number of what follows a node that stands for these parts, where it fits.
fn number_after(parts: &[Written<'_>], at: u32) -> Option<u32>
    ensures { IfSome result (λ next. next ≡ at + 1 + spec.added parts.now) }
{
    let Ok(more) = u32::try_from(parts.len().saturating_sub(1)) else {
        return None;
    };
    at.checked_add(1)?.checked_add(more.checked_mul(2)?)
}

// The numbers that names get.
fn numbers(alloc: Global, claims: &[Claim<'_>], tree: &Node) -> Result<Vec<Option<u32>>, Memory>
    requires { AreInOrder claims.now }
    ensures { IfOk result (λ numbers. numbers.items ≡
        spec.numbers (said.meaning claims.now) 0 (pre_of tree.now)) }
{
    let mut numbers = Vec::new(alloc);
    let mut at: u32 = 0;
    for node in tree.walk()? {
        let parts = meant(claims, node);
        numbers.push(number(node.kind, parts, at))?;
        let Some(next) = number_after(parts, at) else {
            return Err(Memory);
        };
        at = next;
    }
    Ok(numbers)
}

// The number that the name gets which had that one.
fn number_at(numbers: &[Option<u32>], at: u32) -> Option<u32>
    ensures { result ≡ spec.number_in (slice_get numbers.now at) }
{
    let place = at as usize;
    if place >= numbers.len() {
        return None;
    }
    numbers[place]
}

// Adds what is known of a name under its new number, if it has one.
fn add_known(numbers: &[Option<u32>], known: &Known, into: &mut List<Known>) -> Result<(), Memory>
    ensures { OnOk result (into.new ≡
        into.old ++
        spec.known_at (spec.number_in (slice_get numbers.now known.now.at)) known.now.literal) }
{
    let Some(at) = number_at(numbers, known.at) else {
        return Ok(());
    };
    let literal = known.literal.copy()?;
    into.push(Known { at, literal })?;
    Ok(())
}

/// What is known of the names that stay names, by their new numbers. Numbers that don't fit count as want of memory.
pub fn kept(
    alloc: Global,
    claims: &[Claim<'_>],
    tree: &Node,
    known: &[Known],
) -> Result<List<Known>, Memory>
    requires { AreInOrder claims.now }
    ensures { IfOk result (λ kept. kept ≡
        spec.kept (said.meaning claims.now) tree.now known.now) }
{
    let mut kept = List::new(alloc);
    if known.is_empty() {
        return Ok(kept);
    }
    let numbers = numbers(alloc, claims, tree)?;
    for one in known {
        add_known(numbers.as_slice(), one, &mut kept)?;
    }
    Ok(kept)
}
