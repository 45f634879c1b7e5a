//! Where in a kid a name of a pattern stands, if the pattern matches the kid.
//!
//! A name that stands for something already can stand only for the same again. So kids in which something else stands at its place
//! can be passed over.

ghost use Rattle.std.specs.Prelude.{◌≡◌, ◌∷◌, ◌+◌, drop, IfOk, IsTrue, MatchOption, Some};
ghost use Rattle.node_tree.specs.Tree.{kind_of, text_of};
ghost use Rattle.node_match.specs.Free.{parts_of};
ghost use Rattle.node_match.specs.Kinds.{role_of as role, IsOne};
ghost use Rattle.node_match.specs.Relation.{wild};
ghost use Rattle.node_match.specs.declared.class.Role.TheVariants.{Meta};
ghost use Rattle.tree_match.specs.Same.{IsKey, PassBefore};

use crate::inside::is_in_order;
use meta_bind::Trail;
use node_match::{LOOK, Role, is_kid_refused, is_one, is_wild, part_at, role_of};
use node_search::is_steady;
use node_tree::{Kind, Memory, Node};
use std::alloc::Global;

/// Whether the name stands in the pattern.
pub fn names(pattern: &Node, name: &str) -> bool {
    if role_of(pattern.kind) == Role::Meta && pattern.text.as_str() == name {
        return true;
    }
    for kid in pattern.kids.as_slice() {
        if names(kid, name) {
            return true;
        }
    }
    false
}

// Whether the pattern is that name.
fn is_that_name(pattern: &Node, name: &str) -> bool
    ensures role { IsTrue result → role (kind_of pattern.now) ≡ Meta }
    ensures named { IsTrue result → text_of pattern.now ≡ wild → ⊥ }
    ensures same { IsTrue result → text_of pattern.now ≡ name.now }
{
    let Role::Meta = role_of(pattern.kind) else {
        return false;
    };
    if is_wild(&pattern.text) {
        return false;
    }
    pattern.text.as_str() == name
}

// The first part in which the name stands, and its place, if those before take one kid each and have no names.
fn part_with<'q>(
    alloc: Global,
    pattern: &'q Node,
    name: &str,
) -> Result<Option<(usize, &'q Node)>, Memory>
    ensures before { IfOk result (λ found. MatchOption found (Unit {0}) (λ f. PassBefore f.0 (parts_of pattern.now))) }
    ensures one { IfOk result (λ found. MatchOption found (Unit {0}) (λ f. IsOne (role (kind_of f.1.now)))) }
    ensures part { IfOk result (λ found. MatchOption found (Unit {0}) (λ f. drop f.0 (parts_of pattern.now) ≡ Some f.1.now ∷ drop (f.0 + 1) (parts_of pattern.now))) }
{
    let none = Trail::new(alloc);
    for at in 0..pattern.kids.len() {
        let Some(part) = part_at(pattern, at) else {
            continue;
        };
        if !is_one(role_of(part.kind)) {
            return Ok(None);
        }
        if names(part, name) {
            return Ok(Some((at, part)));
        }
        if !is_steady(part, &none)? {
            return Ok(None);
        }
    }
    Ok(None)
}

/// A node of the kid, which a holder of that kind holds, that has the content for which the name stands if the pattern matches the kid.
pub fn key_of<'n>(
    alloc: Global,
    holder: Kind,
    pattern: &Node,
    name: &str,
    node: &'n Node,
) -> Result<Option<&'n Node>, Memory>
    ensures { IfOk result (λ found. MatchOption found (Unit {0}) (λ key. IsKey holder pattern.now name.now node.now key.now)) }
{
    if is_kid_refused(holder, pattern, node, LOOK) {
        return Ok(Some(node));
    }
    if is_that_name(pattern, name) {
        return Ok(Some(node));
    }
    if !is_in_order(holder, pattern, node) {
        return Ok(None);
    }
    let Some((at, part)) = part_with(alloc, pattern, name)? else {
        return Ok(None);
    };
    if node.kids.len() <= at {
        return Ok(None);
    }
    let kid = &node.kids.as_slice()[at];
    let found = key_of(alloc, node.kind, part, name, kid)?;
    Ok(found)
}
