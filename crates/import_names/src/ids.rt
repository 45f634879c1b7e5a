//! Names that are no expressions.

ghost use Rattle.std.specs.Prelude.{◌≡◌, ◌++◌, [], ◌∷◌, slice_get, OnOk};
ghost use Rattle.std.specs.List.{flat_map};
ghost use Rattle.node_tree.specs.Tree.{kids_of};
ghost use Rattle.import_names.specs.Claims as spec;

use crate::claim::Claim;
use node_tree::{Kind, List, Memory, Node, Written};
use std::alloc::Global;

// The name that a node is, unless it is an expression or no name.
fn id_of<'t>(node: &'t Node) -> Option<&'t str>
    ensures { spec.seen_text result ≡ spec.id_of node.now }
{
    match node.kind {
        Kind::Id => Some(node.text.as_str()),
        _ => None,
    }
}

/// The same of the kid at that place.
pub fn id_at<'t>(node: &'t Node, place: usize) -> Option<&'t str>
    ensures { spec.seen_text result ≡ spec.id_in (slice_get (kids_of node.now) place) }
{
    let kid = node.kids.get(place)?;
    id_of(kid)
}

/// Adds that a name stands for no other.
pub fn add_plain<'t>(alloc: Global, name: &'t str, into: &mut Vec<Claim<'t>>) -> Result<(), Memory>
    ensures { OnOk result (into.new.items ≡ into.old.items ++ spec.plain name.now ∷ []) }
{
    into.push(Claim {
        name: Written::new(name),
        parts: List::new(alloc),
    })?;
    Ok(())
}

/// The same, if there is a name.
pub fn add_plain_in<'t>(
    alloc: Global,
    name: Option<&'t str>,
    into: &mut Vec<Claim<'t>>,
) -> Result<(), Memory>
    ensures { OnOk result (into.new.items ≡
        into.old.items ++ spec.plain_in (spec.seen_text name.entry)) }
{
    match name {
        Some(name) => add_plain(alloc, name, into),
        None => Ok(()),
    }
}

/// Adds that those of these nodes that are names and no expressions stand for no others.
pub fn add_plain_ids<'t>(
    alloc: Global,
    nodes: &'t [Node],
    into: &mut Vec<Claim<'t>>,
) -> Result<(), Memory>
    ensures { OnOk result (into.new.items ≡
        into.old.items ++ flat_map (λ n. spec.plain_in (spec.id_of n)) nodes.now) }
{
    for node in nodes {
        add_plain_in(alloc, id_of(node), into)?;
    }
    Ok(())
}
