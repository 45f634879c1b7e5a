//! What declarators declare.

ghost use Rattle.std.specs.Prelude.{◌≡◌, ◌++◌, OnOk};
ghost use Rattle.std.specs.List.{flat_map};
ghost use Rattle.node_pool.specs.Spots.{seen, all_seen};
ghost use Rattle.assignments.specs.Declarators.{is_id as is_id_spec, is_around_id as is_around_id_spec, id_of, within as within_spec, declared, signature};
ghost use Rattle.node_tree.specs.declared.kind.Kind.TheVariants as kinds;

use crate::parts::{none, part};
use node_pool::Spot;
use node_tree::{Kind, List, Memory};
use std::alloc::Global;

// Whether it is a name that is no expression.
fn is_id(kind: Kind) -> bool
    ensures { result ≡ is_id_spec kind }
{
    match kind {
        Kind::Id => true,
        _ => false,
    }
}

// The declarator within a pointer, an array or a function.
fn within<'s, 'p, 't>(kind: Kind, kids: &'s [Spot<'p, 't>]) -> &'s [Spot<'p, 't>]
    ensures { all_seen result.now ≡ within_spec kind (all_seen kids.now) }
{
    match kind {
        Kind::Ptr => part(kids, 0),
        Kind::ArrayOf => part(kids, 0),
        Kind::FuncOf => part(kids, 0),
        _ => none(kids),
    }
}

// Whether the first of these nodes is a name.
fn begins_with_id(kids: &[Spot<'_, '_>]) -> bool
    ensures { result ≡ is_around_id_spec kinds.FuncOf (all_seen kids.now) }
{
    match kids.first() {
        Some(kid) => is_id(kid.node.kind),
        None => false,
    }
}

// Whether it is a function that stands directly around a name.
fn is_around_id(kind: Kind, kids: &[Spot<'_, '_>]) -> bool
    ensures { result ≡ is_around_id_spec kind (all_seen kids.now) }
{
    match kind {
        Kind::FuncOf => begins_with_id(kids),
        _ => false,
    }
}

/// Adds the nodes.
pub fn add_all<'p, 't>(nodes: &[Spot<'p, 't>], into: &mut List<Spot<'p, 't>>) -> Result<(), Memory>
    ensures { OnOk result (all_seen into.new ≡ all_seen into.old ++ all_seen nodes.now) }
{
    for node in nodes {
        into.push(*node)?;
    }
    Ok(())
}

// Adds the node, if it is a name that is no expression.
fn add_id<'p, 't>(node: Spot<'p, 't>, into: &mut List<Spot<'p, 't>>) -> Result<(), Memory>
    ensures { OnOk result (all_seen into.new ≡ all_seen into.old ++ id_of (seen node.entry)) }
{
    if is_id(node.node.kind) {
        into.push(node)?;
        return Ok(());
    }
    Ok(())
}

/// Adds those of these nodes that are names and no expressions.
pub fn add_ids<'p, 't>(nodes: &[Spot<'p, 't>], into: &mut List<Spot<'p, 't>>) -> Result<(), Memory>
    ensures { OnOk result (all_seen into.new ≡
        all_seen into.old ++ flat_map id_of (all_seen nodes.now)) }
{
    for node in nodes {
        add_id(*node, into)?;
    }
    Ok(())
}

/// Adds the name that a declarator declares.
pub fn add_declared<'p, 't>(
    alloc: Global,
    declarator: Spot<'p, 't>,
    into: &mut List<Spot<'p, 't>>,
) -> Result<(), Memory>
    ensures { OnOk result (all_seen into.new ≡
        all_seen into.old ++ declared (seen declarator.entry)) }
{
    let kind = declarator.node.kind;
    if is_id(kind) {
        into.push(declarator)?;
        return Ok(());
    }
    let kids = declarator.kids(alloc)?;
    for kid in within(kind, kids.as_slice()) {
        add_declared(alloc, *kid, into)?;
    }
    Ok(())
}

/// Adds the names that these declarators declare.
pub fn add_all_declared<'p, 't>(
    alloc: Global,
    declarators: &[Spot<'p, 't>],
    into: &mut List<Spot<'p, 't>>,
) -> Result<(), Memory>
    ensures { OnOk result (all_seen into.new ≡
        all_seen into.old ++ flat_map declared (all_seen declarators.now)) }
{
    for declarator in declarators {
        add_declared(alloc, *declarator, into)?;
    }
    Ok(())
}

/// Adds the parameter list of the function that stands directly around the name that a declarator declares.
pub fn add_signature<'p, 't>(
    alloc: Global,
    declarator: Spot<'p, 't>,
    into: &mut List<Spot<'p, 't>>,
) -> Result<(), Memory>
    ensures { OnOk result (all_seen into.new ≡
        all_seen into.old ++ signature (seen declarator.entry)) }
{
    let kind = declarator.node.kind;
    let kids = declarator.kids(alloc)?;
    if is_around_id(kind, kids.as_slice()) {
        add_all(part(kids.as_slice(), 1), into)?;
        return Ok(());
    }
    for kid in within(kind, kids.as_slice()) {
        add_signature(alloc, *kid, into)?;
    }
    Ok(())
}
