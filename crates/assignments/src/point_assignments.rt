//! What points assign.

ghost use Rattle.std.specs.Prelude.{◌≡◌, ◌++◌, ◌||◌, IfOk, OnOk};
ghost use Rattle.std.specs.List.{flat_map};
ghost use Rattle.node_pool.specs.Spots.{seen, all_seen};
ghost use Rattle.assignments.specs.Seen.{all_assignments};
ghost use Rattle.assignments.specs.Assignments.{is_fields as is_fields_spec, assigned_at, assigned_in, assigned_of, holder_by};

use crate::assignment::Assignment;
use crate::node_assignment::add_own;
use crate::quiet::{assigns_below, may_assign};
use graph_form::{Point, Role};
use node_pool::Spot;
use node_tree::{Kind, List, Memory};
use point_nodes::{IndexedTree, holds_statements, tops};
use std::alloc::Global;

// Whether the node holds the fields of a type.
fn is_fields(kind: Kind) -> bool
    ensures { result ≡ is_fields_spec kind }
{
    match kind {
        Kind::Fields => true,
        _ => false,
    }
}

// Whether variables below a node of that kind are fields, where those beside it are or aren't.
fn are_fields_below(field: bool, kind: Kind) -> bool
    ensures { result ≡ (field || is_fields_spec kind) }
{
    field || is_fields(kind)
}

// Adds what a node assigns itself. Its kids are listed only where it may assign.
fn add_itself<'t>(
    alloc: Global,
    field: bool,
    node: Spot<'_, 't>,
    into: &mut List<Assignment<'t>>,
) -> Result<(), Memory>
    ensures { OnOk result (all_assignments into.new ≡
        all_assignments into.old ++ assigned_at field (seen node.entry)) }
{
    if !may_assign(node.node.kind, &node.node.text) {
        return Ok(());
    }
    let kids = node.kids(alloc)?;
    add_own(alloc, field, node.node, kids.as_slice(), into)
}

/// Adds what is assigned in a node and all that is below it, kids before nodes. Variables that are fields of a type assign
/// nothing: those below a node that holds fields, and all where `field` says so of the node.
pub fn add_assignments<'t>(
    alloc: Global,
    field: bool,
    node: Spot<'_, 't>,
    into: &mut List<Assignment<'t>>,
) -> Result<(), Memory>
    ensures { OnOk result (all_assignments into.new ≡
        all_assignments into.old ++ assigned_in field (seen node.entry)) }
{
    if !assigns_below(node) {
        return add_itself(alloc, field, node, into);
    }
    let kids = node.kids(alloc)?;
    let below = are_fields_below(field, node.node.kind);
    for kid in kids.as_slice() {
        add_assignments(alloc, below, *kid, into)?;
    }
    add_own(alloc, field, node.node, kids.as_slice(), into)?;
    Ok(())
}

// Adds what a statement that holds others, or a handler, assigns itself.
fn add_holder<'t>(
    alloc: Global,
    role: Role,
    node: Spot<'_, 't>,
    into: &mut List<Assignment<'t>>,
) -> Result<(), Memory>
    ensures { OnOk result (all_assignments into.new ≡
        all_assignments into.old ++ holder_by role (seen node.entry)) }
{
    match role {
        Role::Head => {
            if !holds_statements(node.node.kind) {
                return Ok(());
            }
            add_itself(alloc, false, node, into)
        }
        _ => Ok(()),
    }
}

/// What a point assigns, in the order in which it does.
pub fn assignments<'t>(
    alloc: Global,
    tree: &IndexedTree<'t>,
    point: Point,
) -> Result<List<Assignment<'t>>, Memory>
    ensures { IfOk result (λ list. all_assignments list ≡ assigned_of tree.now point) }
{
    let mut list = List::new(alloc);
    let heads = tops(alloc, tree, point)?;
    for top in heads.as_slice() {
        add_assignments(alloc, false, *top, &mut list)?;
    }
    if let Some(node) = tree.node(point.node) {
        add_holder(alloc, point.role, node, &mut list)?;
    }
    Ok(list)
}
