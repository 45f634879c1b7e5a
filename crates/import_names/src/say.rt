//! All that is said of names in a file.

ghost use Rattle.std.specs.Prelude.{◌≡◌, ◌++◌, false, map, IfOk, OnOk};
ghost use Rattle.std.specs.List.{flat_map};
ghost use Rattle.node_tree.specs.Numbers.{root_of};
ghost use Rattle.node_tree.specs.Tree.{pre_of};
ghost use Rattle.assignments.specs.Assignments.{assigned_in};
ghost use Rattle.assignments.specs.Seen.{seen_assignment, seen_target, all_assignments, all_targets};
ghost use Rattle.assignments.specs.Targets.{is_name as is_name_spec};
ghost use Rattle.import_names.specs.Claims as spec;

use crate::alias::{Origin, add_aliases, origin_of};
use crate::claim::Claim;
use crate::ids::{add_plain, add_plain_ids, add_plain_in, id_at};
use assignments::{Assignment, Manner, Reach, Target, add_assignments};
use node_tree::{Kind, List, Memory, Node};
use point_nodes::IndexedTree;
use std::alloc::Global;

// Adds that these names stand for no others, but for those that hold the object of a target.
fn add_targets<'t>(
    alloc: Global,
    targets: &[Target<'t>],
    into: &mut Vec<Claim<'t>>,
) -> Result<(), Memory>
    ensures { OnOk result (into.new.items ≡
        into.old.items ++ flat_map spec.target_claims (all_targets targets.now)) }
{
    for one in targets {
        add_target(alloc, one, into)?;
    }
    Ok(())
}

// The same of one name.
fn add_target<'t>(
    alloc: Global,
    target: &Target<'t>,
    into: &mut Vec<Claim<'t>>,
) -> Result<(), Memory>
    ensures { OnOk result (into.new.items ≡
        into.old.items ++ spec.target_claims (seen_target target.now)) }
{
    match target.reach {
        Reach::Base => Ok(()),
        _ => add_plain(alloc, target.name, into),
    }
}

// Adds what an assignment says.
fn add_assigned<'t>(
    alloc: Global,
    one: &Assignment<'t>,
    into: &mut Vec<Claim<'t>>,
) -> Result<(), Memory>
    ensures { OnOk result (into.new.items ≡
        into.old.items ++ spec.assigned_claims (seen_assignment one.now)) }
{
    match one.manner {
        Manner::Imported => Ok(()),
        _ => add_targets(alloc, one.targets.as_slice(), into),
    }
}

// What is assigned in a tree.
fn assigned<'t>(alloc: Global, tree: &'t Node) -> Result<List<Assignment<'t>>, Memory>
    ensures { IfOk result (λ list. all_assignments list ≡ assigned_in false (root_of tree.now)) }
{
    let indexed = IndexedTree::of(alloc, tree)?;
    let mut list = List::new(alloc);
    if let Some(root) = indexed.node(0) {
        add_assignments(alloc, false, root, &mut list)?;
        return Ok(list);
    }
    Ok(list)
}

// Adds what all assignments of a file say.
fn add_all_assigned<'t>(
    alloc: Global,
    tree: &'t Node,
    into: &mut Vec<Claim<'t>>,
) -> Result<(), Memory>
    ensures { OnOk result (into.new.items ≡ into.old.items ++ spec.assigned_in_all tree.now) }
{
    let list = assigned(alloc, tree)?;
    for one in list.as_slice() {
        add_assigned(alloc, one, into)?;
    }
    Ok(())
}

// Whether it is a name.
fn is_name(kind: Kind) -> bool
    ensures { result ≡ is_name_spec kind }
{
    match kind {
        Kind::Name => true,
        _ => false,
    }
}

// Whether a target of that kind has parts.
fn holds_parts(kind: Kind) -> bool
    ensures { result ≡ spec.holds_parts kind }
{
    match kind {
        Kind::Tuple => true,
        Kind::ListLit => true,
        Kind::Star => true,
        _ => false,
    }
}

// Adds that the names of a target stand for no others.
fn add_names<'t>(alloc: Global, target: &'t Node, into: &mut Vec<Claim<'t>>) -> Result<(), Memory>
    ensures { OnOk result (into.new.items ≡
        into.old.items ++ map spec.plain (spec.target_names target.now)) }
{
    if is_name(target.kind) {
        add_plain(alloc, target.text.as_str(), into)?;
        return Ok(());
    }
    if !holds_parts(target.kind) {
        return Ok(());
    }
    for kid in target.kids.as_slice() {
        add_names(alloc, kid, into)?;
    }
    Ok(())
}

// Adds what a node says that assigns nothing itself.
fn add_own<'t>(alloc: Global, node: &'t Node, into: &mut Vec<Claim<'t>>) -> Result<(), Memory>
    ensures { OnOk result (into.new.items ≡ into.old.items ++ spec.own_claims node.now) }
{
    match node.kind {
        Kind::Import => add_aliases(alloc, &Origin::Whole, node.kids.as_slice(), into),
        Kind::FromImport => add_from(alloc, node, into),
        Kind::Param => add_plain_in(alloc, id_at(node, 0), into),
        Kind::CompFor => add_variables(alloc, node, into),
        Kind::Global => add_plain_ids(alloc, node.kids.as_slice(), into),
        Kind::Nonlocal => add_plain_ids(alloc, node.kids.as_slice(), into),
        _ => Ok(()),
    }
}

// Adds what an import from a module says.
fn add_from<'t>(alloc: Global, node: &'t Node, into: &mut Vec<Claim<'t>>) -> Result<(), Memory>
    ensures { OnOk result (into.new.items ≡ into.old.items ++ spec.from_claims node.now) }
{
    let origin = origin_of(&node.text, id_at(node, 0));
    match node.kids.get(1) {
        Some(list) => add_aliases(alloc, &origin, list.kids.as_slice(), into),
        None => Ok(()),
    }
}

// Adds what a comprehension says of its variables.
fn add_variables<'t>(alloc: Global, node: &'t Node, into: &mut Vec<Claim<'t>>) -> Result<(), Memory>
    ensures { OnOk result (into.new.items ≡ into.old.items ++ spec.variable_claims node.now) }
{
    match node.kids.get(0) {
        Some(target) => add_names(alloc, target, into),
        None => Ok(()),
    }
}

/// What the nodes of a file say of names that assign nothing themselves. Only these say that a name stands for another.
pub fn own_claims<'t>(alloc: Global, tree: &'t Node) -> Result<Vec<Claim<'t>>, Memory>
    ensures { IfOk result (λ claims. claims.items ≡ flat_map spec.own_claims (pre_of tree.now)) }
{
    let mut claims = Vec::new(alloc);
    for node in tree.walk()? {
        add_own(alloc, node, &mut claims)?;
    }
    Ok(claims)
}

/// All that is said of names in a file.
pub fn claims_of<'t>(alloc: Global, tree: &'t Node) -> Result<Vec<Claim<'t>>, Memory>
    ensures { IfOk result (λ claims. claims.items ≡ spec.claims_of tree.now) }
{
    let mut claims = Vec::new(alloc);
    add_all_assigned(alloc, tree, &mut claims)?;
    for node in tree.walk()? {
        add_own(alloc, node, &mut claims)?;
    }
    Ok(claims)
}
