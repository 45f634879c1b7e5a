//! Units in which no name is ever known.

ghost use Rattle.std.specs.Prelude.{◌≡◌, ◌++◌, true, IfOk, OnOk};
ghost use Rattle.std.specs.List.{flat_map, list_any};
ghost use Rattle.node_tree.specs.Numbers.{Numbered as numbered};
ghost use Rattle.node_pool.specs.Spots.{seen, all_seen};
ghost use Rattle.point_nodes.specs.Tops.{nodes_of};
ghost use Rattle.assignments.specs.Assignments.{assigned_of};
ghost use Rattle.assignments.specs.Seen.{Named as named, seen_assignment, seen_value, all_targets, all_assignments};
ghost use Rattle.unit_effects.specs.Numbering.{entry_value};
ghost use Rattle.const_prop.specs.Idle as spec;
ghost use Rattle.const_prop.specs.Settled.{all_sightings};

use crate::sighting::Sighting;
use assignments::{Assignment, Manner, Reach, Target, assignments};
use flow_graph::Point;
use node_pool::Spot;
use node_tree::{Memory, Node};
use point_nodes::{IndexedTree, nodes};
use std::alloc::Global;
use unit_effects::Entry;
use unit_names::{Scope, is_literal, is_name};

// Whether the name is the whole target.
fn is_whole(reach: Reach) -> bool
    ensures { result ≡ spec.is_whole reach }
{
    match reach {
        Reach::Whole => true,
        _ => false,
    }
}

// Whether one of the names is a whole target.
fn has_whole(targets: &[Target<'_>]) -> bool
    ensures { result ≡ list_any (λ (t : named). spec.is_whole t.reach) (all_targets targets.now) }
{
    for target in targets {
        if is_whole(target.reach) {
            return true;
        }
    }
    false
}

// Whether a node is a name that holds a literal at the entry.
fn holds<'t>(entry: &Entry<'_, 't>, node: &'t Node) -> bool
    ensures { result ≡ spec.holds (entry_value entry.now) node.now }
{
    if is_name(node.kind) {
        return entry.value(node.text.as_str()).is_some();
    }
    false
}

// Whether a node is a literal, or a name that holds one at the entry.
fn says<'t>(entry: &Entry<'_, 't>, node: &'t Node) -> bool
    ensures { result ≡ spec.says (entry_value entry.now) node.now }
{
    if is_literal(node.kind) {
        return true;
    }
    holds(entry, node)
}

// Whether a value that is given in that manner is a literal, or what a name holds at the entry.
fn says_by<'t>(entry: &Entry<'_, 't>, manner: Manner, value: Option<&'t Node>) -> bool
    ensures { result ≡ spec.says_by (entry_value entry.now) manner (seen_value value.entry) }
{
    let Some(node) = value else {
        return false;
    };
    match manner {
        Manner::Statement => says(entry, node),
        Manner::Expression => says(entry, node),
        _ => false,
    }
}

// Whether an assignment gives a literal to a name, or what a name holds at the entry.
fn gives<'t>(entry: &Entry<'_, 't>, one: &Assignment<'t>) -> bool
    ensures { result ≡ spec.gives (entry_value entry.now) (seen_assignment one.now) }
{
    if !has_whole(one.targets.as_slice()) {
        return false;
    }
    says_by(entry, one.manner, one.value)
}

// Whether one of these assignments does.
fn any_gives<'t>(entry: &Entry<'_, 't>, list: &[Assignment<'t>]) -> bool
    ensures { result ≡ list_any (spec.gives (entry_value entry.now)) (all_assignments list.now) }
{
    for one in list {
        if gives(entry, one) {
            return true;
        }
    }
    false
}

// Whether a point gives a literal to a name, or what a name holds at the entry.
fn is_given_at<'t>(
    alloc: Global,
    tree: &IndexedTree<'t>,
    entry: &Entry<'_, 't>,
    point: Point,
) -> Result<bool, Memory>
    ensures { IfOk result (λ given. given ≡
        spec.is_given_at tree.now (entry_value entry.now) point) }
{
    Ok(any_gives(entry, assignments(alloc, tree, point)?.as_slice()))
}

/// Whether a point of a unit gives a literal to a name, or what a name holds at the entry.
pub fn is_given<'t>(
    alloc: Global,
    tree: &IndexedTree<'t>,
    entry: &Entry<'_, 't>,
    scope: &Scope,
) -> Result<bool, Memory>
    ensures { IfOk result (λ given. given ≡
        spec.is_given tree.now (entry_value entry.now) scope.now) }
{
    for point in scope.graph.points.as_slice() {
        if is_given_at(alloc, tree, entry, *point)? {
            return Ok(true);
        }
    }
    Ok(false)
}

// Adds a node of which nothing is known, if it is a name.
fn add_unknown(spot: Spot<'_, '_>, into: &mut Vec<Sighting<'_>>) -> Result<(), Memory>
    ensures { OnOk result (all_sightings into.new.items ≡
        all_sightings into.old.items ++ spec.unknown (seen spot.entry)) }
{
    if !is_name(spot.node.kind) {
        return Ok(());
    }
    into.push(Sighting {
        at: spot.at,
        literal: None,
    })?;
    Ok(())
}

// Adds the names among these nodes, of which nothing is known, if none of them holds a literal at the entry. Otherwise it
// adds some of them, and says so.
fn add_silent_nodes<'t>(
    entry: &Entry<'_, 't>,
    spots: &[Spot<'_, 't>],
    into: &mut Vec<Sighting<'t>>,
) -> Result<bool, Memory>
    ensures { IfOk result (λ silent. silent ≡ true →
        spec.AddsSilent (entry_value entry.now) (all_seen spots.now)
        (all_sightings into.old.items) (all_sightings into.new.items)) }
{
    for spot in spots {
        if holds(entry, spot.node) {
            return Ok(false);
        }
        add_unknown(*spot, into)?;
    }
    Ok(true)
}

// Adds the names of a point, of which nothing is known, if none of them holds a literal at the entry.
fn add_silent_at<'t>(
    alloc: Global,
    tree: &IndexedTree<'t>,
    entry: &Entry<'_, 't>,
    point: Point,
    into: &mut Vec<Sighting<'t>>,
) -> Result<bool, Memory>
    ensures { IfOk result (λ silent. silent ≡ true →
        spec.AddsSilent (entry_value entry.now) (nodes_of tree.now point)
        (all_sightings into.old.items) (all_sightings into.new.items)) }
{
    let spots = nodes(alloc, tree, point)?;
    add_silent_nodes(entry, spots.as_slice(), into)
}

/// Adds the names of a unit, of which nothing is known, if none of them holds a literal at the entry. Otherwise it adds some
/// of them, and says so.
pub fn add_silent<'t>(
    alloc: Global,
    tree: &IndexedTree<'t>,
    entry: &Entry<'_, 't>,
    scope: &Scope,
    into: &mut Vec<Sighting<'t>>,
) -> Result<bool, Memory>
    ensures { IfOk result (λ silent. silent ≡ true →
        spec.AddsAllSilent tree.now (entry_value entry.now) scope.now.graph.points
        (all_sightings into.old.items) (all_sightings into.new.items)) }
{
    for point in scope.graph.points.as_slice() {
        if !add_silent_at(alloc, tree, entry, *point, into)? {
            return Ok(false);
        }
    }
    Ok(true)
}

/// Adds these sightings at the end.
pub fn add_all<'t>(sightings: &[Sighting<'t>], into: &mut Vec<Sighting<'t>>) -> Result<(), Memory>
    ensures { OnOk result (all_sightings into.new.items ≡
        all_sightings into.old.items ++ all_sightings sightings.now) }
{
    for sighting in sightings {
        into.push(*sighting)?;
    }
    Ok(())
}
