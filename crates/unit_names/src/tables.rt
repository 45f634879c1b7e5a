//! The names and the literals at the points of a unit.

ghost use Rattle.std.specs.Prelude.{◌≡◌, ◌++◌, OnOk, option_to_list, if◌then◌else◌, []};
ghost use Rattle.std.specs.List.{flat_map};
ghost use Rattle.node_tree.specs.Numbers.{Numbered as numbered};
ghost use Rattle.node_pool.specs.Spots.{all_seen};
ghost use Rattle.assignments.specs.Seen.{seen_assignment, seen_value, all_assignments};
ghost use Rattle.unit_names.specs.Seen.{all_words};
ghost use Rattle.unit_names.specs.Names as spec;

use crate::own::{add_parameters, add_targets};
use crate::scope::Scope;
use crate::word::{Word, add_if, literal_here, name_here};
use assignments::{Assignment, Manner, assignments};
use flow_graph::Point;
use node_pool::Spot;
use node_tree::{List, Memory, Node};
use point_nodes::{IndexedTree, nodes};
use std::alloc::Global;

// Whether its targets stand there as such.
fn has_targets(manner: Manner) -> bool
    ensures { result ≡ spec.has_targets manner }
{
    match manner {
        Manner::Imported => false,
        Manner::Caught => false,
        Manner::Defined => false,
        _ => true,
    }
}

// Adds the targets of an assignment that stand there as such.
fn add_plain<'t>(one: &Assignment<'t>, into: &mut List<Word<'t>>) -> Result<(), Memory>
    ensures { OnOk result (all_words into.new ≡
        all_words into.old ++ spec.plain_words (seen_assignment one.now)) }
{
    if has_targets(one.manner) {
        add_targets(one, into)?;
        return Ok(());
    }
    Ok(())
}

// Adds the name that a value is, if it is one.
fn add_name<'t>(value: Option<&'t Node>, into: &mut List<Word<'t>>) -> Result<(), Memory>
    ensures { OnOk result (all_words into.new ≡
        all_words into.old ++ flat_map spec.name_here (option_to_list (seen_value value.entry))) }
{
    if let Some(node) = value {
        add_if(name_here(node), into)?;
        return Ok(());
    }
    Ok(())
}

// Adds the literal that a value is, if it is one.
fn add_literal<'t>(value: Option<&'t Node>, into: &mut List<Word<'t>>) -> Result<(), Memory>
    ensures { OnOk result (all_words into.new ≡
        all_words into.old ++
        flat_map spec.literal_here (option_to_list (seen_value value.entry))) }
{
    if let Some(node) = value {
        add_if(literal_here(node), into)?;
        return Ok(());
    }
    Ok(())
}

// Adds the names of an assignment: its targets, and what it copies.
fn add_names_in<'t>(one: &Assignment<'t>, into: &mut List<Word<'t>>) -> Result<(), Memory>
    ensures { OnOk result (all_words into.new ≡
        all_words into.old ++ spec.names_in (seen_assignment one.now)) }
{
    add_plain(one, into)?;
    add_name(one.value, into)?;
    Ok(())
}

// Adds those of these nodes that are names.
fn add_name_nodes<'t>(spots: &[Spot<'_, 't>], into: &mut List<Word<'t>>) -> Result<(), Memory>
    ensures { OnOk result (all_words into.new ≡
        all_words into.old ++ flat_map (λ (s : numbered). spec.name_here s.node) (all_seen spots.now)) }
{
    for spot in spots {
        add_if(name_here(spot.node), into)?;
    }
    Ok(())
}

// Adds those of these nodes that are literals.
fn add_literal_nodes<'t>(spots: &[Spot<'_, 't>], into: &mut List<Word<'t>>) -> Result<(), Memory>
    ensures { OnOk result (all_words into.new ≡
        all_words into.old ++ flat_map (λ (s : numbered). spec.literal_here s.node) (all_seen spots.now)) }
{
    for spot in spots {
        add_if(literal_here(spot.node), into)?;
    }
    Ok(())
}

// Adds the names of these assignments.
fn add_all_names_in<'t>(list: &[Assignment<'t>], into: &mut List<Word<'t>>) -> Result<(), Memory>
    ensures { OnOk result (all_words into.new ≡
        all_words into.old ++ flat_map spec.names_in (all_assignments list.now)) }
{
    for one in list {
        add_names_in(one, into)?;
    }
    Ok(())
}

// Adds the literals that these assignments give.
fn add_all_literals_in<'t>(list: &[Assignment<'t>], into: &mut List<Word<'t>>) -> Result<(), Memory>
    ensures { OnOk result (all_words into.new ≡
        all_words into.old ++ flat_map spec.literals_in (all_assignments list.now)) }
{
    for one in list {
        add_literal(one.value, into)?;
    }
    Ok(())
}

// Adds the names of a point.
fn add_names_at<'t>(
    alloc: Global,
    tree: &IndexedTree<'t>,
    point: Point,
    into: &mut List<Word<'t>>,
) -> Result<(), Memory>
    ensures { OnOk result (all_words into.new ≡
        all_words into.old ++ spec.names_at tree.now point) }
{
    let spots = nodes(alloc, tree, point)?;
    add_name_nodes(spots.as_slice(), into)?;
    let list = assignments(alloc, tree, point)?;
    add_all_names_in(list.as_slice(), into)?;
    Ok(())
}

// Adds the literals of a point.
fn add_literals_at<'t>(
    alloc: Global,
    tree: &IndexedTree<'t>,
    point: Point,
    into: &mut List<Word<'t>>,
) -> Result<(), Memory>
    ensures { OnOk result (all_words into.new ≡
        all_words into.old ++ spec.literals_at tree.now point) }
{
    let spots = nodes(alloc, tree, point)?;
    add_literal_nodes(spots.as_slice(), into)?;
    let list = assignments(alloc, tree, point)?;
    add_all_literals_in(list.as_slice(), into)?;
    Ok(())
}

/// Adds the names at the points of a unit and its parameters.
pub fn add_names<'t>(
    alloc: Global,
    tree: &IndexedTree<'t>,
    scope: &Scope,
    into: &mut List<Word<'t>>,
) -> Result<(), Memory>
    ensures { OnOk result (all_words into.new ≡
        all_words into.old ++ spec.name_words tree.now scope.now) }
{
    for point in scope.graph.points.as_slice() {
        add_names_at(alloc, tree, *point, into)?;
    }
    add_parameters(alloc, tree, scope.unit, into)?;
    Ok(())
}

/// Adds the literals at the points of a unit.
pub fn add_literals<'t>(
    alloc: Global,
    tree: &IndexedTree<'t>,
    scope: &Scope,
    into: &mut List<Word<'t>>,
) -> Result<(), Memory>
    ensures { OnOk result (all_words into.new ≡
        all_words into.old ++ spec.literal_words tree.now scope.now) }
{
    for point in scope.graph.points.as_slice() {
        add_literals_at(alloc, tree, *point, into)?;
    }
    Ok(())
}
