//! The names that units assign or have as parameters.

ghost use Rattle.std.specs.Prelude.{◌≡◌, ◌++◌, OnOk};
ghost use Rattle.std.specs.List.{flat_map};
ghost use Rattle.assignments.specs.Seen.{seen_assignment, seen_target};
ghost use Rattle.unit_names.specs.Seen.{all_words};
ghost use Rattle.unit_names.specs.Names as spec;

use crate::scope::Scope;
use crate::word::{Word, add_word, name_word};
use assignments::{Assignment, Reach, Target, assignments, parameters};
use flow_graph::Point;
use node_tree::{List, Memory};
use point_nodes::IndexedTree;
use std::alloc::Global;

/// Whether a target is assigned itself, and not only an object that it holds.
pub fn is_assigned(reach: Reach) -> bool
    ensures { result ≡ spec.is_assigned reach }
{
    match reach {
        Reach::Base => false,
        _ => true,
    }
}

// Adds a target's name, if it is assigned itself.
fn add_target<'t>(target: Target<'t>, into: &mut List<Word<'t>>) -> Result<(), Memory>
    ensures { OnOk result (all_words into.new ≡
        all_words into.old ++ spec.target_word (seen_target target.entry)) }
{
    if is_assigned(target.reach) {
        add_word(name_word(target.name), into)?;
        return Ok(());
    }
    Ok(())
}

/// Adds the names that an assignment assigns.
pub fn add_targets<'t>(one: &Assignment<'t>, into: &mut List<Word<'t>>) -> Result<(), Memory>
    ensures { OnOk result (all_words into.new ≡
        all_words into.old ++ spec.target_words (seen_assignment one.now)) }
{
    for target in one.targets.as_slice() {
        add_target(*target, into)?;
    }
    Ok(())
}

// Adds the names that a point assigns.
fn add_assigned<'t>(
    alloc: Global,
    tree: &IndexedTree<'t>,
    point: Point,
    into: &mut List<Word<'t>>,
) -> Result<(), Memory>
    ensures { OnOk result (all_words into.new ≡
        all_words into.old ++ spec.assigned_words tree.now point) }
{
    let list = assignments(alloc, tree, point)?;
    for one in list.as_slice() {
        add_targets(one, into)?;
    }
    Ok(())
}

/// Adds the names of the parameters of a unit.
pub fn add_parameters<'t>(
    alloc: Global,
    tree: &IndexedTree<'t>,
    unit: u32,
    into: &mut List<Word<'t>>,
) -> Result<(), Memory>
    ensures { OnOk result (all_words into.new ≡
        all_words into.old ++ spec.parameter_words tree.now unit) }
{
    let names = parameters(alloc, tree, unit)?;
    for name in names.as_slice() {
        add_word(name_word(name.node.text.as_str()), into)?;
    }
    Ok(())
}

/// Adds the names that a unit assigns or has as parameters.
pub fn add_own<'t>(
    alloc: Global,
    tree: &IndexedTree<'t>,
    scope: &Scope,
    into: &mut List<Word<'t>>,
) -> Result<(), Memory>
    ensures { OnOk result (all_words into.new ≡
        all_words into.old ++ spec.own_words tree.now scope.now) }
{
    for point in scope.graph.points.as_slice() {
        add_assigned(alloc, tree, *point, into)?;
    }
    add_parameters(alloc, tree, scope.unit, into)?;
    Ok(())
}
