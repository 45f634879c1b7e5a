//! What is known of names where they stand.

ghost use Rattle.std.specs.Prelude.{ℕ, ◌≡◌, ◌<◌, ◌-◌, ◌^◌, ◌++◌, length, slice_get, IfOk, OnOk, IfSome, option_map, option_copied, if◌then◌else◌, [], ◌∷◌};
ghost use Rattle.std.specs.BTreeSet.{contains};
ghost use Rattle.std.specs.Ordering.{nat_cmp};
ghost use Rattle.node_pool.specs.Spots.{seen};
ghost use Rattle.assignments.specs.Seen.{seen_assignment};
ghost use Rattle.unit_names.specs.Names.{is_assigned as is_assigned_spec};
ghost use Rattle.unit_names.specs.Seen.{seen_word};
ghost use Rattle.const_prop.specs.Constants.{numbers_in, target_numbers as target_numbers_spec};
ghost use Rattle.const_prop.specs.Settled.{all_sightings};
ghost use Rattle.const_prop.specs.Views as spec;

use crate::sighting::Sighting;
use assignments::{Assignment, Target, assignments};
use flow_graph::Point;
use held_values::HeldValues;
use node_pool::Spot;
use node_tree::Memory;
use point_nodes::{IndexedTree, nodes};
use std::alloc::Global;
use std::collections::BTreeSet;
use unit_effects::Tables;
use unit_names::{Scope, Word, is_assigned, is_name, word_of};

/// A unit in which names are looked at: its names and literals, and what holds there, unless it is
/// too large.
#[derive(Clone, Copy)]
pub struct View<'v, 't> {
    pub tables: Tables<'v, 't>,
    pub held: Option<&'v HeldValues>,
}

// Adds the number of a target, if it is assigned itself.
fn add_number(target: Target<'_>, numbers: &mut BTreeSet<u32>) -> Result<(), Memory>
    ensures { OnOk result (spec.AddsNumbers numbers.old
        (if is_assigned_spec target.entry.reach then target.entry.at ∷ [] else []) numbers.new) }
{
    if !is_assigned(target.reach) {
        return Ok(());
    }
    numbers.insert(target.at)?;
    Ok(())
}

// Adds the numbers of the names that an assignment assigns.
fn add_numbers(one: &Assignment<'_>, numbers: &mut BTreeSet<u32>) -> Result<(), Memory>
    ensures { OnOk result
        (spec.AddsNumbers numbers.old (numbers_in (seen_assignment one.now)) numbers.new) }
{
    for target in one.targets.as_slice() {
        add_number(*target, numbers)?;
    }
    Ok(())
}

// The numbers of the names that a point assigns.
fn target_numbers(
    alloc: Global,
    tree: &IndexedTree<'_>,
    point: Point,
) -> Result<BTreeSet<u32>, Memory>
    ensures { IfOk result (λ numbers. (at : ℕ) →
        contains nat_cmp numbers at ≡ spec.is_in (target_numbers_spec tree.now point) at) }
{
    let mut numbers = BTreeSet::new(alloc);
    for one in assignments(alloc, tree, point)?.as_slice() {
        add_numbers(one, &mut numbers)?;
    }
    Ok(numbers)
}

// The number that the answer has for a name before a point, if it is that of a literal.
fn told(held: &HeldValues, place: u32, name: u32) -> Option<u32>
    requires place { place < held.now.points }
    requires name { name < held.now.names }
    ensures value { result ≡ spec.told (spec.number_there held.now place name) }
    ensures some { IfSome result (λ number. 0 < number) }
{
    held.value(place, name)
}

impl<'v, 't> View<'v, 't> {
    // The literal of a number.
    fn literal(&self, number: u32) -> Option<Word<'t>>
        requires { 0 < number }
        ensures { option_map seen_word result ≡
            slice_get self.now.tables.literals.now (number - 1) }
    {
        let place = number as usize - 1;
        self.tables.literals.as_slice().get(place).copied()
    }

    // The literal that a name holds before the point at that place.
    fn held_at(&self, place: u32, name: Word<'t>) -> Option<Word<'t>>
        requires { spec.Reaches self.now place }
        ensures { option_map seen_word result ≡ spec.held_at self.now place (seen_word name.entry) }
    {
        let held = self.held?;
        let number = self.tables.names.place(name)?;
        let value = told(held, place, number)?;
        self.literal(value)
    }

    // Adds what is known of a node at the point at that place, if it is a name.
    fn add_node(
        &self,
        targets: &BTreeSet<u32>,
        place: u32,
        spot: Spot<'_, 't>,
        into: &mut Vec<Sighting<'t>>,
    ) -> Result<(), Memory>
        requires { spec.Reaches self.now place }
        ensures { OnOk result (all_sightings into.new.items ≡ all_sightings into.old.items ++
            spec.sighted (contains nat_cmp targets.now) (spec.held_at self.now place)
            (seen spot.entry)) }
    {
        if !is_name(spot.node.kind) {
            return Ok(());
        }
        let literal = if targets.contains(&spot.at) {
            None
        } else {
            self.held_at(place, word_of(spot.node))
        };
        into.push(Sighting {
            at: spot.at,
            literal,
        })?;
        Ok(())
    }

    // Adds what is known of the names of a point.
    fn add_point(
        &self,
        alloc: Global,
        tree: &IndexedTree<'t>,
        place: u32,
        point: Point,
        into: &mut Vec<Sighting<'t>>,
    ) -> Result<(), Memory>
        requires { spec.Reaches self.now place }
        ensures { OnOk result (all_sightings into.new.items ≡ all_sightings into.old.items ++
            spec.sightings_at tree.now (spec.held_at self.now place) point) }
    {
        let targets = target_numbers(alloc, tree, point)?;
        for spot in nodes(alloc, tree, point)?.as_slice() {
            self.add_node(&targets, place, *spot, into)?;
        }
        Ok(())
    }

    /// Adds what is known of the names of a unit.
    pub fn add_unit(
        &self,
        alloc: Global,
        tree: &IndexedTree<'t>,
        scope: &Scope,
        into: &mut Vec<Sighting<'t>>,
    ) -> Result<(), Memory>
        requires few { length scope.now.graph.points < 2 ^ 32 }
        requires about { spec.IsAbout (option_copied self.now.held)
            (length scope.now.graph.points) (length self.now.tables.names.now) }
        ensures { OnOk result (all_sightings into.new.items ≡ all_sightings into.old.items ++
            spec.sightings_from tree.now (spec.held_at self.now) 0 scope.now.graph.points) }
    {
        for (place, point) in scope.graph.points.as_slice().iter().enumerate() {
            self.add_point(alloc, tree, place as u32, *point, into)?;
        }
        Ok(())
    }
}
