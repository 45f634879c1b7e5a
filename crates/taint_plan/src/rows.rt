//! What the points of a unit do to the facts.

ghost use Rattle.std.specs.Prelude.{◌≡◌, ◌&&◌, ◌⊎◌, ◌↔◌, ℕ, length, List as list, Some, slice_get, IfOk, OnOk};
ghost use Rattle.node_tree.specs.declared.span.Span.{Span as a_span};
ghost use Rattle.graph_form.specs.declared.graph.Point.{Point as a_point};
ghost use Rattle.graph_form.specs.Sets.{Among};
ghost use Rattle.flow_reach.specs.declared.moves.Move.{Move as a_move};
ghost use Rattle.flow_reach.specs.Carried.{TurnsBy};
ghost use Rattle.assignments.specs.Assignments.{assigned_of};
ghost use Rattle.assignments.specs.Seen.{seen_assignment, seen_target, all_assignments};
ghost use Rattle.taint_form.specs.Origins.{Comes, IsListed};
ghost use Rattle.taint_form.specs.Tables.{Holds};
ghost use Rattle.point_nodes.specs.Tops.{nodes_of};
ghost use Rattle.taint_tables.specs.declared.sets.Carry.{Carry as a_carry};
ghost use Rattle.taint_plan.specs.Facts.{AfterFact, AfterFacts, CarriesFact, PointFactOf, TaintsValue, Same};
ghost use Rattle.taint_tables.specs.Numbers.{numbers_of};
ghost use Rattle.taint_plan.specs.RowFacts.{AreAims, IsAimOf};
ghost use Rattle.taint_form.specs.declared.origins.Aim.{Aim as an_aim};
ghost use Rattle.taint_plan.specs.Spreading.{renews as renews_spec, is_plain as is_plain_spec};

use crate::carrying::carried;
use assignments::{Assignment, Manner, Reach, Target, assignments};
use flow_reach::Move;
use graph_form::Point;
use node_tree::{List, Memory};
use point_nodes::{IndexedTree, nodes};
use std::alloc::Global;
use taint_form::{Aim, Origins};
use taint_tables::{CarryIndex, Look};

// Whether targets get a new value, apart from what they held.
fn renews(manner: Manner) -> bool
    ensures { result ≡ renews_spec manner }
{
    match manner {
        Manner::Augmented => false,
        Manner::Stepped => false,
        _ => true,
    }
}

// Whether a target isn't only what holds the object.
fn is_plain(reach: Reach) -> bool
    ensures { result ≡ is_plain_spec reach }
{
    match reach {
        Reach::Base => false,
        _ => true,
    }
}

// Whether nothing is left of what a target held.
fn is_renewed(manner: Manner, reach: Reach) -> bool
    ensures { result ≡ (renews_spec manner && is_plain_spec reach) }
{
    renews(manner) && is_plain(reach)
}

// The facts of the targets that are names of the unit.
fn aims<'t>(alloc: Global, look: Look<'_, 't>, one: &Assignment<'t>) -> Result<Vec<Aim>, Memory>
    ensures { IfOk result (λ aims.
        AreAims (numbers_of look.entry.census.now) (seen_assignment one.now) aims.items) }
{
    let mut aims = Vec::new(alloc);
    for target in one.targets.as_slice() {
        add_aim(look, one.manner, target, &mut aims)?;
    }
    Ok(aims)
}

// Adds the fact of a target, if it is a name of the unit.
fn add_aim<'t>(
    look: Look<'_, 't>,
    manner: Manner,
    target: &Target<'t>,
    aims: &mut Vec<Aim>,
) -> Result<(), Memory>
    ensures { OnOk result ((aim : an_aim) → Among aims.new.items aim ↔
        (Among aims.old.items aim ⊎
        IsAimOf (numbers_of look.entry.census.now) manner (seen_target target.now) aim)) }
{
    let renewed = is_renewed(manner, target.reach);
    match look.fact(target.name)? {
        None => Ok(()),
        Some(fact) => {
            aims.push(Aim { fact, renewed })?;
            Ok(())
        }
    }
}

// The facts that taint the value.
fn value_facts<'t>(
    alloc: Global,
    look: Look<'_, 't>,
    one: &Assignment<'t>,
) -> Result<Vec<u32>, Memory>
    ensures { (spans : list a_span) → Holds look.entry.sanitizers.now spans →
        IfOk result (λ facts. (fact : ℕ) →
        Among facts.items fact ↔
        TaintsValue spans (numbers_of look.entry.census.now) (seen_assignment one.now).value fact) }
{
    match one.value {
        None => Ok(Vec::new(alloc)),
        Some(value) => {
            let facts = look.facts(alloc, value)?;
            Ok(facts)
        }
    }
}

// Lets an assignment follow others.
fn follow<'t>(
    alloc: Global,
    look: Look<'_, 't>,
    one: &Assignment<'t>,
    origins: &mut Origins,
) -> Result<(), Memory>
    requires { IsListed origins.old }
    ensures listed { OnOk result (IsListed origins.new) }
    ensures after { (spans : list a_span) → Holds look.entry.sanitizers.now spans →
        OnOk result ((from to : ℕ) →
        Comes origins.new from to ↔
        AfterFact spans (numbers_of look.entry.census.now) (Comes origins.old)
        (seen_assignment one.now) from to) }
{
    let value = value_facts(alloc, look, one)?;
    let aims = aims(alloc, look, one)?;
    origins.assign(alloc, &value, &aims)?;
    Ok(())
}

// From which facts those after these assignments come.
fn origins_of<'t>(
    alloc: Global,
    look: Look<'_, 't>,
    given: &[Assignment<'t>],
) -> Result<Origins, Memory>
    ensures listed { IfOk result IsListed }
    ensures after { (spans : list a_span) → Holds look.entry.sanitizers.now spans →
        IfOk result (λ o. (from to : ℕ) →
        Comes o from to ↔
        AfterFacts spans (numbers_of look.entry.census.now) Same
        (all_assignments given.now) from to) }
{
    let mut origins = Origins::new(alloc);
    for one in given {
        follow(alloc, look, one, &mut origins)?;
    }
    Ok(origins)
}

// The pairs of facts that the carries carry over at a point. Without carries its nodes aren't listed.
fn carried_at<'t>(
    alloc: Global,
    tree: &IndexedTree<'t>,
    look: Look<'_, 't>,
    carries: &CarryIndex,
    point: Point,
) -> Result<Vec<(u32, u32)>, Memory>
    ensures { (spans : list a_span) → Holds look.entry.sanitizers.now spans →
        IfOk result (λ pairs. (from to : ℕ) →
        Among pairs.items (from, to) ↔ ((c : a_carry) × Among carries.now c ×
        CarriesFact spans (numbers_of look.entry.census.now) (nodes_of tree.now point) c from to)) }
{
    if carries.is_empty() {
        return Ok(Vec::new(alloc));
    }
    let spots = nodes(alloc, tree, point)?;
    carried(alloc, look, spots.as_slice(), carries)
}

// What a point does to the facts.
fn row<'t>(
    alloc: Global,
    tree: &IndexedTree<'t>,
    look: Look<'_, 't>,
    carries: &CarryIndex,
    point: Point,
) -> Result<Move, Memory>
    ensures { (spans : list a_span) → Holds look.entry.sanitizers.now spans →
        IfOk result (λ row. (from to : ℕ) →
        TurnsBy row from to ↔
        PointFactOf tree.now spans carries.now (numbers_of look.entry.census.now) point from to) }
{
    let list = assignments(alloc, tree, point)?;
    let origins = origins_of(alloc, look, list.as_slice())?;
    let pairs = carried_at(alloc, tree, look, carries, point)?;
    let row = origins.row(alloc, &pairs)?;
    Ok(row)
}

/// What the points do to the facts, in their order.
pub fn rows<'t>(
    alloc: Global,
    tree: &IndexedTree<'t>,
    look: Look<'_, 't>,
    carries: &CarryIndex,
    points: &[Point],
) -> Result<List<Move>, Memory>
    ensures rows { IfOk result (λ rows. length rows ≡ length points.now) }
    ensures each { (spans : list a_span) → Holds look.entry.sanitizers.now spans →
        IfOk result (λ rows. (i : ℕ) (p : a_point) (row : a_move) →
        slice_get points.now i ≡ Some p → slice_get rows i ≡ Some row →
        (from to : ℕ) → TurnsBy row from to ↔
        PointFactOf tree.now spans carries.now (numbers_of look.entry.census.now) p from to) }
{
    let mut rows = List::new(alloc);
    for point in points {
        rows.push(row(alloc, tree, look, carries, *point)?)?;
    }
    Ok(rows)
}
