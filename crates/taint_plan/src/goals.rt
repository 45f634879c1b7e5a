//! The goals of sinks.

ghost use Rattle.std.specs.Prelude.{◌≡◌, ◌⊎◌, ◌↔◌, ℕ, List as list, IfOk, OnOk};
ghost use Rattle.node_tree.specs.declared.span.Span.{Span as a_span};
ghost use Rattle.node_tree.specs.declared.node.Node.{Node as a_node};
ghost use Rattle.node_pool.specs.Spots.{all_seen};
ghost use Rattle.graph_form.specs.Sets.{Among};
ghost use Rattle.point_nodes.specs.Tops.{tops_of};
ghost use Rattle.taint_form.specs.Expressions.{nodes_now};
ghost use Rattle.taint_form.specs.Tables.{Holds};
ghost use Rattle.taint_plan.specs.declared.goal.Goal.{Goal as a_goal};
ghost use Rattle.taint_tables.specs.declared.sink.Sink.{Sink as a_sink};
ghost use Rattle.taint_tables.specs.Taints.{Taints};
ghost use Rattle.taint_tables.specs.Numbers.{numbers_of};
ghost use Rattle.taint_plan.specs.SinkGoals.{AtPoints, IsGoalBy, IsOf, TaintsAny, outermost_among};

use crate::goal::Goal;
use graph_form::Point;
use node_pool::Spot;
use node_tree::{List, Memory, Node, Span};
use point_nodes::{IndexedTree, tops};
use std::alloc::Global;
use taint_form::add_outermost;
use taint_tables::{Hull, Look, Sink, SinkIndex};

// Adds the goals of a sink by an expression at a point.
fn add_facts<'t>(
    alloc: Global,
    look: Look<'_, 't>,
    sink: u64,
    place: u32,
    node: &'t Node,
    into: &mut List<Goal>,
) -> Result<(), Memory>
    ensures { (spans : list a_span) → Holds look.entry.sanitizers.now spans →
        OnOk result ((g : a_goal) →
        Among into.new g ↔ (Among into.old g ⊎
        IsOf sink place (Taints spans (numbers_of look.entry.census.now) node.now) g)) }
{
    let facts = look.facts(alloc, node)?;
    for fact in &facts {
        into.push(Goal {
            sink,
            point: place,
            fact: *fact,
        })?;
    }
    Ok(())
}

// Adds the goals of a sink by these expressions at a point.
fn add_all_facts<'t>(
    alloc: Global,
    look: Look<'_, 't>,
    sink: u64,
    place: u32,
    shown: &[&'t Node],
    into: &mut List<Goal>,
) -> Result<(), Memory>
    ensures { (spans : list a_span) → Holds look.entry.sanitizers.now spans →
        OnOk result ((g : a_goal) →
        Among into.new g ↔ (Among into.old g ⊎
        IsOf sink place (TaintsAny spans (numbers_of look.entry.census.now)
        (nodes_now shown.now)) g)) }
{
    for node in shown {
        add_facts(alloc, look, sink, place, *node, into)?;
    }
    Ok(())
}

// The outermost of the expressions in these nodes that lie in a range.
fn outermost<'t>(
    alloc: Global,
    heads: &[Spot<'_, 't>],
    range: Span,
) -> Result<List<&'t Node>, Memory>
    ensures { IfOk result (λ outer. nodes_now outer ≡ outermost_among range (all_seen heads.now)) }
{
    let mut outer = List::new(alloc);
    for top in heads {
        add_outermost(range, top.node, &mut outer)?;
    }
    Ok(outer)
}

// Adds the goals of a sink by what stands in its range at a point with these tops.
fn add_sink<'t>(
    alloc: Global,
    look: Look<'_, 't>,
    heads: &[Spot<'_, 't>],
    place: u32,
    sink: Sink,
    into: &mut List<Goal>,
) -> Result<(), Memory>
    ensures { (spans : list a_span) → Holds look.entry.sanitizers.now spans →
        OnOk result ((g : a_goal) →
        Among into.new g ↔ (Among into.old g ⊎
        IsOf sink.place place (TaintsAny spans (numbers_of look.entry.census.now)
        (outermost_among sink.range (all_seen heads.now))) g)) }
{
    let outer = outermost(alloc, heads, sink.range)?;
    add_all_facts(alloc, look, sink.place, place, outer.as_slice(), into)?;
    Ok(())
}

// The sinks that may hold an expression at a point with these tops.
fn sinks_at(alloc: Global, index: &SinkIndex, heads: &[Spot<'_, '_>]) -> Result<Vec<Sink>, Memory>
    ensures only { IfOk result (λ found. (s : a_sink) → Among found.items s → Among index.now s) }
    ensures all { IfOk result (λ found. (s : a_sink) → Among index.now s → (e : a_node) →
        Among (outermost_among s.range (all_seen heads.now)) e → Among found.items s) }
{
    let hull = Hull::of(heads);
    let sinks = index.meeting(alloc, hull)?;
    Ok(sinks)
}

// Adds the goals of these sinks at a point with these tops.
fn add_sinks<'t>(
    alloc: Global,
    look: Look<'_, 't>,
    heads: &[Spot<'_, 't>],
    place: u32,
    sinks: &[Sink],
    into: &mut List<Goal>,
) -> Result<(), Memory>
    ensures { (spans : list a_span) → Holds look.entry.sanitizers.now spans →
        OnOk result ((g : a_goal) →
        Among into.new g ↔ (Among into.old g ⊎ ((g.point ≡ place) ×
        IsGoalBy spans sinks.now (numbers_of look.entry.census.now)
        (all_seen heads.now) g.sink g.fact))) }
{
    for sink in sinks {
        add_sink(alloc, look, heads, place, *sink, into)?;
    }
    Ok(())
}

// Adds the goals of the sinks at a point.
fn add_point<'t>(
    alloc: Global,
    tree: &IndexedTree<'t>,
    look: Look<'_, 't>,
    index: &SinkIndex,
    place: u32,
    point: Point,
    into: &mut List<Goal>,
) -> Result<(), Memory>
    ensures { (spans : list a_span) → Holds look.entry.sanitizers.now spans →
        OnOk result ((g : a_goal) →
        Among into.new g ↔ (Among into.old g ⊎ ((g.point ≡ place) ×
        IsGoalBy spans index.now (numbers_of look.entry.census.now)
        (tops_of tree.now point) g.sink g.fact))) }
{
    let heads = tops(alloc, tree, point)?;
    let sinks = sinks_at(alloc, index, heads.as_slice())?;
    add_sinks(alloc, look, heads.as_slice(), place, &sinks, into)?;
    Ok(())
}

/// The goals of the sinks at these points.
pub fn goals<'t>(
    alloc: Global,
    tree: &IndexedTree<'t>,
    look: Look<'_, 't>,
    index: &SinkIndex,
    points: &[Point],
) -> Result<List<Goal>, Memory>
    ensures { (spans : list a_span) → Holds look.entry.sanitizers.now spans →
        IfOk result (λ goals. (g : a_goal) →
        Among goals g ↔ AtPoints (λ p. IsGoalBy spans index.now (numbers_of look.entry.census.now)
        (tops_of tree.now p)) points.now g) }
{
    let mut goals = List::new(alloc);
    for (place, point) in points.iter().enumerate() {
        if place > u32::MAX as usize {
            return Err(Memory);
        }
        add_point(alloc, tree, look, index, place as u32, *point, &mut goals)?;
    }
    Ok(goals)
}
