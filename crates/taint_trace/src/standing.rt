//! Spans, and the units in which they stand.

ghost use Rattle.std.specs.Prelude.{◌≡◌, ◌↔◌, ◌⊎◌, ◌++◌, IfOk, OnOk, map};
ghost use Rattle.std.specs.List.{flat_map};
ghost use Rattle.node_tree.specs.Numbers.{Numbered as numbered};
ghost use Rattle.node_tree.specs.Tree.{span_of};
ghost use Rattle.node_pool.specs.Spots.{seen, all_seen};
ghost use Rattle.graph_form.specs.Sets.{Among};
ghost use Rattle.taint_tables.specs.Names.{span_here, spans_at, spans_among};
ghost use Rattle.taint_trace.specs.declared.standing.Standing.{Standing as a_standing};
ghost use Rattle.taint_trace.specs.Standings.{StandsIn};

use assignments::parameters;
use graph_form::Point;
use node_pool::Spot;
use node_tree::{List, Memory, Span};
use point_nodes::{IndexedTree, nodes};
use std::alloc::Global;
use unit_names::Scope;

/// The span of an expression or of a parameter, and the place of its unit in the list of units.
#[derive(Clone, Copy)]
pub struct Standing {
    pub span: Span,
    pub place: u64,
}

// Adds the span of a node, if it is an expression.
fn add_here(spot: Spot<'_, '_>, into: &mut List<Span>) -> Result<(), Memory>
    ensures { OnOk result (into.new ≡ into.old ++ span_here (seen spot.entry)) }
{
    if spot.node.kind.is_expression() {
        into.push(spot.node.span)?;
        return Ok(());
    }
    Ok(())
}

// Adds the spans of those of these nodes that are expressions.
fn add_all_here(spots: &[Spot<'_, '_>], into: &mut List<Span>) -> Result<(), Memory>
    ensures { OnOk result (into.new ≡ into.old ++ flat_map span_here (all_seen spots.now)) }
{
    for spot in spots {
        add_here(*spot, into)?;
    }
    Ok(())
}

// Adds the spans of the expressions at a point.
fn add_point(
    alloc: Global,
    tree: &IndexedTree<'_>,
    point: Point,
    into: &mut List<Span>,
) -> Result<(), Memory>
    ensures { OnOk result (into.new ≡ into.old ++ spans_at tree.now point) }
{
    let spots = nodes(alloc, tree, point)?;
    add_all_here(spots.as_slice(), into)?;
    Ok(())
}

// Adds the spans of these nodes.
fn add_spans(spots: &[Spot<'_, '_>], into: &mut List<Span>) -> Result<(), Memory>
    ensures { OnOk result (into.new ≡
        into.old ++ map (λ (s : numbered). span_of s.node) (all_seen spots.now)) }
{
    for spot in spots {
        into.push(spot.node.span)?;
    }
    Ok(())
}

// The spans of the expressions and of the parameters of a unit.
fn spans_of(alloc: Global, tree: &IndexedTree<'_>, scope: &Scope) -> Result<List<Span>, Memory>
    ensures { IfOk result (λ spans.
        spans ≡ spans_among tree.now scope.now.unit scope.now.graph.points) }
{
    let mut spans = List::new(alloc);
    for point in scope.graph.points.as_slice() {
        add_point(alloc, tree, *point, &mut spans)?;
    }
    let names = parameters(alloc, tree, scope.unit)?;
    add_spans(names.as_slice(), &mut spans)?;
    Ok(spans)
}

// Adds these spans, with the place of their unit.
fn add_standings(spans: &[Span], place: u64, into: &mut Vec<Standing>) -> Result<(), Memory>
    ensures { OnOk result ((s : a_standing) → Among into.new.items s ↔
        (Among into.old.items s ⊎ ((s.place ≡ place) × Among spans.now s.span))) }
{
    for span in spans {
        into.push(Standing { span: *span, place })?;
    }
    Ok(())
}

/// All spans that stand in these units.
pub fn standings_of(
    alloc: Global,
    tree: &IndexedTree<'_>,
    units: &[Scope],
) -> Result<Vec<Standing>, Memory>
    ensures { IfOk result (λ all. (s : a_standing) →
        Among all.items s ↔ StandsIn tree.now units.now s) }
{
    let mut all = Vec::new(alloc);
    for place in 0..units.len() {
        let spans = spans_of(alloc, tree, &units[place])?;
        add_standings(spans.as_slice(), place as u64, &mut all)?;
    }
    Ok(all)
}
