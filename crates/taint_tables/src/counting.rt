//! Which names and sources a unit has.

ghost use Rattle.std.specs.Prelude.{◌≡◌, ◌↔◌, ◌⊎◌, ◌++◌, ◌∷◌, [], ℕ, List as list, map, filter, IfOk, OnOk};
ghost use Rattle.std.specs.List.{flat_map};
ghost use Rattle.node_tree.specs.declared.span.Span.{Span as a_span};
ghost use Rattle.node_tree.specs.Numbers.{Numbered as numbered};
ghost use Rattle.node_tree.specs.Span.{span_cmp};
ghost use Rattle.node_tree.specs.Tree.{text_of, span_of};
ghost use Rattle.node_pool.specs.Spots.{seen, all_seen};
ghost use Rattle.graph_form.specs.Sets.{Among};
ghost use Rattle.assignments.specs.Seen.{Named as named, all_assignments, all_targets, seen_assignment};
ghost use Rattle.taint_form.specs.Expressions.{has_span};
ghost use Rattle.taint_form.specs.Tables.{AreNumbers, Holds};
ghost use Rattle.taint_tables.specs.Censuses.{IsCensus, texts, key_cmp};
ghost use Rattle.taint_tables.specs.Names as spec;

use crate::census::Census;
use assignments::{Assignment, Manner, Target, assignments, parameters};
use graph_form::Point;
use node_pool::Spot;
use node_tree::{List, Memory, Span};
use point_nodes::{IndexedTree, nodes};
use std::alloc::Global;
use taint_form::{SpanSet, Table, is_name};

// Whether targets are variables.
fn are_variables(manner: Manner) -> bool
    ensures { result ≡ spec.are_variables manner }
{
    match manner {
        Manner::Imported => false,
        Manner::Caught => false,
        Manner::Defined => false,
        _ => true,
    }
}

// Adds the names of targets.
fn add_targets<'t>(targets: &[Target<'t>], into: &mut List<&'t str>) -> Result<(), Memory>
    ensures { OnOk result (texts into.new ≡
        texts into.old ++ map (λ (t : named). t.name) (all_targets targets.now)) }
{
    for target in targets {
        into.push(target.name)?;
    }
    Ok(())
}

// Adds the variables that an assignment assigns.
fn add_variables<'t>(one: &Assignment<'t>, into: &mut List<&'t str>) -> Result<(), Memory>
    ensures { OnOk result (texts into.new ≡
        texts into.old ++ spec.variables_of (seen_assignment one.now)) }
{
    if are_variables(one.manner) {
        add_targets(one.targets.as_slice(), into)?;
        return Ok(());
    }
    Ok(())
}

// Adds the variables that these assignments assign.
fn add_all_variables<'t>(list: &[Assignment<'t>], into: &mut List<&'t str>) -> Result<(), Memory>
    ensures { OnOk result (texts into.new ≡
        texts into.old ++ flat_map spec.variables_of (all_assignments list.now)) }
{
    for one in list {
        add_variables(one, into)?;
    }
    Ok(())
}

// Adds the name that a node is, if it is one.
fn add_name<'t>(spot: Spot<'_, 't>, into: &mut List<&'t str>) -> Result<(), Memory>
    ensures { OnOk result (texts into.new ≡ texts into.old ++ spec.name_of (seen spot.entry)) }
{
    if is_name(spot.node.kind) {
        into.push(spot.node.text.as_str())?;
        return Ok(());
    }
    Ok(())
}

// Adds those of these nodes that are names.
fn add_names<'t>(spots: &[Spot<'_, 't>], into: &mut List<&'t str>) -> Result<(), Memory>
    ensures { OnOk result (texts into.new ≡
        texts into.old ++ flat_map spec.name_of (all_seen spots.now)) }
{
    for spot in spots {
        add_name(*spot, into)?;
    }
    Ok(())
}

// Adds the span of a node, if it is an expression.
fn add_span(spot: Spot<'_, '_>, into: &mut List<Span>) -> Result<(), Memory>
    ensures { OnOk result (into.new ≡ into.old ++ spec.span_here (seen spot.entry)) }
{
    if spot.node.kind.is_expression() {
        into.push(spot.node.span)?;
        return Ok(());
    }
    Ok(())
}

// Adds the spans of those of these nodes that are expressions.
fn add_spans(spots: &[Spot<'_, '_>], into: &mut List<Span>) -> Result<(), Memory>
    ensures { OnOk result (into.new ≡ into.old ++ flat_map spec.span_here (all_seen spots.now)) }
{
    for spot in spots {
        add_span(*spot, into)?;
    }
    Ok(())
}

// Adds the names and the spans of the expressions at a point.
fn add_point<'t>(
    alloc: Global,
    tree: &IndexedTree<'t>,
    point: Point,
    names: &mut List<&'t str>,
    spans: &mut List<Span>,
) -> Result<(), Memory>
    ensures names { OnOk result (texts names.new ≡
        texts names.old ++ spec.names_at tree.now point) }
    ensures spans { OnOk result (spans.new ≡ spans.old ++ spec.spans_at tree.now point) }
{
    let spots = nodes(alloc, tree, point)?;
    add_names(spots.as_slice(), names)?;
    add_spans(spots.as_slice(), spans)?;
    let list = assignments(alloc, tree, point)?;
    add_all_variables(list.as_slice(), names)?;
    Ok(())
}

// Adds the names and the spans of the expressions at these points.
fn add_points<'t>(
    alloc: Global,
    tree: &IndexedTree<'t>,
    points: &[Point],
    names: &mut List<&'t str>,
    spans: &mut List<Span>,
) -> Result<(), Memory>
    ensures names { OnOk result (texts names.new ≡
        texts names.old ++ flat_map (spec.names_at tree.now) points.now) }
    ensures spans { OnOk result (spans.new ≡
        spans.old ++ flat_map (spec.spans_at tree.now) points.now) }
{
    for point in points {
        add_point(alloc, tree, *point, names, spans)?;
    }
    Ok(())
}

// Adds the texts and the spans of these nodes.
fn add_all<'t>(
    spots: &[Spot<'_, 't>],
    names: &mut List<&'t str>,
    spans: &mut List<Span>,
) -> Result<(), Memory>
    ensures names { OnOk result (texts names.new ≡
        texts names.old ++ map (λ (s : numbered). text_of s.node) (all_seen spots.now)) }
    ensures spans { OnOk result (spans.new ≡
        spans.old ++ map (λ (s : numbered). span_of s.node) (all_seen spots.now)) }
{
    for spot in spots {
        names.push(spot.node.text.as_str())?;
        spans.push(spot.node.span)?;
    }
    Ok(())
}

// A table of these names.
fn name_table<'t>(alloc: Global, names: &[&'t str]) -> Result<Table<&'t str>, Memory>
    ensures numbers { IfOk result (λ t. AreNumbers key_cmp t.numbers t.keys.items) }
    ensures same { IfOk result (λ t. (n : list ℕ) →
        Among (texts t.keys.items) n ↔ Among (texts names.now) n) }
{
    let mut table = Table::new(alloc);
    for name in names {
        table.add(*name)?;
    }
    Ok(table)
}

// Adds a span, if it is one of a set.
fn add_source(span: Span, all: &SpanSet, into: &mut Table<Span>) -> Result<(), Memory>
    requires { AreNumbers span_cmp into.old.numbers into.old.keys.items }
    ensures numbers { OnOk result (AreNumbers span_cmp into.new.numbers into.new.keys.items) }
    ensures same { (spans : list a_span) → Holds all.now spans → OnOk result ((s : a_span) →
        Among into.new.keys.items s ↔ (Among into.old.keys.items s ⊎
        Among (filter (has_span spans) (span ∷ [])) s)) }
{
    if all.has(span) {
        into.add(span)?;
        return Ok(());
    }
    Ok(())
}

// A table of those of these spans that a set has.
fn source_table(alloc: Global, spans: &[Span], all: &SpanSet) -> Result<Table<Span>, Memory>
    ensures numbers { IfOk result (λ t. AreNumbers span_cmp t.numbers t.keys.items) }
    ensures same { (sources : list a_span) → Holds all.now sources →
        IfOk result (λ t. (s : a_span) →
        Among t.keys.items s ↔ Among (filter (has_span sources) spans.now) s) }
{
    let mut table = Table::new(alloc);
    for span in spans {
        add_source(*span, all, &mut table)?;
    }
    Ok(table)
}

/// The names of a unit with these points, and those of the sources that it has.
pub fn census_of<'t>(
    alloc: Global,
    tree: &IndexedTree<'t>,
    unit: u32,
    points: &[Point],
    all: &SpanSet,
) -> Result<Census<'t>, Memory>
    ensures { (sources : list a_span) → Holds all.now sources →
        IfOk result (IsCensus tree.now unit points.now sources) }
{
    let mut names = List::new(alloc);
    let mut spans = List::new(alloc);
    add_points(alloc, tree, points, &mut names, &mut spans)?;
    let own = parameters(alloc, tree, unit)?;
    add_all(own.as_slice(), &mut names, &mut spans)?;
    let names = name_table(alloc, names.as_slice())?;
    let sources = source_table(alloc, spans.as_slice(), all)?;
    Ok(Census { names, sources })
}
