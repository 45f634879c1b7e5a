//! What the carries of a point carry over.

ghost use Rattle.std.specs.Prelude.{◌≡◌, ◌⊎◌, ◌↔◌, ℕ, List as list, Some, IsTrue, IfOk, OnOk};
ghost use Rattle.node_tree.specs.declared.span.Span.{Span as a_span};
ghost use Rattle.node_tree.specs.Tree.{span_of};
ghost use Rattle.node_pool.specs.Spots.{seen, all_seen};
ghost use Rattle.graph_form.specs.Sets.{Among};
ghost use Rattle.taint_form.specs.Tables.{Holds};
ghost use Rattle.taint_tables.specs.declared.sets.Carry.{Carry as a_carry};
ghost use Rattle.taint_plan.specs.Facts.{CarriesFact};
ghost use Rattle.taint_tables.specs.Numbers.{numbers_of};
ghost use Rattle.taint_plan.specs.RowFacts.{HasRange, TaintsHere, TaintsOne, BaseHere, IsBaseFact, HasBaseFact, CarriesOver, CarriesAt};

use node_pool::Spot;
use node_tree::{Memory, Span};
use std::alloc::Global;
use taint_form::base_of;
use taint_tables::{Carry, CarryIndex, Look, push_all};

// Whether a node is an expression with that range.
fn is_expression_at(spot: Spot<'_, '_>, range: Span) -> bool
    ensures { IsTrue result ↔ HasRange range (seen spot.entry) }
{
    spot.node.kind.is_expression() && spot.node.span == range
}

// Adds the facts that taint a node, if it is an expression with that range.
fn add_source<'t>(
    alloc: Global,
    look: Look<'_, 't>,
    spot: Spot<'_, 't>,
    range: Span,
    into: &mut Vec<u32>,
) -> Result<(), Memory>
    ensures { (spans : list a_span) → Holds look.entry.sanitizers.now spans →
        OnOk result ((fact : ℕ) →
        Among into.new.items fact ↔ (Among into.old.items fact ⊎
        TaintsHere spans (numbers_of look.entry.census.now) range (seen spot.entry) fact)) }
{
    if !is_expression_at(spot, range) {
        return Ok(());
    }
    let facts = look.facts(alloc, spot.node)?;
    push_all(&facts, into)?;
    Ok(())
}

// Adds the facts that taint the expressions with that range.
fn add_sources<'t>(
    alloc: Global,
    look: Look<'_, 't>,
    spots: &[Spot<'_, 't>],
    range: Span,
    into: &mut Vec<u32>,
) -> Result<(), Memory>
    ensures { (spans : list a_span) → Holds look.entry.sanitizers.now spans →
        OnOk result ((fact : ℕ) →
        Among into.new.items fact ↔ (Among into.old.items fact ⊎
        TaintsOne spans (numbers_of look.entry.census.now) (all_seen spots.now) range fact)) }
{
    for spot in spots {
        add_source(alloc, look, *spot, range, into)?;
    }
    Ok(())
}

// Adds the fact of the name that holds the object of a node, if there is one.
fn add_base<'t>(look: Look<'_, 't>, spot: Spot<'_, 't>, into: &mut Vec<u32>) -> Result<(), Memory>
    ensures { OnOk result ((fact : ℕ) → Among into.new.items fact ↔ (Among into.old.items fact ⊎
        IsBaseFact (numbers_of look.entry.census.now) (seen spot.entry) fact)) }
{
    match base_of(spot.node) {
        None => Ok(()),
        Some(name) => {
            look.add_fact(name, into)?;
            Ok(())
        }
    }
}

// Adds the fact of the name that holds the object of a node, if it is an expression with that range.
fn add_target<'t>(
    look: Look<'_, 't>,
    spot: Spot<'_, 't>,
    range: Span,
    into: &mut Vec<u32>,
) -> Result<(), Memory>
    ensures { OnOk result ((fact : ℕ) → Among into.new.items fact ↔ (Among into.old.items fact ⊎
        BaseHere (numbers_of look.entry.census.now) range (seen spot.entry) fact)) }
{
    if !is_expression_at(spot, range) {
        return Ok(());
    }
    add_base(look, spot, into)?;
    Ok(())
}

// Adds the facts of the names that hold the objects of the expressions with that range.
fn add_targets<'t>(
    look: Look<'_, 't>,
    spots: &[Spot<'_, 't>],
    range: Span,
    into: &mut Vec<u32>,
) -> Result<(), Memory>
    ensures { OnOk result ((fact : ℕ) → Among into.new.items fact ↔ (Among into.old.items fact ⊎
        HasBaseFact (numbers_of look.entry.census.now) (all_seen spots.now) range fact)) }
{
    for spot in spots {
        add_target(look, *spot, range, into)?;
    }
    Ok(())
}

// Adds each pair of one of the first facts and one of the second ones.
fn add_pairs(firsts: &[u32], seconds: &[u32], into: &mut Vec<(u32, u32)>) -> Result<(), Memory>
    ensures { OnOk result ((from to : ℕ) → Among into.new.items (from, to) ↔
        (Among into.old.items (from, to) ⊎ (Among firsts.now from × Among seconds.now to))) }
{
    for first in firsts {
        add_with(*first, seconds, into)?;
    }
    Ok(())
}

// Adds each pair of this fact and one of the second ones.
fn add_with(first: u32, seconds: &[u32], into: &mut Vec<(u32, u32)>) -> Result<(), Memory>
    ensures { OnOk result ((from to : ℕ) → Among into.new.items (from, to) ↔
        (Among into.old.items (from, to) ⊎ ((first ≡ from) × Among seconds.now to))) }
{
    for second in seconds {
        into.push((first, *second))?;
    }
    Ok(())
}

// Adds what a carry carries over among these nodes.
fn add_carry<'t>(
    alloc: Global,
    look: Look<'_, 't>,
    spots: &[Spot<'_, 't>],
    carry: Carry,
    into: &mut Vec<(u32, u32)>,
) -> Result<(), Memory>
    ensures { (spans : list a_span) → Holds look.entry.sanitizers.now spans →
        OnOk result ((from to : ℕ) →
        Among into.new.items (from, to) ↔ (Among into.old.items (from, to) ⊎
        CarriesOver spans (numbers_of look.entry.census.now) (all_seen spots.now) carry from to)) }
{
    let mut sources = Vec::new(alloc);
    add_sources(alloc, look, spots, carry.source, &mut sources)?;
    let mut targets = Vec::new(alloc);
    add_targets(look, spots, carry.target, &mut targets)?;
    add_pairs(&sources, &targets, into)?;
    Ok(())
}

// Whether a carry has the range.
fn has_range(carry: Carry, range: Span) -> bool
    ensures { IsTrue result ↔ (carry.range ≡ range) }
{
    carry.range == range
}

// Adds what a carry carries over among these nodes, if it has that range.
fn add_if<'t>(
    alloc: Global,
    look: Look<'_, 't>,
    spots: &[Spot<'_, 't>],
    carry: Carry,
    range: Span,
    into: &mut Vec<(u32, u32)>,
) -> Result<(), Memory>
    ensures { (spans : list a_span) → Holds look.entry.sanitizers.now spans →
        OnOk result ((from to : ℕ) →
        Among into.new.items (from, to) ↔ (Among into.old.items (from, to) ⊎
        ((carry.range ≡ range) × CarriesOver spans (numbers_of look.entry.census.now)
        (all_seen spots.now) carry from to))) }
{
    if has_range(carry, range) {
        add_carry(alloc, look, spots, carry, into)?;
        return Ok(());
    }
    Ok(())
}

// Adds what those of these carries that have that range carry over among these nodes.
fn add_all<'t>(
    alloc: Global,
    look: Look<'_, 't>,
    spots: &[Spot<'_, 't>],
    carries: &[Carry],
    range: Span,
    into: &mut Vec<(u32, u32)>,
) -> Result<(), Memory>
    ensures { (spans : list a_span) → Holds look.entry.sanitizers.now spans →
        OnOk result ((from to : ℕ) →
        Among into.new.items (from, to) ↔ (Among into.old.items (from, to) ⊎
        CarriesAt spans (numbers_of look.entry.census.now) (all_seen spots.now)
        carries.now range from to)) }
{
    for carry in carries {
        add_if(alloc, look, spots, *carry, range, into)?;
    }
    Ok(())
}

// Whether the span is the last one.
fn is_last(last: Option<Span>, span: Span) -> bool
    ensures { IsTrue result → last ≡ Some span }
{
    match last {
        None => false,
        Some(before) => before == span,
    }
}

/// The pairs of facts that the carries carry over at a point with these nodes. Nodes with one span mostly stand beside each other,
/// and its carries are looked at once.
pub fn carried<'t>(
    alloc: Global,
    look: Look<'_, 't>,
    spots: &[Spot<'_, 't>],
    carries: &CarryIndex,
) -> Result<Vec<(u32, u32)>, Memory>
    ensures { (spans : list a_span) → Holds look.entry.sanitizers.now spans →
        IfOk result (λ pairs. (from to : ℕ) →
        Among pairs.items (from, to) ↔ ((c : a_carry) × Among carries.now c ×
        CarriesFact spans (numbers_of look.entry.census.now) (all_seen spots.now) c from to)) }
{
    let mut pairs = Vec::new(alloc);
    let mut last = None;
    for spot in spots {
        let span = spot.node.span;
        if is_last(last, span) {
            continue;
        }
        let begun = carries.beginning(span.from);
        add_all(alloc, look, spots, begun, span, &mut pairs)?;
        last = Some(span);
    }
    Ok(pairs)
}
