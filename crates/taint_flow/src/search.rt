//! The hits in one unit.

ghost use Rattle.std.specs.Prelude.{◌≡◌, ◌⊎◌, ◌↔◌, ◌+◌, ◌<◌, ◌≤◌, ℕ, IsTrue, Some, slice_get, OnOk, IfOk, length};
ghost use Rattle.std.specs.Global.{Vec as vec};
ghost use Rattle.node_tree.specs.declared.node.Node.{Node as a_node};
ghost use Rattle.graph_form.specs.declared.graph.Graph.{Graph as a_graph};
ghost use Rattle.graph_form.specs.Sets.{Among};
ghost use Rattle.flow_reach.specs.Carried.{Pairs};
ghost use Rattle.flow_reach.specs.Reached.{Tells};
ghost use Rattle.flow_reach.specs.Spread.{IsTable, RowHas};
ghost use Rattle.taint_tables.specs.Censuses.{IsCensus};
ghost use Rattle.taint_flow.specs.Lowest.{HitsIn, Lowers};
ghost use Rattle.taint_flow.specs.Found.{AreFew, AreInside, AreOfSinks, ByNames, ByPlan, BySource, CarriesName, IsRule};
ghost use Rattle.taint_flow.specs.Scoped.{IsScope};
ghost use Rattle.taint_flow.specs.Splits.{IsSplit, StartsBy};
ghost use Rattle.taint_flow.specs.Still.{KeepsFacts};

use crate::apart::{named_goals, own_goals};
use crate::least::Least;
use crate::rule::Rule;
use crate::split::Split;
use crate::still::{note_reached, search_still};
use flow_reach::{Reached, reach_from};
use graph_form::Graph;
use node_tree::{Memory, Span};
use point_nodes::IndexedTree;
use std::alloc::Global;
use taint_plan::{Goal, Plan, plan_of};
use taint_tables::{Census, Look};
use unit_names::Scope;

// Adds the entry with the name whose fact begins there, if it is that of a name.
fn add_begin(sources: u32, fact: u32, into: &mut Vec<(u32, u32)>) -> Result<(), Memory>
    ensures { OnOk result ((point name : ℕ) → Among into.new.items (point, name) ↔
        (Among into.old.items (point, name) ⊎ ((0 ≡ point) × (fact ≡ sources + name)))) }
{
    if fact < sources {
        return Ok(());
    }
    into.push((0, fact - sources))?;
    Ok(())
}

// The entry with each of the names whose facts begin there.
fn at_entry(alloc: Global, sources: u32, begins: &[u32]) -> Result<Vec<(u32, u32)>, Memory>
    ensures { IfOk result (λ starts. (point name : ℕ) → Among starts.items (point, name) ↔
        ((0 ≡ point) × Among begins.now (sources + name))) }
{
    let mut starts = Vec::new(alloc);
    for fact in begins {
        add_begin(sources, *fact, &mut starts)?;
    }
    Ok(starts)
}

// Adds each of these points with the name.
fn add_each(points: &[u32], name: u32, into: &mut Vec<(u32, u32)>) -> Result<(), Memory>
    ensures { OnOk result ((to other : ℕ) → Among into.new.items (to, other) ↔
        (Among into.old.items (to, other) ⊎ (Among points.now to × (name ≡ other)))) }
{
    for point in points {
        into.push((*point, name))?;
    }
    Ok(())
}

// Adds the points after these ones, each with the name that is added before it.
fn add_after(
    after: &[Vec<u32>],
    added: &[(u32, u32)],
    into: &mut Vec<(u32, u32)>,
) -> Result<(), Memory>
    requires { (point name : ℕ) → Among added.now (point, name) → point < length after.now }
    ensures { OnOk result ((to name : ℕ) → Among into.new.items (to, name) ↔
        (Among into.old.items (to, name) ⊎
        ((point : ℕ) × Among added.now (point, name) × RowHas after.now point to))) }
{
    for at in added {
        add_each(&after[at.0 as usize], at.1, into)?;
    }
    Ok(())
}

// Where names begin to be followed for a source that begins with these facts, and that these points add names with.
fn starts_of(
    alloc: Global,
    sources: u32,
    begins: &[u32],
    after: &[Vec<u32>],
    added: &[(u32, u32)],
) -> Result<Vec<(u32, u32)>, Memory>
    requires { (point name : ℕ) → Among added.now (point, name) → point < length after.now }
    ensures { (graph : a_graph) → IsTable graph after.now → IfOk result
        (λ starts. (point name : ℕ) → Pairs starts.items point name ↔
        StartsBy graph sources begins.now added.now point name) }
{
    let mut starts = at_entry(alloc, sources, begins)?;
    add_after(after, added, &mut starts)?;
    Ok(starts)
}

// Notes the goals of names that are reached, for this source.
fn note(names: &Reached, goals: &[Goal], source: Span, least: &mut Least)
    requires goals { AreInside names.now.points names.now.facts goals.now }
    requires sinks { AreOfSinks (length least.old.sources.items) goals.now }
    ensures { Lowers (BySource source (Tells names.now) goals.now)
        least.old.sources.items least.new.sources.items }
{
    for goal in goals {
        if names.has(goal.point, goal.fact) {
            least.note(goal.sink, source);
        }
    }
}

// Notes the goals of names to which some route carries facts that begin with the source of that number. Where the source adds no
// name there are none.
fn search_source(
    alloc: Global,
    graph: &Graph,
    plan: &Plan,
    split: &Split,
    named: &[Goal],
    number: usize,
    source: Span,
    least: &mut Least,
) -> Result<(), Memory>
    requires keeps { KeepsFacts graph.now plan.now split.now.sources }
    requires split { IsSplit graph.now plan.now split.now.sources split.now }
    requires number { number < split.now.sources }
    requires begins { AreFew plan.now.moves.facts plan.now.begins.items }
    requires goals { AreInside (length graph.now.points) split.now.names.facts named.now }
    requires sinks { AreOfSinks (length least.old.sources.items) named.now }
    ensures { (begins : vec ℕ) → slice_get plan.now.begins.items number ≡ Some begins → OnOk result
        (Lowers (BySource source (CarriesName begins.items graph.now plan.now.moves
        split.now.sources) named.now) least.old.sources.items least.new.sources.items) }
{
    let begins = &plan.begins[number];
    let added = &split.added[number];
    let starts = starts_of(alloc, split.sources, begins, &split.ready.after, added)?;
    if starts.is_empty() {
        return Ok(());
    }
    let names = reach_from(alloc, graph, &split.names, &split.ready, &starts)?;
    note(&names, named, source, least);
    Ok(())
}

// Notes the goals of names to which some route carries facts that begin with one of these sources.
fn search_names(
    alloc: Global,
    graph: &Graph,
    plan: &Plan,
    split: &Split,
    named: &[Goal],
    sources: &[Span],
    least: &mut Least,
) -> Result<(), Memory>
    requires keeps { KeepsFacts graph.now plan.now split.now.sources }
    requires split { IsSplit graph.now plan.now split.now.sources split.now }
    requires sources { length sources.now ≡ split.now.sources }
    requires begins { AreFew plan.now.moves.facts plan.now.begins.items }
    requires goals { AreInside (length graph.now.points) split.now.names.facts named.now }
    requires sinks { AreOfSinks (length least.old.sources.items) named.now }
    ensures { OnOk result (Lowers (ByNames graph.now plan.now split.now.sources named.now
        sources.now (length sources.now)) least.old.sources.items least.new.sources.items) }
{
    for (number, source) in sources.iter().enumerate() {
        search_source(alloc, graph, plan, split, named, number, *source, least)?;
    }
    Ok(())
}

// Notes the goals to which some route carries facts that begin with one of these sources. The facts of the sources themselves are
// carried on every path.
fn search_plan(
    alloc: Global,
    graph: &Graph,
    plan: &Plan,
    sources: &[Span],
    least: &mut Least,
) -> Result<(), Memory>
    requires keeps { KeepsFacts graph.now plan.now (length sources.now) }
    requires facts { length sources.now ≤ plan.now.moves.facts }
    requires begins { AreFew plan.now.moves.facts plan.now.begins.items }
    requires goals { AreInside (length graph.now.points) plan.now.moves.facts plan.now.goals }
    requires sinks { AreOfSinks (length least.old.sources.items) plan.now.goals }
    ensures { OnOk result (Lowers (ByPlan graph.now plan.now sources.now (length sources.now))
        least.old.sources.items least.new.sources.items) }
{
    let split = Split::of(alloc, graph, plan, sources.len())?;
    let own = own_goals(alloc, split.sources, plan.goals.as_slice())?;
    let named = named_goals(alloc, split.sources, plan.goals.as_slice())?;
    note_reached(&split.reached, &own, sources, least);
    search_names(alloc, graph, plan, &split, &named, sources, least)?;
    Ok(())
}

/// Notes the hits of a unit with these names and sources.
pub fn search<'t>(
    alloc: Global,
    tree: &IndexedTree<'t>,
    scope: &Scope,
    rule: &Rule<'_>,
    census: &Census<'t>,
    least: &mut Least,
) -> Result<(), Memory>
    requires rule { IsRule rule.now }
    requires sinks { length least.old.sources.items ≡ length rule.now.sets.now.sinks }
    requires census { IsCensus tree.now scope.now.unit scope.now.graph.points
        rule.now.sets.now.sources census.now }
    ensures { (root : a_node) → IsScope root tree.now scope.now → OnOk result
        (Lowers (HitsIn root scope.now.unit rule.now.sets.now)
        least.old.sources.items least.new.sources.items) }
{
    let look = Look {
        census,
        sanitizers: rule.sanitizers,
    };
    let points = scope.graph.points.as_slice();
    let plan = plan_of(alloc, tree, scope.unit, points, rule.places, look)?;
    let sources = census.sources.keys();
    if census.names.len() == 0 {
        search_still(alloc, &scope.graph, &plan, sources, least)?;
        return Ok(());
    }
    search_plan(alloc, &scope.graph, &plan, sources, least)?;
    Ok(())
}
