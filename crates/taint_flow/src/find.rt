//! The hits of a file.

ghost use Rattle.std.specs.Prelude.{◌≡◌, ◌≤◌, ◌<◌, ◌+◌, ◌*◌, ℕ, List as list, IfOk, OnOk, Err, MatchOption, length};
ghost use Rattle.node_tree.specs.declared.node.Node.{Node as a_node};
ghost use Rattle.node_tree.specs.declared.span.Span.{Span as a_span};
ghost use Rattle.node_tree.specs.Tree.{pre_of};
ghost use Rattle.unit_names.specs.Scopes.{AreScopes};
ghost use Rattle.taint_form.specs.Tables.{Holds};
ghost use Rattle.taint_flow.specs.declared.fault.TaintFault.TheVariants.{TooLarge};
ghost use Rattle.taint_flow.specs.declared.hit.TaintHit.{TaintHit as hit};
ghost use Rattle.taint_tables.specs.Censuses.{IsCensus};
ghost use Rattle.taint_flow.specs.Lowest.{HitsIn, Lowers};
ghost use Rattle.taint_flow.specs.Found.{IsRule};
ghost use Rattle.taint_flow.specs.Scoped.{IsLargeAt, IsScope};
ghost use Rattle.taint_flow.specs.Sizes.{NoneLarge, FirstLarge, size_of, start_of as start_spec};
ghost use Rattle.taint_flow.specs.Taint.{AreHits};

use crate::fault::TaintFault;
use crate::hit::TaintHit;
use crate::least::Least;
use crate::rule::Rule;
use crate::search::search;
use crate::sizes::{Bounds, is_idle, is_large};
use node_tree::{List, Memory, Node};
use point_nodes::IndexedTree;
use std::alloc::Global;
use taint_form::SpanSet;
use taint_tables::{Census, Places, TaintSets, census_of};
use unit_names::{Scope, scopes_of};

/// The sinks that are hit, each with the least source that hits it. In a small tree nothing is made ready where there are no sources
/// or no sinks.
pub fn taint(alloc: Global, root: &Node, sets: &TaintSets) -> Result<List<TaintHit>, TaintFault>
    ensures hits { IfOk result (AreHits root.now sets.now) }
    ensures only { (l : list hit) → AreHits root.now sets.now l → IfOk result (λ found. found ≡ l) }
    ensures fits { IfOk result (λ _. NoneLarge root.now sets.now) }
    ensures large { (at : ℕ) → result ≡ Err (TooLarge at) → FirstLarge root.now sets.now at }
{
    if is_idle(Bounds::of(root), sets) {
        return Ok(List::new(alloc));
    }
    let tree = IndexedTree::of(alloc, root)?;
    let scopes = scopes_of(root)?;
    taint_in(alloc, root, &tree, scopes.as_slice(), sets)
}

/// The same for a tree whose nodes are found by their numbers, and whose units stand there with their graphs: many rules can
/// share them.
pub fn taint_in<'t>(
    alloc: Global,
    root: &'t Node,
    tree: &IndexedTree<'t>,
    scopes: &[Scope],
    sets: &TaintSets,
) -> Result<List<TaintHit>, TaintFault>
    requires tree { tree.now ≡ pre_of root.now }
    requires scopes { AreScopes root.now scopes.now }
    ensures hits { IfOk result (AreHits root.now sets.now) }
    ensures only { (l : list hit) → AreHits root.now sets.now l → IfOk result (λ found. found ≡ l) }
    ensures fits { IfOk result (λ _. NoneLarge root.now sets.now) }
    ensures large { (at : ℕ) → result ≡ Err (TooLarge at) → FirstLarge root.now sets.now at }
{
    let sources = SpanSet::of(alloc, sets.sources.as_slice())?;
    let sanitizers = SpanSet::of(alloc, sets.sanitizers.as_slice())?;
    let places = Places::of(alloc, sets)?;
    let rule = Rule {
        sets,
        sources: &sources,
        sanitizers: &sanitizers,
        places: &places,
    };
    let mut least = Least::new(alloc, sets.sinks.len())?;
    for scope in scopes {
        search_unit(alloc, tree, scope, &rule, &mut least)?;
    }
    let hits = least.hits(alloc)?;
    Ok(hits)
}

// Where a unit begins.
fn start_of(tree: &IndexedTree<'_>, unit: u32) -> u32
    ensures { (root : a_node) → tree.now ≡ pre_of root → result ≡ start_spec root unit }
{
    if unit == 0 {
        return 0;
    }
    match tree.node(unit) {
        Some(spot) => spot.node.span.from,
        None => 0,
    }
}

// Fails where a unit with so many points, names and sources is too large.
fn check_size(
    tree: &IndexedTree<'_>,
    unit: u32,
    points: usize,
    names: usize,
    sources: usize,
) -> Result<(), TaintFault>
    ensures fits { OnOk result (points * (names * sources + 1) ≤ 50000000) }
    ensures large { (at : ℕ) → result ≡ Err (TooLarge at) →
        50000000 < points * (names * sources + 1) }
    ensures start { (at : ℕ) (root : a_node) → result ≡ Err (TooLarge at) → tree.now ≡ pre_of root →
        at ≡ start_spec root unit }
{
    if is_large(points, names, sources) {
        return Err(TaintFault::TooLarge(start_of(tree, unit)));
    }
    Ok(())
}

// The names and the sources of a unit, or nothing where no sink can be hit in it.
fn counted<'t>(
    alloc: Global,
    tree: &IndexedTree<'t>,
    scope: &Scope,
    rule: &Rule<'_>,
) -> Result<Option<Census<'t>>, TaintFault>
    requires { IsRule rule.now }
    ensures census { IfOk result (λ found. MatchOption found
        ((root : a_node) (sink : ℕ) (source : a_span) → IsScope root tree.now scope.now →
        HitsIn root scope.now.unit rule.now.sets.now sink source → ⊥)
        (IsCensus tree.now scope.now.unit scope.now.graph.points rule.now.sets.now.sources)) }
    ensures fits { (root : a_node) → IsScope root tree.now scope.now →
        OnOk result (size_of root scope.now.unit rule.now.sets.now ≤ 50000000) }
    ensures large { (at : ℕ) (root : a_node) → result ≡ Err (TooLarge at) →
        IsScope root tree.now scope.now → IsLargeAt root scope.now.unit rule.now.sets.now at }
{
    let points = scope.graph.points.as_slice();
    if rule.sets.sources.len() == 0 {
        check_size(tree, scope.unit, points.len(), 0, 0)?;
        return Ok(None);
    }
    let census = census_of(alloc, tree, scope.unit, points, rule.sources)?;
    let names = census.names.len();
    let sources = census.sources.len();
    check_size(tree, scope.unit, points.len(), names, sources)?;
    if rule.sets.sinks.len() == 0 {
        return Ok(None);
    }
    if sources == 0 {
        return Ok(None);
    }
    Ok(Some(census))
}

// Notes the hits of a unit.
fn search_unit<'t>(
    alloc: Global,
    tree: &IndexedTree<'t>,
    scope: &Scope,
    rule: &Rule<'_>,
    least: &mut Least,
) -> Result<(), TaintFault>
    requires rule { IsRule rule.now }
    requires sinks { length least.old.sources.items ≡ length rule.now.sets.now.sinks }
    ensures notes { (root : a_node) → IsScope root tree.now scope.now → OnOk result
        (Lowers (HitsIn root scope.now.unit rule.now.sets.now)
        least.old.sources.items least.new.sources.items) }
    ensures fits { (root : a_node) → IsScope root tree.now scope.now →
        OnOk result (size_of root scope.now.unit rule.now.sets.now ≤ 50000000) }
    ensures large { (at : ℕ) (root : a_node) → result ≡ Err (TooLarge at) →
        IsScope root tree.now scope.now → IsLargeAt root scope.now.unit rule.now.sets.now at }
{
    match counted(alloc, tree, scope, rule)? {
        None => Ok(()),
        Some(census) => {
            search(alloc, tree, scope, rule, &census, least)?;
            Ok(())
        }
    }
}
