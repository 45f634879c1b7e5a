//! The traces of findings: how data gets from their sources to their ranges.

ghost use Rattle.std.specs.Prelude.{◌≡◌, ◌<◌, ◌↔◌, ◌⊎◌, [], ℕ, All, None, true, length, map, slice_get, IfOk, IsSome, IsTrue, MatchOption, OnOk, Some};
ghost use Rattle.std.specs.BTreeSet.{contains};
ghost use Rattle.std.specs.Ordering.{nat_cmp};
ghost use Rattle.node_match.specs.Sets.{Among};
ghost use Rattle.tree_match.specs.Members.{known_tree};
ghost use Rattle.tree_match.specs.Placed.{IsLeafPlaced};
ghost use Rattle.rule_form.specs.declared.rule.Part.{Part as a_part};
ghost use Rattle.part_judge.specs.Findings.{findings_of};
ghost use Rattle.report_form.specs.declared.report.Reported.{Reported as a_reported};
ghost use Rattle.taint_judge.specs.Follows.{IsRead};
ghost use Rattle.taint_judge.specs.Lists.{OverRule};
ghost use Rattle.file_results.specs.Looking.{named_leaf};
ghost use Rattle.file_results.specs.Asking.{PartAsksFor, PartsAskFor, AsksAmong, WantedAsk};
ghost use Rattle.file_results.specs.Tracing.{HasTrace};
ghost use Rattle.file_results.specs.Followed.{stop_among, stops_among, IsFollowedPart, AreFollowedParts, AreFollowedRules, LooksAndHas, HasStops, RuleHas, HasRuleStops, HasTraceBy, AreFoundHits, AreOfHits, IsWanted, AreTraced};

use crate::looking::{judge_part, looks_at};
use crate::row::Row;
use file_search::FileSearch;
use graph_form::{Point, Role};
use meta_bind::Finding;
use node_tree::{List, Memory, Steps};
use part_judge::{Found, SharedFile};
use point_nodes::IndexedTree;
use report_form::Reported;
use rule_form::{Body, TaintRule};
use running_rules::Runner;
use sorted_sets::Ordered;
use std::alloc::Global;
use std::cmp::Ordering;
use std::collections::BTreeSet;
use std::sync::ledger::Ledger;
use taint_judge::FlowTree;
use taint_trace::{TraceSets, Tracer};
use tree_match::Leaf;

/// What a part that follows data finds in a file, and the sets of its rule there if it finds something.
#[derive(Drop)]
pub struct Followed {
    pub sets: Option<TraceSets>,
    pub found: Found,
}

// The sets of the rule in the file, if it finds something there.
fn sets_for(
    alloc: Global,
    file: &SharedFile<'_>,
    rule: &Runner<'_>,
    body: &TaintRule,
    leaves: &List<Leaf>,
    found: &Found,
) -> Result<Option<TraceSets>, Memory>
    requires placed { All (λ leaf. IsLeafPlaced file.now.bytes leaf) leaves.now }
    requires few { (findings_of found.now ≡ []) ⊎ OverRule leaves.now rule.now.texts file.now.bytes body.now None }
    ensures { IfOk result (λ sets. MatchOption sets (findings_of found.now ≡ [])
        (λ s. IsRead leaves.now rule.now.texts file.now.bytes file.now.tree body.now s.sinks s.ranges)) }
{
    if found.findings().is_empty() {
        return Ok(None);
    }
    let mut rx = rule.expressions()?;
    let sets = TraceSets::of(alloc, file.view(), body, leaves, &mut rx)?;
    Ok(Some(sets))
}

// What the part with that number finds, if it follows data in the file.
fn follow_part<S: FileSearch, L: Ledger>(
    alloc: Global,
    file: &mut SharedFile<'_>,
    rule: &Runner<'_>,
    part: usize,
    search: &mut S,
    steps: &mut Steps<L>,
) -> Result<Option<Followed>, Memory>
    requires part { part < length rule.now.parts }
    requires file { S.file search.old ≡ file.old }
    ensures followed { (p : a_part) → slice_get rule.now.parts part ≡ Some p → IfOk result (IsFollowedPart file.old.lang rule.now.texts file.old.bytes (known_tree file.old) p) }
    ensures same { S.file search.new ≡ S.file search.old }
    ensures kept { file.new ≡ file.old }
    ensures asked { (p : a_part) → slice_get rule.now.parts part ≡ Some p → OnOk result (AsksAmong S.asks (PartAsksFor file.old.lang p) search.old steps.old search.new steps.new) }
{
    let one = &rule.rule().parts.as_slice()[part];
    let Body::Taint(body) = &one.body else {
        return Ok(None);
    };
    if !looks_at(one, file.view().lang) {
        return Ok(None);
    }
    let (leaves, found) = judge_part(alloc, file, rule, part, search, steps)?;
    let sets = sets_for(alloc, file, rule, body, &leaves, &found)?;
    Ok(Some(Followed { sets, found }))
}

// The same of each part of the rule, if it is wanted.
fn follow_parts<S: FileSearch, L: Ledger>(
    alloc: Global,
    file: &mut SharedFile<'_>,
    rule: &Runner<'_>,
    wanted: bool,
    search: &mut S,
    steps: &mut Steps<L>,
) -> Result<List<Option<Followed>>, Memory>
    requires { S.file search.old ≡ file.old }
    ensures followed { wanted ≡ true → IfOk result (AreFollowedParts file.old.lang rule.now.texts file.old.bytes (known_tree file.old) rule.now.parts) }
    ensures same { S.file search.new ≡ S.file search.old }
    ensures kept { file.new ≡ file.old }
    ensures asked { OnOk result (AsksAmong S.asks (λ p. (wanted ≡ true) × PartsAskFor file.old.lang rule.now.parts p) search.old steps.old search.new steps.new) }
{
    let mut followed = List::new(alloc);
    if !wanted {
        return Ok(followed);
    }
    for part in 0..rule.rule().parts.len() {
        followed.push(follow_part(alloc, file, rule, part, search, steps)?)?;
    }
    Ok(followed)
}

// The same of each rule whose number is wanted.
fn follow_rules<S: FileSearch, L: Ledger>(
    alloc: Global,
    file: &mut SharedFile<'_>,
    running: &[Runner<'_>],
    wanted: &BTreeSet<usize>,
    search: &mut S,
    steps: &mut Steps<L>,
) -> Result<List<List<Option<Followed>>>, Memory>
    requires { S.file search.old ≡ file.old }
    ensures followed { IfOk result (AreFollowedRules file.old.lang file.old.bytes (known_tree file.old) running.now (λ n. contains nat_cmp wanted.now n ≡ true)) }
    ensures kept { file.new ≡ file.old }
    ensures asked { OnOk result (AsksAmong S.asks (WantedAsk file.old.lang running.now (λ n. contains nat_cmp wanted.now n ≡ true)) search.old steps.old search.new steps.new) }
{
    let mut followed = List::new(alloc);
    for (number, rule) in running.iter().enumerate() {
        let is_wanted = wanted.contains(&number);
        followed.push(follow_parts(alloc, file, rule, is_wanted, search, steps)?)?;
    }
    Ok(followed)
}

// The numbers of the rules with findings that come from a source.
fn wanted_rules(alloc: Global, rows: &[Row<'_, '_>]) -> Result<BTreeSet<usize>, Memory>
    ensures { IfOk result (λ wanted. (n : ℕ) → (contains nat_cmp wanted n ≡ true) ↔ IsWanted rows.now n) }
{
    let mut wanted = BTreeSet::new(alloc);
    for row in rows {
        if row.finding().source.is_some() {
            wanted.insert(row.number())?;
        }
    }
    Ok(wanted)
}

// Whether two findings are the same.
fn is_same(one: &Finding, other: &Finding) -> Result<bool, Memory>
    ensures { IfOk result (λ same. IsTrue same ↔ (one.now ≡ other.now)) }
{
    if one.span.order(other.span) != Ordering::Equal {
        return Ok(false);
    }
    let order = Row::of(0, "", one)?.order(&Row::of(0, "", other)?);
    Ok(order == Ordering::Equal)
}

// Whether the finding is among those that were found.
fn has(found: &Found, finding: &Finding) -> Result<bool, Memory>
    ensures { IfOk result (λ there. IsTrue there ↔ Among (findings_of found.now) finding.now) }
{
    for one in found.findings() {
        if is_same(one, finding)? {
            return Ok(true);
        }
    }
    Ok(false)
}

// Where the node of the point begins, and its role.
fn stop_at(tree: &IndexedTree<'_>, point: &Point) -> (u32, Role)
    ensures { result ≡ stop_among tree.now point.now }
{
    let start = match tree.node(point.node) {
        Some(spot) => spot.node.span.from,
        None => 0,
    };
    (start, point.role)
}

// The same of each point after the first.
fn stops_at(
    alloc: Global,
    tree: &IndexedTree<'_>,
    path: &[Point],
) -> Result<List<(u32, Role)>, Memory>
    ensures { IfOk result (λ stops. stops ≡ stops_among tree.now path.now) }
{
    let mut stops = List::new(alloc);
    let Some((_, points)) = path.split_first() else {
        return Ok(stops);
    };
    for point in points {
        stops.push(stop_at(tree, point))?;
    }
    Ok(stops)
}

// The stops of the finding's path, if the part has the finding.
fn trace_in(
    alloc: Global,
    file: &SharedFile<'_>,
    flow: &FlowTree<'_>,
    tracer: &Tracer<'_, '_>,
    rule: &Runner<'_>,
    part: &Option<Followed>,
    finding: &Finding,
) -> Result<Option<List<(u32, Role)>>, Memory>
    requires flow { flow.now ≡ file.now.tree }
    requires tracer { tracer.now ≡ file.now.tree }
    requires part { (p : a_part) × IsFollowedPart file.now.lang rule.now.texts file.now.bytes (known_tree file.now) p part.now }
    requires comes { IsSome finding.now.source }
    ensures { (p : a_part) → IsFollowedPart file.now.lang rule.now.texts file.now.bytes (known_tree file.now) p part.now →
        IfOk result (λ found. MatchOption found
        (LooksAndHas file.now.lang rule.now.texts file.now.bytes (known_tree file.now) p finding.now → ⊥)
        (HasStops file.now.lang rule.now.texts file.now.bytes (known_tree file.now) p finding.now)) }
{
    let Some(followed) = part else {
        return Ok(None);
    };
    if !has(&followed.found, finding)? {
        return Ok(None);
    }
    let Some(sets) = &followed.sets else {
        unreachable!()
    };
    let path = tracer.trace(alloc, sets, finding)?;
    Ok(Some(stops_at(alloc, flow.nodes(), path.as_slice())?))
}

// The stops of the finding's path by the first part of its rule that has it.
fn trace_by(
    alloc: Global,
    file: &SharedFile<'_>,
    flow: &FlowTree<'_>,
    tracer: &Tracer<'_, '_>,
    rule: &Runner<'_>,
    parts: &[Option<Followed>],
    finding: &Finding,
) -> Result<List<(u32, Role)>, Memory>
    requires flow { flow.now ≡ file.now.tree }
    requires tracer { tracer.now ≡ file.now.tree }
    requires parts { AreFollowedParts file.now.lang rule.now.texts file.now.bytes (known_tree file.now) rule.now.parts parts.now }
    requires comes { IsSome finding.now.source }
    requires found { RuleHas file.now.lang file.now.bytes (known_tree file.now) rule.now finding.now }
    ensures { IfOk result (HasRuleStops file.now.lang file.now.bytes (known_tree file.now) rule.now finding.now) }
{
    for part in parts {
        if let Some(stops) = trace_in(alloc, file, flow, tracer, rule, part, finding)? {
            return Ok(stops);
        }
    }
    unreachable!()
}

// The finding of the rule with its trace, if it comes from a source.
fn with_trace(
    alloc: Global,
    file: &SharedFile<'_>,
    flow: &FlowTree<'_>,
    tracer: &Tracer<'_, '_>,
    rule: &Runner<'_>,
    parts: &[Option<Followed>],
    mut bare: Reported,
) -> Result<Reported, Memory>
    requires flow { flow.now ≡ file.now.tree }
    requires tracer { tracer.now ≡ file.now.tree }
    requires parts { IsSome bare.finding.source → AreFollowedParts file.now.lang rule.now.texts file.now.bytes (known_tree file.now) rule.now.parts parts.now }
    requires found { IsSome bare.finding.source → RuleHas file.now.lang file.now.bytes (known_tree file.now) rule.now bare.finding }
    ensures { IfOk result (HasTraceBy file.now.lang file.now.bytes (known_tree file.now) rule.now bare) }
{
    if bare.finding.source.is_none() {
        return Ok(bare);
    }
    bare.trace = trace_by(alloc, file, flow, tracer, rule, parts, &bare.finding)?;
    Ok(bare)
}

// The findings of the rows with the traces of those that come from a source.
fn trace_rows(
    alloc: Global,
    file: &SharedFile<'_>,
    flow: &FlowTree<'_>,
    running: &[Runner<'_>],
    followed: &[List<Option<Followed>>],
    rows: &[Row<'_, '_>],
    mut bares: List<Reported>,
) -> Result<List<Reported>, Memory>
    requires flow { flow.now ≡ file.now.tree }
    requires followed { AreFollowedRules file.now.lang file.now.bytes (known_tree file.now) running.now (IsWanted rows.now) followed.now }
    requires found { AreFoundHits file.now.lang file.now.bytes (known_tree file.now) running.now rows.now }
    requires bares { AreOfHits running.now rows.now bares }
    ensures { IfOk result (AreTraced (HasTrace true (named_leaf file.now.known) running.now file.now.lang file.now.bytes file.now.tree) bares) }
{
    let tracer = Tracer::of(alloc, flow)?;
    let mut traced = List::new(alloc);
    bares.reverse();
    for row in rows {
        let Some(bare) = bares.pop() else {
            unreachable!()
        };
        let number = row.number();
        let parts = followed[number].as_slice();
        let rule = &running[number];
        traced.push(with_trace(alloc, file, flow, &tracer, rule, parts, bare)?)?;
    }
    Ok(traced)
}

/// The findings of the rows, if `traced` says so with the traces of those that come from a source. Such a rule's patterns are
/// asked for again.
pub fn with_traces<S: FileSearch, L: Ledger>(
    alloc: Global,
    traced: bool,
    file: &mut SharedFile<'_>,
    running: &[Runner<'_>],
    rows: &[Row<'_, '_>],
    bares: List<Reported>,
    search: &mut S,
    steps: &mut Steps<L>,
) -> Result<List<Reported>, Memory>
    requires file { S.file search.old ≡ file.old }
    requires found { AreFoundHits file.old.lang file.old.bytes (known_tree file.old) running.now rows.now }
    requires bares { AreOfHits running.now rows.now bares }
    ensures traced { IfOk result (AreTraced (HasTrace traced (named_leaf file.old.known) running.now file.old.lang file.old.bytes file.old.tree) bares) }
    ensures asked { OnOk result (AsksAmong S.asks (WantedAsk file.old.lang running.now (IsWanted rows.now)) search.old steps.old search.new steps.new) }
{
    if !traced {
        return Ok(bares);
    }
    let wanted = wanted_rules(alloc, rows)?;
    if wanted.is_empty() {
        return Ok(bares);
    }
    let followed = follow_rules(alloc, file, running, &wanted, search, steps)?;
    let parts = followed.as_slice();
    match file.flow() {
        Some(flow) => trace_rows(alloc, file, flow, running, parts, rows, bares),
        None => {
            let flow = FlowTree::of(alloc, &file.view().tree)?;
            trace_rows(alloc, file, &flow, running, parts, rows, bares)
        }
    }
}
