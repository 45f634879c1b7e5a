//! What a rule finds in a file.

ghost use Rattle.std.specs.Prelude.{◌≡◌, ◌<◌, length, map, All, IfOk, slice_get};
ghost use Rattle.tree_match.specs.Placed.{IsLeafPlaced};
ghost use Rattle.part_judge.specs.declared.outcome.Outcome.{Outcome as an_outcome};
ghost use Rattle.taint_judge.specs.Placed.{IsFindingPlaced};
ghost use Rattle.part_judge.specs.Findings.{finding_of as finding_at, SearchFinds, TaintFinds, BodyFinds, PartFinds, findings_of as findings_in};

use crate::dotted::{dotted, named};
use crate::found::Found;
use crate::outcome::Outcome;
use crate::shared_file::SharedFile;
use meta_bind::{Binding, Finding};
use node_tree::{FileView, List, Memory, Span, Twin};
use range_algebra::{EvalFault, MatchSet, eval};
use rule_form::{Body, Formula, Rule, TaintRule};
use rx_text::Rx;
use std::alloc::Global;
use taint_judge::{FollowFault, SharedFlow, follow};
use tree_match::Leaf;

// The finding of a member, which comes from no source.
fn finding_of(member: &(Span, Binding)) -> Result<Finding, Memory>
    ensures { IfOk result (λ finding. finding ≡ finding_at member.now) }
{
    let (span, binding) = member;
    Ok(Finding {
        span: *span,
        binding: binding.copy()?,
        source: None,
    })
}

// The finding of each member.
fn findings_of(alloc: Global, members: &MatchSet) -> Result<List<Finding>, Memory>
    ensures { IfOk result (λ findings. findings ≡ map finding_at members.now) }
{
    let mut findings = List::new(alloc);
    for at in 0..members.len() {
        let Some(member) = members.get(at) else {
            unreachable!()
        };
        findings.push(finding_of(member)?)?;
    }
    Ok(findings)
}

// What a search for the formula finds.
fn search(
    alloc: Global,
    view: &FileView,
    formula: &Formula,
    leaves: &List<Leaf>,
    rx: &mut List<Rx>,
) -> Result<Found, Memory>
    requires { All (λ leaf. IsLeafPlaced view.now.bytes leaf) leaves.now }
    ensures finds { IfOk result (SearchFinds leaves.now rx.old view.now.bytes formula.now) }
    ensures placed { IfOk result (λ found. All (λ finding. IsFindingPlaced view.now.bytes finding) (findings_in found)) }
    ensures same { rx.new ≡ rx.old }
{
    let outcome = match eval(alloc, view, formula, leaves, rx) {
        Ok(members) => Outcome::Findings(findings_of(alloc, &members)?),
        Err(EvalFault::Crowded(numbers)) => Outcome::Crowded(dotted(alloc, numbers.as_slice())?),
        Err(EvalFault::Memory) => return Err(Memory),
    };
    Ok(Found::of(outcome))
}

// What a rule that follows data finds.
fn follow_data(
    alloc: Global,
    view: &FileView,
    flow: &mut SharedFlow<'_>,
    rule: &TaintRule,
    leaves: &List<Leaf>,
    rx: &mut List<Rx>,
) -> Result<Found, Memory>
    requires flow { flow.old ≡ view.now.tree }
    requires placed { All (λ leaf. IsLeafPlaced view.now.bytes leaf) leaves.now }
    ensures finds { IfOk result (TaintFinds leaves.now rx.old view.now.bytes view.now.tree rule.now) }
    ensures placed { IfOk result (λ found. All (λ finding. IsFindingPlaced view.now.bytes finding) (findings_in found)) }
    ensures kept { flow.new ≡ flow.old }
    ensures same { rx.new ≡ rx.old }
{
    let outcome = match follow(alloc, view, flow, rule, leaves, rx) {
        Ok(findings) => Outcome::Findings(findings),
        Err(FollowFault::Crowded(list, numbers)) => {
            Outcome::Crowded(named(alloc, list.word(), numbers.as_slice())?)
        }
        Err(FollowFault::TooLarge(at)) => Outcome::FlowTooLarge(at),
        Err(FollowFault::Memory) => return Err(Memory),
    };
    Ok(Found::of(outcome))
}

/// What a body finds.
pub fn look(
    alloc: Global,
    view: &FileView,
    flow: &mut SharedFlow<'_>,
    body: &Body,
    leaves: &List<Leaf>,
    rx: &mut List<Rx>,
) -> Result<Found, Memory>
    requires flow { flow.old ≡ view.now.tree }
    requires placed { All (λ leaf. IsLeafPlaced view.now.bytes leaf) leaves.now }
    ensures finds { IfOk result (BodyFinds leaves.now rx.old view.now.bytes view.now.tree body.now) }
    ensures placed { IfOk result (λ found. All (λ finding. IsFindingPlaced view.now.bytes finding) (findings_in found)) }
    ensures kept { flow.new ≡ flow.old }
    ensures same { rx.new ≡ rx.old }
{
    match body {
        Body::Search(formula) => search(alloc, view, formula, leaves, rx),
        Body::Taint(rule) => follow_data(alloc, view, flow, rule, leaves, rx),
    }
}

/// What the part of the rule with that number finds in the file, where `leaves` has the members of the part's patterns by
/// number and `rx` the rule's regular expressions. A search finds the members of its formula in order, or the notice that a set
/// of the formula has more than 10,000. A rule that follows data finds the members of its sinks that data of a source gets to,
/// in order and each with the least such source, or the notice that a set of its lists has more than 10,000 members, or else
/// that a function is too large. There is one such outcome. The ends of each finding's range, of its source and of what is
/// bound cut no character of the file, since those of `leaves` don't.
///
/// What it takes to follow data in the file is made once, for the first rule that needs it.
pub fn judge(
    alloc: Global,
    file: &mut SharedFile<'_>,
    rule: &Rule,
    part: u32,
    leaves: &List<Leaf>,
    rx: &mut List<Rx>,
) -> Result<Found, Memory>
    requires part { part < length rule.now.parts }
    requires placed { All (λ leaf. IsLeafPlaced file.old.bytes leaf) leaves.now }
    ensures finds { IfOk result (PartFinds leaves.now rx.old file.old.bytes file.old.tree (slice_get rule.now.parts part)) }
    ensures placed { IfOk result (λ found. All (λ finding. IsFindingPlaced file.old.bytes finding) (findings_in found)) }
    ensures only { IfOk result (λ found. (o : an_outcome) → PartFinds leaves.now rx.old file.old.bytes file.old.tree (slice_get rule.now.parts part) o → o ≡ found) }
    ensures kept { file.new ≡ file.old }
    ensures same { rx.new ≡ rx.old }
{
    let body = &rule.parts.as_slice()[part as usize].body;
    file.look(alloc, body, leaves, rx)
}
