//! What a rule that follows data finds.

ghost use Rattle.std.specs.Prelude.{◌≡◌, ◌++◌, All, IfOk, IfErr, OnOk};
ghost use Rattle.std.specs.List.{flat_map};
ghost use Rattle.tree_match.specs.Placed.{IsPlaced, IsLeafPlaced};
ghost use Rattle.taint_judge.specs.Follows.{finding_of, AreFollowed};
ghost use Rattle.taint_judge.specs.Faults.{IsFollowFault};
ghost use Rattle.taint_judge.specs.Placed.{IsFindingPlaced};

use crate::fault::FollowFault;
use crate::sets::sets_of;
use crate::shared_flow::SharedFlow;
use meta_bind::{Binding, Finding};
use node_tree::{FileView, List, Memory, Span, Twin};
use rule_form::TaintRule;
use rx_text::Rx;
use std::alloc::Global;
use taint_flow::{TaintFault, TaintHit};
use tree_match::Leaf;

// Adds the finding of the sink's member that is hit, if it is there.
fn add_finding(
    sinks: &List<(Span, Binding)>,
    hit: &TaintHit,
    findings: &mut List<Finding>,
) -> Result<(), Memory>
    ensures { OnOk result (findings.new ≡ findings.old ++ finding_of sinks.now hit.now) }
{
    let Some(member) = sinks.get(hit.sink as usize) else {
        return Ok(());
    };
    findings.push(Finding {
        span: member.0,
        binding: member.1.copy()?,
        source: Some(hit.source),
    })
}

// The findings of the sinks' members that are hit.
fn findings_of(
    alloc: Global,
    sinks: &List<(Span, Binding)>,
    hits: &[TaintHit],
) -> Result<List<Finding>, Memory>
    ensures { IfOk result (λ findings. findings ≡ flat_map (finding_of sinks.now) hits.now) }
{
    let mut findings = List::new(alloc);
    for hit in hits {
        add_finding(sinks, hit, &mut findings)?;
    }
    Ok(findings)
}

/// What the rule finds in the file, where `leaves` has the members of its patterns by number and `rx` its regular expressions:
/// one finding for each member of its sinks that data of a source gets to, with the least such source, in order. The ends of
/// each finding's range, of its source and of what is bound cut no character of the file, since those of `leaves` don't.
///
/// What it takes to follow data in the file is made once, for the first rule that needs it.
///
/// Crowded names the first set that has more than 10,000 members, of the sources, the sinks, the sanitizers and the
/// propagators, in this order. TooLarge comes where there is none, with the first function in which there is too much to
/// follow.
pub fn follow(
    alloc: Global,
    view: &FileView,
    flow: &mut SharedFlow<'_>,
    rule: &TaintRule,
    leaves: &List<Leaf>,
    rx: &mut List<Rx>,
) -> Result<List<Finding>, FollowFault>
    requires flow { flow.old ≡ view.now.tree }
    requires placed { All (λ leaf. IsLeafPlaced view.now.bytes leaf) leaves.now }
    ensures exact { IfOk result (AreFollowed leaves.now rx.old view.now.bytes view.now.tree rule.now) }
    ensures refused { IfErr result (IsFollowFault leaves.now rx.old view.now.bytes view.now.tree rule.now) }
    ensures placed { IfOk result (All (IsFindingPlaced view.now.bytes)) }
    ensures kept { flow.new ≡ flow.old }
    ensures same { rx.new ≡ rx.old }
{
    let sets = sets_of(alloc, view, rule, leaves, rx)?;
    match flow.hits(alloc, &sets.ranges) {
        Ok(hits) => Ok(findings_of(alloc, &sets.sinks, hits.as_slice())?),
        Err(TaintFault::TooLarge(at)) => Err(FollowFault::TooLarge(at)),
        Err(TaintFault::Memory) => Err(FollowFault::Memory),
    }
}
