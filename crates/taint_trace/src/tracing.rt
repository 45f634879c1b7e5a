//! The trace of a finding.

ghost use Rattle.std.specs.Prelude.{◌≡◌, ◌<◌, Some, length, All, IfOk, MatchOption, slice_get};
ghost use Rattle.node_tree.specs.declared.span.Span.{Span as a_span};
ghost use Rattle.graph_form.specs.Sets.{Among};
ghost use Rattle.tree_match.specs.Placed.{IsLeafPlaced};
ghost use Rattle.taint_flow.specs.Sizes.{NoneLarge};
ghost use Rattle.taint_trace.specs.Trace.{IsTraceBy, HasNoTrace};
ghost use Rattle.taint_trace.specs.Findings.{IsFollowed, IsTraceOf};
ghost use Rattle.taint_trace.specs.Standings.{AreUnitsWith};

use crate::least::least_path;
use crate::sets::TraceSets;
use crate::tracer::Tracer;
use graph_form::Point;
use meta_bind::Finding;
use node_tree::{FileView, List, Memory, Span};
use rule_form::TaintRule;
use rx_text::Rx;
use std::alloc::Global;
use taint_judge::FlowTree;
use tree_match::Leaf;

/// The least path of the first unit in which the source hits the sink with that place. The units in which the source stands have
/// these places.
pub fn first_trace(
    alloc: Global,
    flow: &FlowTree<'_>,
    places: &[u64],
    sets: &TraceSets,
    source: Span,
    sink: u64,
) -> Result<Option<List<Point>>, Memory>
    requires places { AreUnitsWith flow.now source places.now }
    requires fits { NoneLarge flow.now sets.now.ranges }
    requires listed { Among sets.now.ranges.sources source }
    requires sink { sink < length sets.now.ranges.sinks }
    ensures { (range : a_span) → slice_get sets.now.ranges.sinks sink ≡ Some range →
        IfOk result (λ found. MatchOption found
        (HasNoTrace flow.now sets.now.ranges source range)
        (IsTraceBy flow.now sets.now.ranges source range)) }
{
    let units = flow.units();
    for place in places {
        let at = *place as usize;
        if let Some(path) = least_path(alloc, flow, &units[at], sets, source, sink)? {
            return Ok(Some(path));
        }
    }
    Ok(None)
}

/// The shortest path on which the source of a finding gets to its sink: the points from the entry of a function, or of the top
/// level, to the one at which the source hits. Of the shortest paths of the first function that has one it is the least, points
/// being compared one after the other by their nodes and then by their roles. Sinks with the same range have one trace.
///
/// For many findings of a file `Tracer` makes once what is the same for all of them.
pub fn trace_of(
    alloc: Global,
    view: &FileView,
    rule: &TaintRule,
    leaves: &List<Leaf>,
    rx: &mut List<Rx>,
    finding: &Finding,
) -> Result<List<Point>, Memory>
    requires placed { All (λ leaf. IsLeafPlaced view.now.bytes leaf) leaves.now }
    requires found { IsFollowed leaves.now rx.old view.now.bytes view.now.tree rule.now
        finding.now }
    ensures exact { IfOk result
        (IsTraceOf leaves.now rx.old view.now.bytes view.now.tree rule.now finding.now) }
    ensures same { rx.new ≡ rx.old }
{
    let sets = TraceSets::of(alloc, view, rule, leaves, rx)?;
    let flow = FlowTree::of(alloc, &view.tree)?;
    let tracer = Tracer::of(alloc, &flow)?;
    tracer.trace(alloc, &sets, finding)
}
