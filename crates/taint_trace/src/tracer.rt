//! Files in which the traces of many findings are looked for.

ghost use Rattle.std.specs.Prelude.{◌≡◌, ◌<◌, ℕ, List as list, Some, length, IfOk, MatchOption, slice_get};
ghost use Rattle.node_tree.specs.declared.span.Span.{Span as a_span};
ghost use Rattle.rule_form.specs.declared.rule.TaintRule.{TaintRule as a_rule};
ghost use Rattle.graph_form.specs.Sets.{Among};
ghost use Rattle.tree_match.specs.declared.leaf.Leaf.{Leaf as a_leaf};
ghost use Rattle.taint_flow.specs.Sizes.{NoneLarge};
ghost use Rattle.taint_judge.specs.Follows.{IsRead};
ghost use Rattle.taint_trace.specs.Trace.{IsTraceBy, HasNoTrace};
ghost use Rattle.taint_trace.specs.Findings.{IsFoundBy, IsTraceOf};
ghost use Rattle.taint_trace.specs.Standings.{AreUnitsWith};

use crate::lookup::{in_order, units_with};
use crate::sets::TraceSets;
use crate::standing::{Standing, standings_of};
use crate::tracing::first_trace;
use graph_form::Point;
use meta_bind::Finding;
use node_tree::{List, Memory, Span};
use std::alloc::Global;
use std::marker::Model;
use taint_judge::FlowTree;

/// A file with all spans of its units, in order. Contracts see its tree.
#[derive(Drop)]
pub struct Tracer<'f, 't> {
    flow: &'f FlowTree<'t>,
    standings: Vec<Standing>,
}

impl<'f, 't> Model for Tracer<'f, 't> {
    ghost use Rattle.node_tree.specs.declared.node.Node.{Node as node};
    ghost use Rattle.node_tree.specs.contracts.node.Node as node_contracts;

    ghost Value = { node };

    ghost coded = { node_contracts.the_row.coded };

    ghost use Rattle.taint_trace.specs.Standings.{AreStandings};

    ghost view = { λ t. t.flow.now };

    ghost invariant = { λ t. AreStandings t.flow.now t.standings.items };
}

impl<'f, 't> Tracer<'f, 't> {
    /// The file, ready for traces to be looked for in it. This is made once, for the findings of all rules.
    pub fn of(alloc: Global, flow: &'f FlowTree<'t>) -> Result<Tracer<'f, 't>, Memory>
        ensures { IfOk result (λ tracer. tracer ≡ flow.now) }
    {
        let found = standings_of(alloc, flow.nodes(), flow.units())?;
        let standings = in_order(found)?;
        Ok(Tracer { flow, standings })
    }

    // The places of the units in which the span stands.
    fn units_with(&self, alloc: Global, span: Span) -> Result<Vec<u64>, Memory>
        ensures { IfOk result (λ places. AreUnitsWith self.now span places.items) }
    {
        units_with(alloc, &self.standings, span)
    }

    // The least path of the first unit in which the source hits the sink with that place.
    fn first_trace(
        &self,
        alloc: Global,
        sets: &TraceSets,
        source: Span,
        sink: u64,
    ) -> Result<Option<List<Point>>, Memory>
        requires fits { NoneLarge self.now sets.now.ranges }
        requires listed { Among sets.now.ranges.sources source }
        requires sink { sink < length sets.now.ranges.sinks }
        ensures { (range : a_span) → slice_get sets.now.ranges.sinks sink ≡ Some range →
            IfOk result (λ found. MatchOption found
            (HasNoTrace self.now sets.now.ranges source range)
            (IsTraceBy self.now sets.now.ranges source range)) }
    {
        let places = self.units_with(alloc, source)?;
        first_trace(alloc, self.flow, &places, sets, source, sink)
    }

    /// The shortest path on which the source of a finding gets to its sink, as `trace_of` has it, for a finding of a rule with
    /// these sets.
    pub fn trace(
        &self,
        alloc: Global,
        sets: &TraceSets,
        finding: &Finding,
    ) -> Result<List<Point>, Memory>
        requires found { IsFoundBy self.now sets.now.sinks sets.now.ranges finding.now }
        ensures exact { (leaves : list a_leaf) (texts : list (list ℕ)) (bytes : list ℕ) (rule : a_rule) →
            IsRead leaves texts bytes self.now rule sets.now.sinks sets.now.ranges →
            IfOk result (IsTraceOf leaves texts bytes self.now rule finding.now) }
    {
        let Some(source) = finding.source else {
            unreachable!()
        };
        let Some(sink) = sets.sink(finding.span) else {
            unreachable!()
        };
        match self.first_trace(alloc, sets, source, sink)? {
            Some(path) => Ok(path),
            None => unreachable!(),
        }
    }
}
