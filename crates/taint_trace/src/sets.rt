//! The sets of a rule, ready for the traces of its findings.

ghost use Rattle.std.specs.Prelude.{◌≡◌, ◌+◌, Some, None, All, IfOk, MatchOption, slice_get};
ghost use Rattle.std.specs.Set.{distinct_count};
ghost use Rattle.std.specs.Str.{bytes_eq};
ghost use Rattle.graph_form.specs.Sets.{Among};
ghost use Rattle.flow_graph.specs.Units.{points_of, Goes, IsGraphOf};
ghost use Rattle.flow_reach.specs.Carried.{Fits};
ghost use Rattle.tree_match.specs.Placed.{IsLeafPlaced};
ghost use Rattle.taint_flow.specs.Sizes.{names_of};
ghost use Rattle.taint_flow.specs.Traces.{TracesAreHits, AreGoals};
ghost use Rattle.taint_judge.specs.Lists.{OverRule};
ghost use Rattle.taint_judge.specs.Follows.{IsRead};

use crate::places::place_of;
use node_tree::{FileView, List, Memory, Span};
use rule_form::TaintRule;
use rx_text::Rx;
use std::alloc::Global;
use std::marker::Model;
use taint_flow::{SetTables, UnitMoves, unit_moves};
use taint_judge::{FlowTree, FollowFault, RuleSets, sets_of};
use tree_match::Leaf;
use unit_names::Scope;

/// The sets of a rule in a file, found by where they stand. Contracts see the sets.
#[derive(Drop)]
pub struct TraceSets {
    sets: RuleSets,
    tables: SetTables,
}

impl Model for TraceSets {
    ghost use Rattle.taint_judge.specs.declared.sets.RuleSets.{RuleSets as rule_sets};
    ghost use Rattle.taint_judge.specs.contracts.sets.RuleSets as sets_row;

    ghost Value = { rule_sets };

    ghost coded = { sets_row.the_row.coded };

    ghost use Rattle.taint_trace.specs.Standings.{AreReady};

    ghost view = { λ s. s.sets };

    ghost invariant = { λ s. AreReady s.sets s.tables };
}

// The sets of a rule that has findings.
fn read(
    alloc: Global,
    view: &FileView,
    rule: &TaintRule,
    leaves: &List<Leaf>,
    rx: &mut List<Rx>,
) -> Result<RuleSets, Memory>
    requires placed { All (λ leaf. IsLeafPlaced view.now.bytes leaf) leaves.now }
    requires few { OverRule leaves.now rx.old view.now.bytes rule.now None }
    ensures read { IfOk result (λ s.
        IsRead leaves.now rx.old view.now.bytes view.now.tree rule.now s.sinks s.ranges) }
    ensures same { rx.new ≡ rx.old }
{
    match sets_of(alloc, view, rule, leaves, rx) {
        Ok(sets) => Ok(sets),
        Err(FollowFault::Memory) => Err(Memory),
        Err(FollowFault::Crowded(_, _)) => unreachable!(),
        Err(FollowFault::TooLarge(_)) => unreachable!(),
    }
}

impl TraceSets {
    /// Those of a rule that has findings in the file. They are read once, for the traces of all of them.
    pub fn of(
        alloc: Global,
        view: &FileView,
        rule: &TaintRule,
        leaves: &List<Leaf>,
        rx: &mut List<Rx>,
    ) -> Result<TraceSets, Memory>
        requires placed { All (λ leaf. IsLeafPlaced view.now.bytes leaf) leaves.now }
        requires few { OverRule leaves.now rx.old view.now.bytes rule.now None }
        ensures read { IfOk result (λ s.
            IsRead leaves.now rx.old view.now.bytes view.now.tree rule.now s.sinks s.ranges) }
        ensures same { rx.new ≡ rx.old }
    {
        let sets = read(alloc, view, rule, leaves, rx)?;
        let tables = SetTables::of(alloc, &sets.ranges)?;
        Ok(TraceSets { sets, tables })
    }

    /// The place of a sink with that range.
    pub fn sink(&self, range: Span) -> Option<u64>
        ensures { MatchOption result (Among self.now.ranges.sinks range → ⊥)
            (λ at. slice_get self.now.ranges.sinks at ≡ Some range) }
    {
        place_of(self.sets.ranges.sinks.as_slice(), range)
    }

    /// The moves and the goals of a unit for one source.
    pub fn moves(
        &self,
        alloc: Global,
        flow: &FlowTree<'_>,
        unit: &Scope,
        source: Span,
    ) -> Result<UnitMoves, Memory>
        requires graph { IsGraphOf (points_of flow.now unit.now.unit) (Goes flow.now unit.now.unit)
            unit.now.graph }
        ensures fits { IfOk result (λ m. Fits unit.now.graph m.moves) }
        ensures facts { IfOk result (λ m.
            m.moves.facts ≡ distinct_count bytes_eq (names_of flow.now unit.now.unit) + 1) }
        ensures goals { IfOk result (AreGoals unit.now.graph) }
        ensures hits { IfOk result
            (TracesAreHits flow.now unit.now.unit self.now.ranges source unit.now.graph) }
    {
        unit_moves(alloc, flow.nodes(), unit, &self.tables, source)
    }
}
