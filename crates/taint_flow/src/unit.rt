//! The moves of a unit for one source.

ghost use Rattle.std.specs.Prelude.{◌≡◌, ◌+◌, ◌∷◌, [], IfOk};
ghost use Rattle.std.specs.Set.{distinct_count};
ghost use Rattle.std.specs.Str.{bytes_eq};
ghost use Rattle.node_tree.specs.declared.node.Node.{Node as a_node};
ghost use Rattle.node_tree.specs.Span.{span_cmp};
ghost use Rattle.flow_reach.specs.Carried.{Fits};
ghost use Rattle.taint_form.specs.Tables.{AreNumbers};
ghost use Rattle.taint_tables.specs.declared.sets.TaintSets.{TaintSets as taint_sets};
ghost use Rattle.taint_flow.specs.Scoped.{IsScope};
ghost use Rattle.taint_flow.specs.Sizes.{names_of};
ghost use Rattle.taint_flow.specs.Traces.{TracesAreHits, AreGoals, AreTablesOf};

use crate::moves::UnitMoves;
use crate::tables::SetTables;
use flow_reach::fits;
use node_tree::{Memory, Span};
use point_nodes::IndexedTree;
use std::alloc::Global;
use taint_form::{SpanSet, Table};
use taint_plan::plan_of;
use taint_tables::{Census, Look, census_of};
use unit_names::Scope;

// The source alone, with its number.
fn alone(alloc: Global, source: Span) -> Result<Table<Span>, Memory>
    ensures keys { IfOk result (λ sources. sources.keys.items ≡ source ∷ []) }
    ensures numbers { IfOk result
        (λ sources. AreNumbers span_cmp sources.numbers sources.keys.items) }
{
    let mut sources = Table::new(alloc);
    sources.add(source)?;
    Ok(sources)
}

/// The moves and the goals of a unit for one source: it hits a sink at the end of a path exactly where the path carries the fact of a
/// goal of the sink to the goal's point. The nodes of the tree are found by their numbers, and the unit stands there with its graph.
pub fn unit_moves(
    alloc: Global,
    tree: &IndexedTree<'_>,
    scope: &Scope,
    tables: &SetTables,
    source: Span,
) -> Result<UnitMoves, Memory>
    ensures fits { IfOk result (λ m. Fits scope.now.graph m.moves) }
    ensures facts { (root : a_node) (sets : taint_sets) → IsScope root tree.now scope.now →
        AreTablesOf sets tables.now → IfOk result
        (λ m. m.moves.facts ≡ distinct_count bytes_eq (names_of root scope.now.unit) + 1) }
    ensures goals { (root : a_node) (sets : taint_sets) → IsScope root tree.now scope.now →
        AreTablesOf sets tables.now → IfOk result (AreGoals scope.now.graph) }
    ensures hits { (root : a_node) (sets : taint_sets) → IsScope root tree.now scope.now →
        AreTablesOf sets tables.now → IfOk result
        (TracesAreHits root scope.now.unit sets source scope.now.graph) }
{
    let points = scope.graph.points.as_slice();
    let none = SpanSet::of(alloc, &[])?;
    let names = census_of(alloc, tree, scope.unit, points, &none)?.names;
    let sources = alone(alloc, source)?;
    let census = Census { names, sources };
    let look = Look {
        census: &census,
        sanitizers: &tables.sanitizers,
    };
    let plan = plan_of(alloc, tree, scope.unit, points, &tables.places, look)?;
    if !fits(&scope.graph, &plan.moves) {
        return Err(Memory);
    }
    Ok(UnitMoves {
        moves: plan.moves,
        goals: plan.goals,
    })
}
