//! The moves of a unit for all its sources at once.

ghost use Rattle.std.specs.Prelude.{◌≡◌, ◌⊎◌, ◌↔◌, ◌<◌, ℕ, length, IfOk, OnOk};
ghost use Rattle.std.specs.Global.{Vec as vec};
ghost use Rattle.node_tree.specs.Numbers.{Numbered as numbered};
ghost use Rattle.node_pool.specs.Spots.{seen};
ghost use Rattle.graph_form.specs.Sets.{Among};
ghost use Rattle.flow_reach.specs.Spread.{RowHas};
ghost use Rattle.assignments.specs.Declarators.{parameters_of};
ghost use Rattle.taint_form.specs.Tables.{Holds};
ghost use Rattle.taint_plan.specs.Begins.{BeginsHere, BeginsAmong};
ghost use Rattle.taint_tables.specs.Censuses.{AreNumbered};
ghost use Rattle.taint_tables.specs.Numbers.{numbers_of};
ghost use Rattle.taint_tables.specs.PlacesOf.{ArePlacesOf};
ghost use Rattle.taint_plan.specs.Plans.{IsPlan};
ghost use Rattle.taint_tables.specs.declared.sets.TaintSets.{TaintSets as taint_sets};

use crate::goal::Goal;
use crate::goals::goals;
use crate::rows::rows;
use assignments::parameters;
use flow_reach::Moves;
use graph_form::Point;
use node_pool::Spot;
use node_tree::{List, Memory};
use point_nodes::IndexedTree;
use std::alloc::Global;
use taint_tables::{Look, Places, push_all};

/// The moves of a unit, the goals of the sinks, and for each source the facts that begin with it at the entry. The first facts are
/// those of the sources, and the others the names of the unit.
#[derive(Drop)]
pub struct Plan {
    pub moves: Moves,
    pub goals: List<Goal>,
    pub begins: Vec<Vec<u32>>,
}

// For each source its own fact.
fn own_begins(alloc: Global, sources: u32) -> Result<Vec<Vec<u32>>, Memory>
    ensures size { IfOk result (λ begins. length begins.items ≡ sources) }
    ensures own { IfOk result (λ begins. (source fact : ℕ) →
        RowHas begins.items source fact ↔ ((source < sources) × (fact ≡ source))) }
{
    let mut begins = Vec::new(alloc);
    for source in 0..sources {
        let mut facts = Vec::new(alloc);
        facts.push(source)?;
        begins.push(facts)?;
    }
    Ok(begins)
}

// Adds the fact of a parameter to those that begin with the source that it is, if it is one.
fn add_begin<'t>(
    look: Look<'_, 't>,
    spot: Spot<'_, 't>,
    begins: &mut Vec<Vec<u32>>,
) -> Result<(), Memory>
    requires numbered { AreNumbered look.census.now }
    requires size { length begins.old.items ≡ length look.census.now.sources.keys.items }
    ensures size { OnOk result (length begins.new.items ≡ length begins.old.items) }
    ensures added { OnOk result ((source fact : ℕ) → RowHas begins.new.items source fact ↔
        (RowHas begins.old.items source fact ⊎
        BeginsHere (numbers_of look.entry.census.now) (seen spot.entry) source fact)) }
{
    let Some(source) = look.census.sources.find(spot.node.span) else {
        return Ok(());
    };
    look.add_fact(spot.node.text.as_str(), &mut begins[source as usize])?;
    Ok(())
}

// For each source the facts that begin with it: its own, and those of the parameters that it is.
fn begins<'t>(
    alloc: Global,
    tree: &IndexedTree<'t>,
    unit: u32,
    look: Look<'_, 't>,
    sources: u32,
) -> Result<Vec<Vec<u32>>, Memory>
    requires numbered { AreNumbered look.census.now }
    requires sources { sources ≡ length look.census.now.sources.keys.items }
    ensures size { IfOk result (λ begins. length begins.items ≡ sources) }
    ensures begins { IfOk result (λ begins. (source fact : ℕ) → RowHas begins.items source fact ↔
        (((source < sources) × (fact ≡ source)) ⊎
        BeginsAmong (numbers_of look.entry.census.now) (parameters_of tree.now unit) source fact)) }
{
    let mut begins = own_begins(alloc, sources)?;
    let own = parameters(alloc, tree, unit)?;
    for spot in own.as_slice() {
        add_begin(look, *spot, &mut begins)?;
    }
    Ok(begins)
}

// The facts that begin with some source.
fn all_begins(alloc: Global, begins: &[Vec<u32>]) -> Result<Vec<u32>, Memory>
    ensures { IfOk result (λ all. (fact : ℕ) → Among all.items fact ↔
        ((facts : vec ℕ) × Among begins.now facts × Among facts.items fact)) }
{
    let mut all = Vec::new(alloc);
    for facts in begins {
        push_all(facts, &mut all)?;
    }
    Ok(all)
}

/// How many there are, if a number has room for it.
pub fn counted(length: usize) -> Result<u32, Memory>
    ensures { IfOk result (λ n. n ≡ length) }
{
    if length > u32::MAX as usize {
        return Err(Memory);
    }
    Ok(length as u32)
}

/// The plan of a unit with these points, names and sources.
pub fn plan_of<'t>(
    alloc: Global,
    tree: &IndexedTree<'t>,
    unit: u32,
    points: &[Point],
    places: &Places,
    look: Look<'_, 't>,
) -> Result<Plan, Memory>
    requires numbered { AreNumbered look.census.now }
    ensures { (sets : taint_sets) → ArePlacesOf sets places.now →
        Holds look.entry.sanitizers.now sets.sanitizers →
        IfOk result (IsPlan tree.now unit points.now sets look.entry.census.now) }
{
    let sources = counted(look.census.sources.len())?;
    let names = counted(look.census.names.len())?;
    let Some(facts) = sources.checked_add(names) else {
        return Err(Memory);
    };
    let begins = begins(alloc, tree, unit, look, sources)?;
    let start = all_begins(alloc, &begins)?;
    let rows = rows(alloc, tree, look, &places.carries, points)?;
    let goals = goals(alloc, tree, look, &places.sinks, points)?;
    Ok(Plan {
        moves: Moves {
            facts,
            start: List::from_vec(start),
            rows,
        },
        goals,
        begins,
    })
}
