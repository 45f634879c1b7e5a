//! What is known of the names of one unit.

ghost use Rattle.std.specs.Prelude.{OnOk};
ghost use Rattle.unit_effects.specs.Numbering.{entry_value};
ghost use Rattle.const_prop.specs.Settled.{all_sightings};
ghost use Rattle.const_prop.specs.Sights.{IsWhole, IsHiding, AddsSeen};

use crate::idle::{add_all, add_silent, is_given};
use crate::sighting::Sighting;
use crate::unit_tables::{held, literals_of, names_of};
use crate::view::View;
use node_tree::Memory;
use point_nodes::IndexedTree;
use std::alloc::Global;
use unit_effects::{Entry, Tables};
use unit_names::Scope;

// Adds what is known of the names at the points of a unit, by what all its names hold.
fn add_live<'t>(
    alloc: Global,
    tree: &IndexedTree<'t>,
    scope: &Scope,
    entry: &Entry<'_, 't>,
    into: &mut Vec<Sighting<'t>>,
) -> Result<(), Memory>
    requires whole { IsWhole scope.now.graph }
    requires hiding { IsHiding tree.now scope.now entry.now }
    ensures { OnOk result (AddsSeen tree.now (entry_value entry.now) scope.now
        (all_sightings into.old.items) (all_sightings into.new.items)) }
{
    let names = names_of(alloc, tree, scope)?;
    let literals = literals_of(alloc, tree, scope, entry, &names)?;
    let tables = Tables {
        names: &names,
        literals: &literals,
    };
    let effects = tables.effects(alloc, tree, entry, scope)?;
    let held = held(alloc, &scope.graph, &effects)?;
    let view = View {
        tables,
        held: held.as_ref(),
    };
    view.add_unit(alloc, tree, scope, into)
}

/// Adds what is known of the names at the points of a unit.
pub fn add_scope<'t>(
    alloc: Global,
    tree: &IndexedTree<'t>,
    scope: &Scope,
    entry: &Entry<'_, 't>,
    into: &mut Vec<Sighting<'t>>,
) -> Result<(), Memory>
    requires whole { IsWhole scope.now.graph }
    requires hiding { IsHiding tree.now scope.now entry.now }
    ensures { OnOk result (AddsSeen tree.now (entry_value entry.now) scope.now
        (all_sightings into.old.items) (all_sightings into.new.items)) }
{
    if is_given(alloc, tree, entry, scope)? {
        return add_live(alloc, tree, scope, entry, into);
    }
    let mut unknown = Vec::new(alloc);
    if !add_silent(alloc, tree, entry, scope, &mut unknown)? {
        return add_live(alloc, tree, scope, entry, into);
    }
    add_all(&unknown, into)
}
