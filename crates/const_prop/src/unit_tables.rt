//! The names and the literals of a unit, each once, and what holds before its points.

ghost use Rattle.std.specs.Prelude.{◌≡◌, ◌++◌, ◌<◌, ◌^◌, length, IfOk, OnOk, option_to_list};
ghost use Rattle.std.specs.List.{flat_map};
ghost use Rattle.held_values.specs.Holding.{Fits};
ghost use Rattle.unit_names.specs.Seen.{all_words};
ghost use Rattle.unit_names.specs.Words.{Word as word};
ghost use Rattle.unit_effects.specs.Numbering.{entry_value};
ghost use Rattle.const_prop.specs.Constants as spec;
ghost use Rattle.const_prop.specs.Large.{IsHeldUnless};

use flow_graph::Graph;
use held_values::{Effects, HeldValues, ReachFault, propagate};
use node_tree::{List, Memory};
use point_nodes::IndexedTree;
use std::alloc::Global;
use unit_effects::Entry;
use unit_names::{Scope, Word, Words, add_literals, add_names};

/// The names at the points of a unit and its parameters.
pub fn names_of<'t>(
    alloc: Global,
    tree: &IndexedTree<'t>,
    scope: &Scope,
) -> Result<Words<'t>, Memory>
    ensures names { IfOk result (λ words. words ≡ spec.names_of tree.now scope.now) }
    ensures few { IfOk result (λ words. length words < 2 ^ 32) }
{
    let mut words = List::new(alloc);
    add_names(alloc, tree, scope, &mut words)?;
    let names = Words::of(alloc, words.as_slice())?;
    let _few = names.len();
    Ok(names)
}

// Adds the literal that a name holds at the entry, if it holds one.
fn add_value<'t>(
    entry: &Entry<'_, 't>,
    name: Word<'t>,
    into: &mut List<Word<'t>>,
) -> Result<(), Memory>
    ensures { OnOk result (all_words into.new ≡
        all_words into.old ++ option_to_list (entry_value entry.now name.entry.text.now)) }
{
    if let Some(literal) = entry.value(name.text) {
        into.push(literal)?;
        return Ok(());
    }
    Ok(())
}

// Adds the literals that these names hold at the entry.
fn add_held<'t>(
    entry: &Entry<'_, 't>,
    names: &Words<'t>,
    into: &mut List<Word<'t>>,
) -> Result<(), Memory>
    ensures { OnOk result (all_words into.new ≡
        all_words into.old ++
        flat_map (λ (w : word). option_to_list (entry_value entry.now w.text)) names.now) }
{
    for name in names.as_slice() {
        add_value(entry, *name, into)?;
    }
    Ok(())
}

/// The literals at the points of a unit, and those that its names hold at the entry.
pub fn literals_of<'t>(
    alloc: Global,
    tree: &IndexedTree<'t>,
    scope: &Scope,
    entry: &Entry<'_, 't>,
    names: &Words<'t>,
) -> Result<Words<'t>, Memory>
    requires { names.now ≡ spec.names_of tree.now scope.now }
    ensures { IfOk result (λ words.
        words ≡ spec.literals_of tree.now (entry_value entry.now) scope.now) }
{
    let mut words = List::new(alloc);
    add_literals(alloc, tree, scope, &mut words)?;
    add_held(entry, names, &mut words)?;
    Words::of(alloc, words.as_slice())
}

/// Which names hold which literals before which points, unless there are too many.
pub fn held(alloc: Global, graph: &Graph, effects: &Effects) -> Result<Option<HeldValues>, Memory>
    requires { Fits graph.now effects.now }
    ensures { IfOk result (IsHeldUnless graph.now effects.now) }
{
    match propagate(alloc, graph, effects) {
        Ok(held) => Ok(Some(held)),
        Err(ReachFault::TooLarge) => Ok(None),
        Err(ReachFault::Memory) => Err(Memory),
    }
}
