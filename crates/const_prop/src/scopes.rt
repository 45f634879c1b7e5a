//! What is known of the names of each unit.

ghost use Rattle.std.specs.Prelude.{◌≡◌, IfOk};
ghost use Rattle.std.specs.List.{flat_map};
ghost use Rattle.node_tree.specs.Tree.{pre_of};
ghost use Rattle.unit_names.specs.Names.{shared_in, referred_of as referred_in_unit};
ghost use Rattle.unit_names.specs.Scopes.{AreScopes};
ghost use Rattle.unit_names.specs.Seen.{all_words};
ghost use Rattle.unit_names.specs.Words.{each_once};
ghost use Rattle.const_prop.specs.Settled.{all_sightings};
ghost use Rattle.const_prop.specs.Units.{AreSeen};

use crate::sighting::Sighting;
use crate::unit::add_scope;
use node_tree::{List, Memory, Node};
use point_nodes::IndexedTree;
use std::alloc::Global;
use unit_effects::{Entry, Fixed, enter_function, still_open};
use unit_names::{Scope, Word, Words, add_all_shared, add_referred_of};

// That to which a unit applies `&`.
fn referred_of<'t>(
    alloc: Global,
    tree: &IndexedTree<'t>,
    scope: &Scope,
) -> Result<Words<'t>, Memory>
    ensures { IfOk result (λ words. words ≡ each_once (referred_in_unit tree.now scope.now)) }
{
    let mut words = List::new(alloc);
    add_referred_of(alloc, tree, scope, &mut words)?;
    Words::of(alloc, words.as_slice())
}

// What is `global` or `nonlocal` anywhere in the file.
fn shared_of(alloc: Global, root: &Node) -> Result<List<Word<'_>>, Memory>
    ensures { IfOk result (λ words. all_words words ≡ flat_map shared_in (pre_of root.now)) }
{
    let mut words = List::new(alloc);
    add_all_shared(root, &mut words)?;
    Ok(words)
}

/// What is known of the names of a file where they stand.
pub fn sightings_of<'t>(
    alloc: Global,
    root: &'t Node,
    tree: &IndexedTree<'t>,
    scopes: &[Scope],
) -> Result<Vec<Sighting<'t>>, Memory>
    requires nodes { tree.now ≡ pre_of root.now }
    requires units { AreScopes root.now scopes.now }
    ensures { IfOk result (λ sightings.
        AreSeen tree.now scopes.now scopes.now (all_sightings sightings.items)) }
{
    let words = shared_of(alloc, root)?;
    let fixed = Fixed::of(alloc, root, tree, scopes, words.as_slice())?;
    let shared = Words::of(alloc, words.as_slice())?;
    let mut functions = Vec::new(alloc);
    let mut sightings = Vec::new(alloc);
    for scope in scopes {
        functions = still_open(alloc, &mut functions, scope.unit)?;
        enter_function(alloc, tree, scope, &mut functions)?;
        let referred = referred_of(alloc, tree, scope)?;
        let entry = Entry {
            unit: scope.unit,
            around: &functions,
            shared: &shared,
            referred: &referred,
            fixed: &fixed,
        };
        add_scope(alloc, tree, scope, &entry, &mut sightings)?;
    }
    Ok(sightings)
}
