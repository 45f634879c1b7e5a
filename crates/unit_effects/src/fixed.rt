//! The fixed names of the module.

ghost use Rattle.std.specs.Prelude.{◌≡◌, ◌∷◌, [], ◌++◌, take, None, IfOk, OnOk, if◌then◌else◌, option_map};
ghost use Rattle.std.specs.List.{flat_map};
ghost use Rattle.node_tree.specs.Tree.{pre_of};
ghost use Rattle.assignments.specs.Seen.{seen_assignment, seen_target, seen_value};
ghost use Rattle.unit_names.specs.Seen.{seen_word, all_words};
ghost use Rattle.unit_names.specs.Names.{own_words, shared_in};
ghost use Rattle.unit_names.specs.Words.{each_once};
ghost use Rattle.unit_effects.specs.Fixed as spec;
ghost use Rattle.unit_effects.specs.Firsts.{may_be as may_be_spec};
ghost use Rattle.unit_effects.specs.Once.{Notes, TellsOnce, IsFixed, fixed_in};

use crate::firsts::{firsts_of, may_be};
use assignments::{Assignment, Manner, Reach, Target, assignments};
use flow_graph::Point;
use node_tree::{Kind, List, Memory, Node};
use point_nodes::IndexedTree;
use std::alloc::Global;
use std::collections::BTreeMap;
use unit_names::{
    Scope, Word, Words, add_all_referred, add_own, is_assigned, literal_here, name_word,
};

/// Names that are assigned, each with the literal that it gets as a constant does, where it is assigned once.
pub type Once<'t> = BTreeMap<&'t str, Option<Word<'t>>>;

/// The names that are assigned at the top level, those that aren't fixed however often they are, and the first bytes of those
/// that get a literal.
#[derive(Drop)]
pub struct Fixed<'t> {
    pub barred: Words<'t>,
    pub once: Once<'t>,
    pub firsts: Vec<bool>,
}

// The literal that a statement gives to the whole of a target.
fn settled<'t>(manner: Manner, reach: Reach, value: Option<&'t Node>) -> Option<Word<'t>>
    ensures { option_map seen_word result ≡ spec.settled manner reach (seen_value value.entry) }
{
    match manner {
        Manner::Statement => match reach {
            Reach::Whole => literal_here(value?),
            _ => None,
        },
        _ => None,
    }
}

// The literal, where the name comes first.
fn if_first<'t>(first: bool, literal: Option<Word<'t>>) -> Option<Word<'t>>
    ensures { option_map seen_word result ≡
        (if first then option_map seen_word literal.entry else None) }
{
    if first {
        return literal;
    }
    None
}

// Notes that a name is assigned, which it may have been before.
fn note<'t>(once: &mut Once<'t>, name: &'t str, literal: Option<Word<'t>>) -> Result<(), Memory>
    ensures { OnOk result (Notes once.old ((name.now, option_map seen_word literal.entry) ∷ []) once.new) }
{
    let first = once.get(name).is_none();
    once.insert(name, if_first(first, literal))?;
    Ok(())
}

// Notes a target, if it is assigned itself.
fn note_target<'t>(
    manner: Manner,
    value: Option<&'t Node>,
    target: Target<'t>,
    once: &mut Once<'t>,
) -> Result<(), Memory>
    ensures { OnOk result (Notes once.old (spec.occurrence manner (seen_value value.entry) (seen_target target.entry)) once.new) }
{
    if !is_assigned(target.reach) {
        return Ok(());
    }
    let literal = settled(manner, target.reach, value);
    note(once, target.name, literal)?;
    Ok(())
}

// Notes what an assignment assigns.
fn note_targets<'t>(one: &Assignment<'t>, once: &mut Once<'t>) -> Result<(), Memory>
    ensures { OnOk result (Notes once.old (spec.occurrences (seen_assignment one.now)) once.new) }
{
    for target in one.targets.as_slice() {
        note_target(one.manner, one.value, *target, once)?;
    }
    Ok(())
}

// Notes what a point assigns.
fn note_point<'t>(
    alloc: Global,
    tree: &IndexedTree<'t>,
    point: Point,
    once: &mut Once<'t>,
) -> Result<(), Memory>
    ensures { OnOk result (Notes once.old (spec.occurrences_at tree.now point) once.new) }
{
    let list = assignments(alloc, tree, point)?;
    for one in list.as_slice() {
        note_targets(one, once)?;
    }
    Ok(())
}

// Notes what a unit assigns.
fn note_scope<'t>(
    alloc: Global,
    tree: &IndexedTree<'t>,
    scope: &Scope,
    once: &mut Once<'t>,
) -> Result<(), Memory>
    ensures { OnOk result (Notes once.old (spec.occurrences_of tree.now scope.now) once.new) }
{
    for point in scope.graph.points.as_slice() {
        note_point(alloc, tree, *point, once)?;
    }
    Ok(())
}

// Adds what a unit assigns or has as parameters, if that kind is a function of C.
fn add_in_c<'t>(
    alloc: Global,
    tree: &IndexedTree<'t>,
    scope: &Scope,
    kind: Kind,
    into: &mut List<Word<'t>>,
) -> Result<(), Memory>
    ensures { OnOk result (all_words into.new ≡
        all_words into.old ++ spec.in_c kind (own_words tree.now scope.now)) }
{
    match kind {
        Kind::FuncDef => add_own(alloc, tree, scope, into),
        _ => Ok(()),
    }
}

// Adds what a unit assigns or has as parameters, if it is a function of C.
fn add_c_function<'t>(
    alloc: Global,
    tree: &IndexedTree<'t>,
    scope: &Scope,
    into: &mut List<Word<'t>>,
) -> Result<(), Memory>
    ensures { OnOk result (all_words into.new ≡
        all_words into.old ++ spec.c_words tree.now scope.now) }
{
    match tree.node(scope.unit) {
        Some(node) => add_in_c(alloc, tree, scope, node.node.kind, into),
        None => Ok(()),
    }
}

// Adds the names that functions of C assign or have as parameters.
fn add_c_functions<'t>(
    alloc: Global,
    tree: &IndexedTree<'t>,
    scopes: &[Scope],
    into: &mut List<Word<'t>>,
) -> Result<(), Memory>
    ensures { OnOk result (all_words into.new ≡
        all_words into.old ++ flat_map (spec.c_words tree.now) scopes.now) }
{
    for scope in scopes {
        add_c_function(alloc, tree, scope, into)?;
    }
    Ok(())
}

// Adds these words.
fn add_words<'t>(words: &[Word<'t>], into: &mut List<Word<'t>>) -> Result<(), Memory>
    ensures { OnOk result (all_words into.new ≡ all_words into.old ++ all_words words.now) }
{
    for word in words {
        into.push(*word)?;
    }
    Ok(())
}

// The names that aren't fixed, however often they are assigned.
fn barred_words<'t>(
    alloc: Global,
    root: &'t Node,
    tree: &IndexedTree<'t>,
    scopes: &[Scope],
    shared: &[Word<'t>],
) -> Result<Words<'t>, Memory>
    requires nodes { tree.now ≡ pre_of root.now }
    requires shared { all_words shared.now ≡ flat_map shared_in tree.now }
    ensures { IfOk result (λ words. words ≡ each_once (spec.barred tree.now scopes.now)) }
{
    let mut barred = List::new(alloc);
    add_words(shared, &mut barred)?;
    add_all_referred(root, &mut barred)?;
    add_c_functions(alloc, tree, scopes, &mut barred)?;
    Words::of(alloc, barred.as_slice())
}

// What the top level assigns, which is the first unit.
fn top_level<'t>(
    alloc: Global,
    tree: &IndexedTree<'t>,
    scopes: &[Scope],
) -> Result<Once<'t>, Memory>
    ensures { IfOk result (λ once. TellsOnce once (flat_map (spec.occurrences_of tree.now) (take 1 scopes.now))) }
{
    let mut once = BTreeMap::new(alloc);
    match scopes.first() {
        Some(scope) => {
            note_scope(alloc, tree, scope, &mut once)?;
            Ok(once)
        }
        None => Ok(once),
    }
}

impl<'t> Fixed<'t> {
    /// The fixed names of a file, of which those are given that are `global` or `nonlocal` anywhere.
    pub fn of(
        alloc: Global,
        root: &'t Node,
        tree: &IndexedTree<'t>,
        scopes: &[Scope],
        shared: &[Word<'t>],
    ) -> Result<Fixed<'t>, Memory>
        requires nodes { tree.now ≡ pre_of root.now }
        requires shared { all_words shared.now ≡ flat_map shared_in tree.now }
        ensures { IfOk result (λ fixed. IsFixed tree.now scopes.now fixed) }
    {
        let barred = barred_words(alloc, root, tree, scopes, shared)?;
        let once = top_level(alloc, tree, scopes)?;
        let firsts = firsts_of(alloc, &once)?;
        Ok(Fixed {
            barred,
            once,
            firsts,
        })
    }

    /// Whether a name may be fixed, by its first byte.
    pub fn may_hold(&self, name: &'t str) -> bool
        ensures { result ≡ may_be_spec self.now.firsts.items name.now }
    {
        may_be(&self.firsts, name)
    }

    /// The literal to which a name is fixed, if it is.
    pub fn literal(&self, name: &'t str) -> Option<Word<'t>>
        ensures { option_map seen_word result ≡ fixed_in self.now name.now }
    {
        if !self.may_hold(name) {
            return None;
        }
        if self.barred.contains(name_word(name)) {
            return None;
        }
        *self.once.get(name)?
    }
}
