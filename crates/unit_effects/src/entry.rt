//! What names hold at the entries of units.

ghost use Rattle.std.specs.Prelude.{◌≡◌, ◌++◌, IfOk, OnOk, option_map};
ghost use Rattle.unit_names.specs.Seen.{seen_word};
ghost use Rattle.unit_effects.specs.Numbering as spec;
ghost use Rattle.unit_effects.specs.Functions.{all_functions, entered, AreOpen};

use crate::fixed::Fixed;
use node_tree::{List, Memory};
use point_nodes::IndexedTree;
use std::alloc::Global;
use unit_names::{Scope, Word, Words, add_own, name_word};

/// A function: the number behind its last node, and the names that it assigns or has as parameters.
#[derive(Drop)]
pub struct Function<'t> {
    pub end: u32,
    pub own: Words<'t>,
}

/// What decides which names hold what at the entry of a unit: the functions around it and itself, the names of which nothing
/// is known in the whole file and in the unit, and the fixed names of the module.
#[derive(Clone, Copy)]
pub struct Entry<'e, 't> {
    pub unit: u32,
    pub around: &'e [Function<'t>],
    pub shared: &'e Words<'t>,
    pub referred: &'e Words<'t>,
    pub fixed: &'e Fixed<'t>,
}

/// Those of the functions that don't end before a number, in some order.
pub fn still_open<'t>(
    alloc: Global,
    functions: &mut Vec<Function<'t>>,
    at: u32,
) -> Result<Vec<Function<'t>>, Memory>
    ensures { IfOk result (λ left. AreOpen at (all_functions functions.old.items) (all_functions left.items)) }
{
    let mut left = Vec::new(alloc);
    while let Some(function) = functions.pop() {
        if at < function.end {
            left.push(function)?;
        }
    }
    Ok(left)
}

/// Adds the function that a unit is, if it is one.
pub fn enter_function<'t>(
    alloc: Global,
    tree: &IndexedTree<'t>,
    scope: &Scope,
    functions: &mut Vec<Function<'t>>,
) -> Result<(), Memory>
    ensures { OnOk result (all_functions functions.new.items ≡ all_functions functions.old.items ++ entered tree.now scope.now) }
{
    if scope.unit == 0 {
        return Ok(());
    }
    let Some(node) = tree.node(scope.unit) else {
        return Ok(());
    };
    let mut names = List::new(alloc);
    add_own(alloc, tree, scope, &mut names)?;
    let own = Words::of(alloc, names.as_slice())?;
    functions.push(Function {
        end: node.at + node.size(),
        own,
    })?;
    Ok(())
}

impl<'e, 't> Entry<'e, 't> {
    /// Whether nothing is ever known of a name.
    pub fn hides(&self, name: &'t str) -> bool
        ensures { result ≡ spec.hides self.now name.now }
    {
        self.shared.contains(name_word(name)) || self.referred.contains(name_word(name))
    }

    // Whether a function around the unit has a name of its own, or the unit does.
    fn is_shadowed(&self, name: &'t str) -> bool
        ensures { result ≡ spec.shadows self.now name.now }
    {
        for function in self.around {
            if function.own.contains(name_word(name)) {
                return true;
            }
        }
        false
    }

    /// The literal that a name holds at the entry, if it holds one.
    pub fn value(&self, name: &'t str) -> Option<Word<'t>>
        ensures { option_map seen_word result ≡ spec.entry_value self.now name.now }
    {
        if self.unit == 0 {
            return None;
        }
        if !self.fixed.may_hold(name) {
            return None;
        }
        if self.hides(name) || self.is_shadowed(name) {
            return None;
        }
        self.fixed.literal(name)
    }
}
