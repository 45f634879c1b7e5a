//! Patterns that are ready for the search in many trees.

ghost use Rattle.std.specs.Prelude.{◌≡◌, IfOk};
ghost use Rattle.file_match.specs.Words.{ArePlaces};

use crate::words::{Wanted, wanted_of};
use node_tree::{Memory, Pattern};
use std::alloc::Global;
use std::marker::Model;

/// A pattern that is ready for the search in many trees: with the places of the words that it needs, where no name is known to
/// hold a literal and where some may be. Contracts see the pattern.
#[derive(Drop)]
pub struct ReadyPattern<'p> {
    pattern: &'p Pattern,
    fixed: Wanted,
    held: Wanted,
}

impl<'p> Model for ReadyPattern<'p> {
    ghost use Rattle.node_tree.specs.declared.view.Pattern.{Pattern as pattern_value};
    ghost use Rattle.node_tree.specs.contracts.view.Pattern as patterns;

    ghost Value = { pattern_value };

    ghost coded = { patterns.the_row.coded };

    ghost use Rattle.file_match.specs.Patterns.{IsReadyPattern};

    ghost view = { λ r. r.pattern.now };

    ghost invariant = { λ r. IsReadyPattern r.pattern.now r.fixed.places r.held.places };
}

impl<'p> ReadyPattern<'p> {
    /// Makes the pattern ready.
    pub fn of(alloc: Global, pattern: &'p Pattern) -> Result<ReadyPattern<'p>, Memory>
        ensures { IfOk result (λ ready. ready ≡ pattern.now) }
    {
        Ok(ReadyPattern {
            pattern,
            fixed: wanted_of(alloc, true, pattern.shape, &pattern.tree)?,
            held: wanted_of(alloc, false, pattern.shape, &pattern.tree)?,
        })
    }

    /// The pattern.
    pub fn pattern(&self) -> &'p Pattern
        ensures { result.now ≡ self.now }
    {
        self.pattern
    }

    /// The places of the words that it needs, where names hold nothing if `fixed`.
    pub(crate) fn wanted(&self, fixed: bool) -> &Wanted
        ensures { ArePlaces fixed self.now.shape self.now.tree result.now.places }
    {
        if fixed { &self.fixed } else { &self.held }
    }
}
