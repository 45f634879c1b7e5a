//! The set of members of a formula.

ghost use Rattle.std.specs.Prelude.{◌≡◌, length, slice_get};
ghost use Rattle.std.specs.Option.{option_copied};

use meta_bind::Binding;
use node_tree::{List, Span};
use std::marker::Model;

/// The members of a formula: ranges, each with what the metavariables stand for there. They stand in order of range, then of
/// binding (the names with their spans, then the contents), each once.
#[derive(Drop)]
pub struct MatchSet {
    members: List<(Span, Binding)>,
}

impl Model for MatchSet {
    ghost use Rattle.std.specs.Prelude.{List as list};
    ghost use Rattle.std.specs.Coded.{coded_list, coded×};
    ghost use Rattle.node_tree.specs.declared.span.Span.{Span as span};
    ghost use Rattle.node_tree.specs.contracts.span.Span as spans;
    ghost use Rattle.meta_bind.specs.declared.bound.Bound.{Bound as bound};
    ghost use Rattle.meta_bind.specs.contracts.binding.Binding as bindings;

    ghost Value = { list (span × list bound) };

    ghost coded = { coded_list (coded× spans.the_row.coded bindings.the_row.coded) };

    ghost view = { λ s. s.members };
}

impl MatchSet {
    // These members.
    pub fn of(members: List<(Span, Binding)>) -> MatchSet
        ensures { result ≡ members }
    {
        MatchSet { members }
    }

    /// How many members there are.
    pub fn len(&self) -> usize
        ensures { result ≡ length self.now }
    {
        self.members.len()
    }

    /// The member at a place, counted from 0.
    pub fn get(&self, at: usize) -> Option<&(Span, Binding)>
        ensures { option_copied result ≡ slice_get self.now at }
    {
        self.members.get(at)
    }
}
