//! The sets that the children of `All` ask for.

ghost use Rattle.std.specs.Prelude.{◌≡◌};
ghost use Rattle.range_algebra.specs.Parts.{members_in};

use sorted_sets::Member;
use std::alloc::Global;

/// The members of a child's formula, as far as the child needs them.
#[derive(Drop)]
pub enum Part<'t> {
    /// The child has no formula.
    Nothing,
    /// The members of the child's formula.
    Members(Vec<Member<'t>>),
    /// The formula of a condition has no operand. For each of its children the members of that child's formula, none where
    /// it has none.
    Bare(Vec<Vec<Member<'t>>>),
}

impl<'t> Part<'t> {
    /// The members, none where there are no members of a whole formula.
    pub fn members(&self) -> &[Member<'t>]
        ensures { result.now ≡ members_in self.now }
    {
        match self {
            Part::Members(members) => members.as_slice(),
            _ => &[],
        }
    }

    /// The same by value.
    pub fn into_members(self, alloc: Global) -> Vec<Member<'t>>
        ensures { result.items ≡ members_in self.entry }
    {
        match self {
            Part::Members(members) => members,
            _ => Vec::new(alloc),
        }
    }
}
