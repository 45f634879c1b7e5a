//! The operands of a join.

use sorted_sets::Member;

/// Whether an operand is plain, or one in which the range lies.
#[derive(Clone, Copy, Debug, PartialEq, Eq)]
pub enum Role {
    Plain,
    Inside,
}

/// An operand: the number of its child, and its members.
#[derive(Clone, Copy)]
pub struct Operand<'s, 't> {
    pub number: usize,
    pub members: &'s [Member<'t>],
}
