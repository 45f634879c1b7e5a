//! Choices of a member of some operands.

ghost use Rattle.std.specs.Prelude.{◌≡◌, ◌↔◌, IsTrue};
ghost use Rattle.member_join.specs.Agreements.{AgreesWith, has_bytes as has};

use meta_bind::Trail;
use node_tree::Span;
use sorted_sets::Ordered;
use std::cmp::Ordering;

/// What a choice of one member of each of some operands gives.
#[derive(Drop)]
pub struct State<'t> {
    /// The bytes that all chosen ranges share.
    pub range: Span,
    /// Whether that is the chosen range of a plain operand.
    pub marked: bool,
    /// What the plain operands bind.
    pub plain: Trail<'t>,
    /// What the insides bind.
    pub inside: Trail<'t>,
}

impl<'t> State<'t> {
    /// Whether the range has a byte.
    pub fn has_bytes(&self) -> bool
        ensures { result ≡ has self.now.range }
    {
        self.range.from < self.range.to
    }

    /// Whether the binding agrees with what is bound.
    pub fn agrees(&self, trail: &Trail<'t>) -> bool
        ensures { IsTrue result ↔ AgreesWith self.now.plain self.now.inside trail.now }
    {
        self.plain.agrees(trail) && self.inside.agrees(trail)
    }
}

impl<'t> Ordered for State<'t> {
    ghost use Rattle.member_join.specs.Joins.{state_cmp};
    ghost use Rattle.member_join.specs.Orders.{state_total, state_apart};

    ghost before = { state_cmp };

    ghost total = { state_total };

    ghost apart = { state_apart };

    fn order(&self, other: &State<'t>) -> Ordering {
        match self.range.order(other.range) {
            Ordering::Less => return Ordering::Less,
            Ordering::Greater => return Ordering::Greater,
            Ordering::Equal => {}
        }
        match self.marked.cmp(&other.marked) {
            Ordering::Less => return Ordering::Less,
            Ordering::Greater => return Ordering::Greater,
            Ordering::Equal => {}
        }
        match self.plain.order(&other.plain) {
            Ordering::Less => Ordering::Less,
            Ordering::Greater => Ordering::Greater,
            Ordering::Equal => self.inside.order(&other.inside),
        }
    }
}
