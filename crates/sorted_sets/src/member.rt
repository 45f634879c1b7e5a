//! Members of sets, and the order in which they stand.

use crate::order::Ordered;
use meta_bind::Trail;
use node_tree::Span;
use std::cmp::Ordering;

/// A range and what the metavariables stand for there.
pub type Member<'t> = (Span, Trail<'t>);

impl<'t> Ordered for Member<'t> {
    ghost use Rattle.tree_match.specs.Members.{member_cmp};
    ghost use Rattle.sorted_sets.specs.Orders.{member_total, member_apart};

    ghost before = { member_cmp };

    ghost total = { member_total };

    ghost apart = { member_apart };

    fn order(&self, other: &Member<'t>) -> Ordering {
        match self.0.order(other.0) {
            Ordering::Less => Ordering::Less,
            Ordering::Greater => Ordering::Greater,
            Ordering::Equal => self.1.order(&other.1),
        }
    }
}
