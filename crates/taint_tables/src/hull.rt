//! Where the expressions of a point stand.

ghost use Rattle.std.specs.Prelude.{IsTrue};
ghost use Rattle.std.specs.List.{flat_map};
ghost use Rattle.node_tree.specs.Kinds.{is_expression};
ghost use Rattle.node_tree.specs.Numbers.{pre_at};
ghost use Rattle.node_tree.specs.Tree.{kind_of, span_of};
ghost use Rattle.node_pool.specs.Spots.{seen, all_seen};
ghost use Rattle.taint_tables.specs.Hulls.{GoesAsFar, Meets, MeetsAll};

use node_pool::Spot;

/// Where expressions stand: the last place where one begins, and the first where one ends.
#[derive(Clone, Copy)]
pub struct Hull {
    pub last_begin: u32,
    pub first_end: u32,
}

impl Hull {
    // The same with one node more, if it is an expression.
    fn with(self, spot: Spot<'_, '_>) -> Hull
        ensures grows { GoesAsFar result self }
        ensures meets { IsTrue (is_expression (kind_of (seen spot.entry).node)) →
            Meets result (span_of (seen spot.entry).node) }
    {
        if !spot.node.kind.is_expression() {
            return self;
        }
        let span = spot.node.span;
        Hull {
            last_begin: self.last_begin.max(span.from),
            first_end: self.first_end.min(span.to),
        }
    }

    // The same with a node and all that is below it.
    fn with_tree(self, top: Spot<'_, '_>) -> Hull
        ensures grows { GoesAsFar result self }
        ensures meets { MeetsAll result (pre_at (seen top.entry)) }
    {
        let mut hull = self;
        for further in 0..top.size() {
            hull = hull.with(top.below(further));
        }
        hull
    }

    /// The hull of those of these nodes, and of all that is below them, that are expressions. A node may stand outside those above
    /// it.
    pub fn of(tops: &[Spot<'_, '_>]) -> Hull
        ensures { MeetsAll result (flat_map pre_at (all_seen tops.now)) }
    {
        let mut hull = Hull {
            last_begin: 0,
            first_end: u32::MAX,
        };
        for top in tops {
            hull = hull.with_tree(*top);
        }
        hull
    }
}
