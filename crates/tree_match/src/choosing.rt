//! A search in which the parts of a pattern choose among kids.

ghost use Rattle.std.specs.Prelude.{◌≡◌, ◌↔◌, ◌<◌, ◌≤◌, length, drop, slice_index_or, true, false, IfOk, OnOk};
ghost use Rattle.node_tree.specs.declared.node.Node.{Node as a_node};
ghost use Rattle.node_tree.specs.Tree.{kids_of};
ghost use Rattle.node_match.specs.Orders.{choosers, chooses as is_chooser, has_runs};
ghost use Rattle.tree_match.specs.Aims.{FoundFrom};
ghost use Rattle.tree_match.specs.Choosings.{FoundChoice, IsArgumentChoice};
ghost use Rattle.tree_match.specs.Members.{Member as a_member};

use crate::aim::Search;
use crate::next_places::NextPlaces;
use crate::outer::{Candidates, Left, Outer};
use meta_bind::Trail;
use node_match::{chooses, has_dots};
use node_pool::Spot;
use node_search::{Choice, Holder, State, are_steady, choose, enter};
use node_tree::{List, Memory, Node};
use std::alloc::Global;

/// A search in which the parts of the pattern choose among some kids of the holder. At the end it goes on as the search says.
#[derive(Clone, Copy)]
pub struct Choosing<'c, 'k, 'p, 't> {
    pub search: Search<'c, 'k, 'p, 't>,
    pub nodes: &'k [Spot<'p, 't>],
    /// Whether the parts with a name choose; else all but `...` do.
    pub named: bool,
    /// Whether nodes may be left over.
    pub loose: bool,
}

/// The first part from one on that chooses, or how many parts there are.
pub fn next_chooser(choosing: Choosing<'_, '_, '_, '_>, from: usize) -> usize
    requires { from ≤ length (kids_of choosing.search.pattern.now) }
    ensures on { from ≤ result }
    ensures within { result ≤ length (kids_of choosing.entry.search.pattern.now) }
    ensures first { result < length (kids_of choosing.entry.search.pattern.now) → (p : a_node) →
        p ≡ slice_index_or (kids_of choosing.entry.search.pattern.now) result p → is_chooser choosing.entry.named p ≡ true }
    ensures same { choosers choosing.entry.named (drop result (kids_of choosing.entry.search.pattern.now)) ≡
        choosers choosing.entry.named (drop from (kids_of choosing.entry.search.pattern.now)) }
{
    let parts = choosing.search.pattern.kids.as_slice();
    for at in from..parts.len() {
        if chooses(choosing.named, &parts[at]) {
            return at;
        }
    }
    parts.len()
}

/// Whether what the parts from one on choose is gathered at once: where no split is left, no part, or no new name.
pub fn is_gathered(
    choosing: Choosing<'_, '_, '_, '_>,
    from: usize,
    trail: &Trail<'_>,
    splits: usize,
) -> Result<bool, Memory>
    ensures { IfOk result (λ so. so ≡ false → (0 < splits) × (from < length (kids_of choosing.entry.search.pattern.now))) }
{
    let parts = choosing.search.pattern.kids.as_slice();
    if splits == 0 {
        return Ok(true);
    }
    if parts.len() <= from {
        return Ok(true);
    }
    are_steady(parts, from, trail)
}

/// The states after all kids of the holder to which the parts from one on lead when each that chooses takes a node that isn't taken.
pub fn chosen_ends<'t>(
    alloc: Global,
    choosing: Choosing<'_, '_, '_, 't>,
    from: usize,
    taken: &mut Vec<bool>,
    trail: &Trail<'t>,
) -> Result<List<State<'t>>, Memory>
    requires within { from ≤ length (kids_of choosing.search.pattern.now) }
    requires size { length taken.old.items ≡ length choosing.nodes.now }
    ensures kept { OnOk result (taken.new.items ≡ taken.old.items) }
    ensures ends { IfOk result (λ ends. (m : a_member) →
        FoundFrom choosing.entry.search (length (kids_of choosing.entry.search.pattern.now)) ends m ↔
        FoundChoice choosing.entry from taken.old.items trail.now m) }
{
    let choice = Choice {
        known: choosing.search.known,
        patterns: choosing.search.pattern.kids.as_slice(),
        nodes: choosing.nodes,
        named: choosing.named,
        loose: choosing.loose,
        most: usize::MAX,
    };
    let mut found = List::new(alloc);
    choose(alloc, choice, from, taken, trail, &mut found)?;
    let _room = found.len();
    let mut ends = List::new(alloc);
    enter(&mut ends, choosing.search.holder.kids.len(), found)?;
    Ok(ends)
}

/// The choice among the arguments of a call that have a name, as a list in which a search goes on after those without one.
pub fn choice_among<'k, 'p, 't>(
    pattern: &'t Node,
    spot: Spot<'p, 't>,
    nodes: &'k [Spot<'p, 't>],
    taken: &'k [bool],
    nexts: &'k [Option<NextPlaces>],
) -> Outer<'k, 'p, 't>
    requires unrun { has_runs (kids_of pattern.now) ≡ false }
    requires size { length taken.now ≡ length nodes.now }
    ensures { IsArgumentChoice pattern.now spot.entry nodes.now taken.now result }
{
    let left = Candidates {
        nodes,
        taken,
        named: true,
        loose: has_dots(pattern.kids.as_slice()),
    };
    Outer {
        pattern,
        holder: Holder { spot, kids: nodes },
        unnamed: true,
        nexts,
        from: 0,
        left: Left::Candidates(left),
    }
}
