//! Members in blocks, so that those that can't meet a state aren't looked at.

ghost use Rattle.std.specs.Prelude.{◌≡◌, ◌↔◌, false, true, map, IfOk, IfSome, List as list};
ghost use Rattle.std.specs.Ordering.{is_lt};
ghost use Rattle.node_tree.specs.declared.node.Node.{Node as node_value};
ghost use Rattle.node_tree.specs.Tree.{content_of};
ghost use Rattle.meta_bind.specs.Bounds.{Agree};
ghost use Rattle.node_match.specs.Sets.{Among};
ghost use Rattle.tree_match.specs.Members.{Member as member_value};
ghost use Rattle.sorted_sets.specs.Sizes.{Each, Any};
ghost use Rattle.member_join.specs.Agreements.{AgreesWith};
ghost use Rattle.member_join.specs.Blocks.{contents_order, IsNotBelow, Encloses, IsHullOf, AreHullsOf, IsReach, IsBlock, IsIn, IsApart};

use crate::state::State;
use meta_bind::Trail;
use node_tree::{Memory, Node, Span, order_all};
use sorted_sets::Member;
use std::alloc::Global;
use std::cmp::Ordering;

/// The most members of a block.
const MOST_OF_BLOCK: usize = 64;

/// A name that all members of a block bind, and the least and the greatest contents that they bind it to.
#[derive(Clone, Copy)]
pub struct Hull<'t> {
    pub name: &'t str,
    pub least: &'t [Node],
    pub greatest: &'t [Node],
}

/// Some members, where the first of them begins and the last one ends, and the hulls of names that all of them bind.
#[derive(Drop)]
pub struct Block<'s, 't> {
    pub members: &'s [Member<'t>],
    pub range: Span,
    pub hulls: Vec<Hull<'t>>,
}

// Whether the first contents come before the second ones.
fn is_less(a: &[Node], b: &[Node]) -> bool
    ensures { result ≡ is_lt (contents_order (map content_of a.now) (map content_of b.now)) }
{
    order_all(a, b).is_lt()
}

// The one of two contents that comes first.
fn least<'t>(a: &'t [Node], b: &'t [Node]) -> &'t [Node]
    ensures first { IsNotBelow (map content_of a.now) (map content_of result.now) }
    ensures second { (nodes : list node_value) → IsNotBelow nodes (map content_of b.now) → IsNotBelow nodes (map content_of result.now) }
{
    if is_less(a, b) {
        return a;
    }
    b
}

// The one of two contents that comes last.
fn greatest<'t>(a: &'t [Node], b: &'t [Node]) -> &'t [Node]
    ensures first { IsNotBelow (map content_of result.now) (map content_of a.now) }
    ensures second { (nodes : list node_value) → IsNotBelow (map content_of b.now) nodes → IsNotBelow (map content_of result.now) nodes }
{
    if is_less(b, a) {
        return a;
    }
    b
}

// The hull of the same name that encloses these contents too.
fn widened<'t>(hull: Hull<'t>, run: &'t [Node]) -> Hull<'t>
    ensures name { result.name ≡ hull.entry.name }
    ensures same { (nodes : list node_value) → Encloses hull.entry nodes → Encloses result nodes }
    ensures more { Encloses result (map content_of run.now) }
{
    Hull {
        name: hull.name,
        least: least(run, hull.least),
        greatest: greatest(run, hull.greatest),
    }
}

// The hull of the name, where all the members bind it.
fn hull_of<'t>(name: &'t str, members: &[Member<'t>]) -> Option<Hull<'t>>
    ensures { IfSome result (λ h. Each (IsHullOf h) members.now) }
{
    let first = members.first()?;
    let held = first.1.get(name)?;
    let mut hull = Hull {
        name,
        least: held.run,
        greatest: held.run,
    };
    for member in members {
        let held = member.1.get(name)?;
        hull = widened(hull, held.run);
    }
    Some(hull)
}

// The hulls of those of the names that all the members bind.
fn hulls_of<'t>(
    alloc: Global,
    names: &[&'t str],
    members: &[Member<'t>],
) -> Result<Vec<Hull<'t>>, Memory>
    ensures { IfOk result (λ v. AreHullsOf members.now v.items) }
{
    let mut hulls = Vec::new(alloc);
    for name in names {
        if let Some(hull) = hull_of(*name, members) {
            hulls.push(hull)?;
        }
    }
    Ok(hulls)
}

// Where the first of the members begins and the last one ends.
fn range_of(members: &[Member<'_>]) -> Span
    ensures { IsReach result members.now }
{
    let mut range = Span {
        from: u32::MAX,
        to: 0,
    };
    for member in members {
        range = Span {
            from: member.0.from.min(range.from),
            to: member.0.to.max(range.to),
        };
    }
    range
}

// The block of these members.
fn block_of<'s, 't>(
    alloc: Global,
    names: &[&'t str],
    members: &'s [Member<'t>],
) -> Result<Block<'s, 't>, Memory>
    ensures members { IfOk result (λ b. b.members.now ≡ members.now) }
    ensures block { IfOk result IsBlock }
{
    Ok(Block {
        members,
        range: range_of(members),
        hulls: hulls_of(alloc, names, members)?,
    })
}

/// The members in blocks, in the order in which they stand.
pub fn blocks_of<'s, 't>(
    alloc: Global,
    names: &[&'t str],
    members: &'s [Member<'t>],
) -> Result<Vec<Block<'s, 't>>, Memory>
    ensures each { IfOk result (λ v. Each IsBlock v.items) }
    ensures whole { IfOk result (λ v. (m : member_value) → Any (IsIn m) v.items ↔ Among members.now m) }
{
    let mut blocks = Vec::new(alloc);
    let mut from = 0;
    while from < members.len() {
        let end = from + (members.len() - from).min(MOST_OF_BLOCK);
        blocks.push(block_of(alloc, names, &members[from..end])?)?;
        from = end;
    }
    Ok(blocks)
}

// Whether what is bound lies outside of the hull, so that no binding within it agrees.
fn is_outside<'t>(hull: &Hull<'t>, trail: &Trail<'t>) -> bool
    ensures { result ≡ true → (m : member_value) → IsHullOf hull.now m → Agree trail.now m.1 → ⊥ }
{
    let Some(held) = trail.get(hull.name) else {
        return false;
    };
    is_less(held.run, hull.least) || is_less(hull.greatest, held.run)
}

// The same of what the state binds.
fn lies_outside<'t>(hull: &Hull<'t>, state: &State<'t>) -> bool
    ensures { result ≡ true → (m : member_value) → IsHullOf hull.now m → AgreesWith state.now.plain state.now.inside m.1 → ⊥ }
{
    is_outside(hull, &state.plain) || is_outside(hull, &state.inside)
}

/// Whether some of the block's members may have a range that touches that of the state, and agree with it.
pub fn may_meet<'t>(block: &Block<'_, 't>, state: &State<'t>) -> bool
    requires block { IsBlock block.now }
    ensures { result ≡ false → Each (IsApart state.now) block.now.members.now }
{
    if block.range.to < state.range.from || state.range.to < block.range.from {
        return false;
    }
    for hull in block.hulls.as_slice() {
        if lies_outside(hull, state) {
            return false;
        }
    }
    true
}

// Which of the bindings comes first by the contents of the name; one without the name before one with it.
fn order_held<'t>(name: &str, a: &Trail<'t>, b: &Trail<'t>) -> Ordering {
    match (a.get(name), b.get(name)) {
        (None, None) => Ordering::Equal,
        (None, Some(_)) => Ordering::Less,
        (Some(_), None) => Ordering::Greater,
        (Some(one), Some(other)) => order_all(one.run, other.run),
    }
}

// The same by the contents of the first name, then by those of the next one, and so on.
fn order_by<'t>(names: &[&str], a: &Trail<'t>, b: &Trail<'t>) -> Ordering {
    for name in names {
        match order_held(*name, a, b) {
            Ordering::Less => return Ordering::Less,
            Ordering::Greater => return Ordering::Greater,
            Ordering::Equal => {}
        }
    }
    Ordering::Equal
}

/// The members in order of the contents of the names. Those that bind them to the same stay in their order.
pub fn sorted<'t>(
    alloc: Global,
    names: &[&'t str],
    members: &[Member<'t>],
) -> Result<Vec<Member<'t>>, Memory>
    ensures { IfOk result (λ v. (m : member_value) → Among v.items m ↔ Among members.now m) }
{
    let mut sorted = Vec::new(alloc);
    for member in members {
        sorted.push((member.0, member.1.copy()?))?;
    }
    sorted.sort_by(|a, b| order_by(names, &a.1, &b.1))?;
    Ok(sorted)
}

// Adds the names that the binding and the state bind.
fn add_shared<'t>(
    binding: &Trail<'t>,
    state: &State<'t>,
    names: &mut Vec<&'t str>,
) -> Result<(), Memory> {
    let kept = binding.keep()?;
    for bound in kept.bounds() {
        let name = bound.name.as_str();
        if state.plain.get(name).is_some() || state.inside.get(name).is_some() {
            if let Some(held) = binding.get(name) {
                names.push(held.name)?;
            }
        }
    }
    Ok(())
}

/// The names that the first of the states and the first of the members bind.
pub fn shared_names<'t>(
    alloc: Global,
    states: &[State<'t>],
    members: &[Member<'t>],
) -> Result<Vec<&'t str>, Memory> {
    let mut names = Vec::new(alloc);
    if let (Some(state), Some(member)) = (states.first(), members.first()) {
        add_shared(&member.1, state, &mut names)?;
    }
    Ok(names)
}
