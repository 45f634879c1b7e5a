//! The set of members of a pattern in a file.

ghost use Rattle.std.specs.Prelude.{◌≡◌, [], ◌∷◌, length, slice_get, slice_index, slice_index_or, ◌<◌, ◌≤◌, IsTrue, IfOk, OnOk};
ghost use Rattle.std.specs.Option.{option_copied};
ghost use Rattle.node_tree.specs.Blocks.{is_block};
ghost use Rattle.node_tree.specs.Numbers.{Numbered, count_of, pre_at};
ghost use Rattle.tree_match.specs.Starts.{kinds_at, IsElsewhere};
ghost use Rattle.node_pool.specs.Spots.{seen};
ghost use Rattle.node_match.specs.Sets.{AddsUpTo};
ghost use Rattle.tree_match.specs.Ascending.{IsAscending};
ghost use Rattle.tree_match.specs.Members.{MemberAt, MemberRun, MemberIn, MemberUnder, blocks_at, those_blocks, member_cmp};
ghost use Rattle.tree_match.specs.Leaf.{IsFound};

use crate::expression::add_node;
use crate::run::add_block;
use meta_bind::{Binding, Trail};
use node_match::{Constants, Role, role_of};
use node_pool::Spot;
use node_tree::{Kind, List, Memory, Node, Shape, Span, Twin};
use std::alloc::Global;
use std::marker::Model;

/// The most members of a set.
pub const MOST_MEMBERS: usize = 10_000;

/// The members of a set: ranges, each with what the metavariables stand for there. They stand in order of range, then of
/// binding (the names with their spans, then the contents), each once, and there are at most 10,000.
#[derive(Drop)]
pub struct LeafSet {
    members: List<(Span, Binding)>,
}

impl Model for LeafSet {
    ghost use Rattle.std.specs.Prelude.{◌≤◌, List as list, length};
    ghost use Rattle.std.specs.Coded.{coded_list, coded×};
    ghost use Rattle.node_tree.specs.declared.span.Span.{Span as span};
    ghost use Rattle.node_tree.specs.contracts.span.Span as spans;
    ghost use Rattle.meta_bind.specs.declared.bound.Bound.{Bound as bound};
    ghost use Rattle.meta_bind.specs.contracts.binding.Binding as bindings;

    ghost Value = { list (span × list bound) };

    ghost coded = { coded_list (coded× spans.the_row.coded bindings.the_row.coded) };

    ghost use Rattle.tree_match.specs.Ascending.{IsAscending};
    ghost use Rattle.tree_match.specs.Members.{member_cmp};

    ghost view = { λ s. s.members };

    ghost invariant = { λ s. IsAscending member_cmp s.members × (length s.members ≤ 10000) };
}

impl LeafSet {
    /// The set of these members, at most 10,000, which takes no memory.
    pub fn of(members: List<(Span, Binding)>) -> LeafSet
        requires ordered { IsAscending member_cmp members }
        requires few { length members ≤ 10000 }
        ensures { result ≡ members }
    {
        LeafSet { members }
    }

    /// The members in order.
    pub fn members(&self) -> &[(Span, Binding)]
        ensures members { result.now ≡ self.now }
        ensures ordered { IsAscending member_cmp self.now }
        ensures few { length self.now ≤ 10000 }
    {
        self.members.as_slice()
    }

    /// The members in order, taken over.
    pub fn into_members(self) -> List<(Span, Binding)>
        ensures members { result ≡ self }
        ensures ordered { IsAscending member_cmp self }
        ensures few { length self ≤ 10000 }
    {
        self.members
    }

    /// Where the set takes its memory.
    pub fn alloc(&self) -> Global {
        self.members.alloc()
    }

    // The set without members, which takes no memory.
    pub fn empty(alloc: Global) -> LeafSet
        ensures { result ≡ [] }
    {
        LeafSet {
            members: List::new(alloc),
        }
    }

    /// How many members there are.
    pub fn len(&self) -> usize
        ensures { result ≡ length self.now }
    {
        self.members.len()
    }

    /// The member at a place, counted from 0.
    pub fn get(&self, at: usize) -> Option<&(Span, Binding)>
        ensures { option_copied result ≡ slice_get self.now at }
    {
        self.members.get(at)
    }
}

impl Twin for LeafSet {
    fn copy(&self) -> Result<LeafSet, Memory> {
        let mut members = List::new(self.members.alloc());
        for (range, binding) in self.members.as_slice() {
            members.push((*range, binding.copy()?))?;
        }
        Ok(LeafSet { members })
    }
}

/// The members of a pattern in a file, or that there are more than 10,000.
#[derive(Drop)]
pub enum Leaf {
    Full(LeafSet),
    Crowded,
}

impl Twin for Leaf {
    fn copy(&self) -> Result<Leaf, Memory> {
        match self {
            Leaf::Full(members) => Ok(Leaf::Full(members.copy()?)),
            Leaf::Crowded => Ok(Leaf::Crowded),
        }
    }
}

/// The members with borrowed bindings, or none where there are more than 10,000. The kinds are those of the nodes.
pub fn members_of<'t>(
    alloc: Global,
    known: Constants<'_>,
    shape: Shape,
    pattern: &'t Node,
    root: Spot<'_, 't>,
    kinds: &[u8],
) -> Result<Option<List<(Span, Trail<'t>)>>, Memory>
    requires { kinds.now ≡ kinds_at (seen root) }
    ensures { IfOk result (λ found. IsFound (MemberUnder known.entry.names.now shape pattern.now (seen root.entry)) found) }
{
    match shape {
        Shape::Expr => members_of_kinds(alloc, known, pattern, root, kinds),
        Shape::Run => members_in_blocks(alloc, known, pattern, root),
    }
}

// The same for an expression's pattern.
fn members_of_kinds<'t>(
    alloc: Global,
    known: Constants<'_>,
    pattern: &'t Node,
    root: Spot<'_, 't>,
    kinds: &[u8],
) -> Result<Option<List<(Span, Trail<'t>)>>, Memory>
    requires { kinds.now ≡ kinds_at (seen root) }
    ensures { IfOk result (λ found. IsFound (MemberIn (MemberAt known.entry.names.now pattern.now) (pre_at (seen root.entry))) found) }
{
    let mut members = List::new(alloc);
    for further in 0..root.size() {
        let kind = kinds[further as usize];
        add_begun_at(alloc, known, pattern, root, further, kind, &mut members)?;
        if members.len() > MOST_MEMBERS {
            return Ok(None);
        }
    }
    Ok(Some(members))
}

// Adds the members at the node so far on, which has that kind.
fn add_begun_at<'t>(
    alloc: Global,
    known: Constants<'_>,
    pattern: &'t Node,
    root: Spot<'_, 't>,
    further: u32,
    kind: u8,
    members: &mut List<(Span, Trail<'t>)>,
) -> Result<(), Memory>
    requires within { further < count_of (seen root).node }
    requires kind { kind ≡ slice_index (kinds_at (seen root)) further }
    requires ascend { IsAscending member_cmp members.old }
    ensures ordered { IsAscending member_cmp members.new }
    ensures added { OnOk result ((s : Numbered) → s ≡ slice_index_or (pre_at (seen root.entry)) further s → AddsUpTo MOST_MEMBERS members.old members.new (λ m. MemberAt known.entry.names.now pattern.now s m)) }
{
    if is_elsewhere(pattern, kind) {
        return Ok(());
    }
    add_node(
        alloc,
        known,
        pattern,
        root.below(further),
        members,
        MOST_MEMBERS,
    )?;
    Ok(())
}

// Whether the pattern matches nodes of another kind alone.
fn is_elsewhere(pattern: &Node, kind: u8) -> bool
    ensures { IsTrue result → IsElsewhere pattern.now kind }
{
    if pattern.kind.is_literal() {
        return false;
    }
    if role_of(pattern.kind) != Role::Plain {
        return false;
    }
    pattern.kind.place() != kind
}

/// The kinds of the nodes below a node in preorder, as their places in the order of kinds.
pub fn kinds_of(alloc: Global, root: Spot<'_, '_>) -> Result<Vec<u8>, Memory>
    ensures { IfOk result (λ kinds. kinds.items ≡ kinds_at (seen root.entry)) }
{
    let mut kinds = Vec::new(alloc);
    for further in 0..root.size() {
        kinds.push(root.below(further).node.kind.place())?;
    }
    Ok(kinds)
}

// The same for a run's pattern.
fn members_in_blocks<'t>(
    alloc: Global,
    known: Constants<'_>,
    pattern: &'t Node,
    root: Spot<'_, 't>,
) -> Result<Option<List<(Span, Trail<'t>)>>, Memory>
    ensures { IfOk result (λ found. IsFound (MemberIn (MemberRun known.entry.names.now pattern.now) (blocks_at (seen root.entry))) found) }
{
    let mut members = List::new(alloc);
    for further in 0..root.size() {
        add_run_at(alloc, known, pattern, root.below(further), &mut members)?;
        if members.len() > MOST_MEMBERS {
            return Ok(None);
        }
    }
    Ok(Some(members))
}

// Adds the members in this node, where it is a block.
fn add_run_at<'t>(
    alloc: Global,
    known: Constants<'_>,
    pattern: &'t Node,
    spot: Spot<'_, 't>,
    members: &mut List<(Span, Trail<'t>)>,
) -> Result<(), Memory>
    requires { IsAscending member_cmp members.old }
    ensures ordered { IsAscending member_cmp members.new }
    ensures added { OnOk result (AddsUpTo MOST_MEMBERS members.old members.new (λ m. MemberIn (MemberRun known.entry.names.now pattern.now) (those_blocks (seen spot.entry ∷ [])) m)) }
{
    if !holds_statements(spot.node.kind) {
        return Ok(());
    }
    add_block(alloc, known, pattern, spot, members, MOST_MEMBERS)?;
    Ok(())
}

// Whether a node of this kind has statements as its kids.
fn holds_statements(kind: Kind) -> bool
    ensures { result ≡ is_block kind }
{
    match kind {
        Kind::Root => true,
        Kind::Block => true,
        _ => false,
    }
}

/// The members with bindings of their own.
pub fn keep_all(alloc: Global, members: &[(Span, Trail<'_>)]) -> Result<LeafSet, Memory>
    requires ordered { IsAscending member_cmp members.now }
    requires few { length members.now ≤ 10000 }
    ensures { IfOk result (λ s. s ≡ members.now) }
{
    let mut kept = List::new(alloc);
    for (range, trail) in members {
        kept.push((*range, trail.keep()?))?;
    }
    Ok(LeafSet { members: kept })
}
