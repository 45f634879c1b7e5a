//! Trees that are ready for the search.

ghost use Rattle.std.specs.Prelude.{◌≡◌, ◌<◌, true, IfOk};
ghost use Rattle.node_tree.specs.declared.view.Shape.TheVariants.{Run as run};
ghost use Rattle.node_tree.specs.Numbers.{root_of};
ghost use Rattle.node_pool.specs.Spots.{seen};
ghost use Rattle.tree_match.specs.Leaf.{IsLeaf};
ghost use Rattle.tree_match.specs.Members.{IsMember, Member, MemberOf, MemberRun, known_to as known_for};
ghost use Rattle.file_match.specs.Trees.{known_in};

use crate::answer::{known_to, leaf_under};
use crate::pattern::ReadyPattern;
use crate::ready::{pool_of, root_in};
use crate::words::{ALL_PLACES, Words, may_match, words_of};
use node_match::Constants;
use node_pool::{NodePool, Spot};
use node_tree::{List, Memory, Node, Shape};
use std::alloc::Global;
use std::marker::Model;
use tree_match::{Leaf, LeafSet, MOST_MEMBERS, add_block, keep_all, kinds_of};

// The words of a tree of fewer nodes have few places, whose marks are soon made.
const FEW_NODES: u32 = 1000;

const FEW_PLACES: u32 = 2048;

/// A tree that is ready for the search of many patterns: its nodes in a pool, their kinds, and its words. Contracts see the
/// tree.
#[derive(Drop)]
pub struct ReadyTree<'t> {
    tree: &'t Node,
    pool: NodePool<'t>,
    kinds: Vec<u8>,
    words: Words,
}

impl<'t> Model for ReadyTree<'t> {
    ghost use Rattle.node_tree.specs.declared.node.Node.{Node as node_value};
    ghost use Rattle.node_tree.specs.contracts.node.Node as nodes;

    ghost Value = { node_value };

    ghost coded = { nodes.the_row.coded };

    ghost use Rattle.file_match.specs.Trees.{IsReadyTree};

    ghost view = { λ r. r.tree.now };

    ghost invariant = { λ r. IsReadyTree r.tree.now r.pool.nodes r.kinds.items r.words };
}

// How many places the words of a tree of that size have.
fn places_for(size: u32) -> u32
    ensures { 0 < result }
{
    if size < FEW_NODES {
        FEW_PLACES
    } else {
        ALL_PLACES
    }
}

impl<'t> ReadyTree<'t> {
    /// Makes the tree ready.
    pub fn of(alloc: Global, tree: &'t Node) -> Result<ReadyTree<'t>, Memory>
        ensures { IfOk result (λ ready. ready ≡ tree.now) }
    {
        let pool = pool_of(alloc, tree)?;
        let root = root_in(&pool);
        let kinds = kinds_of(alloc, root)?;
        let words = words_of(alloc, tree, places_for(root.size()))?;
        Ok(ReadyTree {
            tree,
            pool,
            kinds,
            words,
        })
    }
}

// Whether the tree lacks a word that the pattern needs, where these names are known to hold literals.
fn is_ruled_out(tree: &ReadyTree<'_>, known: Constants<'_>, pattern: &ReadyPattern<'_>) -> bool
    ensures member { result ≡ true → (m : Member) →
        MemberOf known.entry.names.now pattern.now.shape pattern.now.tree tree.now m → ⊥ }
    ensures own_run { result ≡ true → pattern.now.shape ≡ run → (m : Member) →
        MemberRun known.entry.names.now pattern.now.tree (root_of tree.now) m → ⊥ }
{
    let wanted = pattern.wanted(known.names.is_empty());
    !may_match(&tree.words, wanted)
}

// The members of a pattern in the tree, where these names are known to hold literals.
fn leaf_in_tree(
    alloc: Global,
    tree: &ReadyTree<'_>,
    known: Constants<'_>,
    pattern: &ReadyPattern<'_>,
) -> Result<Leaf, Memory>
    ensures { IfOk result (λ leaf. IsLeaf (MemberOf known.entry.names.now pattern.now.shape pattern.now.tree tree.now) leaf) }
{
    if is_ruled_out(tree, known, pattern) {
        return Ok(Leaf::Full(LeafSet::empty(alloc)));
    }
    let root = root_in(&tree.pool);
    let pattern = pattern.pattern();
    let leaf = leaf_under(
        alloc,
        known,
        pattern.shape,
        &pattern.tree,
        root,
        tree.kinds.as_slice(),
    )?;
    Ok(leaf)
}

/// The members of the pattern in a tree that is ready, where these of its names are known to hold literals.
pub fn match_tree(
    alloc: Global,
    tree: &ReadyTree<'_>,
    known: Constants<'_>,
    pattern: &ReadyPattern<'_>,
) -> Result<Leaf, Memory>
    ensures { IfOk result (λ leaf. IsLeaf (IsMember pattern.now (known_in tree.now known.entry.names.now)) leaf) }
{
    let known = known_to(pattern.pattern(), known);
    leaf_in_tree(alloc, tree, known, pattern)
}

// The members whose ranges are runs of the node's own kids.
fn runs_of<'t>(
    alloc: Global,
    known: Constants<'_>,
    pattern: &'t Node,
    block: Spot<'_, 't>,
) -> Result<Leaf, Memory>
    ensures { IfOk result (λ leaf. IsLeaf (MemberRun known.entry.names.now pattern.now (seen block.entry)) leaf) }
{
    let mut members = List::new(alloc);
    add_block(alloc, known, pattern, block, &mut members, MOST_MEMBERS)?;
    if members.len() > MOST_MEMBERS {
        return Ok(Leaf::Crowded);
    }
    Ok(Leaf::Full(keep_all(alloc, members.as_slice())?))
}

// Whether the root has no run of its own for the pattern, since the tree lacks a word that it needs.
fn has_no_run(tree: &ReadyTree<'_>, known: Constants<'_>, pattern: &ReadyPattern<'_>) -> bool
    ensures { result ≡ true → (m : Member) →
        MemberRun known.entry.names.now pattern.now.tree (root_of tree.now) m → ⊥ }
{
    match pattern.pattern().shape {
        Shape::Expr => false,
        Shape::Run => is_ruled_out(tree, known, pattern),
    }
}

/// The members of a run's pattern whose ranges are runs of the kids of the root itself, and not of a block in it.
pub fn match_own_runs(
    alloc: Global,
    tree: &ReadyTree<'_>,
    known: Constants<'_>,
    pattern: &ReadyPattern<'_>,
) -> Result<Leaf, Memory>
    ensures { IfOk result (λ leaf. IsLeaf (MemberRun (known_for pattern.now known.entry.names.now) pattern.now.tree (root_of tree.now)) leaf) }
{
    let pattern_tree = &pattern.pattern().tree;
    let known = known_to(pattern.pattern(), known);
    if has_no_run(tree, known, pattern) {
        return Ok(Leaf::Full(LeafSet::empty(alloc)));
    }
    let leaf = runs_of(alloc, known, pattern_tree, root_in(&tree.pool))?;
    Ok(leaf)
}
