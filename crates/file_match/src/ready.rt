//! Files that tell which patterns they may have, and the pools in which trees are searched.

ghost use Rattle.std.specs.Prelude.{◌≡◌, ◌↔◌, ◌++◌, ◌<◌, List as list, IsTrue, false, length, IfOk};
ghost use Rattle.node_tree.specs.declared.known.Known.{Known as known_value};
ghost use Rattle.node_tree.specs.declared.node.Node.{Node as node};
ghost use Rattle.node_tree.specs.Tree.{pre_of};
ghost use Rattle.node_pool.specs.Spots.{seen};
ghost use Rattle.node_tree.specs.Numbers.{root_of};
ghost use Rattle.tree_match.specs.Members.{Member, IsMember};
ghost use Rattle.file_match.specs.Trees.{known_in};
ghost use Rattle.file_match.specs.Words.{MayHave};

use crate::words::{ALL_PLACES, Words, may_match, wanted_of, words_of};
use node_pool::{NodePool, Spot, spot_at};
use node_tree::{FileView, Memory, Node, Pattern};
use std::alloc::Global;
use std::marker::Model;

/// A file that is ready to be asked for many patterns: with its words. Contracts see the file.
#[derive(Drop)]
pub struct ReadyFile<'v> {
    view: &'v FileView,
    words: Words,
}

impl<'v> Model for ReadyFile<'v> {
    ghost use Rattle.node_tree.specs.declared.view.FileView.{FileView as file_view};
    ghost use Rattle.node_tree.specs.contracts.view.FileView as file_views;

    ghost Value = { file_view };

    ghost coded = { file_views.the_row.coded };

    ghost use Rattle.file_match.specs.Ready.{IsReady};

    ghost view = { λ f. f.view.now };

    ghost invariant = { λ f. IsReady f.view.now.tree f.words };
}

impl<'v> ReadyFile<'v> {
    /// Makes the file ready.
    pub fn of(alloc: Global, view: &'v FileView) -> Result<ReadyFile<'v>, Memory>
        ensures { IfOk result (λ file. file ≡ view.now) }
    {
        let words = words_of(alloc, &view.tree, ALL_PLACES)?;
        Ok(ReadyFile { view, words })
    }

    /// The file.
    pub fn view(&self) -> &'v FileView
        ensures { result.now ≡ self.now }
    {
        self.view
    }

    /// Whether the file may have members of the pattern: it has each word that the pattern needs, whatever names are known to hold
    /// literals, or one that counts as that. Where it lacks one, the pattern has no member in it.
    pub fn may_have(&self, alloc: Global, pattern: &Pattern) -> Result<bool, Memory>
        ensures exact { IfOk result (λ may. IsTrue may ↔ MayHave pattern.now self.now.tree) }
        ensures lacks { IfOk result (λ may. may ≡ false → (known : list known_value) (m : Member) → IsMember pattern.now (known_in self.now.tree known) m → ⊥) }
    {
        let fixed = !pattern.constants;
        let wanted = wanted_of(alloc, fixed, pattern.shape, &pattern.tree)?;
        Ok(may_match(&self.words, &wanted))
    }
}

/// A pool with the nodes of a tree.
pub fn pool_of<'t>(alloc: Global, tree: &'t Node) -> Result<NodePool<'t>, Memory>
    ensures { IfOk result (λ pool. pool.nodes ≡ pre_of tree.now) }
{
    let Some(count) = tree.count() else {
        return Err(Memory);
    };
    let mut pool = NodePool::with_room(alloc, count)?;
    pool.place(tree);
    Ok(pool)
}

/// The root of the tree that stands in a pool.
pub fn root_in<'p, 't>(pool: &'p NodePool<'t>) -> Spot<'p, 't>
    requires { 0 < length pool.now.nodes }
    ensures { (tree : node) → pool.now.nodes ≡ pre_of tree → seen result ≡ root_of tree }
{
    spot_at(pool, 0)
}
