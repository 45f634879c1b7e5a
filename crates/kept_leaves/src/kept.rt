//! What is kept from one scan to the next.

ghost use Rattle.std.specs.Prelude.{◌≡◌, []};
ghost use Rattle.kept_leaves.specs.Kept.{map_of, IsEmpty, IsKept, AreRight};
ghost use Rattle.kept_leaves.specs.Growth.{Grows, Turns};

use crate::leaf::{KeptLeaf, KeptPairs};
use piece_store::Store;
use std::alloc::Global;
use std::marker::Model;
use tree_match::{Leaf, LeafSet};

/// What patterns have in the pieces of files, and which of these pairs were met since the last turn. Each kept leaf has the
/// members of its pattern in its piece. Contracts see the pairs by `Keeps`.
#[derive(Drop)]
pub struct KeptLeaves {
    pub(crate) pairs: KeptPairs,
}

impl Model for KeptLeaves {
    ghost use Rattle.kept_leaves.specs.declared.leaf.KeptPairs.{KeptPairs as kept_pairs};
    ghost use Rattle.kept_leaves.specs.contracts.leaf.KeptPairs as kept_rows;
    ghost use Rattle.kept_leaves.specs.Kept.{IsStore};

    ghost Value = { kept_pairs };

    ghost coded = { kept_rows.the_row.coded };

    ghost view = { λ k. k.pairs };

    ghost invariant = { λ k. IsStore k.pairs.store };
}

impl KeptLeaves {
    /// Nothing is kept. It takes no memory.
    pub fn new(alloc: Global) -> KeptLeaves
        ensures { IsEmpty (map_of result) }
    {
        let leaf = Leaf::Full(LeafSet::empty(alloc));
        KeptLeaves {
            pairs: KeptPairs {
                store: Store::new(alloc, KeptLeaf { leaf }),
            },
        }
    }

    /// Each kept pair of the path is met. It costs the same however many there are, and takes no memory.
    pub fn keep_path(&mut self, path: &str)
        ensures { Grows (map_of self.old) (map_of self.new) (λ x. (path.now ≡ x.path) × IsKept (map_of self.old) x) [] }
    {
        self.pairs.store.mark_all(path);
    }

    /// Drops the pairs that were not met since the last turn. It takes no memory.
    pub fn turn(&mut self)
        ensures { Turns (map_of self.old) (map_of self.new) }
    {
        self.pairs.store.turn();
    }

    /// Drops all pairs. It takes no memory.
    pub fn clear(&mut self)
        ensures { IsEmpty (map_of self.new) }
    {
        self.pairs.store.clear();
    }

    /// Each kept leaf has the members of its pattern in its piece.
    pub fn is_right(&self)
        ensures { AreRight (map_of self.now) }
    {
        let _pairs = &self.pairs;
    }
}
