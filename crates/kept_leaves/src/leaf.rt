//! Leaves as they are kept.

ghost use Rattle.kept_leaves.specs.Kept.{nothing};

use open_store::OpenStore;
use piece_form::{PatternKey, PieceKey};
use piece_store::{Answer, Store};
use std::rc::Rc;
use tree_match::Leaf;

/// What a pattern has in a piece. Most have no member there.
#[derive(Drop)]
pub struct KeptLeaf {
    pub leaf: Leaf,
}

impl Answer for KeptLeaf {
    ghost empty = { nothing };

    fn is_empty(&self) -> bool {
        match &self.leaf {
            Leaf::Full(members) => members.len() == 0,
            Leaf::Crowded => false,
        }
    }
}

/// Leaves of pairs of a piece and a pattern, path by path, whatever they are. `specs/Kept.antt` says which pairs a value keeps.
#[derive(Drop)]
pub struct KeptPairs {
    pub store: Store<Rc<PieceKey>, Rc<PatternKey>, KeptLeaf>,
}

/// The same while a file is searched: the rows of the file's pieces are in hand.
#[derive(Drop)]
pub struct OpenLeaves {
    pub store: OpenStore<Rc<PieceKey>, Rc<PatternKey>, KeptLeaf>,
}
