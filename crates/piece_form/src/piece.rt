//! A part of a file that is matched by itself.

use crate::names::KnownNames;
use node_tree::{Bytes, Lang, Memory, Node, Twin};

/// A part of a file that is matched by itself: its bytes, its tree with places counted from its start, and the names in it
/// that are known to hold a literal, by their numbers from the tree's first node.
#[derive(Drop)]
pub struct Piece {
    pub lang: Lang,
    pub bytes: Bytes,
    pub tree: Node,
    pub known: KnownNames,
}

/// A piece and where it starts in its file.
#[derive(Drop)]
pub struct Placed {
    pub start: u32,
    pub piece: Piece,
}

impl Twin for Piece {
    fn copy(&self) -> Result<Piece, Memory> {
        Ok(Piece {
            lang: self.lang,
            bytes: self.bytes.copy()?,
            tree: self.tree.copy()?,
            known: self.known.copy()?,
        })
    }
}

impl Twin for Placed {
    fn copy(&self) -> Result<Placed, Memory> {
        Ok(Placed {
            start: self.start,
            piece: self.piece.copy()?,
        })
    }
}
