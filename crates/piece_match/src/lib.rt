//! Pieces of files: what a pattern has in a piece, where the piece stands in a file, and all pieces together.
//!
//! A piece is matched by itself, with places counted from its start. So after an edit only the pieces that changed are matched
//! again: what a pattern has in a piece that moved is the same, moved, and what it has in a file is the union over its pieces.
#![tactic(auto)]

mod apart;
mod cut;
mod merge;
mod moving;
mod piece;
mod unite;

pub use apart::falls_apart;
pub use cut::{pieces, root_piece};
pub use moving::moved;
pub use piece::{ReadyPiece, match_piece, match_ready_piece};
pub use unite::{PlacedLeaf, union, union_moved};
