//! The pieces of a file: its statements at the top level, each counted from its own start, so that a statement that only moves
//! stays the same piece.
//!
//! The key of a piece, and of a pattern, is it written as bytes. A key takes a fraction of the memory that a tree does, keys
//! are in order, and two pieces are the same exactly where their keys are.
#![tactic(auto)]

mod key;
mod names;
mod piece;
mod same;
mod written;

pub use key::{PatternKey, PieceKey};
pub use names::KnownNames;
pub use piece::{Piece, Placed};
