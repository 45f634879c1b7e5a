//! The keys of pieces and patterns.

ghost use Rattle.std.specs.Prelude.{IfOk};
ghost use Rattle.piece_form.specs.Keys.{IsKeyOf, IsPatternKeyOf};

use crate::piece::Piece;
use crate::written::add_known;
use node_tree::{Memory, Pattern};
use std::alloc::Global;
use tree_code::{Look, add_tree, mix};

// How many bytes of a key a byte of a piece takes, about.
const CODE_BYTES: usize = 4;

/// A piece as a key: how many bytes it has, these, and the rest of it written as bytes. Keys are in that order, so most are told apart
/// without a look at the bytes.
#[derive(Debug, PartialEq, Eq, PartialOrd, Ord, Drop)]
pub struct PieceKey {
    pub size: usize,
    pub bytes: Vec<u8>,
    pub code: Vec<u8>,
}

impl PieceKey {
    /// The key of a piece. `Memory` is also the answer where a length in it passes the largest `u32`.
    pub fn of(alloc: Global, piece: &Piece) -> Result<PieceKey, Memory>
        ensures { IfOk result (IsKeyOf piece.now) }
    {
        let bytes = Vec::from_slice(alloc, piece.bytes.as_slice())?;
        let room = bytes.len().saturating_mul(CODE_BYTES);
        let mut code = Vec::with_capacity(alloc, room)?;
        code.push(piece.lang as u8)?;
        add_tree(&mut code, &piece.tree, Look::Whole)?;
        add_known(&mut code, piece.known.as_slice())?;
        code.shrink_to_fit();
        Ok(PieceKey {
            size: piece.bytes.len(),
            bytes,
            code,
        })
    }
}

/// A pattern as a key: a number made from the bytes as which it is written, and these. Keys are in that order, so most are told apart
/// without a look at the bytes.
#[derive(Debug, PartialEq, Eq, PartialOrd, Ord, Drop)]
pub struct PatternKey {
    pub sum: u32,
    pub code: Vec<u8>,
}

impl PatternKey {
    /// The key of a pattern. `Memory` is also the answer where a length in it passes the largest `u32`.
    pub fn of(alloc: Global, pattern: &Pattern) -> Result<PatternKey, Memory>
        ensures { IfOk result (IsPatternKeyOf pattern.now) }
    {
        let mut code = Vec::new(alloc);
        code.push(pattern.lang as u8)?;
        code.push(pattern.shape as u8)?;
        code.push(pattern.constants as u8)?;
        add_tree(&mut code, &pattern.tree, Look::Whole)?;
        code.shrink_to_fit();
        let sum = mix(0, code.as_slice());
        Ok(PatternKey { sum, code })
    }
}
