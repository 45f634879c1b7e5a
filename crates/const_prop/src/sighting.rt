//! Names that were seen.

use unit_names::Word;

/// A name at a point: its number, and the literal that it holds there, if it holds one and isn't
/// a target.
#[derive(Clone, Copy)]
pub struct Sighting<'t> {
    pub at: u32,
    pub literal: Option<Word<'t>>,
}
