//! What points do to facts.

use node_tree::List;

/// What a point does: the facts that it drops, and pairs of which it adds the second where the first is carried to it. A
/// fact of which nothing is said stays.
#[derive(Drop)]
pub struct Move {
    pub drops: List<u32>,
    pub adds: List<(u32, u32)>,
}

/// The number of facts, the facts carried to the entry, and what each point does, in order of points.
#[derive(Drop)]
pub struct Moves {
    pub facts: u32,
    pub start: List<u32>,
    pub rows: List<Move>,
}
