//! Paths by their points.

/// The paths with the same points: the last point, the number of the class of the paths before it, and the places of the facts
/// that are carried to the point along these, and along none that comes before.
#[derive(Drop)]
pub struct Class {
    pub point: u32,
    pub parent: u32,
    pub first: u32,
    pub end: u32,
}

/// Classes in order, the facts of all of them, and the pairs of a point and a fact that were seen.
#[derive(Drop)]
pub struct Queue {
    pub classes: Vec<Class>,
    pub facts: Vec<u32>,
    pub seen: Vec<u64>,
}
