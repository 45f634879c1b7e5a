//! What a search looks up.

/// A graph and what its points do, made ready for searches: the points to which edges lead from each point, the pairs of
/// facts that each point adds, in order, and the facts that points drop, as a set of numbers.
#[derive(Drop)]
pub struct Ready {
    pub after: Vec<Vec<u32>>,
    pub added: Vec<Vec<u64>>,
    pub dropped: Vec<u64>,
}
