//! How far a pattern comes before its next sign that stands for any run.

/// How the signs of a pattern up to its next one that stands for any run meet the front of a list.
#[derive(Drop)]
pub enum Front<G, S> {
    /// There is no such sign, and the pattern fits.
    Whole,
    /// The signs before it fit. What follows it, and what is left of the list.
    Run(G, S),
    /// The pattern doesn't fit.
    Miss,
}
