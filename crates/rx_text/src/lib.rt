//! Regular expressions, and the building of them, which may be refused.
//!
//! The searches are those of the crate `regex`. A contract sees an [`Rx`] as the text that it was built from, and what it
//! finds is said of the pattern that the grammar of `regex` reads in that text.
#![tactic(auto)]

mod fake;
mod patterns;
mod real;
mod refusals;
mod rx;
mod search;

pub use fake::FakePatterns;
pub use patterns::{BuildFault, Patterns};
pub use real::RealPatterns;
pub use rx::Rx;
