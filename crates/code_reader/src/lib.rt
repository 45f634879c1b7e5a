//! How rules and scans know the languages: a reader of patterns and a reader of trees.
//!
//! A contract over a [`PatternReader`] or a [`TreeReader`] holds for all languages, so what reads rules and what scans is
//! proved without a grammar. The crate `languages` has the reader of JSON, Python and C.
#![tactic(auto)]

mod fault;
mod patterns;
mod trees;

pub use fault::PatternFault;
pub use patterns::PatternReader;
pub use trees::TreeReader;
