//! Answers that are kept for pairs of a piece and a pattern, path by path, from one turn to the next.
//!
//! Most patterns have nothing in most pieces. So a path holds each of its pieces once, and a piece two bits for each pattern: that
//! its answer is kept, and that it was met in this turn. Only an answer that is not empty takes more.
#![tactic(auto)]

mod answer;
mod listing;
mod row;
mod rows;
mod shelf;
mod store;
mod table;
mod words;

pub use answer::Answer;
pub use listing::{Pair, Pairs, RowPairs, TablePairs};
pub use row::Row;
pub use shelf::Shelf;
pub use store::Store;
pub use table::{Met, Table};
pub use words::Word;
