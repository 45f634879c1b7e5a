//! Token classes as data, and the longest spelling at a place by one table-driven automaton.
#![tactic(auto)]

mod automaton;
mod mark;
mod word_list;

pub use automaton::{Automaton, Piece};
pub use mark::without_mark;
pub use word_list::is_among;
