//! The names and the literals of units: what a unit assigns, what it hides, and what stands at its points.
#![tactic(auto)]

mod hiding;
mod own;
mod scope;
mod tables;
mod word;
mod words;

pub use hiding::{add_all_referred, add_all_shared, add_referred_of};
pub use own::{add_own, add_parameters, is_assigned};
pub use scope::{Scope, scopes_in, scopes_of};
pub use tables::{add_literals, add_names};
pub use word::{Word, is_literal, is_name, literal_here, name_here, name_word, word_of};
pub use words::Words;
