//! What the metavariables of a pattern stand for.
//!
//! A contract sees a [`Binding`] as the list of its bounds in order of name, each with the contents of its nodes. So two
//! bindings are equal in a contract where they bind the same names, at the same spans, to nodes of the same contents.
#![tactic(auto)]

mod binding;
mod bound;
mod finding;
mod join;
mod name;
mod template;
mod trail;

pub use binding::Binding;
pub use bound::Bound;
pub use finding::Finding;
pub use template::fill;
pub use trail::{Held, Trail};
