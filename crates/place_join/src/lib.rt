//! The members of a pattern in a file, joined with those in a view of the file in which names are replaced.
//!
//! A member of the view is taken where no member of the file has the same range and the same names with the same spans
//! (`specs/Joined.antt`).
#![tactic(auto)]

mod join;
mod place;

pub use join::join_by_place;
