//! What a point does, ready to be looked up.

use crate::assign::Assign;

/// Assignments that all take the values before the point, and for each name the places of those that concern it.
#[derive(Drop)]
pub struct Merged {
    pub assigns: Vec<Assign>,
    pub index: Vec<u64>,
}
