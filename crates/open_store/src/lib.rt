//! A store with the rows of some pieces of one path in hand, so that many patterns are looked up in them without a search for the
//! path and the piece each time.
#![tactic(auto)]

mod held;

pub use held::{HeldRow, OpenStore};
