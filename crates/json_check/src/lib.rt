//! Where a text stops being JSON.
//!
//! [`first_bad`] reads a text character by character, by the automaton of the tokens and by what may stand next behind them, and
//! ends at the first character with which no JSON text goes on (`specs/Viable.antt`).
#![tactic(auto)]

mod front;
mod nest;

pub use front::first_bad;
