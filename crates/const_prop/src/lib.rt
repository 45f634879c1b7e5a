//! Which names of a file are known to hold which literals.
#![tactic(auto)]

mod idle;
mod known_names;
mod scopes;
mod settling;
mod sighting;
mod unit;
mod unit_tables;
mod view;

pub use known_names::constants;
