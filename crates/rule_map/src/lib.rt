//! The rule files of a session by name, read as they are put, within the limits on their number, their bytes and their entries.
#![tactic(auto)]

mod place;
mod rule_map;

pub use rule_map::RuleMap;
