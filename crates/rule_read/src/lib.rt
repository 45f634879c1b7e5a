//! From the value of a YAML text to rules, or to the first fault of each entry that is none.
#![tactic(auto)]

mod read;

pub use read::read_rules;
pub use rule_entries::{RuleFault, RuleFaultKind, RuleOutcome, RulesFault};
