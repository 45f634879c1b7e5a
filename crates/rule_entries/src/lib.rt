//! From the value of a YAML text to rules, or to the first fault of each entry that is none, whatever reads patterns.
//!
//! The contracts speak of the relation that a [`PatternReader`] writes patterns by, so they hold for all languages.
//!
//! [`PatternReader`]: code_reader::PatternReader
#![tactic(auto)]

mod body;
mod formula;
mod found;
mod outcome;
mod read;

pub use outcome::{RuleFault, RuleOutcome, RulesFault};
pub use read::read_entries;
pub use rule_keys::RuleFaultKind;
