//! What the bytes of a rule file say, by a reader of the languages' patterns.
#![tactic(auto)]

mod rule_file;

pub use rule_file::{RuleContent, RuleFile, read_rule_file};
