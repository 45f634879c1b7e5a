//! What becomes of an entry, and why one is no rule.

ghost use Rattle.std.specs.Prelude.{◌≡◌};
ghost use Rattle.rule_entries.specs.declared.outcome.RulesFault.TheVariants.{Memory as out_of_memory};

use node_tree::{Memory, Text};
use rule_form::Rule;
use rule_keys::RuleFaultKind;

/// Why an entry is no rule: the first fault that was found.
#[derive(Drop)]
pub struct RuleFault {
    pub kind: RuleFaultKind,
    /// The id of the entry, empty where it has none.
    pub id: Text,
    /// The keys and places from the top down to what is wrong, with dots between them, as `rules.1.patterns.0.pattern`.
    pub key: Text,
}

/// What becomes of an entry.
#[derive(Drop)]
pub enum RuleOutcome {
    Good(Rule),
    Bad(RuleFault),
}

/// Why a value holds no rules at all.
#[derive(Clone, Copy, Debug, PartialEq, Eq)]
pub enum RulesFault {
    /// Memory ran out.
    Memory,
    /// The value is no map whose key `rules` holds a list.
    NoRules,
}

impl From<Memory> for RulesFault {
    ghost from_gives = { λ _ e. e ≡ out_of_memory };

    fn from(_e: Memory) -> RulesFault {
        RulesFault::Memory
    }
}
