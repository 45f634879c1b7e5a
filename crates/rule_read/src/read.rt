//! Rules over JSON, Python and C.

ghost use Rattle.std.specs.Prelude.{◌≡◌, List as list, Err, None, IfOk};
ghost use Rattle.pattern_read.specs.Patterns.{IsPatternOf};
ghost use Rattle.rule_entries.specs.declared.outcome.RuleOutcome.{RuleOutcome as an_outcome};
ghost use Rattle.rule_entries.specs.declared.outcome.RulesFault.TheVariants.{NoRules};
ghost use Rattle.rule_entries.specs.Rules as spec;

use languages::Languages;
use node_tree::List;
use rule_entries::{RuleOutcome, RulesFault, read_entries};
use std::alloc::Global;
use yaml_cells::YValue;

/// Reads the rules of a value: one outcome for each entry of the list that its key `rules` holds. Fails where memory runs out,
/// and with NoRules where there is no such list.
pub fn read_rules(alloc: Global, value: &YValue) -> Result<List<RuleOutcome>, RulesFault>
    ensures found { IfOk result (spec.IsRulesOf IsPatternOf value.now) }
    ensures only { (os : list an_outcome) → spec.IsRulesOf IsPatternOf value.now os → spec.GivesRules os result }
    ensures no_rules { result ≡ Err NoRules → spec.entries_in value.now ≡ None }
    ensures refused { spec.entries_in value.now ≡ None → spec.Refuses result }
{
    read_entries(alloc, &Languages, value)
}
