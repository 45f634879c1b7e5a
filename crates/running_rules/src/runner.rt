//! Rules that run.

ghost use Rattle.std.specs.Prelude.{◌≡◌, slice_get, Some, IfOk};
ghost use Rattle.rule_form.specs.declared.rule.Rule.{Rule as a_rule};

use node_tree::{List, Memory};
use rule_form::Rule;
use rx_text::Rx;
use std::marker::Model;

/// A rule that runs, with its regular expressions. Contracts see it as the rule.
#[derive(Drop)]
pub struct Runner<'r> {
    rule: &'r Rule,
    rx: List<Rx>,
}

impl<'r> Model for Runner<'r> {
    ghost use Rattle.std.specs.Prelude.{◌≡◌};
    ghost use Rattle.rule_form.specs.declared.rule.Rule.{Rule as a_rule};
    ghost use Rattle.rule_form.specs.contracts.rule.Rule as rules;

    ghost Value = { a_rule };

    ghost coded = { rules.the_row.coded };

    ghost view = { λ r. r.rule.now };

    ghost invariant = { λ r. r.rx ≡ r.rule.now.texts };
}

impl<'r> Runner<'r> {
    /// The rule with the regular expressions of its texts.
    pub fn of(rule: &'r Rule, rx: List<Rx>) -> Runner<'r>
        requires { rx ≡ rule.now.texts }
        ensures { result ≡ rule.now }
    {
        Runner { rule, rx }
    }

    /// The rule.
    pub fn rule(&self) -> &'r Rule
        ensures { result.now ≡ self.now }
    {
        self.rule
    }

    /// Further regular expressions of its texts.
    pub fn expressions(&self) -> Result<List<Rx>, Memory>
        ensures { IfOk result (λ rx. rx ≡ self.now.texts) }
    {
        let mut expressions = List::new(self.rx.alloc());
        for one in self.rx.as_slice() {
            expressions.push(one.share()?)?;
        }
        Ok(expressions)
    }
}

/// The rule with that number among those that run, from 0, which is there.
pub fn rule_at<'r>(running: &[Runner<'r>], number: usize) -> &'r Rule
    requires { (rule : a_rule) × (slice_get running.now number ≡ Some rule) }
    ensures { slice_get running.now number ≡ Some result.now }
{
    running[number].rule()
}
