//! Which rules came to those by which files were seen.

ghost use Rattle.std.specs.Prelude.{◌≡◌, ◌↔◌, Some, slice_get, IsTrue, IsSome, IfOk};
ghost use Rattle.seen_files.specs.More.{StillRun, IsMore};

use node_tree::{List, Memory, Twin};
use rule_form::Rule;
use running_rules::Runner;
use std::alloc::Global;

// Whether the rule is the one with that number, from 0.
fn is_at(rules: &[Rule], number: usize, rule: &Rule) -> bool
    ensures { IsTrue result ↔ (slice_get rules.now number ≡ Some rule.now) }
{
    if number >= rules.len() {
        return false;
    }
    rule.same_rule(&rules[number])
}

/// The rules that run besides those before, if each of those still runs, and in their order. None just where they don't.
pub fn rules_added<'r>(
    alloc: Global,
    before: &[Rule],
    running: &[Runner<'r>],
) -> Result<Option<List<Runner<'r>>>, Memory>
    ensures those { IfOk result (IsMore before.now running.now) }
    ensures exact { IfOk result (λ added. IsSome added ↔ StillRun before.now running.now) }
{
    let mut added = List::new(alloc);
    let mut next: usize = 0;
    for runner in running {
        if is_at(before, next, runner.rule()) {
            next += 1;
        } else {
            added.push(Runner::of(runner.rule(), runner.expressions()?))?;
        }
    }
    if next < before.len() {
        return Ok(None);
    }
    Ok(Some(added))
}

// Copies of the rules that run.
fn copied(alloc: Global, running: &[Runner<'_>]) -> Result<List<Rule>, Memory>
    ensures { IfOk result (λ rules. rules ≡ running.now) }
{
    let mut rules = List::new(alloc);
    for runner in running {
        rules.push(runner.rule().copy()?)?;
    }
    Ok(rules)
}

/// The rules that run, to be kept: those before, if none came to them.
pub fn rules_now(
    alloc: Global,
    before: List<Rule>,
    added: &Option<List<Runner<'_>>>,
    running: &[Runner<'_>],
) -> Result<List<Rule>, Memory>
    requires { IsMore before running.now added.now }
    ensures { IfOk result (λ rules. rules ≡ running.now) }
{
    let Some(added) = added else {
        return copied(alloc, running);
    };
    if added.is_empty() {
        return Ok(before);
    }
    copied(alloc, running)
}
