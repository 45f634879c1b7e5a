//! What a rule does with its patterns, and the keys that it needs for that.

ghost use Rattle.rule_keys.specs.Misfits.{Fits};
ghost use Rattle.rule_keys.specs.Modes as spec;

use crate::fault::RuleFaultKind;
use crate::key::{Role, one_of};
use crate::stop::{Stop, at};
use crate::value::{Entry, is, look, required, text_of};
use std::alloc::Global;

/// What a rule does with its patterns.
#[derive(Clone, Copy, Debug, PartialEq, Eq)]
pub enum RuleMode {
    /// It finds what a formula matches.
    Search,
    /// It follows what sources give to sinks.
    Taint,
}

fn mode_named(alloc: Global, text: &str) -> Result<RuleMode, Stop>
    ensures { Fits (λ x. x) (spec.mode_named text.now) result }
{
    if is(text, "search") {
        Ok(RuleMode::Search)
    } else if is(text, "taint") {
        Ok(RuleMode::Taint)
    } else {
        Err(at(alloc, RuleFaultKind::OutsideProfile, "mode"))
    }
}

/// The mode of a rule. Where it says none it searches.
pub fn mode(alloc: Global, entries: &[Entry]) -> Result<RuleMode, Stop>
    ensures { Fits (λ x. x) (spec.mode_of entries.now) result }
{
    let Some(value) = look(entries, "mode") else {
        return Ok(RuleMode::Search);
    };
    match text_of(value) {
        Some(text) => mode_named(alloc, text),
        None => Err(at(alloc, RuleFaultKind::WrongShape, "mode")),
    }
}

/// Whether the keys of the mode are there: exactly one formula, or sources and sinks.
pub fn check_body(alloc: Global, mode: RuleMode, entries: &[Entry]) -> Result<(), Stop>
    ensures { Fits (λ u. u) (spec.check_body mode entries.now) result }
{
    match mode {
        RuleMode::Search => {
            one_of(alloc, Role::Formula, entries)?;
            Ok(())
        }
        RuleMode::Taint => {
            required(alloc, entries, "pattern-sources")?;
            required(alloc, entries, "pattern-sinks")?;
            Ok(())
        }
    }
}
