//! Rules.

ghost use Rattle.std.specs.Prelude.{◌≡◌, ℕ, [], List as list, Ok, Err, None, IfOk};
ghost use Rattle.std.specs.Option.{option_copied};
ghost use Rattle.rule_entries.specs.declared.found.Found.{Found as a_found};
ghost use Rattle.rule_entries.specs.declared.outcome.RuleOutcome.{RuleOutcome as an_outcome};
ghost use Rattle.rule_entries.specs.declared.outcome.RulesFault.TheVariants.{NoRules};
ghost use Rattle.rule_entries.specs.Readings.{Reads};
ghost use Rattle.rule_entries.specs.Rules as spec;

use crate::body::parts;
use crate::found::Found;
use crate::outcome::{RuleFault, RuleOutcome, RulesFault};
use code_reader::PatternReader;
use node_tree::{List, Memory, Text};
use rule_form::Rule;
use rule_keys::RuleFaultKind;
use rule_keys::extra::{constants, fix, options, paths_of};
use rule_keys::head::{id, languages, severity};
use rule_keys::mode::{check_body, mode};
use rule_keys::stop::{Misfit, Stop, at, here};
use rule_keys::texts::Texts;
use rule_keys::value::{Entry, entries_of, list_of, look, required_text};
use std::alloc::Global;
use std::collections::BTreeSet;
use yaml_cells::YValue;

/// Nothing is found yet.
fn nothing<'v>(alloc: Global) -> Found<'v>
    ensures { result ≡ spec.nothing }
{
    Found {
        patterns: List::new(alloc),
        texts: Texts::new(alloc),
    }
}

/// The rule of an entry that has an id.
fn rule<R: PatternReader>(
    alloc: Global,
    reader: &R,
    id: &str,
    entries: &[Entry],
) -> Result<Rule, Stop>
    ensures { (t : a_found) × Reads (spec.IsRule (R.writes reader.now) id.now entries.now) spec.nothing result t }
{
    let message = required_text(alloc, entries, "message")?;
    let severity = severity(alloc, entries)?;
    let langs = languages(alloc, entries)?;
    let mode = mode(alloc, entries)?;
    check_body(alloc, mode, entries)?;
    let mut found = nothing(alloc);
    let constants = constants(entries);
    let parts = parts(
        alloc,
        reader,
        langs.as_slice(),
        constants,
        mode,
        entries,
        &mut found,
    )?;
    let fix = fix(alloc, entries)?;
    let paths = paths_of(alloc, entries)?;
    let unread = options(alloc, entries)?;
    let id = Text::from_str(alloc, id)?;
    let message = Text::from_str(alloc, message)?;
    Ok(Rule {
        id,
        message,
        severity,
        fix,
        include: paths.include,
        exclude: paths.exclude,
        unread,
        texts: found.texts.into_list(),
        parts,
    })
}

/// The keys and places down to what is wrong, with dots between them.
fn key_text(alloc: Global, place: usize, path: &[Text]) -> Result<Text, Memory>
    ensures { IfOk result (λ key. key ≡ spec.key_of place path.now) }
{
    let start = format!(in alloc; "rules.{place}")?;
    let mut key = Text::from_str(alloc, start.as_str())?;
    let mut at = path.len();
    'parts: while at > 0 {
        at -= 1;
        key.push(".")?;
        key.push(path[at].as_str())?;
    }
    Ok(key)
}

/// The fault of an entry that isn't as it should be.
fn fault(alloc: Global, place: usize, id: &str, misfit: Misfit) -> Result<RuleFault, Memory>
    ensures { IfOk result (λ f. f ≡ spec.fault place id.now misfit) }
{
    let id = Text::from_str(alloc, id)?;
    let key = key_text(alloc, place, misfit.path.as_slice())?;
    Ok(RuleFault {
        kind: misfit.kind,
        id,
        key,
    })
}

/// An entry that isn't as it should be.
fn bad(alloc: Global, place: usize, id: &str, stop: Stop) -> Result<RuleOutcome, Memory>
    ensures { spec.IsBad place id.now stop result }
{
    match stop {
        Stop::Memory => Err(Memory),
        Stop::Bad(misfit) => {
            let fault = fault(alloc, place, id, misfit)?;
            Ok(RuleOutcome::Bad(fault))
        }
    }
}

/// What becomes of an entry that is a rule with an id.
fn unless_taken<'v>(
    alloc: Global,
    place: usize,
    id: &'v str,
    rule: Rule,
    taken: &mut BTreeSet<&'v str>,
) -> Result<RuleOutcome, Memory>
    ensures { (ids : list (list ℕ)) → spec.Tells taken.old ids → spec.Decides ids place id.now rule result taken.new }
{
    if taken.insert(id)? {
        Ok(RuleOutcome::Good(rule))
    } else {
        bad(
            alloc,
            place,
            id,
            at(alloc, RuleFaultKind::DuplicateId, "id"),
        )
    }
}

/// What becomes of an entry with an id.
fn with_id<'v, R: PatternReader>(
    alloc: Global,
    reader: &R,
    place: usize,
    id: &'v str,
    entries: &'v [Entry],
    taken: &mut BTreeSet<&'v str>,
) -> Result<RuleOutcome, Memory>
    ensures { (ids : list (list ℕ)) → spec.Tells taken.old ids →
        spec.Comes ids (spec.IsOutcomeOf (R.writes reader.now) ids place entries.now (Ok id.now)) result taken.new }
{
    match rule(alloc, reader, id, entries) {
        Ok(rule) => unless_taken(alloc, place, id, rule, taken),
        Err(stop) => bad(alloc, place, id, stop),
    }
}

/// What becomes of an entry, where these ids are taken.
fn outcome<'v, R: PatternReader>(
    alloc: Global,
    reader: &R,
    place: usize,
    entry: &'v YValue,
    taken: &mut BTreeSet<&'v str>,
) -> Result<RuleOutcome, Memory>
    ensures { (ids : list (list ℕ)) → spec.Tells taken.old ids →
        spec.Comes ids (spec.IsOutcome (R.writes reader.now) ids place entry.now) result taken.new }
{
    let Some(entries) = entries_of(entry) else {
        return bad(alloc, place, "", here(alloc, RuleFaultKind::WrongShape));
    };
    match id(alloc, entries) {
        Ok(id) => with_id(alloc, reader, place, id, entries, taken),
        Err(stop) => bad(alloc, place, "", stop),
    }
}

/// The items of the list that the key `rules` of a map holds.
fn entries_in(value: &YValue) -> Option<&[YValue]>
    ensures { option_copied result ≡ spec.entries_in value.now }
{
    let entries = entries_of(value)?;
    let rules = look(entries, "rules")?;
    list_of(rules)
}

fn outcomes<R: PatternReader>(
    alloc: Global,
    reader: &R,
    items: &[YValue],
) -> Result<List<RuleOutcome>, Memory>
    ensures found { IfOk result (spec.AreOutcomes (R.writes reader.now) items.now) }
    ensures only { (os : list an_outcome) → spec.AreOutcomes (R.writes reader.now) items.now os →
        IfOk result (λ found. found ≡ os) }
{
    let mut taken: BTreeSet<&str> = BTreeSet::new(alloc);
    let mut all = List::new(alloc);
    for (place, item) in items.iter().enumerate() {
        let outcome = outcome(alloc, reader, place, item, &mut taken)?;
        all.push(outcome)?;
    }
    Ok(all)
}

/// Reads the rules of a value: one outcome for each entry of the list that its key `rules` holds. `reader` reads their
/// patterns. Fails where memory runs out, and with NoRules where there is no such list.
pub fn read_entries<R: PatternReader>(
    alloc: Global,
    reader: &R,
    value: &YValue,
) -> Result<List<RuleOutcome>, RulesFault>
    ensures found { IfOk result (spec.IsRulesOf (R.writes reader.now) value.now) }
    ensures only { (os : list an_outcome) → spec.IsRulesOf (R.writes reader.now) value.now os →
        spec.GivesRules os result }
    ensures no_rules { result ≡ Err NoRules → spec.entries_in value.now ≡ None }
    ensures refused { spec.entries_in value.now ≡ None → spec.Refuses result }
{
    match entries_in(value) {
        Some(items) => Ok(outcomes(alloc, reader, items)?),
        None => Err(RulesFault::NoRules),
    }
}
