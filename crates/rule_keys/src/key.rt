//! The keys of formulas, and which maps take them.

ghost use Rattle.std.specs.Prelude.{◌≡◌};
ghost use Rattle.lexing.specs.WordList as lists;
ghost use Rattle.rule_keys.specs.Misfits.{Fits, IsStop};
ghost use Rattle.rule_keys.specs.Keys as spec;

use crate::fault::RuleFaultKind;
use crate::stop::{Stop, at, here};
use crate::value::{Entry, entries_of, is};
use lexing::is_among;
use std::alloc::Global;
use yaml_cells::YValue;

/// A key whose value is a formula.
#[derive(Clone, Copy, Debug, PartialEq, Eq)]
pub enum FormulaKey {
    Pattern,
    Patterns,
    Either,
    Regex,
}

/// A key of a child of `patterns`.
#[derive(Clone, Copy, Debug, PartialEq, Eq)]
pub enum ChildKey {
    Formula(FormulaKey),
    Inside,
    Not,
    NotInside,
    NotRegex,
    MetaRegex,
    MetaCompare,
    MetaPattern,
    Focus,
}

/// What a map is, which decides the keys that it takes.
#[derive(Clone, Copy, Debug, PartialEq, Eq)]
pub enum Role {
    /// It holds one formula.
    Formula,
    /// An item of `pattern-either`.
    Alternative,
    /// An item of `patterns`.
    Child,
    /// An item of `pattern-propagators`.
    Propagator,
    /// The value of `metavariable-regex`.
    MetaRegex,
    /// The value of `metavariable-comparison`.
    MetaCompare,
    /// The value of `metavariable-pattern`.
    MetaPattern,
}

/// The keys that Semgrep has in such maps and that aren't read here.
const OUTSIDE: [&[u8]; 9] = [
    b"base",
    b"strip",
    b"language",
    b"label",
    b"requires",
    b"exact",
    b"by-side-effect",
    b"control",
    b"not_conflicting",
];

fn formula_key(key: &str) -> Option<FormulaKey>
    ensures { result ≡ spec.formula_key key.now }
{
    if is(key, "pattern") {
        Some(FormulaKey::Pattern)
    } else if is(key, "patterns") {
        Some(FormulaKey::Patterns)
    } else if is(key, "pattern-either") {
        Some(FormulaKey::Either)
    } else if is(key, "pattern-regex") {
        Some(FormulaKey::Regex)
    } else {
        None
    }
}

fn operand_key(key: &str) -> Option<ChildKey>
    ensures { result ≡ spec.operand_key key.now }
{
    if is(key, "pattern-inside") {
        Some(ChildKey::Inside)
    } else if is(key, "pattern-not") {
        Some(ChildKey::Not)
    } else if is(key, "pattern-not-inside") {
        Some(ChildKey::NotInside)
    } else if is(key, "pattern-not-regex") {
        Some(ChildKey::NotRegex)
    } else {
        None
    }
}

fn condition_key(key: &str) -> Option<ChildKey>
    ensures { result ≡ spec.condition_key key.now }
{
    if is(key, "metavariable-regex") {
        Some(ChildKey::MetaRegex)
    } else if is(key, "metavariable-comparison") {
        Some(ChildKey::MetaCompare)
    } else if is(key, "metavariable-pattern") {
        Some(ChildKey::MetaPattern)
    } else if is(key, "focus-metavariable") {
        Some(ChildKey::Focus)
    } else {
        None
    }
}

fn child_key(key: &str) -> Option<ChildKey>
    ensures { result ≡ spec.child_key key.now }
{
    if let Some(key) = formula_key(key) {
        return Some(ChildKey::Formula(key));
    }
    if let Some(key) = operand_key(key) {
        return Some(key);
    }
    condition_key(key)
}

fn is_alternative(key: ChildKey) -> bool
    ensures { result ≡ spec.is_alternative key }
{
    matches!(key, ChildKey::Formula(_) | ChildKey::Inside)
}

fn is_formula(key: ChildKey) -> bool
    ensures { result ≡ spec.is_formula key }
{
    matches!(key, ChildKey::Formula(_))
}

/// Whether a map of the role has just one key among which this one is.
fn counts(role: Role, key: ChildKey) -> bool
    ensures { result ≡ spec.counts role key }
{
    match role {
        Role::Formula => is_formula(key),
        Role::Alternative => is_alternative(key),
        Role::Child => true,
        Role::Propagator => is_formula(key),
        Role::MetaRegex => false,
        Role::MetaCompare => false,
        Role::MetaPattern => is_formula(key),
    }
}

/// The key, if a map of the role has just one of its kind.
fn counted(role: Role, key: &str) -> Option<ChildKey>
    ensures { result ≡ spec.counted role key.now }
{
    let key = child_key(key)?;
    if counts(role, key) { Some(key) } else { None }
}

/// Whether a map of the role may have the key besides.
fn is_companion(role: Role, key: &str) -> bool
    ensures { result ≡ lists.is_among (spec.companions role) key.now }
{
    match role {
        Role::Formula => false,
        Role::Alternative => false,
        Role::Child => false,
        Role::Propagator => is_among(&[b"from", b"to"], key.as_bytes()),
        Role::MetaRegex => is_among(&[b"metavariable", b"regex"], key.as_bytes()),
        Role::MetaCompare => is_among(&[b"metavariable", b"comparison"], key.as_bytes()),
        Role::MetaPattern => is_among(&[b"metavariable"], key.as_bytes()),
    }
}

/// What a key is that a map doesn't take.
fn stray(alloc: Global, key: &str) -> Stop
    ensures { IsStop (spec.stray key.now) result }
{
    if is_among(&OUTSIDE, key.as_bytes()) {
        at(alloc, RuleFaultKind::OutsideProfile, key)
    } else {
        at(alloc, RuleFaultKind::UnknownKey, key)
    }
}

/// Whether a map of the role takes each key; else the first one that it doesn't take is wrong.
pub fn check_keys(alloc: Global, role: Role, entries: &[Entry]) -> Result<(), Stop>
    ensures { Fits (λ u. u) (spec.check_keys role entries.now) result }
{
    for entry in entries {
        let key = entry.0.as_str();
        if counted(role, key).is_none() && !is_companion(role, key) {
            return Err(stray(alloc, key));
        }
    }
    Ok(())
}

/// The first entry whose key counts, with the entries behind it.
fn first_counted<'v>(role: Role, entries: &'v [Entry]) -> Option<(ChildKey, &'v Entry, &'v [Entry])>
    ensures { spec.IsFirst role entries.now result }
{
    let mut left = entries;
    while let Some((entry, rest)) = left.split_first() {
        if let Some(key) = counted(role, entry.0.as_str()) {
            return Some((key, entry, rest));
        }
        left = rest;
    }
    None
}

/// The one entry whose key counts: none is a missing key of the map, a second one makes the map wrong.
pub fn one_of<'v>(
    alloc: Global,
    role: Role,
    entries: &'v [Entry],
) -> Result<(ChildKey, &'v Entry), Stop>
    ensures { Fits (λ c. (c.0, c.1.now)) (spec.one_of role entries.now) result }
{
    let Some((key, entry, rest)) = first_counted(role, entries) else {
        return Err(here(alloc, RuleFaultKind::MissingKey));
    };
    if first_counted(role, rest).is_some() {
        return Err(here(alloc, RuleFaultKind::WrongShape));
    }
    Ok((key, entry))
}

/// The entries of the map that a value must be, of which each is one that a map of the role takes.
pub fn map_of(alloc: Global, role: Role, value: &YValue) -> Result<&[Entry], Stop>
    ensures { Fits (λ l. l.now) (spec.map_of role value.now) result }
{
    let Some(entries) = entries_of(value) else {
        return Err(here(alloc, RuleFaultKind::WrongShape));
    };
    check_keys(alloc, role, entries)?;
    Ok(entries)
}
