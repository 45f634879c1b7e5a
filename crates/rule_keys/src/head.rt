//! What each rule must say of itself: id, message, severity and languages.

ghost use Rattle.std.specs.Prelude.{◌≡◌, map, IfOk};
ghost use Rattle.rule_keys.specs.Misfits.{Fits};
ghost use Rattle.rule_keys.specs.Heads as spec;

use crate::fault::RuleFaultKind;
use crate::stop::{Stop, at, here, within, within_item};
use crate::value::{Entry, is, items_of, required, required_text, text_of};
use node_tree::{Lang, List, Memory};
use rule_form::Severity;
use std::alloc::Global;
use std::collections::BTreeSet;
use yaml_cells::YValue;

/// The id of an entry, which isn't empty.
pub fn id(alloc: Global, entries: &[Entry]) -> Result<&str, Stop>
    ensures { Fits (λ t. t.now) (spec.id_of entries.now) result }
{
    let text = required_text(alloc, entries, "id")?;
    if text.is_empty() {
        Err(at(alloc, RuleFaultKind::WrongShape, "id"))
    } else {
        Ok(text)
    }
}

fn severity_of(text: &str) -> Option<Severity>
    ensures { result ≡ spec.severity_named text.now }
{
    if is(text, "INFO") {
        Some(Severity::Info)
    } else if is(text, "WARNING") {
        Some(Severity::Warning)
    } else if is(text, "ERROR") {
        Some(Severity::Error)
    } else {
        level_of(text)
    }
}

/// The severities that Semgrep came to have later.
fn level_of(text: &str) -> Option<Severity>
    ensures { result ≡ spec.level_of text.now }
{
    if is(text, "LOW") {
        Some(Severity::Low)
    } else if is(text, "MEDIUM") {
        Some(Severity::Medium)
    } else if is(text, "HIGH") {
        Some(Severity::High)
    } else if is(text, "CRITICAL") {
        Some(Severity::Critical)
    } else {
        None
    }
}

/// The severity that an entry must name: one of Semgrep's, older or newer.
pub fn severity(alloc: Global, entries: &[Entry]) -> Result<Severity, Stop>
    ensures { Fits (λ x. x) (spec.severity_of entries.now) result }
{
    let text = required_text(alloc, entries, "severity")?;
    match severity_of(text) {
        Some(severity) => Ok(severity),
        None => Err(at(alloc, RuleFaultKind::WrongShape, "severity")),
    }
}

/// The name of a language by which it is told from others: `py` is `python`.
fn full_name(text: &str) -> &str
    ensures { result.now ≡ spec.full_name text.now }
{
    if is(text, "py") { "python" } else { text }
}

fn lang_of(text: &str) -> Option<Lang>
    ensures { result ≡ spec.lang_named text.now }
{
    if is(text, "python") {
        Some(Lang::Python)
    } else if is(text, "c") {
        Some(Lang::C)
    } else if is(text, "json") {
        Some(Lang::Json)
    } else if is(text, "regex") {
        Some(Lang::Regex)
    } else {
        None
    }
}

/// The full name of the language that a value names, empty where it is no text.
fn named(value: &YValue) -> &str
    ensures { result.now ≡ spec.named value.now }
{
    match text_of(value) {
        Some(text) => full_name(text),
        None => "",
    }
}

/// Whether each item is a text.
fn are_texts(items: &[YValue]) -> bool
    ensures { result ≡ spec.are_texts items.now }
{
    for item in items {
        if text_of(item).is_none() {
            return false;
        }
    }
    true
}

/// Whether each language is named once.
fn are_distinct(alloc: Global, items: &[YValue]) -> Result<bool, Memory>
    ensures { IfOk result (λ distinct. distinct ≡ spec.are_distinct (map spec.named items.now)) }
{
    let mut seen: BTreeSet<&str> = BTreeSet::new(alloc);
    let mut at = items.len();
    'items: while at > 0 {
        at -= 1;
        if !seen.insert(named(&items[at]))? {
            return Ok(false);
        }
    }
    Ok(true)
}

fn lang(alloc: Global, item: &YValue) -> Result<Lang, Stop>
    ensures { Fits (λ x. x) (spec.lang_of item.now) result }
{
    match lang_of(named(item)) {
        Some(lang) => Ok(lang),
        None => Err(here(alloc, RuleFaultKind::OutsideProfile)),
    }
}

/// The languages of items, each of which is a text.
fn each_lang(alloc: Global, items: &[YValue]) -> Result<List<Lang>, Stop>
    ensures { Fits (λ x. x) (spec.langs_from 0 items.now) result }
{
    let mut all = List::new(alloc);
    for (place, item) in items.iter().enumerate() {
        let lang = within_item(alloc, place, lang(alloc, item))?;
        all.push(lang)?;
    }
    Ok(all)
}

/// The languages that some items list: texts, each language once.
fn listed_langs(alloc: Global, items: &[YValue]) -> Result<List<Lang>, Stop>
    ensures { Fits (λ x. x) (spec.listed_langs items.now) result }
{
    if !are_texts(items) {
        return Err(here(alloc, RuleFaultKind::WrongShape));
    }
    if !are_distinct(alloc, items)? {
        return Err(here(alloc, RuleFaultKind::WrongShape));
    }
    each_lang(alloc, items)
}

/// The languages that a value lists.
fn langs(alloc: Global, value: &YValue) -> Result<List<Lang>, Stop>
    ensures { Fits (λ x. x) (spec.langs_of value.now) result }
{
    let items = items_of(alloc, value)?;
    listed_langs(alloc, items)
}

/// The languages that an entry must list: texts, one at least, each language once, and each one that is read here.
pub fn languages(alloc: Global, entries: &[Entry]) -> Result<List<Lang>, Stop>
    ensures { Fits (λ x. x) (spec.languages entries.now) result }
{
    let value = required(alloc, entries, "languages")?;
    within(alloc, "languages", langs(alloc, value))
}
