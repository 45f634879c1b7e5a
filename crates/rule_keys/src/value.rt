//! What values are: texts, names, and the entries of maps.

ghost use Rattle.std.specs.Prelude.{◌≡◌};
ghost use Rattle.std.specs.Option.{option_copied};
ghost use Rattle.std.specs.Str.{bytes_eq};
ghost use Rattle.rule_keys.specs.Misfits.{Fits};
ghost use Rattle.rule_keys.specs.Values as spec;

use crate::fault::RuleFaultKind;
use crate::name::is_name;
use crate::stop::{Stop, at, here};
use node_tree::Text;
use std::alloc::Global;
use yaml_cells::YValue;

/// An entry of a map.
pub type Entry = (Text, YValue);

/// Whether the texts are the same.
pub fn is(text: &str, word: &str) -> bool
    ensures { result ≡ bytes_eq text.now word.now }
{
    text.as_bytes() == word.as_bytes()
}

/// The value of a key.
pub fn look<'v>(entries: &'v [Entry], key: &str) -> Option<&'v YValue>
    ensures { option_copied result ≡ spec.look key.now entries.now }
{
    for entry in entries {
        if is(entry.0.as_str(), key) {
            return Some(&entry.1);
        }
    }
    None
}

/// The text that a value is, if it is one.
pub fn text_of(value: &YValue) -> Option<&str>
    ensures { option_copied result ≡ spec.text_of value.now }
{
    match value {
        YValue::Word(text) => Some(text.as_str()),
        YValue::Quoted(text) => Some(text.as_str()),
        _ => None,
    }
}

/// The value of a key that must be there.
pub fn required<'v>(alloc: Global, entries: &'v [Entry], key: &str) -> Result<&'v YValue, Stop>
    ensures { Fits (λ v. v.now) (spec.required key.now entries.now) result }
{
    match look(entries, key) {
        Some(value) => Ok(value),
        None => Err(at(alloc, RuleFaultKind::MissingKey, key)),
    }
}

/// The text that a key must hold.
pub fn required_text<'v>(alloc: Global, entries: &'v [Entry], key: &str) -> Result<&'v str, Stop>
    ensures { Fits (λ t. t.now) (spec.required_text key.now entries.now) result }
{
    let value = required(alloc, entries, key)?;
    match text_of(value) {
        Some(text) => Ok(text),
        None => Err(at(alloc, RuleFaultKind::WrongShape, key)),
    }
}

/// The name that a key must hold.
pub fn required_name<'v>(alloc: Global, entries: &'v [Entry], key: &str) -> Result<&'v str, Stop>
    ensures { Fits (λ t. t.now) (spec.required_name key.now entries.now) result }
{
    let text = required_text(alloc, entries, key)?;
    if is_name(text) {
        Ok(text)
    } else {
        Err(at(alloc, RuleFaultKind::WrongShape, key))
    }
}

/// The text that a value must be.
pub fn whole_text(alloc: Global, value: &YValue) -> Result<&str, Stop>
    ensures { Fits (λ t. t.now) (spec.whole_text value.now) result }
{
    match text_of(value) {
        Some(text) => Ok(text),
        None => Err(here(alloc, RuleFaultKind::WrongShape)),
    }
}

/// The name that a value must be.
pub fn whole_name(alloc: Global, value: &YValue) -> Result<&str, Stop>
    ensures { Fits (λ t. t.now) (spec.whole_name value.now) result }
{
    let text = whole_text(alloc, value)?;
    if is_name(text) {
        Ok(text)
    } else {
        Err(here(alloc, RuleFaultKind::WrongShape))
    }
}

/// The entries of the map that a value is, if it is one.
pub fn entries_of(value: &YValue) -> Option<&[Entry]>
    ensures { option_copied result ≡ spec.entries_of value.now }
{
    match value {
        YValue::Map(entries) => Some(entries.as_slice()),
        _ => None,
    }
}

/// The items of the list that a value is, if it is one.
pub fn list_of(value: &YValue) -> Option<&[YValue]>
    ensures { option_copied result ≡ spec.list_of value.now }
{
    match value {
        YValue::Seq(items) => Some(items.as_slice()),
        _ => None,
    }
}

/// The items of a list that must have one at least.
pub fn some_items(alloc: Global, items: &[YValue]) -> Result<&[YValue], Stop>
    ensures { Fits (λ l. l.now) (spec.some_items items.now) result }
{
    if items.is_empty() {
        Err(here(alloc, RuleFaultKind::WrongShape))
    } else {
        Ok(items)
    }
}

/// The items of the list that a value must be, of which there is one at least.
pub fn items_of(alloc: Global, value: &YValue) -> Result<&[YValue], Stop>
    ensures { Fits (λ l. l.now) (spec.items_of value.now) result }
{
    match list_of(value) {
        Some(items) => some_items(alloc, items),
        None => Err(here(alloc, RuleFaultKind::WrongShape)),
    }
}
