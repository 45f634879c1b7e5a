//! What a rule may say besides: its fix, its paths and its options.

ghost use Rattle.std.specs.Prelude.{◌≡◌, IfOk};
ghost use Rattle.rule_keys.specs.Misfits.{Fits};
ghost use Rattle.rule_keys.specs.Values.{whole_text};
ghost use Rattle.rule_keys.specs.Extras as spec;

use crate::fault::RuleFaultKind;
use crate::stop::{Stop, at, here, within};
use crate::value::{Entry, entries_of, is, list_of, look, text_of, whole_text};
use node_tree::{List, Memory, Text};
use std::alloc::Global;
use yaml_cells::YValue;

/// The fix, if there is one: a text. Else the value of `fix` is of a wrong form.
pub fn fix(alloc: Global, entries: &[Entry]) -> Result<Option<Text>, Stop>
    ensures { Fits (λ x. x) (spec.fix_of entries.now) result }
{
    let Some(value) = look(entries, "fix") else {
        return Ok(None);
    };
    match text_of(value) {
        Some(text) => Ok(Some(Text::from_str(alloc, text)?)),
        None => Err(at(alloc, RuleFaultKind::WrongShape, "fix")),
    }
}

/// The entries of the map that a key holds, none where the key isn't there.
fn inner<'v>(alloc: Global, entries: &'v [Entry], key: &str) -> Result<&'v [Entry], Stop>
    ensures { Fits (λ l. l.now) (spec.inner_of key.now entries.now) result }
{
    let Some(value) = look(entries, key) else {
        return Ok(&[]);
    };
    match entries_of(value) {
        Some(inner) => Ok(inner),
        None => Err(at(alloc, RuleFaultKind::WrongShape, key)),
    }
}

/// The text that an item of a list of texts must be.
fn text(alloc: Global, item: &YValue) -> Result<Text, Stop>
    ensures { Fits (λ x. x) (whole_text item.now) result }
{
    let text = whole_text(alloc, item)?;
    let text = Text::from_str(alloc, text)?;
    Ok(text)
}

/// The texts that the items of a list must be. What is wrong is the list.
fn texts(alloc: Global, items: &[YValue]) -> Result<List<Text>, Stop>
    ensures { Fits (λ x. x) (spec.texts_of items.now) result }
{
    let mut all = List::new(alloc);
    for item in items {
        let text = text(alloc, item)?;
        all.push(text)?;
    }
    Ok(all)
}

/// The list of texts that a value must be.
fn listed(alloc: Global, value: &YValue) -> Result<List<Text>, Stop>
    ensures { Fits (λ x. x) (spec.listed value.now) result }
{
    match list_of(value) {
        Some(items) => texts(alloc, items),
        None => Err(here(alloc, RuleFaultKind::WrongShape)),
    }
}

/// The globs that a key of `paths` lists, none where it isn't there.
fn globs(alloc: Global, paths: &[Entry], key: &str) -> Result<List<Text>, Stop>
    ensures { Fits (λ x. x) (spec.globs_of key.now paths.now) result }
{
    let Some(value) = look(paths, key) else {
        return Ok(List::new(alloc));
    };
    within(alloc, key, listed(alloc, value))
}

/// The globs of a rule: those of which one must match, and those of which none may.
#[derive(Drop)]
pub struct Paths {
    pub include: List<Text>,
    pub exclude: List<Text>,
}

fn globs_of(alloc: Global, paths: &[Entry]) -> Result<Paths, Stop>
    ensures { Fits (λ x. x) (spec.paths_in paths.now) result }
{
    let include = globs(alloc, paths, "include")?;
    let exclude = globs(alloc, paths, "exclude")?;
    Ok(Paths { include, exclude })
}

/// The globs that `paths` lists under `include` and `exclude`, none where a key isn't there.
pub fn paths_of(alloc: Global, entries: &[Entry]) -> Result<Paths, Stop>
    ensures { Fits (λ x. x) (spec.paths_of entries.now) result }
{
    let paths = inner(alloc, entries, "paths")?;
    within(alloc, "paths", globs_of(alloc, paths))
}

/// Whether a value is `false`.
fn is_false(value: &YValue) -> bool
    ensures { result ≡ spec.is_false value.now }
{
    match text_of(value) {
        Some(text) => is(text, "false"),
        None => false,
    }
}

/// What the options say of literals.
fn constants_in(options: &[Entry]) -> bool
    ensures { result ≡ spec.constants_in options.now }
{
    match look(options, "constant_propagation") {
        Some(value) => !is_false(value),
        None => true,
    }
}

/// Whether literals match names that are known to hold them: unless the option says `false`. Whether the option has the right
/// form is another matter.
pub fn constants(entries: &[Entry]) -> bool
    ensures { result ≡ spec.constants_of entries.now }
{
    let Some(value) = look(entries, "options") else {
        return true;
    };
    match entries_of(value) {
        Some(options) => constants_in(options),
        None => true,
    }
}

/// Whether a value is `true` or `false`.
fn is_truth(value: &YValue) -> bool
    ensures { result ≡ spec.is_truth value.now }
{
    match text_of(value) {
        Some(text) => is(text, "true") || is(text, "false"),
        None => false,
    }
}

/// The names of the options that have no meaning here.
fn unread(alloc: Global, options: &[Entry]) -> Result<List<Text>, Memory>
    ensures { IfOk result (λ names. names ≡ spec.unread options.now) }
{
    let mut all = List::new(alloc);
    for option in options {
        let name = option.0.as_str();
        if !is(name, "constant_propagation") {
            all.push(Text::from_str(alloc, name)?)?;
        }
    }
    Ok(all)
}

fn unread_of(alloc: Global, options: &[Entry]) -> Result<List<Text>, Stop>
    ensures { Fits (λ x. x) (spec.unread_in options.now) result }
{
    if let Some(value) = look(options, "constant_propagation") {
        if !is_truth(value) {
            return Err(at(alloc, RuleFaultKind::WrongShape, "constant_propagation"));
        }
    }
    let all = unread(alloc, options)?;
    Ok(all)
}

/// The names of the options that have no meaning here. `constant_propagation` must be `true` or `false` if it is there.
pub fn options(alloc: Global, entries: &[Entry]) -> Result<List<Text>, Stop>
    ensures { Fits (λ x. x) (spec.unread_of entries.now) result }
{
    let options = inner(alloc, entries, "options")?;
    within(alloc, "options", unread_of(alloc, options))
}
