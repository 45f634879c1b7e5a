//! What a rule looks for, in each of its languages.

ghost use Rattle.std.specs.Prelude.{◌≡◌, Some};
ghost use Rattle.rule_entries.specs.Readings.{Reads, Below, Each, AtPlace};
ghost use Rattle.rule_entries.specs.Formulas.{IsMapped, IsPropagator};
ghost use Rattle.rule_entries.specs.Bodies as spec;

use crate::formula::{mapped, one_formula, propagator};
use crate::found::{Found, Setting};
use code_reader::PatternReader;
use node_tree::{Lang, List};
use rule_form::{Body, Formula, Part, Propagator, TaintRule};
use rule_keys::key::Role;
use rule_keys::mode::RuleMode;
use rule_keys::stop::{Stop, within, within_item};
use rule_keys::value::{Entry, is, items_of};
use std::alloc::Global;
use std::mem::replace;
use yaml_cells::YValue;

/// How deep formulas are read. A value of fewer than 2^32 values has none that is deeper.
pub const ROOM: u32 = 4_294_967_295;

/// The formulas of a list of taint.
fn taint_items<'v, R: PatternReader>(
    alloc: Global,
    reader: &R,
    setting: Setting,
    value: &'v YValue,
    found: &mut Found<'v>,
) -> Result<List<Formula>, Stop>
    ensures { Reads (spec.IsFormulas (spec.IsFormulaOf (R.writes reader.now) setting) value.now)
        found.old result found.new }
{
    let items = items_of(alloc, value)?;
    each_formula(alloc, reader, setting, items, found)
}

fn each_formula<'v, R: PatternReader>(
    alloc: Global,
    reader: &R,
    setting: Setting,
    items: &'v [YValue],
    found: &mut Found<'v>,
) -> Result<List<Formula>, Stop>
    ensures { Reads (Each (AtPlace (IsMapped (spec.IsFormulaOf (R.writes reader.now) setting))) 0 items.now)
        found.old result found.new }
{
    let mut formulas = List::new(alloc);
    for (place, item) in items.iter().enumerate() {
        let formula = mapped(alloc, reader, setting, ROOM, item, found);
        let formula = within_item(alloc, place, formula)?;
        formulas.push(formula)?;
    }
    Ok(formulas)
}

/// The propagators of a list.
fn propagators<'v, R: PatternReader>(
    alloc: Global,
    reader: &R,
    setting: Setting,
    value: &'v YValue,
    found: &mut Found<'v>,
) -> Result<List<Propagator>, Stop>
    ensures { Reads (spec.IsPropagators (spec.IsFormulaOf (R.writes reader.now) setting) value.now)
        found.old result found.new }
{
    let items = items_of(alloc, value)?;
    each_propagator(alloc, reader, setting, items, found)
}

fn each_propagator<'v, R: PatternReader>(
    alloc: Global,
    reader: &R,
    setting: Setting,
    items: &'v [YValue],
    found: &mut Found<'v>,
) -> Result<List<Propagator>, Stop>
    ensures { Reads (Each (AtPlace (IsPropagator (spec.IsFormulaOf (R.writes reader.now) setting))) 0 items.now)
        found.old result found.new }
{
    let mut all = List::new(alloc);
    for (place, item) in items.iter().enumerate() {
        let one = propagator(alloc, reader, setting, ROOM, item, found);
        let one = within_item(alloc, place, one)?;
        all.push(one)?;
    }
    Ok(all)
}

/// A key of taint.
#[derive(Clone, Copy, Debug, PartialEq, Eq)]
pub enum TaintKey {
    Sources,
    Sinks,
    Sanitizers,
    Propagators,
}

fn taint_key(key: &str) -> Option<TaintKey>
    ensures { result ≡ spec.taint_key key.now }
{
    if is(key, "pattern-sources") {
        Some(TaintKey::Sources)
    } else if is(key, "pattern-sinks") {
        Some(TaintKey::Sinks)
    } else if is(key, "pattern-sanitizers") {
        Some(TaintKey::Sanitizers)
    } else if is(key, "pattern-propagators") {
        Some(TaintKey::Propagators)
    } else {
        None
    }
}

/// The key of taint that an entry has.
fn key_of(entry: &Entry) -> Option<TaintKey>
    ensures { result ≡ spec.taint_key entry.now.0 }
{
    taint_key(entry.0.as_str())
}

/// The formulas that an entry lists.
fn formulas_at<'v, R: PatternReader>(
    alloc: Global,
    reader: &R,
    setting: Setting,
    entry: &'v Entry,
    found: &mut Found<'v>,
) -> Result<List<Formula>, Stop>
    ensures { Reads (Below entry.now.0 (spec.IsFormulas (spec.IsFormulaOf (R.writes reader.now) setting) entry.now.1))
        found.old result found.new }
{
    let all = taint_items(alloc, reader, setting, &entry.1, found);
    within(alloc, entry.0.as_str(), all)
}

/// The propagators that an entry lists.
fn propagators_at<'v, R: PatternReader>(
    alloc: Global,
    reader: &R,
    setting: Setting,
    entry: &'v Entry,
    found: &mut Found<'v>,
) -> Result<List<Propagator>, Stop>
    ensures { Reads (Below entry.now.0 (spec.IsPropagators (spec.IsFormulaOf (R.writes reader.now) setting) entry.now.1))
        found.old result found.new }
{
    let all = propagators(alloc, reader, setting, &entry.1, found);
    within(alloc, entry.0.as_str(), all)
}

/// The lists of taint, with the one that an entry holds.
fn added<'v, R: PatternReader>(
    alloc: Global,
    reader: &R,
    setting: Setting,
    rule: TaintRule,
    key: TaintKey,
    entry: &'v Entry,
    found: &mut Found<'v>,
) -> Result<TaintRule, Stop>
    ensures { Reads (spec.IsAdded (spec.IsFormulaOf (R.writes reader.now) setting) rule entry.now (Some key))
        found.old result found.new }
{
    match key {
        TaintKey::Sources => {
            let sources = formulas_at(alloc, reader, setting, entry, found)?;
            Ok(TaintRule { sources, ..rule })
        }
        TaintKey::Sinks => {
            let sinks = formulas_at(alloc, reader, setting, entry, found)?;
            Ok(TaintRule { sinks, ..rule })
        }
        TaintKey::Sanitizers => {
            let sanitizers = formulas_at(alloc, reader, setting, entry, found)?;
            Ok(TaintRule { sanitizers, ..rule })
        }
        TaintKey::Propagators => {
            let propagators = propagators_at(alloc, reader, setting, entry, found)?;
            Ok(TaintRule {
                propagators,
                ..rule
            })
        }
    }
}

/// Reads the lists of taint, in written order.
fn taint<'v, R: PatternReader>(
    alloc: Global,
    reader: &R,
    setting: Setting,
    entries: &'v [Entry],
    found: &mut Found<'v>,
) -> Result<TaintRule, Stop>
    ensures { Reads (spec.IsTaint (spec.IsFormulaOf (R.writes reader.now) setting) spec.no_taint entries.now)
        found.old result found.new }
{
    let mut rule = TaintRule {
        sources: List::new(alloc),
        sinks: List::new(alloc),
        sanitizers: List::new(alloc),
        propagators: List::new(alloc),
    };
    for entry in entries {
        match key_of(entry) {
            Some(key) => rule = added(alloc, reader, setting, rule, key, entry, found)?,
            None => {}
        }
    }
    Ok(rule)
}

fn search<'v, R: PatternReader>(
    alloc: Global,
    reader: &R,
    setting: Setting,
    entries: &'v [Entry],
    found: &mut Found<'v>,
) -> Result<Body, Stop>
    ensures { Reads (spec.IsBody (spec.IsFormulaOf (R.writes reader.now) setting) RuleMode.Search entries.now)
        found.old result found.new }
{
    let formula = one_formula(
        alloc,
        reader,
        setting,
        ROOM,
        Role::Formula,
        false,
        entries,
        found,
    )?;
    Ok(Body::Search(formula))
}

fn body<'v, R: PatternReader>(
    alloc: Global,
    reader: &R,
    setting: Setting,
    mode: RuleMode,
    entries: &'v [Entry],
    found: &mut Found<'v>,
) -> Result<Body, Stop>
    ensures { Reads (spec.IsBody (spec.IsFormulaOf (R.writes reader.now) setting) mode entries.now)
        found.old result found.new }
{
    match mode {
        RuleMode::Search => search(alloc, reader, setting, entries, found),
        RuleMode::Taint => {
            let rule = taint(alloc, reader, setting, entries, found)?;
            Ok(Body::Taint(rule))
        }
    }
}

/// The part of a rule in one language. The patterns found are those of the part.
fn part<'v, R: PatternReader>(
    alloc: Global,
    reader: &R,
    setting: Setting,
    mode: RuleMode,
    entries: &'v [Entry],
    found: &mut Found<'v>,
) -> Result<Part, Stop>
    ensures { Reads (spec.IsPart (R.writes reader.now) setting mode entries.now) found.old result found.new }
{
    let body = body(alloc, reader, setting, mode, entries, found)?;
    let patterns = replace(&mut found.patterns, List::new(alloc));
    Ok(Part {
        lang: setting.lang,
        patterns,
        body,
    })
}

/// The parts of a rule, one for each language.
pub fn parts<'v, R: PatternReader>(
    alloc: Global,
    reader: &R,
    langs: &[Lang],
    constants: bool,
    mode: RuleMode,
    entries: &'v [Entry],
    found: &mut Found<'v>,
) -> Result<List<Part>, Stop>
    ensures { Reads (spec.IsParts (R.writes reader.now) constants mode entries.now langs.now) found.old result found.new }
{
    let mut all = List::new(alloc);
    for lang in langs {
        let setting = Setting {
            lang: *lang,
            constants,
        };
        let part = part(alloc, reader, setting, mode, entries, found)?;
        all.push(part)?;
    }
    Ok(all)
}
