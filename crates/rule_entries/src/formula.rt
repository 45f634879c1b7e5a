//! Formulas.

ghost use Rattle.std.specs.Prelude.{◌≡◌};
ghost use Rattle.rule_entries.specs.declared.found.Found.{Found as a_found};
ghost use Rattle.rule_keys.specs.Misfits.{Fits};
ghost use Rattle.rule_entries.specs.Finds.{IsLeaf, IsCompared};
ghost use Rattle.rule_entries.specs.Readings.{Reads, Each, AtPlace};
ghost use Rattle.rule_entries.specs.Formulas as spec;

use crate::found::{Found, Setting, leaf, number_of};
use code_reader::PatternReader;
use meta_filter::{CompareFault, read_comparison};
use node_tree::{List, Text};
use rule_form::{Child, Comparison, Formula, Propagator};
use rule_keys::RuleFaultKind;
use rule_keys::focus::focus;
use rule_keys::key::{ChildKey, FormulaKey, Role, map_of, one_of};
use rule_keys::stop::{Stop, here, within, within_item};
use rule_keys::value::{Entry, items_of, required_name, required_text, text_of, whole_text};
use std::alloc::Global;
use yaml_cells::YValue;

fn pattern<R: PatternReader>(
    alloc: Global,
    reader: &R,
    setting: Setting,
    value: &YValue,
    found: &mut Found<'_>,
) -> Result<Formula, Stop>
    ensures { Reads (spec.IsPattern (IsLeaf (R.writes reader.now) setting) value.now) found.old result found.new }
{
    let text = whole_text(alloc, value)?;
    leaf(alloc, reader, setting, text, found)
}

/// The number of the regular expression that a value is.
fn regex<'v>(alloc: Global, value: &'v YValue, found: &mut Found<'v>) -> Result<u32, Stop>
    ensures { Reads (spec.IsRegex value.now) found.old result found.new }
{
    let text = whole_text(alloc, value)?;
    number_of(alloc, text, found)
}

fn regex_formula<'v>(
    alloc: Global,
    value: &'v YValue,
    found: &mut Found<'v>,
) -> Result<Formula, Stop>
    ensures { Reads (spec.IsRegexFormula value.now) found.old result found.new }
{
    let number = regex(alloc, value, found)?;
    Ok(Formula::Regex(number))
}

/// Reads the value of a key whose value is a formula, in so many levels at most. `bare` says that a `patterns` needs no operand
/// there.
#[cycle(formula)]
pub fn formula<'v, R: PatternReader>(
    alloc: Global,
    reader: &R,
    setting: Setting,
    room: u32,
    bare: bool,
    key: FormulaKey,
    value: &'v YValue,
    found: &mut Found<'v>,
) -> Result<Formula, Stop>
    ensures { Reads (spec.IsFormula room (IsLeaf (R.writes reader.now) setting) bare key value.now)
        found.old result found.new }
{
    if room == 0 {
        return Err(Stop::Memory);
    }
    match key {
        FormulaKey::Pattern => pattern(alloc, reader, setting, value, found),
        FormulaKey::Patterns => patterns(alloc, reader, setting, room - 1, bare, value, found),
        FormulaKey::Either => either(alloc, reader, setting, room - 1, value, found),
        FormulaKey::Regex => regex_formula(alloc, value, found),
    }
}

#[cycle(formula)]
fn either<'v, R: PatternReader>(
    alloc: Global,
    reader: &R,
    setting: Setting,
    room: u32,
    value: &'v YValue,
    found: &mut Found<'v>,
) -> Result<Formula, Stop>
    ensures { let leaf = IsLeaf (R.writes reader.now) setting in
        Reads (spec.IsEither leaf (spec.IsFormula room leaf) value.now) found.old result found.new }
{
    let items = items_of(alloc, value)?;
    let formulas = alternatives(alloc, reader, setting, room, items, found)?;
    Ok(Formula::Any(formulas))
}

#[cycle(formula)]
fn alternatives<'v, R: PatternReader>(
    alloc: Global,
    reader: &R,
    setting: Setting,
    room: u32,
    items: &'v [YValue],
    found: &mut Found<'v>,
) -> Result<List<Formula>, Stop>
    ensures { let leaf = IsLeaf (R.writes reader.now) setting in
        Reads (Each (AtPlace (spec.IsAlternative leaf (spec.IsFormula room leaf))) 0 items.now) found.old result found.new }
{
    let mut formulas = List::new(alloc);
    for (place, item) in items.iter().enumerate() {
        let formula = alternative(alloc, reader, setting, room, item, found);
        let formula = within_item(alloc, place, formula)?;
        formulas.push(formula)?;
    }
    Ok(formulas)
}

/// An item of `pattern-either`.
#[cycle(formula)]
fn alternative<'v, R: PatternReader>(
    alloc: Global,
    reader: &R,
    setting: Setting,
    room: u32,
    item: &'v YValue,
    found: &mut Found<'v>,
) -> Result<Formula, Stop>
    ensures { let leaf = IsLeaf (R.writes reader.now) setting in
        Reads (spec.IsAlternative leaf (spec.IsFormula room leaf) item.now) found.old result found.new }
{
    let entries = map_of(alloc, Role::Alternative, item)?;
    let (key, entry) = one_of(alloc, Role::Alternative, entries)?;
    let formula = alternative_at(alloc, reader, setting, room, key, &entry.1, found);
    within(alloc, entry.0.as_str(), formula)
}

/// The value of a key in an item of `pattern-either`, where `pattern-inside` is just the formula that it holds.
#[cycle(formula)]
fn alternative_at<'v, R: PatternReader>(
    alloc: Global,
    reader: &R,
    setting: Setting,
    room: u32,
    key: ChildKey,
    value: &'v YValue,
    found: &mut Found<'v>,
) -> Result<Formula, Stop>
    ensures { let leaf = IsLeaf (R.writes reader.now) setting in
        Reads (spec.IsAlternativeAt leaf (spec.IsFormula room leaf) key value.now) found.old result found.new }
{
    match key {
        ChildKey::Formula(key) => formula(alloc, reader, setting, room, false, key, value, found),
        ChildKey::Inside => held(alloc, reader, setting, room, value, found),
        _ => Err(here(alloc, RuleFaultKind::WrongShape)),
    }
}

/// The formula that a map of the role holds, where just one formula key counts.
#[cycle(formula)]
pub fn one_formula<'v, R: PatternReader>(
    alloc: Global,
    reader: &R,
    setting: Setting,
    room: u32,
    role: Role,
    bare: bool,
    entries: &'v [Entry],
    found: &mut Found<'v>,
) -> Result<Formula, Stop>
    ensures { Reads (spec.IsOne (spec.IsFormulaAt (spec.IsFormula room (IsLeaf (R.writes reader.now) setting)) bare) role entries.now)
        found.old result found.new }
{
    let (key, entry) = one_of(alloc, role, entries)?;
    let formula = formula_at(alloc, reader, setting, room, bare, key, &entry.1, found);
    within(alloc, entry.0.as_str(), formula)
}

/// The value of a formula key, where no other key counts.
#[cycle(formula)]
fn formula_at<'v, R: PatternReader>(
    alloc: Global,
    reader: &R,
    setting: Setting,
    room: u32,
    bare: bool,
    key: ChildKey,
    value: &'v YValue,
    found: &mut Found<'v>,
) -> Result<Formula, Stop>
    ensures { Reads (spec.IsFormulaAt (spec.IsFormula room (IsLeaf (R.writes reader.now) setting)) bare key value.now)
        found.old result found.new }
{
    match key {
        ChildKey::Formula(key) => formula(alloc, reader, setting, room, bare, key, value, found),
        _ => Err(here(alloc, RuleFaultKind::WrongShape)),
    }
}

/// The value of `pattern-inside`, `pattern-not` or `pattern-not-inside`: a pattern, or a map with one formula.
#[cycle(formula)]
fn held<'v, R: PatternReader>(
    alloc: Global,
    reader: &R,
    setting: Setting,
    room: u32,
    value: &'v YValue,
    found: &mut Found<'v>,
) -> Result<Formula, Stop>
    ensures { let leaf = IsLeaf (R.writes reader.now) setting in
        Reads (spec.IsHeld leaf (spec.IsFormula room leaf) value.now) found.old result found.new }
{
    if let Some(text) = text_of(value) {
        return leaf(alloc, reader, setting, text, found);
    }
    mapped(alloc, reader, setting, room, value, found)
}

/// A map with one formula.
#[cycle(formula)]
pub fn mapped<'v, R: PatternReader>(
    alloc: Global,
    reader: &R,
    setting: Setting,
    room: u32,
    value: &'v YValue,
    found: &mut Found<'v>,
) -> Result<Formula, Stop>
    ensures { Reads (spec.IsMapped (spec.IsFormula room (IsLeaf (R.writes reader.now) setting)) value.now)
        found.old result found.new }
{
    let entries = map_of(alloc, Role::Formula, value)?;
    one_formula(
        alloc,
        reader,
        setting,
        room,
        Role::Formula,
        false,
        entries,
        found,
    )
}

#[cycle(formula)]
fn patterns<'v, R: PatternReader>(
    alloc: Global,
    reader: &R,
    setting: Setting,
    room: u32,
    bare: bool,
    value: &'v YValue,
    found: &mut Found<'v>,
) -> Result<Formula, Stop>
    ensures { let leaf = IsLeaf (R.writes reader.now) setting in
        Reads (spec.IsPatterns leaf (spec.IsFormula room leaf) bare value.now) found.old result found.new }
{
    let items = items_of(alloc, value)?;
    let children = children(alloc, reader, setting, room, items, found)?;
    all_of(alloc, bare, children)
}

#[cycle(formula)]
fn children<'v, R: PatternReader>(
    alloc: Global,
    reader: &R,
    setting: Setting,
    room: u32,
    items: &'v [YValue],
    found: &mut Found<'v>,
) -> Result<List<Child>, Stop>
    ensures { let leaf = IsLeaf (R.writes reader.now) setting in
        Reads (Each (AtPlace (spec.IsChild leaf (spec.IsFormula room leaf))) 0 items.now) found.old result found.new }
{
    let mut children = List::new(alloc);
    for (place, item) in items.iter().enumerate() {
        let child = child(alloc, reader, setting, room, item, found);
        let child = within_item(alloc, place, child)?;
        children.push(child)?;
    }
    Ok(children)
}

/// All children, of which one must be an operand unless `bare`.
fn all_of(alloc: Global, bare: bool, children: List<Child>) -> Result<Formula, Stop>
    ensures { Fits (λ f. f) (spec.all_of bare children) result }
{
    if bare || has_operand(children.as_slice()) {
        Ok(Formula::All(children))
    } else {
        Err(here(alloc, RuleFaultKind::WrongShape))
    }
}

/// Whether a child is an operand: one that ranges come from.
fn is_operand(child: &Child) -> bool
    ensures { result ≡ spec.is_operand child.now }
{
    matches!(child, Child::Positive(_) | Child::Inside(_))
}

fn has_operand(children: &[Child]) -> bool
    ensures { result ≡ spec.has_operand children.now }
{
    for child in children {
        if is_operand(child) {
            return true;
        }
    }
    false
}

/// An item of `patterns`.
#[cycle(formula)]
fn child<'v, R: PatternReader>(
    alloc: Global,
    reader: &R,
    setting: Setting,
    room: u32,
    item: &'v YValue,
    found: &mut Found<'v>,
) -> Result<Child, Stop>
    ensures { let leaf = IsLeaf (R.writes reader.now) setting in
        Reads (spec.IsChild leaf (spec.IsFormula room leaf) item.now) found.old result found.new }
{
    let entries = map_of(alloc, Role::Child, item)?;
    let (key, entry) = one_of(alloc, Role::Child, entries)?;
    let child = child_at(alloc, reader, setting, room, key, &entry.1, found);
    within(alloc, entry.0.as_str(), child)
}

/// The value of a key in an item of `patterns`.
#[cycle(formula)]
fn child_at<'v, R: PatternReader>(
    alloc: Global,
    reader: &R,
    setting: Setting,
    room: u32,
    key: ChildKey,
    value: &'v YValue,
    found: &mut Found<'v>,
) -> Result<Child, Stop>
    ensures { let leaf = IsLeaf (R.writes reader.now) setting in
        Reads (spec.IsChildAt leaf (spec.IsFormula room leaf) key value.now) found.old result found.new }
{
    match key {
        ChildKey::Formula(key) => {
            let formula = formula(alloc, reader, setting, room, false, key, value, found)?;
            Ok(Child::Positive(formula))
        }
        ChildKey::Inside => {
            let formula = held(alloc, reader, setting, room, value, found)?;
            Ok(Child::Inside(formula))
        }
        ChildKey::Not => {
            let formula = held(alloc, reader, setting, room, value, found)?;
            Ok(Child::Not(formula))
        }
        ChildKey::NotInside => {
            let formula = held(alloc, reader, setting, room, value, found)?;
            Ok(Child::NotInside(formula))
        }
        ChildKey::NotRegex => {
            let number = regex(alloc, value, found)?;
            Ok(Child::NotRegex(number))
        }
        ChildKey::MetaRegex => meta_regex(alloc, value, found),
        ChildKey::MetaCompare => meta_compare(alloc, value),
        ChildKey::MetaPattern => meta_pattern(alloc, reader, setting, room, value, found),
        ChildKey::Focus => {
            let names = focus(alloc, value)?;
            Ok(Child::Focus(names))
        }
    }
}

fn meta_regex<'v>(alloc: Global, value: &'v YValue, found: &mut Found<'v>) -> Result<Child, Stop>
    ensures { Reads (spec.IsMetaRegex value.now) found.old result found.new }
{
    let entries = map_of(alloc, Role::MetaRegex, value)?;
    let name = required_name(alloc, entries, "metavariable")?;
    let text = required_text(alloc, entries, "regex")?;
    let number = number_of(alloc, text, found)?;
    Ok(Child::MetaRegex(Text::from_str(alloc, name)?, number))
}

/// The comparison that a text is.
fn comparison(alloc: Global, text: &str) -> Result<Comparison, Stop>
    ensures { (s : a_found) → Reads (IsCompared text.now) s result s }
{
    match read_comparison(alloc, text) {
        Ok(comparison) => Ok(comparison),
        Err(CompareFault::Memory) => Err(Stop::Memory),
        Err(CompareFault::NoComparison) => Err(here(alloc, RuleFaultKind::BadComparison)),
    }
}

fn meta_compare(alloc: Global, value: &YValue) -> Result<Child, Stop>
    ensures { (s : a_found) → Reads (spec.IsMetaCompare value.now) s result s }
{
    let entries = map_of(alloc, Role::MetaCompare, value)?;
    let text = required_text(alloc, entries, "comparison")?;
    let comparison = within(alloc, "comparison", comparison(alloc, text))?;
    Ok(Child::MetaCompare(comparison))
}

#[cycle(formula)]
fn meta_pattern<'v, R: PatternReader>(
    alloc: Global,
    reader: &R,
    setting: Setting,
    room: u32,
    value: &'v YValue,
    found: &mut Found<'v>,
) -> Result<Child, Stop>
    ensures { Reads (spec.IsMetaPattern (spec.IsFormula room (IsLeaf (R.writes reader.now) setting)) value.now)
        found.old result found.new }
{
    let entries = map_of(alloc, Role::MetaPattern, value)?;
    let name = required_name(alloc, entries, "metavariable")?;
    let formula = one_formula(
        alloc,
        reader,
        setting,
        room,
        Role::MetaPattern,
        true,
        entries,
        found,
    )?;
    Ok(Child::MetaPattern(Text::from_str(alloc, name)?, formula))
}

/// An item of `pattern-propagators`.
pub fn propagator<'v, R: PatternReader>(
    alloc: Global,
    reader: &R,
    setting: Setting,
    room: u32,
    item: &'v YValue,
    found: &mut Found<'v>,
) -> Result<Propagator, Stop>
    ensures { Reads (spec.IsPropagator (spec.IsFormula room (IsLeaf (R.writes reader.now) setting)) item.now)
        found.old result found.new }
{
    let entries = map_of(alloc, Role::Propagator, item)?;
    let formula = one_formula(
        alloc,
        reader,
        setting,
        room,
        Role::Propagator,
        false,
        entries,
        found,
    )?;
    let source = required_name(alloc, entries, "from")?;
    let target = required_name(alloc, entries, "to")?;
    Ok(Propagator {
        formula,
        source: Text::from_str(alloc, source)?,
        target: Text::from_str(alloc, target)?,
    })
}
