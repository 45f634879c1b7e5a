//! The patterns and regular expressions that were found so far.

ghost use Rattle.rule_entries.specs.Readings.{Reads};
ghost use Rattle.rule_entries.specs.Finds as spec;

use code_reader::{PatternFault, PatternReader};
use node_tree::{Lang, List, Pattern};
use rule_form::Formula;
use rule_keys::RuleFaultKind;
use rule_keys::stop::{Stop, here};
use rule_keys::texts::Texts;
use std::alloc::Global;

/// The patterns of a part and the regular expressions of its rule, as far as they were found.
#[derive(Drop)]
pub struct Found<'v> {
    pub patterns: List<Pattern>,
    pub texts: Texts<'v>,
}

/// How patterns are read: in which language, and whether literals match names that are known to hold them.
#[derive(Clone, Copy, Debug, PartialEq, Eq)]
pub struct Setting {
    pub lang: Lang,
    pub constants: bool,
}

/// The number of the regular expression among those found, from 0. A new one comes last.
pub fn number_of<'v>(alloc: Global, text: &'v str, found: &mut Found<'v>) -> Result<u32, Stop>
    ensures { Reads (spec.IsNumber text.now) found.old result found.new }
{
    Ok(found.texts.number_of(alloc, text)?)
}

/// Adds a pattern, as the setting has it.
fn next_leaf(setting: Setting, pattern: Pattern, found: &mut Found<'_>) -> Result<Formula, Stop>
    ensures { Reads (spec.IsNextLeaf setting pattern) found.old result found.new }
{
    let Ok(number) = u32::try_from(found.patterns.len()) else {
        return Err(Stop::Memory);
    };
    found.patterns.push(Pattern {
        lang: pattern.lang,
        shape: pattern.shape,
        tree: pattern.tree,
        constants: setting.constants,
    })?;
    Ok(Formula::Leaf(number))
}

/// Why a text that writes no pattern is not read.
fn no_pattern(alloc: Global, fault: PatternFault) -> Stop
    ensures { spec.IsUnwritten fault result }
{
    match fault {
        PatternFault::Memory => Stop::Memory,
        PatternFault::NoPattern => here(alloc, RuleFaultKind::BadPattern),
        PatternFault::OnlyDots => here(alloc, RuleFaultKind::BadPattern),
        PatternFault::DotsPlace => here(alloc, RuleFaultKind::BadPattern),
    }
}

/// Reads a text as a pattern, which comes last among those found.
pub fn leaf<R: PatternReader>(
    alloc: Global,
    reader: &R,
    setting: Setting,
    text: &str,
    found: &mut Found<'_>,
) -> Result<Formula, Stop>
    ensures { Reads (spec.IsLeaf (R.writes reader.now) setting text.now) found.old result found.new }
{
    match reader.read_pattern(alloc, setting.lang, text) {
        Ok(pattern) => next_leaf(setting, pattern, found),
        Err(fault) => Err(no_pattern(alloc, fault)),
    }
}
