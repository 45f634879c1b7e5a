//! Rule files as they are read.

ghost use Rattle.std.specs.Prelude.{◌≡◌, ◌≤◌, length, IfOk};
ghost use Rattle.rule_files.specs.declared.rule_file.RuleContent.{RuleContent as a_content};
ghost use Rattle.rule_files.specs.declared.rule_file.RuleFile.{RuleFile as a_file};
ghost use Rattle.rule_files.specs.RuleFiles.{IsContent, IsContentOf, IsRuleFile, outcomes_of};

use code_reader::PatternReader;
use node_tree::{List, MOST_BYTES, Memory, Text};
use rule_entries::{RuleOutcome, RulesFault, read_entries};
use std::alloc::Global;
use yaml_cells::YValue;
use yaml_lines::{Feature, YFault};
use yaml_read::read_yaml;

/// A rule file as it was read: its name, and its rules or why it has none.
#[derive(Drop)]
pub struct RuleFile {
    pub name: Text,
    pub content: RuleContent,
}

/// What a rule file says.
#[derive(Drop)]
pub enum RuleContent {
    /// One outcome for each entry.
    Rules(List<RuleOutcome>),
    /// The bytes are no UTF-8.
    NotUtf8,
    /// A feature that is outside the profile of YAML, with its line, counted from 1.
    OutsideProfile(Feature, u32),
    /// The text has no value.
    NoValue,
    /// The value has no list of rules.
    NoRules,
}

// What a rule file with that value says.
fn content_of_value<R: PatternReader>(
    alloc: Global,
    reader: &R,
    value: &YValue,
) -> Result<RuleContent, Memory>
    ensures content { IfOk result (IsContentOf (R.writes reader.now) value.now) }
    ensures only { (c : a_content) → IsContentOf (R.writes reader.now) value.now c → IfOk result (λ found. found ≡ c) }
{
    match read_entries(alloc, reader, value) {
        Ok(outcomes) => Ok(RuleContent::Rules(outcomes)),
        Err(RulesFault::NoRules) => Ok(RuleContent::NoRules),
        Err(RulesFault::Memory) => Err(Memory),
    }
}

// What a rule file with these bytes says.
fn content_of<R: PatternReader>(
    alloc: Global,
    reader: &R,
    bytes: &[u8],
) -> Result<RuleContent, Memory>
    requires { length bytes.now ≤ MOST_BYTES }
    ensures content { IfOk result (IsContent (R.writes reader.now) bytes.now) }
    ensures only { (c : a_content) → IsContent (R.writes reader.now) bytes.now c → IfOk result (λ found. found ≡ c) }
{
    match read_yaml(alloc, bytes) {
        Ok(value) => content_of_value(alloc, reader, &value),
        Err(YFault::NotUtf8) => Ok(RuleContent::NotUtf8),
        Err(YFault::OutsideProfile(feature, line)) => {
            Ok(RuleContent::OutsideProfile(feature, line))
        }
        Err(YFault::NoValue) => Ok(RuleContent::NoValue),
        Err(YFault::Memory) => Err(Memory),
    }
}

/// Reads a rule file of at most 1,000,000 bytes, its patterns by the reader. The file with these bytes is this one and no
/// other.
pub fn read_rule_file<R: PatternReader>(
    alloc: Global,
    reader: &R,
    name: &str,
    bytes: &[u8],
) -> Result<RuleFile, Memory>
    requires { length bytes.now ≤ MOST_BYTES }
    ensures file { IfOk result (IsRuleFile (R.writes reader.now) name.now bytes.now) }
    ensures only { (f : a_file) → IsRuleFile (R.writes reader.now) name.now bytes.now f → IfOk result (λ found. found ≡ f) }
{
    let content = content_of(alloc, reader, bytes)?;
    let name = Text::from_str(alloc, name)?;
    Ok(RuleFile { name, content })
}

impl RuleFile {
    /// How many entries there are, good and bad: none where there is no list of rules.
    pub fn entries(&self) -> usize
        ensures { result ≡ length (outcomes_of self.now.content) }
    {
        match &self.content {
            RuleContent::Rules(outcomes) => outcomes.len(),
            _ => 0,
        }
    }
}
