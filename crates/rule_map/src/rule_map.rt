//! Rule files by name.

ghost use Rattle.std.specs.Prelude.{◌≡◌, ◌≤◌, ℕ, List as list, [], None, Option as option, IfOk, IfErr, OnOk, OnErr};
ghost use Rattle.std.specs.Option.{is_some};
ghost use Rattle.rule_files.specs.declared.rule_file.RuleFile.{RuleFile as a_file};
ghost use Rattle.file_map.specs.declared.limit.LimitKind.{LimitKind as a_kind};
ghost use Rattle.std_collections.specs.Layout.BTreeMap.{seek};
ghost use Rattle.scan_world.specs.Files.{path_cmp};
ghost use Rattle.file_map.specs.FileMap.{bytes_at, with_file, without_file, TellsPut};
ghost use Rattle.rule_map.specs.RuleMap.{AreRuleFiles, PutRuleEnds, TellsEnd, count_of, size_over};
ghost use Rattle.rule_map.specs.Kept.{IsOnly, HaveEntries};

use crate::place::{entries_besides, files_with, place_of, put_both};
use code_reader::PatternReader;
use file_map::{LimitKind, PutFault};
use node_tree::{Bytes, Text};
use rule_files::{RuleFile, read_rule_file};
use scan_world::{MOST_RULE_BYTES, MOST_RULES};
use std::alloc::Global;
use std::marker::Model;

// The most rule files.
const MOST_FILES: usize = 100;

/// Rule files by name, at most 100 of at most 262,144 bytes each and 1,000 entries together, with what a reader of patterns reads
/// in them. Contracts see the reader and the files in order of name, each with its bytes.
#[derive(Drop)]
pub struct RuleMap<'r, R: PatternReader> {
    reader: &'r R,
    texts: Vec<(Text, Bytes)>,
    contents: Vec<RuleFile>,
    entries: usize,
    alloc: Global,
}

impl<'r, R: PatternReader> Model for RuleMap<'r, R> {
    ghost use Rattle.rule_map.specs.RuleMap.{RuleTexts, rule_texts_code};
    ghost use Rattle.rule_map.specs.Kept.{IsKept};

    ghost Value = { RuleTexts R };

    ghost coded = { rule_texts_code R.code };

    ghost view = { λ m. record { reader = m.reader.now; files = m.texts.items } };

    ghost invariant = { λ m. IsKept (R.writes m.reader.now) m.texts.items m.contents.items m.entries };
}

impl<'r, R: PatternReader> RuleMap<'r, R> {
    /// No rule files, which takes no memory.
    pub fn new(alloc: Global, reader: &'r R) -> RuleMap<'r, R>
        ensures reader { result.reader ≡ reader.now }
        ensures files { result.files ≡ [] }
    {
        RuleMap {
            reader,
            texts: Vec::new(alloc),
            contents: Vec::new(alloc),
            entries: 0,
            alloc,
        }
    }

    /// The reader of patterns.
    pub fn reader(&self) -> &'r R
        ensures { result.now ≡ self.now.reader }
    {
        self.reader
    }

    /// The rule files in order of name: those that the bytes of the files are, and no others.
    pub fn contents(&self) -> &[RuleFile]
        ensures contents { AreRuleFiles (R.writes self.now.reader) self.now.files result.now }
        ensures only { (contents : list a_file) → AreRuleFiles (R.writes self.now.reader) self.now.files contents → contents ≡ result.now }
        ensures few { count_of result.now ≤ 1000 }
    {
        self.contents.as_slice()
    }

    // Reads the rule file that is to be put at the place, and counts the entries of all with it.
    fn read(
        &self,
        place: Result<usize, usize>,
        name: &str,
        bytes: &[u8],
    ) -> Result<(RuleFile, usize), PutFault>
        requires place { place ≡ seek (path_cmp name.now) self.now.files }
        ensures read { IfOk result (λ read. IsOnly (R.writes self.now.reader) (name.now, bytes.now) read.0) }
        ensures size { IfOk result (λ _. size_over self.now.files (name.now, bytes.now) ≡ None) }
        ensures entries { IfOk result (λ read. HaveEntries (R.writes self.now.reader) (with_file self.now.files (name.now, bytes.now)) read.1) }
        ensures few { IfOk result (λ read. read.1 ≤ 1000) }
        ensures over { IfErr result (TellsPut (PutRuleEnds (R.writes self.now.reader) self.now.files (name.now, bytes.now))) }
        ensures only { (over : option (a_kind × ℕ)) → PutRuleEnds (R.writes self.now.reader) self.now.files (name.now, bytes.now) over → IfErr result (TellsPut (λ told. told ≡ over)) }
    {
        let files = files_with(self.texts.as_slice(), place);
        if files > MOST_FILES {
            return Err(PutFault::OverLimit(LimitKind::RuleFiles, files as u64));
        }
        if bytes.len() > MOST_RULE_BYTES {
            return Err(PutFault::OverLimit(LimitKind::RuleBytes, MOST_RULE_BYTES as u64 + 1));
        }
        let rules = read_rule_file(self.alloc, self.reader, name, bytes)?;
        let others = entries_besides(self.contents.as_slice(), self.entries, place);
        // No memory holds more entries than a number counts.
        let Some(entries) = others.checked_add(rules.entries()) else {
            return Err(PutFault::Memory);
        };
        if entries > MOST_RULES {
            return Err(PutFault::OverLimit(LimitKind::Rules, entries as u64));
        }
        Ok((rules, entries))
    }

    /// Reads a rule file and puts it, with all its bytes.
    pub fn put(&mut self, name: &str, bytes: &[u8]) -> Result<(), PutFault>
        ensures reader { self.new.reader ≡ self.old.reader }
        ensures put { OnOk result (self.new.files ≡ with_file self.old.files (name.now, bytes.now)) }
        ensures ends { TellsEnd (PutRuleEnds (R.writes self.old.reader) self.old.files (name.now, bytes.now)) result }
        ensures only { (over : option (a_kind × ℕ)) → PutRuleEnds (R.writes self.old.reader) self.old.files (name.now, bytes.now) over → TellsEnd (λ told. told ≡ over) result }
        ensures refused { OnErr result (self.new.files ≡ self.old.files) }
    {
        let place = place_of(self.texts.as_slice(), name);
        let (rules, entries) = self.read(place, name, bytes)?;
        let text = (
            Text::from_str(self.alloc, name)?,
            Bytes::from_slice(self.alloc, bytes)?,
        );
        put_both(&mut self.texts, &mut self.contents, place, text, rules)?;
        self.entries = entries;
        Ok(())
    }

    /// Removes the rule file of that name, and says whether there was one.
    pub fn del(&mut self, name: &str) -> bool
        ensures reader { self.new.reader ≡ self.old.reader }
        ensures removed { self.new.files ≡ without_file name.now self.old.files }
        ensures was_there { is_some (bytes_at name.now self.old.files) ≡ result }
    {
        let place = place_of(self.texts.as_slice(), name);
        let Ok(at) = place else {
            return false;
        };
        self.entries = entries_besides(self.contents.as_slice(), self.entries, place);
        self.texts.remove(at);
        self.contents.remove(at);
        true
    }
}
