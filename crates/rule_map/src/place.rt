//! Where a rule file stands among others in order of name.

ghost use Rattle.std.specs.Prelude.{◌≡◌, ◌≤◌, ◌+◌, length, remove, Ok, OnOk, OnErr, ℕ};
ghost use Rattle.std_collections.specs.Layout.BTreeMap.{seek};
ghost use Rattle.scan_world.specs.Files.{path_cmp};
ghost use Rattle.rule_files.specs.declared.rule_file.RuleFile.{RuleFile as a_file};
ghost use Rattle.file_map.specs.FileMap.{File, with_file};
ghost use Rattle.rule_map.specs.RuleMap.{count_of, entries_of};
ghost use Rattle.rule_map.specs.Kept.{put_at, IsPlaceIn};

use node_tree::{Bytes, Memory, Text};
use rule_files::RuleFile;
use std::cmp::Ordering;

/// Where the file of that name stands, or else where it would be put.
pub fn place_of(texts: &[(Text, Bytes)], name: &str) -> Result<usize, usize>
    ensures { result ≡ seek (path_cmp name.now) texts.now }
{
    for (at, text) in texts.iter().enumerate() {
        match name.cmp(text.0.as_str()) {
            Ordering::Less => return Err(at),
            Ordering::Equal => return Ok(at),
            Ordering::Greater => {}
        }
    }
    Err(texts.len())
}

/// How many files there are with one put at the place.
pub fn files_with(texts: &[(Text, Bytes)], place: Result<usize, usize>) -> usize
    ensures { (file : File) → place ≡ seek (path_cmp file.0) texts.now → length (with_file texts.now file) ≡ result }
{
    match place {
        Ok(_) => texts.len(),
        Err(_) => texts.len() + 1,
    }
}

/// The entries of all rule files but one at the place.
pub fn entries_besides(contents: &[RuleFile], entries: usize, place: Result<usize, usize>) -> usize
    requires counted { entries ≡ count_of contents.now }
    requires place { IsPlaceIn contents.now place }
    ensures put { (rules : a_file) → count_of (put_at place contents.now rules) ≡ result + entries_of rules }
    ensures removed { (at : ℕ) → place ≡ Ok at → count_of (remove contents.now at) ≡ result }
    ensures fewer { result ≤ entries }
{
    match place {
        Ok(at) => entries - contents[at].entries(),
        Err(_) => entries,
    }
}

/// Puts a file and the rule file that it is at their place in both lists, or neither where memory runs out.
pub fn put_both(
    texts: &mut Vec<(Text, Bytes)>,
    contents: &mut Vec<RuleFile>,
    place: Result<usize, usize>,
    text: (Text, Bytes),
    rules: RuleFile,
) -> Result<(), Memory>
    requires place { place ≡ seek (path_cmp text.0) texts.old.items }
    requires beside { IsPlaceIn contents.old.items place }
    ensures texts { OnOk result (texts.new.items ≡ with_file texts.old.items text) }
    ensures contents { OnOk result (contents.new.items ≡ put_at place contents.old.items rules) }
    ensures same_texts { OnErr result (texts.new.items ≡ texts.old.items) }
    ensures same_contents { OnErr result (contents.new.items ≡ contents.old.items) }
{
    match place {
        Ok(at) => {
            texts[at] = text;
            contents[at] = rules;
        }
        Err(at) => {
            texts.reserve(1)?;
            contents.insert(at, rules)?;
            texts.insert(at, text)?;
        }
    }
    Ok(())
}
