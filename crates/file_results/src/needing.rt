//! Whether rules need the names that are known in a file. Finding those costs more than reading the file, so it is left out
//! where names make no difference to the patterns of the rules.

ghost use Rattle.std.specs.Prelude.{◌≡◌, ◌↔◌, [], IsTrue, IfOk};
ghost use Rattle.file_results.specs.Needing.{Uses, PatternsUse, PartUses, PartsUse, RulesUse, RulesUseNames, HasNoneOrAll, AreWanted};

use crate::looking::looks_at;
use crate::may_have::{AnyFile, MayHave};
use code_reader::TreeReader;
use file_match::ReadyFile;
use file_open::with_names;
use file_search::WholeFile;
use import_names::resolved_beside;
use literal_use::uses_literals;
use node_tree::{FileView, Lang, List, Memory, Pattern};
use rule_form::Part;
use running_rules::Runner;
use std::alloc::Global;

// Whether names may make a difference to the pattern: it may take one that is known to hold a literal, and may have members.
fn pattern_needs<F: MayHave>(alloc: Global, file: &F, pattern: &Pattern) -> Result<bool, Memory>
    ensures { IfOk result (λ needs. IsTrue needs ↔ Uses (F.may file.now) pattern.now) }
{
    if !uses_literals(pattern) {
        return Ok(false);
    }
    file.may_have(alloc, pattern)
}

// The same for one of the patterns.
fn patterns_need<F: MayHave>(alloc: Global, file: &F, patterns: &[Pattern]) -> Result<bool, Memory>
    ensures { IfOk result (λ need. IsTrue need ↔ PatternsUse (F.may file.now) patterns.now) }
{
    for pattern in patterns {
        if pattern_needs(alloc, file, pattern)? {
            return Ok(true);
        }
    }
    Ok(false)
}

// The same for a pattern of the part, if it looks at files of the language.
fn part_needs<F: MayHave>(alloc: Global, file: &F, lang: Lang, part: &Part) -> Result<bool, Memory>
    ensures { IfOk result (λ needs. IsTrue needs ↔ PartUses (F.may file.now) lang part.now) }
{
    if !looks_at(part, lang) {
        return Ok(false);
    }
    patterns_need(alloc, file, part.patterns.as_slice())
}

// The same for one of the parts.
fn parts_need<F: MayHave>(
    alloc: Global,
    file: &F,
    lang: Lang,
    parts: &[Part],
) -> Result<bool, Memory>
    ensures { IfOk result (λ need. IsTrue need ↔ PartsUse (F.may file.now) lang parts.now) }
{
    for part in parts {
        if part_needs(alloc, file, lang, part)? {
            return Ok(true);
        }
    }
    Ok(false)
}

// Whether the names that are known in a file of the language may make a difference to one of the rules, as far as the file tells
// which patterns may have members in it.
fn rules_need<F: MayHave>(
    alloc: Global,
    file: &F,
    lang: Lang,
    running: &[Runner<'_>],
) -> Result<bool, Memory>
    ensures { IfOk result (λ need. IsTrue need ↔ RulesUse (F.may file.now) lang running.now) }
{
    for runner in running {
        if parts_need(alloc, file, lang, runner.rule().parts.as_slice())? {
            return Ok(true);
        }
    }
    Ok(false)
}

/// Whether the names that are known in a file may make a difference to one of the rules. The file is made ready only for rules
/// that may take names, and its imported names are looked up only where the words that stand there don't tell.
pub fn view_needs(alloc: Global, view: &FileView, running: &[Runner<'_>]) -> Result<bool, Memory>
    ensures { IfOk result (λ need. IsTrue need ↔ RulesUseNames view.now.lang view.now.tree running.now) }
{
    if !rules_need(alloc, &AnyFile, view.lang, running)? {
        return Ok(false);
    }
    let written = ReadyFile::of(alloc, view)?;
    if rules_need(alloc, &written, view.lang, running)? {
        return Ok(true);
    }
    let beside = resolved_beside(alloc, view)?;
    let file = WholeFile::with(alloc, written, &beside)?;
    rules_need(alloc, &file, view.lang, running)
}

// The file without its names.
fn without_names(alloc: Global, view: FileView) -> FileView
    ensures lang { result.lang ≡ view.lang }
    ensures bytes { result.bytes ≡ view.bytes }
    ensures tree { result.tree ≡ view.tree }
    ensures known { result.known ≡ [] }
{
    FileView {
        lang: view.lang,
        bytes: view.bytes,
        tree: view.tree,
        known: List::new(alloc),
    }
}

/// The file with the names that are known in it, where these may make a difference to the rules; else without names. Names that
/// it has are taken for those that are known in it, and aren't found again.
pub fn with_needed_names<R: TreeReader>(
    alloc: Global,
    reader: &R,
    view: FileView,
    running: &[Runner<'_>],
) -> Result<FileView, Memory>
    ensures lang { IfOk result (λ named. named.lang ≡ view.lang) }
    ensures bytes { IfOk result (λ named. named.bytes ≡ view.bytes) }
    ensures tree { IfOk result (λ named. named.tree ≡ view.tree) }
    ensures wanted { HasNoneOrAll (R.knows reader.now) view → IfOk result (λ named. AreWanted (R.knows reader.now) view.lang view.tree running.now named.known) }
{
    if !view_needs(alloc, &view, running)? {
        return Ok(without_names(alloc, view));
    }
    if !view.known.is_empty() {
        return Ok(view);
    }
    let named = with_names(alloc, reader, view)?;
    Ok(named)
}
