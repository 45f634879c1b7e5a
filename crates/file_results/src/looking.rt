//! Where rules look, and what they find there.

ghost use Rattle.std.specs.Prelude.{◌≡◌, ◌<◌, ◌↔◌, length, slice_get, All, IsTrue, IfOk, OnOk, Some};
ghost use Rattle.node_match.specs.Sets.{Among, Adds};
ghost use Rattle.tree_match.specs.Members.{known_tree};
ghost use Rattle.tree_match.specs.Placed.{IsLeafPlaced};
ghost use Rattle.taint_judge.specs.Placed.{IsFindingPlaced};
ghost use Rattle.part_judge.specs.Findings.{findings_of};
ghost use Rattle.rule_form.specs.declared.rule.Part.{Part as a_part};
ghost use Rattle.file_search.specs.Asked.{Asked, AsksFor};
ghost use Rattle.file_results.specs.Looking.{GlobMatches, SomeMatches, Allows, AreLeaves, LooksAt, named_leaf};
ghost use Rattle.file_results.specs.Asking.{PartAsksFor, PartsAskFor, RuleAsksFor, IsAskedFor};
ghost use Rattle.file_results.specs.declared.looking.Judged.{Judged as a_judged};
ghost use Rattle.file_results.specs.Judging.{PartJudges, PartAdds, RuleJudges, RuleAdds, IsJudged, AreAllPlaced};

use file_search::FileSearch;
use node_tree::{Lang, List, Memory, Pattern, Steps, Text};
use part_judge::{Found, SharedFile, judge};
use path_glob::matches;
use rule_form::{Part, Rule};
use running_rules::Runner;
use std::alloc::Global;
use std::sync::ledger::Ledger;
use tree_match::Leaf;

/// What one of the rules finds in a file: its number among the rules that run, from 0, and what it finds.
#[derive(Drop)]
pub struct Judged {
    pub number: usize,
    pub found: Found,
}

// Whether the glob matches the path.
fn fits(glob: &str, path: &str) -> bool
    ensures { IsTrue result ↔ GlobMatches glob.now path.now }
{
    matches(glob, path)
}

// Whether one of the globs matches the path.
fn some_fits(globs: &List<Text>, path: &str) -> bool
    ensures { IsTrue result ↔ SomeMatches globs.now path.now }
{
    for glob in globs.as_slice() {
        if fits(glob.as_str(), path) {
            return true;
        }
    }
    false
}

// Whether the rule's globs allow the path.
fn allows(rule: &Rule, path: &str) -> bool
    ensures { IsTrue result ↔ Allows rule.now path.now }
{
    if some_fits(&rule.exclude, path) {
        return false;
    }
    rule.include.is_empty() || some_fits(&rule.include, path)
}

/// Whether the part looks at files of the language.
pub fn looks_at(part: &Part, lang: Lang) -> bool
    ensures { IsTrue result ↔ LooksAt part.now lang }
{
    part.lang == lang || part.lang == Lang::Regex
}

// The members of each pattern in the file that is searched.
fn leaves_of<S: FileSearch, L: Ledger>(
    alloc: Global,
    patterns: &[Pattern],
    search: &mut S,
    steps: &mut Steps<L>,
) -> Result<List<Leaf>, Memory>
    ensures leaves { IfOk result (AreLeaves (named_leaf (S.file search.old).known (S.file search.old).lang) (S.file search.old).tree patterns.now) }
    ensures placed { IfOk result (λ leaves. All (λ leaf. IsLeafPlaced (S.file search.old).bytes leaf) leaves) }
    ensures same { S.file search.new ≡ S.file search.old }
    ensures asked { OnOk result (Asked S.asks patterns.now search.old steps.old search.new steps.new) }
{
    let mut leaves = List::new(alloc);
    for pattern in patterns {
        leaves.push(search.leaf(alloc, pattern, steps)?)?;
    }
    Ok(leaves)
}

/// What the part with that number finds, after the members of its patterns.
pub fn judge_part<S: FileSearch, L: Ledger>(
    alloc: Global,
    view: &mut SharedFile<'_>,
    rule: &Runner<'_>,
    part: usize,
    search: &mut S,
    steps: &mut Steps<L>,
) -> Result<(List<Leaf>, Found), Memory>
    requires part { part < length rule.now.parts }
    requires file { S.file search.old ≡ view.old }
    ensures leaves { (p : a_part) → slice_get rule.now.parts part ≡ Some p → IfOk result (λ judged. AreLeaves (named_leaf view.old.known view.old.lang) view.old.tree p.patterns judged.0) }
    ensures leaves_placed { IfOk result (λ judged. All (λ leaf. IsLeafPlaced view.old.bytes leaf) judged.0) }
    ensures finds { (p : a_part) → slice_get rule.now.parts part ≡ Some p → IfOk result (λ judged. PartJudges view.old.lang rule.now.texts view.old.bytes (known_tree view.old) p judged.1) }
    ensures placed { IfOk result (λ judged. All (λ finding. IsFindingPlaced view.old.bytes finding) (findings_of judged.1)) }
    ensures same { S.file search.new ≡ S.file search.old }
    ensures kept { view.new ≡ view.old }
    ensures asked { (p : a_part) → slice_get rule.now.parts part ≡ Some p → OnOk result (Asked S.asks p.patterns search.old steps.old search.new steps.new) }
{
    let Ok(number) = u32::try_from(part) else {
        return Err(Memory);
    };
    let mut rx = rule.expressions()?;
    let rule = rule.rule();
    let patterns = &rule.parts.as_slice()[part].patterns;
    let leaves = leaves_of(alloc, patterns.as_slice(), search, steps)?;
    let found = judge(alloc, view, rule, number, &leaves, &mut rx)?;
    Ok((leaves, found))
}

// Adds what the part with that number finds, if it looks at the file.
fn add_part<S: FileSearch, L: Ledger>(
    alloc: Global,
    view: &mut SharedFile<'_>,
    number: usize,
    rule: &Runner<'_>,
    part: usize,
    search: &mut S,
    steps: &mut Steps<L>,
    judged: &mut Vec<Judged>,
) -> Result<(), Memory>
    requires part { part < length rule.now.parts }
    requires file { S.file search.old ≡ view.old }
    ensures judged { (p : a_part) → slice_get rule.now.parts part ≡ Some p → OnOk result (Adds judged.old.items judged.new.items (PartAdds rule.now.texts view.old.lang view.old.bytes (known_tree view.old) number p)) }
    ensures placed { AreAllPlaced view.old.bytes judged.old.items → OnOk result (AreAllPlaced view.old.bytes judged.new.items) }
    ensures same { S.file search.new ≡ S.file search.old }
    ensures kept { view.new ≡ view.old }
    ensures asked { (p : a_part) → slice_get rule.now.parts part ≡ Some p → OnOk result (AsksFor S.asks (PartAsksFor view.old.lang p) search.old steps.old search.new steps.new) }
{
    if !looks_at(&rule.rule().parts.as_slice()[part], view.view().lang) {
        return Ok(());
    }
    let (_, found) = judge_part(alloc, view, rule, part, search, steps)?;
    judged.push(Judged { number, found })?;
    Ok(())
}

// Adds what each part of the rule finds that looks at the file.
fn add_parts<S: FileSearch, L: Ledger>(
    alloc: Global,
    view: &mut SharedFile<'_>,
    number: usize,
    rule: &Runner<'_>,
    search: &mut S,
    steps: &mut Steps<L>,
    judged: &mut Vec<Judged>,
) -> Result<(), Memory>
    requires { S.file search.old ≡ view.old }
    ensures judged { OnOk result (Adds judged.old.items judged.new.items (RuleJudges rule.now.texts view.old.lang view.old.bytes (known_tree view.old) number rule.now.parts)) }
    ensures placed { AreAllPlaced view.old.bytes judged.old.items → OnOk result (AreAllPlaced view.old.bytes judged.new.items) }
    ensures same { S.file search.new ≡ S.file search.old }
    ensures kept { view.new ≡ view.old }
    ensures asked { OnOk result (AsksFor S.asks (PartsAskFor view.old.lang rule.now.parts) search.old steps.old search.new steps.new) }
{
    for part in 0..rule.rule().parts.len() {
        add_part(alloc, view, number, rule, part, search, steps, judged)?;
    }
    Ok(())
}

// Adds what the rule finds, if its globs allow the path.
fn add_rule<S: FileSearch, L: Ledger>(
    alloc: Global,
    path: &str,
    view: &mut SharedFile<'_>,
    number: usize,
    rule: &Runner<'_>,
    search: &mut S,
    steps: &mut Steps<L>,
    judged: &mut Vec<Judged>,
) -> Result<(), Memory>
    requires { S.file search.old ≡ view.old }
    ensures judged { OnOk result (Adds judged.old.items judged.new.items (RuleAdds path.now view.old.lang view.old.bytes (known_tree view.old) number rule.now)) }
    ensures placed { AreAllPlaced view.old.bytes judged.old.items → OnOk result (AreAllPlaced view.old.bytes judged.new.items) }
    ensures same { S.file search.new ≡ S.file search.old }
    ensures kept { view.new ≡ view.old }
    ensures asked { OnOk result (AsksFor S.asks (RuleAsksFor path.now view.old.lang rule.now) search.old steps.old search.new steps.new) }
{
    if !allows(rule.rule(), path) {
        return Ok(());
    }
    add_parts(alloc, view, number, rule, search, steps, judged)
}

/// What the rules find in the file at that path. The search is asked for just the patterns of the rules that look at it.
pub fn judge_all<S: FileSearch, L: Ledger>(
    alloc: Global,
    path: &str,
    view: &mut SharedFile<'_>,
    running: &[Runner<'_>],
    search: &mut S,
    steps: &mut Steps<L>,
) -> Result<Vec<Judged>, Memory>
    requires { S.file search.old ≡ view.old }
    ensures judged { IfOk result (λ judged. (x : a_judged) → Among judged.items x ↔ IsJudged path.now view.old.lang view.old.bytes (known_tree view.old) running.now x) }
    ensures placed { IfOk result (λ judged. AreAllPlaced view.old.bytes judged.items) }
    ensures same { S.file search.new ≡ S.file search.old }
    ensures kept { view.new ≡ view.old }
    ensures asked { OnOk result (AsksFor S.asks (IsAskedFor path.now view.old.lang running.now) search.old steps.old search.new steps.new) }
{
    let mut judged = Vec::new(alloc);
    for (number, rule) in running.iter().enumerate() {
        add_rule(alloc, path, view, number, rule, search, steps, &mut judged)?;
    }
    Ok(judged)
}
