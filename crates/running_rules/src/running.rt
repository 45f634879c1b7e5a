//! The rules that run, and the notices of rule files.

ghost use Rattle.std.specs.Prelude.{◌≡◌, ◌++◌, ◌∷◌, ℕ, List as list, [], true, map, IfOk, OnOk};
ghost use Rattle.std.specs.List.{flat_map};
ghost use Rattle.rule_files.specs.RuleFiles.{outcomes_of};
ghost use Rattle.decided_texts.specs.Decided.{is_decided, AreDecided};
ghost use Rattle.decided_texts.specs.Deciding.{Decides, TakesAll};
ghost use Rattle.decided_texts.specs.Asking.{Settles};
ghost use Rattle.running_rules.specs.Notes as notes;
ghost use Rattle.running_rules.specs.Running as spec;
ghost use Rattle.running_rules.specs.Taking as taking;

use crate::note::{Noted, add_notice};
use crate::runner::Runner;
use decided_texts::DecidedTexts;
use node_tree::{Memory, Text};
use report_form::NoticeKind;
use rule_entries::{RuleFaultKind, RuleOutcome};
use rule_files::{RuleContent, RuleFile};
use rule_form::Rule;
use rx_text::Patterns;
use std::alloc::Global;
use std::collections::BTreeSet;
use yaml_lines::Feature;

/// A good rule, the name of its file and the number of its entry there, from 0.
#[derive(Clone, Copy)]
pub struct Entry<'r> {
    pub file: &'r str,
    pub number: usize,
    pub rule: &'r Rule,
}

// Adds the rule of an entry, if it is a good one.
fn add_entry<'r>(
    entries: &mut Vec<Entry<'r>>,
    file: &'r str,
    number: usize,
    outcome: &'r RuleOutcome,
) -> Result<(), Memory>
    ensures { OnOk result (map taking.said entries.new.items ≡ map taking.said entries.old.items ++ spec.stated_at file.now number outcome.now) }
{
    match outcome {
        RuleOutcome::Bad(_) => Ok(()),
        RuleOutcome::Good(rule) => {
            entries.push(Entry { file, number, rule })?;
            Ok(())
        }
    }
}

// Adds the good rules of a file.
fn add_entries<'r>(
    entries: &mut Vec<Entry<'r>>,
    file: &'r str,
    outcomes: &'r [RuleOutcome],
) -> Result<(), Memory>
    ensures { OnOk result (map taking.said entries.new.items ≡ map taking.said entries.old.items ++ spec.stated_from file.now 0 outcomes.now) }
{
    for (number, outcome) in outcomes.iter().enumerate() {
        add_entry(entries, file, number, outcome)?;
    }
    Ok(())
}

// The outcomes of the entries of a file.
fn outcomes_in(file: &RuleFile) -> &[RuleOutcome]
    ensures { result.now ≡ outcomes_of file.now.content }
{
    match &file.content {
        RuleContent::Rules(outcomes) => outcomes.as_slice(),
        _ => &[],
    }
}

// The good rules of all files.
fn good_rules<'r>(alloc: Global, files: &'r [RuleFile]) -> Result<Vec<Entry<'r>>, Memory>
    ensures { IfOk result (λ entries. map taking.said entries.items ≡ spec.stated files.now) }
{
    let mut entries = Vec::new(alloc);
    for file in files {
        add_entries(&mut entries, file.name.as_str(), outcomes_in(file))?;
    }
    Ok(entries)
}

// Notes the options of a rule that have no meaning here.
fn note_options(
    alloc: Global,
    file: &str,
    id: &str,
    options: &[Text],
    notices: &mut Vec<Noted>,
) -> Result<(), Memory>
    ensures { OnOk result (notices.new.items ≡ notices.old.items ++ map (spec.option_notice file.now id.now) options.now) }
{
    for option in options {
        add_notice(
            alloc,
            notices,
            file,
            id,
            NoticeKind::OptionUnread,
            option.as_str(),
        )?;
    }
    Ok(())
}

// Notes that an earlier rule has the id.
fn note_repeat(alloc: Global, entry: Entry<'_>, notices: &mut Vec<Noted>) -> Result<(), Memory>
    ensures { OnOk result (notices.new.items ≡ notices.old.items ++ spec.repeat_notice (taking.said entry.entry) ∷ []) }
{
    let key = format!(in alloc; "rules.{}.id", entry.number)?;
    add_notice(
        alloc,
        notices,
        entry.file,
        entry.rule.id.as_str(),
        NoticeKind::DuplicateId,
        key.as_str(),
    )
}

// Notes the text of a rule, if it was refused.
fn note_text(
    alloc: Global,
    file: &str,
    id: &str,
    text: &str,
    decided: &DecidedTexts,
    notices: &mut Vec<Noted>,
) -> Result<(), Memory>
    ensures { is_decided decided.now text.now ≡ true → OnOk result (notices.new.items ≡ notices.old.items ++ spec.refused_notices decided.now.refused file.now id.now text.now) }
{
    if decided.expression(text).is_some() {
        return Ok(());
    }
    add_notice(alloc, notices, file, id, NoticeKind::Regex, text)
}

// Notes the texts of a rule that were refused.
fn note_texts(
    alloc: Global,
    file: &str,
    id: &str,
    texts: &[Text],
    decided: &DecidedTexts,
    notices: &mut Vec<Noted>,
) -> Result<(), Memory>
    ensures { AreDecided decided.now texts.now → OnOk result (notices.new.items ≡ notices.old.items ++ flat_map (spec.refused_notices decided.now.refused file.now id.now) texts.now) }
{
    for text in texts {
        note_text(alloc, file, id, text.as_str(), decided, notices)?;
    }
    Ok(())
}

// Notes what there is to be said of a rule whose id no earlier one has.
fn note_first(
    alloc: Global,
    entry: Entry<'_>,
    decided: &DecidedTexts,
    notices: &mut Vec<Noted>,
) -> Result<(), Memory>
    ensures { AreDecided decided.now entry.entry.rule.now.texts → OnOk result (notices.new.items ≡ notices.old.items ++ spec.first_notices decided.now.refused (taking.said entry.entry)) }
{
    let (file, rule) = (entry.file, entry.rule);
    let id = rule.id.as_str();
    note_options(alloc, file, id, rule.unread.as_slice(), notices)?;
    note_texts(alloc, file, id, rule.texts.as_slice(), decided, notices)
}

// Adds the rule to those that run, if it does.
fn add_runner<'r>(
    rule: &'r Rule,
    decided: &DecidedTexts,
    running: &mut Vec<Runner<'r>>,
) -> Result<(), Memory>
    requires { AreDecided decided.now rule.now.texts }
    ensures { OnOk result (running.new.items ≡ running.old.items ++ taking.run_of decided.now.refused rule.now) }
{
    let Some(rx) = decided.expressions(rule.texts.as_slice())? else {
        return Ok(());
    };
    running.push(Runner::of(rule, rx))?;
    Ok(())
}

// Takes a rule up, where its id isn't taken.
fn take_rule<'r>(
    alloc: Global,
    entry: Entry<'r>,
    decided: &DecidedTexts,
    taken: &mut BTreeSet<&'r str>,
    running: &mut Vec<Runner<'r>>,
    notices: &mut Vec<Noted>,
) -> Result<(), Memory>
    requires { AreDecided decided.now entry.rule.now.texts }
    ensures ids { (ids : list (list ℕ)) → taking.HasJust taken.old ids → OnOk result (taking.HasJust taken.new (taking.ids_after ids (taking.said entry.entry))) }
    ensures rules { (ids : list (list ℕ)) → taking.HasJust taken.old ids → OnOk result (running.new.items ≡ running.old.items ++ taking.rules_at decided.now.refused ids (taking.said entry.entry)) }
    ensures notices { (ids : list (list ℕ)) → taking.HasJust taken.old ids → OnOk result (notices.new.items ≡ notices.old.items ++ taking.notices_at decided.now.refused ids (taking.said entry.entry)) }
{
    let id = entry.rule.id.as_str();
    if !taken.insert(id)? {
        return note_repeat(alloc, entry, notices);
    }
    note_first(alloc, entry, decided, notices)?;
    add_runner(entry.rule, decided, running)
}

// The rules that run.
fn take_rules<'r>(
    alloc: Global,
    entries: &[Entry<'r>],
    decided: &DecidedTexts,
    notices: &mut Vec<Noted>,
) -> Result<Vec<Runner<'r>>, Memory>
    requires { AreDecided decided.now (spec.texts_of (map taking.said entries.now)) }
    ensures rules { IfOk result (λ running. running.items ≡ spec.built decided.now.refused (taking.firsts_after [] (map taking.said entries.now))) }
    ensures notices { OnOk result (notices.new.items ≡ notices.old.items ++ taking.notices_after decided.now.refused [] (map taking.said entries.now)) }
{
    let mut taken: BTreeSet<&str> = BTreeSet::new(alloc);
    let mut running = Vec::new(alloc);
    for entry in entries {
        take_rule(alloc, *entry, decided, &mut taken, &mut running, notices)?;
    }
    Ok(running)
}

// The word of a feature of YAML.
fn feature_word(feature: Feature) -> &'static str
    ensures { result.now ≡ notes.feature_word feature }
{
    match feature {
        Feature::Tab => "Tab",
        Feature::Directive => "Directive",
        Feature::Document => "Document",
        Feature::ComplexKey => "ComplexKey",
        Feature::Anchor => "Anchor",
        Feature::Alias => "Alias",
        Feature::Tag => "Tag",
        Feature::FlowMap => "FlowMap",
        Feature::IndentDigit => "IndentDigit",
    }
}

// The kind of a fault's notice.
fn kind_of(kind: RuleFaultKind) -> NoticeKind
    ensures { result ≡ notes.kind_of kind }
{
    match kind {
        RuleFaultKind::MissingKey => NoticeKind::MissingKey,
        RuleFaultKind::UnknownKey => NoticeKind::UnknownKey,
        RuleFaultKind::WrongShape => NoticeKind::WrongShape,
        RuleFaultKind::BadPattern => NoticeKind::BadPattern,
        RuleFaultKind::BadComparison => NoticeKind::BadComparison,
        RuleFaultKind::OutsideProfile => NoticeKind::OutsideProfile,
        RuleFaultKind::DuplicateId => NoticeKind::DuplicateId,
    }
}

// Notes an entry that is no rule.
fn note_fault(
    alloc: Global,
    file: &str,
    outcome: &RuleOutcome,
    notices: &mut Vec<Noted>,
) -> Result<(), Memory>
    ensures { OnOk result (notices.new.items ≡ notices.old.items ++ spec.fault_notices file.now outcome.now) }
{
    match outcome {
        RuleOutcome::Good(_) => Ok(()),
        RuleOutcome::Bad(fault) => {
            let (id, key) = (fault.id.as_str(), fault.key.as_str());
            add_notice(alloc, notices, file, id, kind_of(fault.kind), key)
        }
    }
}

// Notes the entries of a file that are no rules.
fn note_faults(
    alloc: Global,
    file: &str,
    outcomes: &[RuleOutcome],
    notices: &mut Vec<Noted>,
) -> Result<(), Memory>
    ensures { OnOk result (notices.new.items ≡ notices.old.items ++ flat_map (spec.fault_notices file.now) outcomes.now) }
{
    for outcome in outcomes {
        note_fault(alloc, file, outcome, notices)?;
    }
    Ok(())
}

// Notes what is wrong in a file or with it.
fn note_content(alloc: Global, file: &RuleFile, notices: &mut Vec<Noted>) -> Result<(), Memory>
    ensures { OnOk result (notices.new.items ≡ notices.old.items ++ spec.file_notices file.now) }
{
    let name = file.name.as_str();
    match &file.content {
        RuleContent::Rules(outcomes) => note_faults(alloc, name, outcomes.as_slice(), notices),
        RuleContent::NotUtf8 => add_notice(alloc, notices, name, "", NoticeKind::NotUtf8, ""),
        RuleContent::OutsideProfile(feature, line) => {
            let detail = format!(in alloc; "{}:{line}", feature_word(*feature))?;
            add_notice(
                alloc,
                notices,
                name,
                "",
                NoticeKind::YamlProfile,
                detail.as_str(),
            )
        }
        RuleContent::NoValue => add_notice(alloc, notices, name, "", NoticeKind::YamlNoValue, ""),
        RuleContent::NoRules => add_notice(alloc, notices, name, "", NoticeKind::NoRules, ""),
    }
}

// Notes what is wrong in the files or with them.
fn note_files(alloc: Global, files: &[RuleFile], notices: &mut Vec<Noted>) -> Result<(), Memory>
    ensures { OnOk result (notices.new.items ≡ notices.old.items ++ flat_map spec.file_notices files.now) }
{
    for file in files {
        note_content(alloc, file, notices)?;
    }
    Ok(())
}

// Decides the texts of the rules, in order of rule and place.
fn decide_texts<P: Patterns>(
    entries: &[Entry<'_>],
    decided: &mut DecidedTexts,
    patterns: &mut P,
) -> Result<(), Memory>
    ensures begun { Decides (spec.texts_of (map taking.said entries.now)) decided.old decided.new (P.refusals patterns.old) (P.refusals patterns.new) }
    ensures refused { OnOk result (TakesAll decided.old decided.new (P.refusals patterns.old) (P.refusals patterns.new)) }
    ensures decided { OnOk result (AreDecided decided.new (spec.texts_of (map taking.said entries.now))) }
    ensures settled { OnOk result (Settles (spec.texts_of (map taking.said entries.now)) decided.old decided.new (P.asked patterns.old) (P.asked patterns.new)) }
{
    for entry in entries {
        let rule = entry.rule;
        decided.decide_all(rule.texts.as_slice(), patterns)?;
    }
    Ok(())
}

/// The rules of these files that run, in order, once the texts of all are decided. All that is to be said of the files and
/// their rules is added to the notices.
pub fn take_files<'r, P: Patterns>(
    alloc: Global,
    files: &'r [RuleFile],
    decided: &mut DecidedTexts,
    patterns: &mut P,
    notices: &mut Vec<Noted>,
) -> Result<Vec<Runner<'r>>, Memory>
    ensures begun { Decides (spec.texts_of (spec.stated files.now)) decided.old decided.new (P.refusals patterns.old) (P.refusals patterns.new) }
    ensures refused { OnOk result (TakesAll decided.old decided.new (P.refusals patterns.old) (P.refusals patterns.new)) }
    ensures decided { OnOk result (AreDecided decided.new (spec.texts_of (spec.stated files.now))) }
    ensures settled { OnOk result (Settles (spec.texts_of (spec.stated files.now)) decided.old decided.new (P.asked patterns.old) (P.asked patterns.new)) }
    ensures rules { IfOk result (λ running. running.items ≡ spec.running decided.new.refused files.now) }
    ensures notices { OnOk result (notices.new.items ≡ notices.old.items ++ spec.rule_notices decided.new.refused files.now) }
{
    note_files(alloc, files, notices)?;
    let rules = good_rules(alloc, files)?;
    let entries = rules.as_slice();
    decide_texts(entries, decided, patterns)?;
    take_rules(alloc, entries, decided, notices)
}
