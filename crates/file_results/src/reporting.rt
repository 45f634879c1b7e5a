//! Findings as they are reported.

ghost use Rattle.std.specs.Prelude.{◌≡◌, ◌++◌, All, IfOk, OnOk};
ghost use Rattle.std.specs.List.{flat_map};
ghost use Rattle.std.specs.Option.{option_map};
ghost use Rattle.std.specs.Str.{IsUtf8};
ghost use Rattle.meta_bind.specs.declared.bound.Bound.{Bound as a_bound};
ghost use Rattle.meta_bind.specs.Fills.{filled};
ghost use Rattle.meta_bind.specs.Places.{EndsLieIn};
ghost use Rattle.taint_judge.specs.Placed.{IsFindingPlaced};
ghost use Rattle.file_results.specs.Reports.{reported as reported_as, outcome_notices};
ghost use Rattle.file_results.specs.Judging.{AreNumbered, AreReported, ArePlacedHits, AreNumberedHits, judged_notices};

use crate::looking::Judged;
use crate::row::Row;
use meta_bind::{Binding, Finding, fill};
use node_tree::{FileView, List, Memory, Places, Text, Twin};
use part_judge::FoundNotice;
use report_form::{NoticeKind, Reported};
use rule_form::Rule;
use running_rules::{Noted, Runner, add_notice, rule_at};
use std::alloc::Global;

// The fix with the metavariables filled in, where there is one.
fn filled_fix(
    alloc: Global,
    fix: &Option<Text>,
    binding: &Binding,
    bytes: &[u8],
) -> Result<Option<Text>, Memory>
    requires utf8 { ∥ IsUtf8 bytes.now ∥₁ }
    requires placed { All (λ (b : a_bound). EndsLieIn bytes.now b.span) binding.now }
    ensures { IfOk result (λ text. text ≡ option_map (filled binding.now bytes.now) fix.now) }
{
    match fix {
        None => Ok(None),
        Some(fix) => Ok(Some(fill(alloc, fix.as_str(), binding, bytes)?)),
    }
}

// The finding as it is reported.
fn reported(
    alloc: Global,
    path: &str,
    view: &FileView,
    places: &Places<'_>,
    rule: &Rule,
    finding: &Finding,
) -> Result<Reported, Memory>
    requires places { places.now ≡ view.now.bytes }
    requires placed { IsFindingPlaced view.now.bytes finding.now }
    ensures { IfOk result (λ r. r ≡ reported_as path.now view.now.bytes rule.now finding.now) }
{
    let bytes = view.bytes.as_slice();
    let message = fill(alloc, rule.message.as_str(), &finding.binding, bytes)?;
    let fix = filled_fix(alloc, &rule.fix, &finding.binding, bytes)?;
    Ok(Reported {
        path: Text::from_str(alloc, path)?,
        id: rule.id.copy()?,
        severity: rule.severity,
        message,
        fix,
        start: places.place(finding.span.from),
        end: places.place(finding.span.to),
        finding: Finding {
            span: finding.span,
            binding: finding.binding.copy()?,
            source: finding.source,
        },
        trace: List::new(alloc),
    })
}

// The findings as they are reported, in the same order, by where the lines of the file are.
fn placed_rows(
    alloc: Global,
    path: &str,
    view: &FileView,
    running: &[Runner<'_>],
    rows: &[Row<'_, '_>],
) -> Result<List<Reported>, Memory>
    requires numbered { AreNumberedHits running.now rows.now }
    requires placed { ArePlacedHits view.now.bytes rows.now }
    ensures { IfOk result (AreReported path.now view.now.bytes running.now rows.now) }
{
    let places = Places::of(alloc, view.bytes.as_slice())?;
    let mut results = List::new(alloc);
    for row in rows {
        let rule = rule_at(running, row.number());
        results.push(reported(alloc, path, view, &places, rule, row.finding())?)?;
    }
    Ok(results)
}

/// The findings as they are reported, in the same order, without traces. Where the lines of the file are is not looked for without a finding.
pub fn report_rows(
    alloc: Global,
    path: &str,
    view: &FileView,
    running: &[Runner<'_>],
    rows: &[Row<'_, '_>],
) -> Result<List<Reported>, Memory>
    requires numbered { AreNumberedHits running.now rows.now }
    requires placed { ArePlacedHits view.now.bytes rows.now }
    ensures { IfOk result (AreReported path.now view.now.bytes running.now rows.now) }
{
    if rows.is_empty() {
        return Ok(List::new(alloc));
    }
    placed_rows(alloc, path, view, running, rows)
}

// Adds the notice of what the rule with that id finds in the file at that path, if there is one.
fn note_found(
    alloc: Global,
    path: &str,
    id: &str,
    judged: &Judged,
    notices: &mut Vec<Noted>,
) -> Result<(), Memory>
    ensures { OnOk result (notices.new.items ≡ notices.old.items ++ outcome_notices path.now id.now judged.now.found) }
{
    match judged.found.notice() {
        None => Ok(()),
        Some(FoundNotice::Crowded(numbers)) => {
            add_notice(alloc, notices, path, id, NoticeKind::Crowded, numbers)
        }
        Some(FoundNotice::FlowTooLarge(at)) => {
            let detail = format!(in alloc; "{at}")?;
            add_notice(
                alloc,
                notices,
                path,
                id,
                NoticeKind::FlowTooLarge,
                detail.as_str(),
            )
        }
    }
}

/// Adds the notices of what the rules find in the file at that path.
pub fn note_judged(
    alloc: Global,
    path: &str,
    running: &[Runner<'_>],
    judged: &[Judged],
    notices: &mut Vec<Noted>,
) -> Result<(), Memory>
    requires { AreNumbered running.now judged.now }
    ensures { OnOk result (notices.new.items ≡ notices.old.items ++ flat_map (judged_notices path.now running.now) judged.now) }
{
    for one in judged {
        let id = rule_at(running, one.number).id.as_str();
        note_found(alloc, path, id, one, notices)?;
    }
    Ok(())
}
