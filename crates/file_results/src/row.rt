//! Findings of one file in order.

ghost use Rattle.std.specs.Prelude.{◌≡◌, ◌↔◌, IfOk, OnOk};
ghost use Rattle.node_match.specs.Sets.{Among, Adds};
ghost use Rattle.std.specs.Option.{option_cmp};
ghost use Rattle.node_tree.specs.Span.{span_cmp};
ghost use Rattle.file_results.specs.Hits.{Hit};
ghost use Rattle.file_results.specs.Judging.{IsHit, AreNumbered, IsHitOf};
ghost use Rattle.file_results.specs.Reports.{reported_cmp};

use crate::looking::Judged;
use meta_bind::{Finding, Trail};
use node_tree::{Memory, Span};
use report_form::Reported;
use running_rules::{Runner, rule_at};
use sorted_sets::Ordered;
use std::alloc::Global;
use std::cmp::Ordering;
use std::marker::Model;

/// A finding, with the number and the id of its rule, that stands in the order of findings of a file.
#[derive(Drop)]
pub struct Row<'r, 'f> {
    number: usize,
    id: &'r str,
    finding: &'f Finding,
    trail: Trail<'f>,
}

impl<'r, 'f> Model for Row<'r, 'f> {
    ghost use Rattle.std.specs.Prelude.{◌≡◌};
    ghost use Rattle.file_results.specs.Hits.{Hit, hit_code};

    ghost Value = { Hit };

    ghost coded = { hit_code };

    ghost view = { λ r. record { number = r.number; id = r.id.now; finding = r.finding.now } };

    ghost invariant = { λ r. r.trail ≡ r.finding.now.binding };
}

// By where they come from; what comes from nowhere is first.
fn order_sources(a: Option<Span>, b: Option<Span>) -> Ordering
    ensures { result ≡ option_cmp span_cmp a b }
{
    match (a, b) {
        (None, None) => Ordering::Equal,
        (None, Some(_)) => Ordering::Less,
        (Some(_), None) => Ordering::Greater,
        (Some(a), Some(b)) => a.order(b),
    }
}

impl<'r, 'f> Ordered for Row<'r, 'f> {
    ghost use Rattle.file_results.specs.Hits.{hit_cmp as by_range};
    ghost use Rattle.file_results.specs.HitOrder.{hit_total, hit_apart};

    ghost before = { by_range };

    ghost total = { hit_total };

    ghost apart = { hit_apart };

    fn order(&self, other: &Row<'r, 'f>) -> Ordering {
        match self.finding.span.order(other.finding.span) {
            Ordering::Less => return Ordering::Less,
            Ordering::Greater => return Ordering::Greater,
            Ordering::Equal => {}
        }
        match self.id.cmp(other.id) {
            Ordering::Less => return Ordering::Less,
            Ordering::Greater => return Ordering::Greater,
            Ordering::Equal => {}
        }
        match self.trail.order(&other.trail) {
            Ordering::Less => return Ordering::Less,
            Ordering::Greater => return Ordering::Greater,
            Ordering::Equal => {}
        }
        match order_sources(self.finding.source, other.finding.source) {
            Ordering::Less => Ordering::Less,
            Ordering::Greater => Ordering::Greater,
            Ordering::Equal => self.number.cmp(&other.number),
        }
    }
}

impl<'r, 'f> Row<'r, 'f> {
    /// The finding of the rule with that number and id.
    pub fn of(number: usize, id: &'r str, finding: &'f Finding) -> Result<Row<'r, 'f>, Memory>
        ensures { IfOk result (λ row. row ≡ record { number = number; id = id.now; finding = finding.now }) }
    {
        Ok(Row {
            number,
            id,
            finding,
            trail: Trail::of(&finding.binding)?,
        })
    }

    /// The number of the rule.
    pub fn number(&self) -> usize
        ensures { result ≡ self.now.number }
    {
        self.number
    }

    /// The finding.
    pub fn finding(&self) -> &Finding
        ensures { result.now ≡ self.now.finding }
    {
        self.finding
    }
}

/// Which of two results comes first in a report.
pub fn order_results(a: &Reported, b: &Reported) -> Result<Ordering, Memory>
    ensures { IfOk result (λ order. order ≡ reported_cmp a.now b.now) }
{
    match a.path.as_str().cmp(b.path.as_str()) {
        Ordering::Less => return Ok(Ordering::Less),
        Ordering::Greater => return Ok(Ordering::Greater),
        Ordering::Equal => {}
    }
    let one = Row::of(0, a.id.as_str(), &a.finding)?;
    let other = Row::of(0, b.id.as_str(), &b.finding)?;
    Ok(one.order(&other))
}

// Adds the findings of the rule with that number and id.
fn add_rows<'r, 'f>(
    rows: &mut Vec<Row<'r, 'f>>,
    number: usize,
    id: &'r str,
    findings: &'f [Finding],
) -> Result<(), Memory>
    ensures { OnOk result (Adds rows.old.items rows.new.items (IsHitOf number id.now findings.now)) }
{
    for finding in findings {
        rows.push(Row::of(number, id, finding)?)?;
    }
    Ok(())
}

/// All findings, in no order.
pub fn rows_of<'r, 'f>(
    alloc: Global,
    running: &[Runner<'r>],
    judged: &'f [Judged],
) -> Result<Vec<Row<'r, 'f>>, Memory>
    requires { AreNumbered running.now judged.now }
    ensures { IfOk result (λ rows. (h : Hit) → Among rows.items h ↔ IsHit running.now judged.now h) }
{
    let mut rows = Vec::new(alloc);
    for one in judged {
        let id = rule_at(running, one.number).id.as_str();
        add_rows(&mut rows, one.number, id, one.found.findings())?;
    }
    Ok(rows)
}
