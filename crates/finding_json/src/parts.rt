//! The parts of a report as they are sent to a writer.

ghost use Rattle.std.specs.Prelude.{◌≡◌, OnOk, MatchOption, map, codes};
ghost use Rattle.serde_json.specs.Data.{object, string};
ghost use Rattle.serde_json.specs.Events.{SendsValue};
ghost use Rattle.meta_bind.specs.Bounds.{seen};
ghost use Rattle.finding_json.specs.Reports.{number_data, place_data, range_data, metavar_members, extra_data, extra_len as members_of_extra, result_data, notice_data, severity_word, SendsMember};

use crate::traces::send_trace;
use meta_bind::Bound;
use node_tree::{Place, Span, Text};
use report_form::{Notice, Reported};
use rule_form::Severity;
use serde::Serializer;

// A number by its key.
fn send_number<S: Serializer>(key: &str, number: u32, out: &mut S) -> Result<(), S::Error>
    ensures { OnOk result (SendsMember key.now (number_data number) (S.written out.old) (S.written out.new)) }
{
    out.key(key)?;
    out.u64(u64::from(number))
}

// A word by its key.
fn send_word<S: Serializer>(key: &str, word: &str, out: &mut S) -> Result<(), S::Error>
    ensures { OnOk result (SendsMember key.now (string word.now) (S.written out.old) (S.written out.new)) }
{
    out.key(key)?;
    out.str(word)
}

// A text by its key.
fn send_text<S: Serializer>(key: &str, text: &Text, out: &mut S) -> Result<(), S::Error>
    ensures { OnOk result (SendsMember key.now (string text.now) (S.written out.old) (S.written out.new)) }
{
    send_word(key, text.as_str(), out)
}

// A place by its key: its line, its column and its offset.
fn send_place<S: Serializer>(key: &str, place: Place, out: &mut S) -> Result<(), S::Error>
    ensures { OnOk result (SendsMember key.now (place_data place) (S.written out.old) (S.written out.new)) }
{
    out.key(key)?;
    out.begin_map(Some(3))?;
    send_number("col", place.col, out)?;
    send_number("line", place.line, out)?;
    send_number("offset", place.offset, out)?;
    out.end_map()
}

// A range by its key: its two ends.
fn send_range<S: Serializer>(key: &str, span: Span, out: &mut S) -> Result<(), S::Error>
    ensures { OnOk result (SendsMember key.now (range_data span) (S.written out.old) (S.written out.new)) }
{
    out.key(key)?;
    out.begin_seq(Some(2))?;
    out.u64(u64::from(span.from))?;
    out.u64(u64::from(span.to))?;
    out.end_seq()
}

// The word of a severity.
fn word_of(severity: Severity) -> &'static str
    ensures { result.now ≡ severity_word severity }
{
    match severity {
        Severity::Info => "INFO",
        Severity::Warning => "WARNING",
        Severity::Error => "ERROR",
        Severity::Low => "LOW",
        Severity::Medium => "MEDIUM",
        Severity::High => "HIGH",
        Severity::Critical => "CRITICAL",
    }
}

// The range of each metavariable by its name.
fn send_metavars<S: Serializer>(bounds: &[Bound], out: &mut S) -> Result<(), S::Error>
    ensures { OnOk result (SendsMember (codes "metavars") (object (metavar_members (map seen bounds.now))) (S.written out.old) (S.written out.new)) }
{
    out.key("metavars")?;
    out.begin_map(Some(bounds.len()))?;
    for bound in bounds {
        send_range(bound.name.as_str(), bound.span, out)?;
    }
    out.end_map()
}

// The fix, where there is one.
fn send_fix<S: Serializer>(fix: &Option<Text>, out: &mut S) -> Result<(), S::Error>
    ensures { OnOk result (MatchOption fix.now (S.written out.new ≡ S.written out.old)
        (λ text. SendsMember (codes "fix") (string text) (S.written out.old) (S.written out.new))) }
{
    match fix {
        Some(text) => send_text("fix", text, out),
        None => Ok(()),
    }
}

// The range that taint comes from, where there is one.
fn send_source<S: Serializer>(source: Option<Span>, out: &mut S) -> Result<(), S::Error>
    ensures { OnOk result (MatchOption source (S.written out.new ≡ S.written out.old)
        (λ span. SendsMember (codes "source") (range_data span) (S.written out.old) (S.written out.new))) }
{
    match source {
        Some(span) => send_range("source", span, out),
        None => Ok(()),
    }
}

// How many members are said of a finding beside its place.
fn extra_len(reported: &Reported) -> usize
    ensures { result ≡ members_of_extra reported.now }
{
    3 + usize::from(reported.fix.is_some())
        + usize::from(reported.finding.source.is_some())
        + usize::from(!reported.trace.is_empty())
}

// What is said of a finding beside its place.
fn send_extra<S: Serializer>(reported: &Reported, out: &mut S) -> Result<(), S::Error>
    ensures { OnOk result (SendsMember (codes "extra") (extra_data reported.now) (S.written out.old) (S.written out.new)) }
{
    out.key("extra")?;
    out.begin_map(Some(extra_len(reported)))?;
    send_fix(&reported.fix, out)?;
    send_text("message", &reported.message, out)?;
    send_metavars(reported.finding.binding.bounds(), out)?;
    send_word("severity", word_of(reported.severity), out)?;
    send_source(reported.finding.source, out)?;
    send_trace(reported.trace.as_slice(), out)?;
    out.end_map()
}

/// Sends a result.
pub fn send_result<S: Serializer>(reported: &Reported, out: &mut S) -> Result<(), S::Error>
    ensures { OnOk result (SendsValue (result_data reported.now) (S.written out.old) (S.written out.new)) }
{
    out.begin_map(Some(5))?;
    send_text("check_id", &reported.id, out)?;
    send_place("end", reported.end, out)?;
    send_extra(reported, out)?;
    send_text("path", &reported.path, out)?;
    send_place("start", reported.start, out)?;
    out.end_map()
}

/// Sends a notice.
pub fn send_notice<S: Serializer>(notice: &Notice, out: &mut S) -> Result<(), S::Error>
    ensures { OnOk result (SendsValue (notice_data notice.now) (S.written out.old) (S.written out.new)) }
{
    out.begin_map(Some(4))?;
    send_text("detail", &notice.detail, out)?;
    send_word("kind", notice.kind.word(), out)?;
    send_text("path", &notice.path, out)?;
    send_text("rule", &notice.rule_id, out)?;
    out.end_map()
}
