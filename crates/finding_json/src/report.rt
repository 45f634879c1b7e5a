//! The line of a report.

ghost use Rattle.std.specs.Prelude.{◌≡◌, [], ◌∷◌, ◌++◌, IfOk, OnOk, map};
ghost use Rattle.serde_json.specs.Data.{array};
ghost use Rattle.serde_json.specs.Events.{SendsValue};
ghost use Rattle.serde_json.specs.View.{items_of};
ghost use Rattle.serde_json.specs.Written.{compact_text};
ghost use Rattle.finding_json.specs.Reports.{report_data, result_data, notice_data};

use crate::parts::{send_notice, send_result};
use node_tree::{Bytes, Memory};
use report_form::{Notice, Report, Reported};
use serde::{Described, Serialize, Serializer};
use std::alloc::Global;

// A report that is to be written.
#[derive(Clone, Copy)]
struct Line<'r> {
    report: &'r Report,
}

impl<'r> Described for Line<'r> {
    ghost writes = { λ line. SendsValue (report_data line.report.now) };
}

impl<'r> Serialize for Line<'r> {
    fn serialize<S: Serializer>(&self, out: &mut S) -> Result<(), S::Error> {
        out.begin_map(Some(2))?;
        out.key("notices")?;
        send_notices(self.report.notices.as_slice(), out)?;
        out.key("results")?;
        send_results(self.report.results.as_slice(), out)?;
        out.end_map()
    }
}

/// Sends the notices in order.
pub fn send_notices<S: Serializer>(notices: &[Notice], out: &mut S) -> Result<(), S::Error>
    ensures { OnOk result (SendsValue (array (items_of (map notice_data notices.now))) (S.written out.old) (S.written out.new)) }
{
    out.begin_seq(Some(notices.len()))?;
    for notice in notices {
        send_notice(notice, out)?;
    }
    out.end_seq()
}

/// Sends the results in order.
pub fn send_results<S: Serializer>(results: &[Reported], out: &mut S) -> Result<(), S::Error>
    ensures { OnOk result (SendsValue (array (items_of (map result_data results.now))) (S.written out.old) (S.written out.new)) }
{
    out.begin_seq(Some(results.len()))?;
    for reported in results {
        send_result(reported, out)?;
    }
    out.end_seq()
}

/// A line that has this text.
pub fn ended(text: Vec<u8>) -> Result<Bytes, Memory>
    ensures { IfOk result (λ line. line ≡ text.items ++ 10 ∷ []) }
{
    let mut line = Bytes::from_vec(text);
    line.push(b'\n')?;
    Ok(line)
}

/// The line of a report: its JSON text without blanks, with the keys in order, and a line feed.
pub fn report_text(alloc: Global, report: &Report) -> Result<Bytes, Memory>
    ensures { IfOk result (λ line. line ≡ compact_text (report_data report.now) ++ 10 ∷ []) }
{
    // JSON takes all that a report has, so that the writer fails only for want of memory.
    let Ok(text) = serde_json::to_vec(alloc, &Line { report }) else {
        return Err(Memory);
    };
    ended(text)
}
