//! The line of a report with fixes.

ghost use Rattle.std.specs.Prelude.{◌≡◌, [], ◌∷◌, ◌++◌, IfOk, OnOk, map};
ghost use Rattle.serde_json.specs.Data.{array};
ghost use Rattle.serde_json.specs.Events.{SendsValue};
ghost use Rattle.serde_json.specs.View.{items_of};
ghost use Rattle.serde_json.specs.Written.{compact_text};
ghost use Rattle.finding_json.specs.Reports.{edit_data, fixed_data, fix_data};

use crate::report::{ended, send_notices, send_results};
use fix_apply::{FixReport, FixedFile};
use node_tree::{Bytes, Memory};
use report_form::Edit;
use serde::{Described, Serialize, Serializer};
use std::alloc::Global;

// A report with fixes that is to be written.
#[derive(Clone, Copy)]
struct FixLine<'f> {
    fixed: &'f FixReport,
}

impl<'f> Described for FixLine<'f> {
    ghost writes = { λ line. SendsValue (fix_data line.fixed.now) };
}

impl<'f> Serialize for FixLine<'f> {
    fn serialize<S: Serializer>(&self, out: &mut S) -> Result<(), S::Error> {
        out.begin_map(Some(3))?;
        out.key("fixed")?;
        send_files(self.fixed.files.as_slice(), out)?;
        out.key("notices")?;
        send_notices(self.fixed.report.notices.as_slice(), out)?;
        out.key("results")?;
        send_results(self.fixed.report.results.as_slice(), out)?;
        out.end_map()
    }
}

// An edit: the two ends of its range and its text.
fn send_edit<S: Serializer>(edit: &Edit, out: &mut S) -> Result<(), S::Error>
    ensures { OnOk result (SendsValue (edit_data edit.now) (S.written out.old) (S.written out.new)) }
{
    out.begin_seq(Some(3))?;
    out.u64(u64::from(edit.span.from))?;
    out.u64(u64::from(edit.span.to))?;
    out.str(edit.text.as_str())?;
    out.end_seq()
}

// The edits in order.
fn send_edits<S: Serializer>(edits: &[Edit], out: &mut S) -> Result<(), S::Error>
    ensures { OnOk result (SendsValue (array (items_of (map edit_data edits.now))) (S.written out.old) (S.written out.new)) }
{
    out.begin_seq(Some(edits.len()))?;
    for edit in edits {
        send_edit(edit, out)?;
    }
    out.end_seq()
}

// A file that fixes changed.
fn send_file<S: Serializer>(file: &FixedFile, out: &mut S) -> Result<(), S::Error>
    ensures { OnOk result (SendsValue (fixed_data file.now) (S.written out.old) (S.written out.new)) }
{
    out.begin_map(Some(2))?;
    out.key("path")?;
    out.str(file.path.as_str())?;
    out.key("ranges")?;
    send_edits(file.edits.as_slice(), out)?;
    out.end_map()
}

// The files that fixes changed, in order.
fn send_files<S: Serializer>(files: &[FixedFile], out: &mut S) -> Result<(), S::Error>
    ensures { OnOk result (SendsValue (array (items_of (map fixed_data files.now))) (S.written out.old) (S.written out.new)) }
{
    out.begin_seq(Some(files.len()))?;
    for file in files {
        send_file(file, out)?;
    }
    out.end_seq()
}

/// The line of a report with fixes: its JSON text without blanks, with the keys in order, and a line feed.
pub fn fix_text(alloc: Global, fixed: &FixReport) -> Result<Bytes, Memory>
    ensures { IfOk result (λ line. line ≡ compact_text (fix_data fixed.now) ++ 10 ∷ []) }
{
    // JSON takes all that a report has, so that the writer fails only for want of memory.
    let Ok(text) = serde_json::to_vec(alloc, &FixLine { fixed }) else {
        return Err(Memory);
    };
    ended(text)
}
