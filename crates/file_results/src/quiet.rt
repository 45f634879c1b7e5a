//! Findings that comments quiet.

ghost use Rattle.std.specs.Prelude.{◌≡◌, ◌↔◌, map, IsTrue, IfOk};
ghost use Rattle.file_results.specs.Quieted.{is_quieted_by, unmarked, HasWord, AreQuiets, AreUnquieted};

use comment_reader::CommentReader;
use memchr::memmem;
use node_tree::{FileView, Lang, List, Memory};
use quieting::{Quiet, is_quieted, quiet_lines, quiets};
use report_form::Reported;
use std::alloc::Global;

// Whether the word that comments quiet by stands in the text.
fn has_word(text: &[u8]) -> bool
    ensures { IsTrue result ↔ HasWord text.now }
{
    memmem::find(text, b"nosemgrep").is_some()
}

// What the comments of the file quiet. Only a file in Python or C has comments.
fn quiets_in<R: CommentReader>(
    alloc: Global,
    reader: &R,
    view: &FileView,
) -> Result<List<Quiet>, Memory>
    ensures { IfOk result (AreQuiets (R.comments reader.now) view.now.lang view.now.bytes) }
{
    match view.lang {
        Lang::Json | Lang::Regex => return Ok(List::new(alloc)),
        Lang::Python | Lang::C => {}
    }
    let Ok(text) = str::from_utf8(view.bytes.as_slice()) else {
        unreachable!()
    };
    let comments = reader.read_comments(alloc, view.lang, text)?;
    quiets(alloc, text, &comments)
}

// For each of the findings whether one of these comments quiets it.
fn marks_of<'q>(
    alloc: Global,
    quiets: &'q [Quiet],
    found: &'q [Reported],
) -> Result<Vec<bool>, Memory>
    ensures { IfOk result (λ marks. marks.items ≡ map (is_quieted_by quiets.now) found.now) }
{
    let lines = quiet_lines(alloc, quiets)?;
    let mut marks = Vec::new(alloc);
    for one in found {
        let mark = is_quieted(&lines, one.start.line, one.id.as_str());
        marks.push(mark)?;
    }
    Ok(marks)
}

// Of as many findings as there are marks those whose mark is false, in the same order.
fn keep_unmarked(
    alloc: Global,
    marks: &[bool],
    mut found: List<Reported>,
) -> Result<List<Reported>, Memory>
    ensures { IfOk result (λ kept. kept ≡ unmarked marks.now found) }
{
    let mut kept = List::new(alloc);
    found.reverse();
    for mark in marks {
        let Some(one) = found.pop() else {
            return Ok(kept);
        };
        if !*mark {
            kept.push(one)?;
        }
    }
    Ok(kept)
}

/// Those of the findings in the file that no comment there quiets, in the same order. Comments are looked for only where there
/// is a finding, and where the text has the word that they quiet by.
pub fn without_quieted<R: CommentReader>(
    alloc: Global,
    reader: &R,
    view: &FileView,
    found: List<Reported>,
) -> Result<List<Reported>, Memory>
    ensures { IfOk result (AreUnquieted (R.comments reader.now) view.now.lang view.now.bytes found) }
{
    if found.is_empty() || !has_word(view.bytes.as_slice()) {
        return Ok(found);
    }
    let quiets = quiets_in(alloc, reader, view)?;
    let marks = marks_of(alloc, quiets.as_slice(), found.as_slice())?;
    keep_unmarked(alloc, marks.as_slice(), found)
}
