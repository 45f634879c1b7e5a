//! Block scalars.

ghost use Rattle.std.specs.Prelude.{◌≡◌, ◌+◌, ◌<◌, ◌^◌, ◌++◌, IfOk, OnOk, None, Some};
ghost use Rattle.yaml_cells.specs.Block as spec;

use crate::fold::push_breaks;
use node_tree::{Memory, Text};
use std::alloc::Global;
use std::str::from_utf8;
use yaml_lines::head::{indentation, is_blank_line};
use yaml_lines::scan::is_blank;

/// What becomes of the last line ends.
#[derive(Clone, Copy, Debug, PartialEq, Eq)]
pub enum Chomp {
    /// None stays.
    Strip,
    /// One stays.
    Clip,
    /// All stay.
    Keep,
}

/// The header of a block scalar: whether lines fold, and what becomes of the last line ends.
#[derive(Clone, Copy, Debug, PartialEq, Eq)]
pub struct Header {
    pub folds: bool,
    pub chomp: Chomp,
}

/// What becomes of the last line ends, by what follows `|` or `>`.
fn chomp_of(rest: &[u8]) -> Option<Chomp>
    ensures { result ≡ spec.chomp_of rest.now }
{
    match rest {
        [] => Some(Chomp::Clip),
        [b'-'] => Some(Chomp::Strip),
        [b'+'] => Some(Chomp::Keep),
        _ => None,
    }
}

/// What a header says.
pub fn header_of(text: &[u8]) -> Option<Header>
    ensures { result ≡ spec.header_of text.now }
{
    let (first, rest) = text.split_first()?;
    let folds = match *first {
        b'|' => false,
        b'>' => true,
        _ => return None,
    };
    let chomp = chomp_of(rest)?;
    Some(Header { folds, chomp })
}

/// The column of a block scalar: that of its first line that isn't blank, if there is one.
fn column_of(body: &[Text]) -> Option<usize>
    ensures { result ≡ spec.column_of body.now }
{
    let mut rest = body;
    'lines: while let Some((line, more)) = rest.split_first() {
        let line = line.as_str().as_bytes();
        if !is_blank_line(line) {
            return Some(indentation(line));
        }
        rest = more;
    }
    None
}

/// A line from a column on. Without a column a line says nothing.
fn past_column(line: &[u8], column: Option<usize>) -> &[u8]
    ensures { result.now ≡ spec.past_column column line.now }
{
    match column {
        Some(column) => {
            if column <= line.len() {
                &line[column..]
            } else {
                &[]
            }
        }
        None => &[],
    }
}

/// Adds what stands between two lines that fold, with so many empty ones between them.
fn push_fold(content: &mut Text, gap: usize) -> Result<(), Memory>
    ensures { OnOk result (content.new ≡ content.old ++ spec.fold_breaks gap) }
{
    if gap == 0 {
        content.push(" ")
    } else {
        push_breaks(content, gap)
    }
}

/// Adds what stands before a line after so many empty ones.
fn push_before(content: &mut Text, last: Option<bool>, kept: bool, gap: usize) -> Result<(), Memory>
    ensures { OnOk result (content.new ≡ content.old ++ spec.before_row last kept gap) }
{
    match last {
        None => push_breaks(content, gap),
        Some(before) => {
            if before || kept {
                push_breaks(content, gap)?;
                content.push("\n")
            } else {
                push_fold(content, gap)
            }
        }
    }
}

/// Whether a line doesn't fold.
fn is_kept(header: Header, first: u8) -> bool
    ensures { result ≡ spec.is_kept header first }
{
    !header.folds || is_blank(first)
}

/// How many line ends there are at the end.
fn ends_of(text: bool, gap: usize, ended: bool) -> usize
    requires { gap + 1 < 2 ^ 64 }
    ensures { result ≡ spec.ends_of text gap ended }
{
    let all = if text { gap + 1 } else { gap };
    if ended { all } else { all.saturating_sub(1) }
}

/// How many of the line ends at the end stay.
fn last_breaks(chomp: Chomp, text: bool, ends: usize) -> usize
    ensures { result ≡ spec.last_breaks chomp text ends }
{
    match chomp {
        Chomp::Strip => 0,
        Chomp::Clip => { if text && ends > 0 { 1 } else { 0 } }
        Chomp::Keep => ends,
    }
}

/// What a block scalar says, with these lines, where `ended` says that the last line has a line end.
pub fn block_of(
    alloc: Global,
    header: Header,
    body: &[Text],
    ended: bool,
) -> Result<Option<Text>, Memory>
    ensures { IfOk result (λ t. t ≡ spec.block_of header ended body.now) }
{
    let column = column_of(body);
    let mut content = Text::new(alloc);
    let mut last = None;
    let mut gap = 0;
    for (at, line) in body.iter().enumerate() {
        let row = past_column(line.as_str().as_bytes(), column);
        match row.split_first() {
            None => gap += 1,
            Some((first, _)) => {
                let kept = is_kept(header, *first);
                let Ok(text) = from_utf8(row) else {
                    return Ok(None);
                };
                push_before(&mut content, last, kept, gap)?;
                content.push(text)?;
                last = Some(kept);
                gap = 0;
            }
        }
    }
    let text = last.is_some();
    push_breaks(
        &mut content,
        last_breaks(header.chomp, text, ends_of(text, gap, ended)),
    )?;
    Ok(Some(content))
}
