//! Flow sequences.

ghost use Rattle.std.specs.Prelude.{◌≡◌, ◌≤◌, ◌<◌, ◌+◌, ◌^◌, ◌++◌, ◌==◌, length, map, IfOk, OnOk};
ghost use Rattle.std.specs.List.{slice_split};
ghost use Rattle.yaml_lines.specs.Body.{texts};
ghost use Rattle.yaml_cells.specs.Flow as spec;
ghost use Rattle.yaml_cells.specs.Leaf.{Adds};

use crate::cell::Cell;
use crate::quoted::is_rest;
use crate::scalar::scalar_of;
use crate::value::YValue;
use node_tree::{Bytes, List, Memory, Text};
use std::alloc::Global;
use yaml_lines::YFault;
use yaml_lines::head::is_skipped;
use yaml_lines::scan::{
    Place, Scan, Scanned, after, begins_comment, is_blank, next_line, scan_line,
};

/// Whether a byte ends an item.
fn is_end(depth: u64, byte: u8) -> bool
    ensures { result ≡ spec.is_end depth byte }
{
    depth > 0 && (byte == b',' || byte == b']')
}

/// Whether a byte is a bracket or a comma of a flow sequence, and no part of a scalar.
fn is_sign(scan: Scan, byte: u8) -> bool
    ensures { result ≡ spec.is_sign scan byte }
{
    match scan.place {
        Place::Begin => byte == b'[' || is_end(scan.depth, byte),
        Place::Inside => is_end(scan.depth, byte),
        Place::SingleEnd => is_end(scan.depth, byte),
        Place::Single => false,
        Place::Double => false,
        Place::Escape => false,
    }
}

/// The cell of a bracket or a comma.
fn sign_of(byte: u8, column: u64) -> Cell
    ensures { result ≡ spec.sign_of column byte }
{
    if byte == b'[' {
        Cell::Open(column)
    } else if byte == b',' {
        Cell::Comma
    } else {
        Cell::Close
    }
}

/// Whether a comment may begin behind a byte.
fn is_gap(byte: u8) -> bool
    ensures { result ≡ spec.is_gap byte }
{
    is_blank(byte) || byte == b'\n'
}

/// The place after one more byte of lines of whose comments the `#` alone is left.
fn step(scan: Scan, gap: bool, byte: u8) -> Scan
    requires { scan.depth + 1 < 2 ^ 64 }
    ensures next { result ≡ spec.step gap scan byte }
    ensures depth { result.depth ≤ scan.depth + 1 }
{
    if byte == b'\n' {
        next_line(scan)
    } else if begins_comment(gap, scan.place, byte) {
        scan
    } else {
        after(scan, byte)
    }
}

/// The lines of a piece.
fn split(alloc: Global, piece: &[u8]) -> Result<Vec<&[u8]>, Memory>
    ensures { IfOk result (λ ls. texts ls.items ≡ slice_split (λ b. b == 10) piece.now) }
{
    let lines = piece.split(|byte| *byte == b'\n').collect(alloc)?;
    Ok(lines)
}

/// The lines from the first that isn't blank and no comment.
fn past_skipped<'s, 't>(lines: &'s [&'t [u8]]) -> &'s [&'t [u8]]
    ensures { texts result.now ≡ spec.past_skipped (texts lines.now) }
{
    for (at, line) in lines.iter().enumerate() {
        if !is_skipped(*line) {
            return &lines[at..];
        }
    }
    &[]
}

/// The lines from the first that isn't blank and no comment. In the first line a comment has a blank before it.
fn from_content<'s, 't>(lines: &'s [&'t [u8]]) -> &'s [&'t [u8]]
    ensures { texts result.now ≡ spec.from_content (texts lines.now) }
{
    match lines.split_first() {
        Some((first, more)) => {
            if is_rest(*first) {
                past_skipped(more)
            } else {
                lines
            }
        }
        None => lines,
    }
}

/// Adds a scalar, if there is one.
pub fn push_scalar(cells: &mut List<Cell>, column: u64, value: Option<YValue>) -> Result<(), YFault>
    ensures { Adds (spec.scalar_cell column value) result cells.old cells.new }
{
    match value {
        Some(value) => {
            cells.push(Cell::Scalar(column, value))?;
            Ok(())
        }
        None => Err(YFault::NoValue),
    }
}

/// Adds the scalar on these lines, if there are some.
fn push_lines(
    alloc: Global,
    cells: &mut List<Cell>,
    column: u64,
    lines: &[&[u8]],
    closed: bool,
) -> Result<(), YFault>
    ensures { Adds (spec.lines_cells column closed (texts lines.now)) result cells.old cells.new }
{
    if lines.is_empty() {
        return Ok(());
    }
    let value = scalar_of(alloc, lines, closed)?;
    push_scalar(cells, column, value)
}

/// Adds the scalar that a piece between two signs is, if it is one. `closed` says that a sign follows.
fn push_piece(
    alloc: Global,
    cells: &mut List<Cell>,
    column: u64,
    piece: &[u8],
    closed: bool,
) -> Result<(), YFault>
    ensures { Adds (spec.piece_cells column closed piece.now) result cells.old cells.new }
{
    let lines = split(alloc, piece)?;
    push_lines(alloc, cells, column, from_content(lines.as_slice()), closed)
}

/// Adds the cells of a flow sequence.
pub fn push_flow(
    alloc: Global,
    cells: &mut List<Cell>,
    column: u64,
    text: &[u8],
) -> Result<(), YFault>
    ensures { Adds (spec.flow_cells column text.now) result cells.old cells.new }
{
    let mut scan = Scan {
        place: Place::Begin,
        depth: 0,
    };
    let mut gap = true;
    let mut from = 0;
    for (at, byte) in text.iter().enumerate() {
        if is_sign(scan, *byte) {
            push_piece(alloc, cells, column, &text[from..at], true)?;
            cells.push(sign_of(*byte, column))?;
            from = at + 1;
        }
        scan = step(scan, gap, *byte);
        gap = is_gap(*byte);
    }
    push_piece(alloc, cells, column, &text[from..], false)
}

/// Adds a line up to its comment, of which the `#` is left.
fn push_kept(text: &mut Bytes, scanned: Scanned, line: &[u8]) -> Result<(), Memory>
    requires { scanned.len ≤ length line.now }
    ensures { OnOk result (text.new ≡ text.old ++ spec.kept scanned line.now) }
{
    text.extend(&line[..scanned.len])?;
    if scanned.comment {
        text.push(b'#')?;
    }
    Ok(())
}

/// The first line of a flow sequence, where `comment` says that a comment follows.
fn flow_first(alloc: Global, first: &[u8], comment: bool) -> Result<Bytes, Memory>
    ensures { IfOk result (λ t. t ≡ spec.flow_first first.now comment) }
{
    let mut text = Bytes::from_slice(alloc, first)?;
    if comment {
        text.extend(b" #")?;
    }
    Ok(text)
}

/// The lines of a flow sequence, with line feeds between them, unless more than a hundred sequences are open at a line's end.
pub fn flow_text(
    alloc: Global,
    first: &[u8],
    comment: bool,
    body: &[Text],
) -> Result<Option<Bytes>, Memory>
    ensures { IfOk result (λ t. t ≡ spec.flow_text first.now comment body.now) }
{
    let start = Scan {
        place: Place::Begin,
        depth: 0,
    };
    let mut text = flow_first(alloc, first, comment)?;
    let mut scan = scan_line(start, first).scan;
    let mut rest = body;
    'lines: while let Some((line, more)) = rest.split_first() {
        if scan.depth > 100 {
            return Ok(None);
        }
        let line = line.as_str().as_bytes();
        let scanned = scan_line(next_line(scan), line);
        text.push(b'\n')?;
        push_kept(&mut text, scanned, line)?;
        scan = scanned.scan;
        rest = more;
    }
    Ok(Some(text))
}
