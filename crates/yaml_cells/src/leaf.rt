//! The scalars and flow sequences of lines.

ghost use Rattle.std.specs.Prelude.{◌≡◌, ◌≤◌, ◌^◌, ◌∷◌, length, drop, IfOk};
ghost use Rattle.yaml_lines.specs.Body.{texts};
ghost use Rattle.yaml_cells.specs.Leaf as spec;
ghost use Rattle.yaml_cells.specs.Leaf.{Adds};

use crate::block::{block_of, header_of};
use crate::cell::Cell;
use crate::flow::{flow_text, push_flow, push_scalar};
use crate::scalar::scalar_of;
use crate::value::YValue;
use node_tree::{List, Memory, Text};
use std::alloc::Global;
use yaml_lines::head::before_blanks;
use yaml_lines::{YFault, YLine, read_head};

/// What stands from a place on.
fn past(line: &[u8], at: usize) -> &[u8]
    ensures { result.now ≡ drop at line.now }
{
    if at <= line.len() { &line[at..] } else { &[] }
}

/// A line from where its value begins, with the blanks at its end, where no comment ends it.
fn from_value<'t>(raw: &'t [u8], value: &[u8]) -> &'t [u8]
    ensures { result.now ≡ spec.from_value raw.now value.now }
{
    past(raw, before_blanks(raw).len().saturating_sub(value.len()))
}

/// The first line of a value. Where others follow, the blanks at its end count.
fn first_line<'t>(raw: &'t [u8], line: &'t YLine) -> &'t [u8]
    ensures { result.now ≡ spec.first_line raw.now line.now }
{
    let value = line.value.as_str().as_bytes();
    if line.body.as_slice().is_empty() {
        value
    } else {
        from_value(raw, value)
    }
}

/// The lines of a value.
fn lines_of<'t>(alloc: Global, first: &'t [u8], body: &'t [Text]) -> Result<Vec<&'t [u8]>, Memory>
    ensures { IfOk result (λ ls. texts ls.items ≡ first.now ∷ body.now) }
{
    let mut lines = Vec::new(alloc);
    lines.push(first)?;
    for line in body {
        lines.push(line.as_str().as_bytes())?;
    }
    Ok(lines)
}

/// Adds the plain or quoted scalar of a line.
fn push_words(
    alloc: Global,
    cells: &mut List<Cell>,
    column: u64,
    raw: &[u8],
    line: &YLine,
) -> Result<(), YFault>
    ensures { Adds (spec.scalar_cells column raw.now line.now) result cells.old cells.new }
{
    let lines = lines_of(alloc, first_line(raw, line), line.body.as_slice())?;
    let value = scalar_of(alloc, lines.as_slice(), false)?;
    push_scalar(cells, column, value)
}

/// Adds the block scalar of a line.
fn push_block(
    alloc: Global,
    cells: &mut List<Cell>,
    column: u64,
    line: &YLine,
    ended: bool,
) -> Result<(), YFault>
    ensures { Adds (spec.block_cells column ended line.now) result cells.old cells.new }
{
    let Some(header) = header_of(line.value.as_str().as_bytes()) else {
        return Err(YFault::NoValue);
    };
    match block_of(alloc, header, line.body.as_slice(), ended)? {
        Some(text) => push_scalar(cells, column, Some(YValue::Quoted(text))),
        None => Err(YFault::NoValue),
    }
}

/// Adds the flow sequence of a line and others below it, where `comment` says that a comment ends the first.
fn push_rows(
    alloc: Global,
    cells: &mut List<Cell>,
    column: u64,
    raw: &[u8],
    comment: bool,
    line: &YLine,
) -> Result<(), YFault>
    ensures { Adds (spec.lines_cells column raw.now comment line.now) result cells.old cells.new }
{
    let value = line.value.as_str().as_bytes();
    let first = if comment {
        value
    } else {
        from_value(raw, value)
    };
    match flow_text(alloc, first, comment, line.body.as_slice())? {
        Some(text) => push_flow(alloc, cells, column, text.as_slice()),
        None => Err(YFault::NoValue),
    }
}

/// Whether a comment ends a line.
fn has_comment(alloc: Global, raw: &str) -> Result<bool, Memory>
    requires { length raw.now ≤ 2 ^ 20 }
    ensures { IfOk result (λ b. b ≡ spec.has_comment raw.now) }
{
    Ok(read_head(alloc, raw.as_bytes())?.scanned.comment)
}

/// Adds the flow sequence of a line.
fn push_sequence(
    alloc: Global,
    cells: &mut List<Cell>,
    column: u64,
    raw: &str,
    line: &YLine,
) -> Result<(), YFault>
    requires { length raw.now ≤ 2 ^ 20 }
    ensures { Adds (spec.sequence_cells column raw.now line.now) result cells.old cells.new }
{
    if line.body.as_slice().is_empty() {
        return push_flow(alloc, cells, column, line.value.as_str().as_bytes());
    }
    let comment = has_comment(alloc, raw)?;
    push_rows(alloc, cells, column, raw.as_bytes(), comment, line)
}

/// Adds the value that is written on a line and the lines that go on with it, where `raw` is the line as it stands in the
/// text, and `ended` says that the last of these lines has a line end.
pub fn push_leaf(
    alloc: Global,
    cells: &mut List<Cell>,
    column: u64,
    raw: &str,
    ended: bool,
    line: &YLine,
) -> Result<(), YFault>
    requires { length raw.now ≤ 2 ^ 20 }
    ensures { Adds (spec.leaf_cells column raw.now ended line.now) result cells.old cells.new }
{
    match line.value.as_str().as_bytes().first() {
        None => Ok(()),
        Some(byte) => {
            if *byte == b'[' {
                push_sequence(alloc, cells, column, raw, line)
            } else if *byte == b'|' || *byte == b'>' {
                push_block(alloc, cells, column, line, ended)
            } else {
                push_words(alloc, cells, column, raw.as_bytes(), line)
            }
        }
    }
}
