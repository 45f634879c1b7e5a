//! The value of a text.

ghost use Rattle.std.specs.Prelude.{◌≡◌, ◌≤◌, ◌++◌, ◌^◌, ℕ, length, reverse, Ok, Err, IfOk, OnOk};
ghost use Rattle.yaml_lines.specs.Body.{texts, AreShort};
ghost use Rattle.yaml_lines.specs.Lines.{Gives, lines_of};
ghost use Rattle.yaml_lines.specs.declared.fault.Feature.{Feature};
ghost use Rattle.yaml_lines.specs.declared.fault.YFault.{YFault};
ghost use Rattle.yaml_lines.specs.declared.fault.YFault.TheVariants.{NotUtf8, OutsideProfile, NoValue};
ghost use Rattle.yaml_cells.specs.Leaf.{Adds};
ghost use Rattle.yaml_read.specs.Value as spec;
ghost use Rattle.yaml_cells.specs.declared.value.YValue.{YValue};

use crate::build::node;
use node_tree::{List, MOST_BYTES, Memory, Text, Twin};
use std::alloc::Global;
use std::str::from_utf8;
use yaml_cells::cell::Cell;
use yaml_cells::{YValue, push_leaf};
use yaml_lines::{YFault, YLine, lines, past_order_mark};

/// The line with a number, counted from 1.
fn line_at<'t>(all: &[&'t str], number: u32) -> &'t str
    requires { AreShort (texts all.now) }
    ensures line { result.now ≡ spec.line_at (texts all.now) number }
    ensures short { length result.now ≤ 2 ^ 20 }
{
    match all.get((number as usize).saturating_sub(1)) {
        Some(line) => *line,
        None => "",
    }
}

/// Whether the last line of a value has a line end, where `closed` says that the last of all lines, which are so many, has one.
fn is_ended(line: &YLine, count: usize, closed: bool) -> bool
    ensures { result ≡ spec.is_ended line.now count closed }
{
    let last = line.number as usize;
    closed || (last < count && line.body.len() < count - last)
}

/// Adds the cells of marks.
fn push_dashes(cells: &mut List<Cell>, dashes: &[u32]) -> Result<(), Memory>
    ensures { OnOk result (cells.new ≡ cells.old ++ spec.dash_cells dashes.now) }
{
    for dash in dashes {
        cells.push(Cell::Dash(*dash))?;
    }
    Ok(())
}

/// Adds the cell of a key, if there is one.
fn push_key(cells: &mut List<Cell>, column: u32, key: &Option<Text>) -> Result<(), Memory>
    ensures { OnOk result (cells.new ≡ cells.old ++ spec.key_cells column key.now) }
{
    if let Some(key) = key {
        let key = key.copy()?;
        cells.push(Cell::Key(column, key))?;
    }
    Ok(())
}

/// The column of the value on a line: what stands behind a key is deeper than the key.
fn value_column(line: &YLine) -> u64
    ensures { result ≡ spec.value_column line.now }
{
    if line.key.is_some() {
        line.column as u64 + 1
    } else {
        line.column as u64
    }
}

/// Adds the cells of a line.
fn push_line(
    alloc: Global,
    cells: &mut List<Cell>,
    all: &[&str],
    closed: bool,
    line: &YLine,
) -> Result<(), YFault>
    requires { AreShort (texts all.now) }
    ensures { Adds (spec.line_cells (texts all.now) closed line.now) result cells.old cells.new }
{
    push_dashes(cells, line.dashes.as_slice())?;
    push_key(cells, line.column, &line.key)?;
    push_leaf(
        alloc,
        cells,
        value_column(line),
        line_at(all, line.number),
        is_ended(line, all.len(), closed),
        line,
    )
}

/// The cells of a text that has these lines, of which some begin a value.
fn cells_of(
    alloc: Global,
    all: &[&str],
    closed: bool,
    found: &[YLine],
) -> Result<List<Cell>, YFault>
    requires { AreShort (texts all.now) }
    ensures { spec.IsCells (spec.cells_of (texts all.now) closed found.now) result }
{
    let mut cells = List::new(alloc);
    let mut rest = found;
    'lines: while let Some((line, more)) = rest.split_first() {
        push_line(alloc, &mut cells, all, closed, line)?;
        rest = more;
    }
    Ok(cells)
}

/// Whether the last byte is a line feed.
fn ends_line(bytes: &[u8]) -> bool
    ensures { result ≡ spec.ends_line bytes.now }
{
    match bytes.last() {
        Some(byte) => *byte == b'\n',
        None => false,
    }
}

/// The value that all the cells build, of which the last is the first, and of depth at most 100.
fn built(alloc: Global, mut cells: List<Cell>) -> Result<YValue, YFault>
    ensures { Gives (spec.or_none (spec.built (reverse cells))) result }
{
    let value = node(alloc, &mut cells, 100, 0)?;
    if cells.len() == 0 {
        Ok(value)
    } else {
        Err(YFault::NoValue)
    }
}

/// The value of a YAML text, as it is read from the left.
fn value_in(alloc: Global, bytes: &[u8]) -> Result<YValue, YFault>
    requires { length bytes.now ≤ MOST_BYTES }
    ensures { Gives (spec.value_of bytes.now) result }
{
    let found = lines(alloc, bytes)?;
    let Ok(text) = from_utf8(past_order_mark(bytes)) else {
        return Err(YFault::NotUtf8);
    };
    let all: Vec<&str> = text.lines().collect(alloc)?;
    let mut cells = cells_of(alloc, all.as_slice(), ends_line(bytes), found.as_slice())?;
    cells.reverse();
    built(alloc, cells)
}

/// The value of a YAML text (YAML 1.2.2, without anchors, aliases, tags, flow mappings, complex keys, directives and
/// further documents), of depth at most 100.
///
/// The error is `NotUtf8` where the bytes, without a byte order mark at their start, are no UTF-8, `OutsideProfile` with the
/// first line (counted from 1) that has a feature outside the profile, and `NoValue` where there is no value.
pub fn read_yaml(alloc: Global, bytes: &[u8]) -> Result<YValue, YFault>
    requires { length bytes.now ≤ MOST_BYTES }
    ensures value { IfOk result (spec.IsValueOf bytes.now) }
    ensures only { (value : YValue) → spec.IsValueOf bytes.now value → Gives (Ok value) result }
    ensures no_value { result ≡ Err NoValue → (value : YValue) → spec.IsValueOf bytes.now value → ⊥ }
    ensures not_utf8 { result ≡ Err NotUtf8 → lines_of bytes.now ≡ Err NotUtf8 }
    ensures outside { (feature : Feature) (line : ℕ) → result ≡ Err (OutsideProfile feature line) → lines_of bytes.now ≡ Err (OutsideProfile feature line) }
    ensures refused { (fault : YFault) → lines_of bytes.now ≡ Err fault → Gives (Err fault) result }
{
    value_in(alloc, bytes)
}
