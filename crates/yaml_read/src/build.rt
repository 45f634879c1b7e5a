//! The value that cells build.

ghost use Rattle.std.specs.Prelude.{◌≡◌, ◌+◌, ◌<◌, ◌≤◌, reverse, IfOk};
ghost use Rattle.yaml_read.specs.Building.{Leaves, IsMapping, WentOn};
ghost use Rattle.yaml_cells.specs.Cells.{scalar_at};
ghost use Rattle.yaml_read.specs.Building as spec;
ghost use Rattle.yaml_read.specs.Keys as keys;

use node_tree::{List, Memory, Text};
use std::alloc::Global;
use std::collections::BTreeSet;
use yaml_cells::YValue;
use yaml_cells::cell::{
    Cell, First, first_of, is_close, is_comma, is_dash, is_item, skip, take_key, take_scalar,
};
use yaml_lines::YFault;

/// Whether each key stands once.
fn is_distinct(alloc: Global, entries: &[(Text, YValue)]) -> Result<bool, Memory>
    ensures { IfOk result (λ distinct. distinct ≡ keys.is_distinct entries.now) }
{
    let mut seen: BTreeSet<&str> = BTreeSet::new(alloc);
    let mut at = entries.len();
    'entries: while at > 0 {
        at -= 1;
        if !seen.insert(entries[at].0.as_str())? {
            return Ok(false);
        }
    }
    Ok(true)
}

/// The least column of a value below a key: a block sequence may stand at the key's own column.
fn below_key(cells: &List<Cell>, column: u32) -> u64
    ensures { result ≡ spec.below_key column (reverse cells.now) }
{
    match cells.as_slice().last() {
        Some(Cell::Dash(_)) => column as u64,
        _ => column as u64 + 1,
    }
}

/// Takes the scalar that comes first.
fn scalar(cells: &mut List<Cell>) -> Result<YValue, YFault>
    ensures { Leaves (scalar_at (reverse cells.old)) result (reverse cells.new) }
{
    match take_scalar(cells) {
        Some(value) => Ok(value),
        None => Err(YFault::NoValue),
    }
}

/// The mapping with these entries, if each key stands once.
fn mapping(alloc: Global, entries: List<(Text, YValue)>) -> Result<YValue, YFault>
    ensures { IsMapping entries result }
{
    if is_distinct(alloc, entries.as_slice())? {
        Ok(YValue::Map(entries))
    } else {
        Err(YFault::NoValue)
    }
}

/// Goes on behind an item of a flow sequence, if it can: past a comma, or at the closing bracket.
fn go_on(cells: &mut List<Cell>) -> bool
    ensures { WentOn (reverse cells.old) result (reverse cells.new) }
{
    if is_comma(cells) {
        skip(cells);
        true
    } else {
        is_close(cells)
    }
}

/// Takes the value that stands at a column or deeper, with so many levels at most.
#[cycle(build)]
pub fn node(alloc: Global, cells: &mut List<Cell>, room: u32, least: u64) -> Result<YValue, YFault>
    ensures { Leaves (spec.node_at room least (reverse cells.old)) result (reverse cells.new) }
{
    if room == 0 {
        return Err(YFault::NoValue);
    }
    match first_of(cells, least) {
        First::Nothing => Ok(YValue::Null),
        First::Dash(column) => items(alloc, cells, room - 1, column),
        First::Key(column) => entries(alloc, cells, room - 1, column),
        First::Scalar => scalar(cells),
        First::Open => {
            skip(cells);
            flow(alloc, cells, room - 1)
        }
        First::Close => Ok(YValue::Null),
        First::Comma => Ok(YValue::Null),
    }
}

/// Takes the items of a block sequence, whose marks stand at a column.
#[cycle(build)]
fn items(alloc: Global, cells: &mut List<Cell>, room: u32, column: u32) -> Result<YValue, YFault>
    ensures { Leaves (spec.sequence_at (spec.node_at room) column (reverse cells.old)) result (reverse cells.new) }
{
    let mut all = List::new(alloc);
    let most = cells.len();
    for turn in 0..=most {
        if !is_dash(cells, column) {
            return Ok(YValue::Seq(all));
        }
        skip(cells);
        let item = node(alloc, cells, room, column as u64 + 1)?;
        all.push(item)?;
    }
    Ok(YValue::Seq(all))
}

/// Takes the entries of a block mapping, whose keys stand at a column.
#[cycle(build)]
fn entries(alloc: Global, cells: &mut List<Cell>, room: u32, column: u32) -> Result<YValue, YFault>
    ensures { Leaves (spec.mapping_at (spec.node_at room) column (reverse cells.old)) result (reverse cells.new) }
{
    let mut all = List::new(alloc);
    let most = cells.len();
    for turn in 0..=most {
        let Some(key) = take_key(cells, column) else {
            return mapping(alloc, all);
        };
        let least = below_key(cells, column);
        let value = node(alloc, cells, room, least)?;
        all.push((key, value))?;
    }
    Err(YFault::NoValue)
}

/// Takes the items of a flow sequence, and its closing bracket.
#[cycle(build)]
fn flow(alloc: Global, cells: &mut List<Cell>, room: u32) -> Result<YValue, YFault>
    ensures { Leaves (spec.bracketed_at (spec.node_at room) (reverse cells.old)) result (reverse cells.new) }
{
    let mut all = List::new(alloc);
    let most = cells.len();
    for turn in 0..=most {
        if is_close(cells) {
            skip(cells);
            return Ok(YValue::Seq(all));
        }
        if !is_item(cells) {
            return Err(YFault::NoValue);
        }
        let item = node(alloc, cells, room, 0)?;
        all.push(item)?;
        if !go_on(cells) {
            return Err(YFault::NoValue);
        }
    }
    Err(YFault::NoValue)
}
