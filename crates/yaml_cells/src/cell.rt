//! The cells of a text.

ghost use Rattle.std.specs.Prelude.{◌≡◌, List, reverse, IfSome, MatchOption, Some, None};
ghost use Rattle.yaml_cells.specs.Cells as spec;

use crate::value::YValue;
use node_tree::{List, Text};

/// What stands at a column of a text.
#[derive(Drop)]
pub enum Cell {
    /// The mark `- `.
    Dash(u32),
    /// A key.
    Key(u32, Text),
    /// A scalar.
    Scalar(u64, YValue),
    /// The `[` of a flow sequence.
    Open(u64),
    /// The `]` of a flow sequence.
    Close,
    /// The `,` of a flow sequence.
    Comma,
}

/// What the first of some cells is, where it stands deep enough.
#[derive(Clone, Copy, Debug, PartialEq, Eq)]
pub enum First {
    Nothing,
    Dash(u32),
    Key(u32),
    Scalar,
    Open,
    Close,
    Comma,
}

/// What stands at a column, if that is deep enough.
fn deep(least: u64, column: u64, first: First) -> First
    ensures { result ≡ spec.deep least column first }
{
    if least <= column {
        first
    } else {
        First::Nothing
    }
}

/// What the first of some cells is, where it stands at this column or deeper. The last of the list is the first.
pub fn first_of(cells: &List<Cell>, least: u64) -> First
    ensures { result ≡ spec.first_of least (reverse cells.now) }
{
    match cells.as_slice().last() {
        None => First::Nothing,
        Some(Cell::Dash(column)) => deep(least, *column as u64, First::Dash(*column)),
        Some(Cell::Key(column, _)) => deep(least, *column as u64, First::Key(*column)),
        Some(Cell::Scalar(column, _)) => deep(least, *column, First::Scalar),
        Some(Cell::Open(column)) => deep(least, *column, First::Open),
        Some(Cell::Close) => First::Close,
        Some(Cell::Comma) => First::Comma,
    }
}

/// Whether a mark at this column comes first.
pub fn is_dash(cells: &List<Cell>, column: u32) -> bool
    ensures { result ≡ spec.is_dash column (reverse cells.now) }
{
    match cells.as_slice().last() {
        Some(Cell::Dash(at)) => *at == column,
        _ => false,
    }
}

/// Whether the closing bracket of a flow sequence comes first.
pub fn is_close(cells: &List<Cell>) -> bool
    ensures { result ≡ spec.is_close (reverse cells.now) }
{
    matches!(cells.as_slice().last(), Some(Cell::Close))
}

/// Whether a comma comes first.
pub fn is_comma(cells: &List<Cell>) -> bool
    ensures { result ≡ spec.is_comma (reverse cells.now) }
{
    matches!(cells.as_slice().last(), Some(Cell::Comma))
}

/// Whether an item of a flow sequence comes first.
pub fn is_item(cells: &List<Cell>) -> bool
    ensures { result ≡ spec.is_item (reverse cells.now) }
{
    match cells.as_slice().last() {
        Some(Cell::Scalar(_, _)) => true,
        Some(Cell::Open(_)) => true,
        _ => false,
    }
}

/// Goes past the first cell.
pub fn skip(cells: &mut List<Cell>)
    ensures { reverse cells.new ≡ spec.cells_past (reverse cells.old) }
{
    let _cell = cells.pop();
}

/// Takes the key at this column, if it comes first.
pub fn take_key(cells: &mut List<Cell>, column: u32) -> Option<Text>
    ensures { spec.IsKeyTaken column (reverse cells.old) result (reverse cells.new) }
{
    if !is_key(cells, column) {
        return None;
    }
    match cells.pop() {
        Some(Cell::Key(_, key)) => Some(key),
        _ => None,
    }
}

/// Whether a key at this column comes first.
fn is_key(cells: &List<Cell>, column: u32) -> bool
    ensures { result ≡ spec.is_key column (reverse cells.now) }
{
    match cells.as_slice().last() {
        Some(Cell::Key(at, _)) => *at == column,
        _ => false,
    }
}

/// Takes the scalar that comes first.
pub fn take_scalar(cells: &mut List<Cell>) -> Option<YValue>
    ensures { MatchOption result (spec.scalar_at (reverse cells.old) ≡ None) (λ v. spec.scalar_at (reverse cells.old) ≡ Some (v, reverse cells.new)) }
{
    match cells.pop() {
        Some(Cell::Scalar(_, value)) => Some(value),
        _ => None,
    }
}
