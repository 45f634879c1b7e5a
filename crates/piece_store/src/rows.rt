//! What is kept of the pieces of one path.

ghost use Rattle.std.specs.Prelude.{◌≡◌, ℕ, None, Some, OnOk, OnErr, IfNone, IfSome, is_some, true, false};
ghost use Rattle.piece_store.specs.Slots.{slot, in_rows, met_as, marked, turned, put_for, put_row};

use crate::row::Row;
use node_tree::Memory;
use std::alloc::Global;
use std::collections::BTreeMap;

/// Keeps an answer for a piece and a pattern. It is met.
pub fn keep<P: Ord + Drop, V: Drop>(
    alloc: Global,
    rows: &mut BTreeMap<P, Row<V>>,
    piece: P,
    number: u32,
    value: Option<V>,
) -> Result<(), Memory>
    ensures ok { OnOk result ((p : P) → (i : ℕ) →
        in_rows P.cmp rows.new p i ≡
        put_for P.cmp piece number (Some (value, true)) (in_rows P.cmp rows.old) p i) }
    ensures err { OnErr result ((p : P) → (i : ℕ) →
        in_rows P.cmp rows.new p i ≡ in_rows P.cmp rows.old p i) }
{
    if let Some(row) = rows.get_mut(&piece) {
        row.keep(number, value)?;
        return Ok(());
    }
    let mut row = Row::new(alloc);
    row.keep(number, value)?;
    rows.insert(piece, row)?;
    Ok(())
}

/// Notes that the answer of a piece and a pattern is met, and tells whether it is kept.
pub fn mark<P: Ord + Drop, V: Drop>(rows: &mut BTreeMap<P, Row<V>>, piece: &P, number: u32) -> bool
    ensures told { result ≡ is_some (in_rows P.cmp rows.old piece.now number) }
    ensures marked { (p : P) → (i : ℕ) →
        in_rows P.cmp rows.new p i ≡
        put_for P.cmp piece.now number (marked (in_rows P.cmp rows.old piece.now number))
        (in_rows P.cmp rows.old) p i }
{
    match rows.get_mut(piece) {
        None => false,
        Some(row) => row.mark(number),
    }
}

/// Notes of all that is kept that it is met, or that it isn't.
pub fn meet_all<P: Ord + Drop, V: Drop>(rows: &mut BTreeMap<P, Row<V>>, met: bool)
    ensures { (p : P) → (i : ℕ) →
        in_rows P.cmp rows.new p i ≡ met_as met (in_rows P.cmp rows.old p i) }
{
    rows.retain(|_piece, row| {
        row.meet_all(met);
        true
    });
}

/// Takes out what is kept of a piece. It takes no memory.
pub fn take<P: Ord + Drop, V: Drop>(rows: &mut BTreeMap<P, Row<V>>, piece: &P) -> Option<Row<V>>
    ensures taken { IfSome result (λ row. (i : ℕ) →
        slot row i ≡ in_rows P.cmp rows.old piece.now i) }
    ensures none { IfNone result ((i : ℕ) → in_rows P.cmp rows.old piece.now i ≡ None) }
    ensures left { (p : P) → (i : ℕ) →
        in_rows P.cmp rows.new p i ≡
        put_row P.cmp piece.now (λ _. None) (in_rows P.cmp rows.old) p i }
{
    rows.remove(piece)
}

/// Puts in what is kept of a piece, in place of what was kept of it.
pub fn give<P: Ord + Drop, V: Drop>(
    rows: &mut BTreeMap<P, Row<V>>,
    piece: P,
    row: Row<V>,
) -> Result<(), Memory>
    ensures ok { OnOk result ((p : P) → (i : ℕ) →
        in_rows P.cmp rows.new p i ≡ put_row P.cmp piece (slot row) (in_rows P.cmp rows.old) p i) }
    ensures err { OnErr result ((p : P) → (i : ℕ) →
        in_rows P.cmp rows.new p i ≡ in_rows P.cmp rows.old p i) }
{
    rows.insert(piece, row)?;
    Ok(())
}

/// Drops what was not met, and each row with nothing left. Nothing is met then.
pub fn turn<P: Ord + Drop, V: Drop>(rows: &mut BTreeMap<P, Row<V>>)
    ensures { (p : P) → (i : ℕ) → in_rows P.cmp rows.new p i ≡ turned (in_rows P.cmp rows.old p i) }
{
    rows.retain(|_piece, row| row.turn());
}
