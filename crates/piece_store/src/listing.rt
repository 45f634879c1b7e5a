//! The pairs that are kept, one after the other.

ghost use Rattle.std.specs.Prelude.{◌≡◌, ℕ, List as list, All};
ghost use Rattle.std.specs.BTreeMap.{IsOrdered};
ghost use Rattle.std.specs.Iterator.{YieldsFirstBy, item_count};
ghost use Rattle.piece_store.specs.Kept.{kept};
ghost use Rattle.piece_store.specs.Listed.{row_left, seen_in_row, piece_left, table_left, seen_in_table, path_left, pairs_left, seen_pair, pairs_of, answers_for, kept_alone};

use crate::answer::Answer;
use crate::row::Row;
use crate::store::Store;
use crate::table::Table;
use std::collections::{BTreeMap, btree_map};

/// The pairs of one piece that are left.
#[derive(Drop)]
pub struct RowPairs<'s, Q, V> {
    pub patterns: btree_map::Iter<'s, Q, u32>,
    pub row: &'s Row<V>,
    pub empty: &'s V,
}

impl<'s, Q, V: Drop> Iterator for RowPairs<'s, Q, V> {
    type Item = (&'s Q, &'s V);

    ghost next_gives = { YieldsFirstBy seen_in_row row_left };

    ghost remaining = { item_count row_left };

    fn next(&mut self) -> Option<(&'s Q, &'s V)> {
        while let Some((pattern, number)) = self.patterns.next() {
            if let Some(answer) = self.row.look(*number) {
                return Some((pattern, answer.unwrap_or(self.empty)));
            }
        }
        None
    }
}

// The pairs of a piece that are left, with the piece.
type PiecePairs<'s, P, Q, V> = (&'s P, RowPairs<'s, Q, V>);

// The next pair of the piece in hand.
fn next_of_piece<'s, P, Q, V: Drop>(
    here: &mut Option<PiecePairs<'s, P, Q, V>>,
) -> Option<(&'s P, &'s Q, &'s V)>
    ensures { YieldsFirstBy seen_in_table piece_left here.old result here.new }
{
    let (piece, left) = here.as_mut()?;
    let (pattern, answer) = left.next()?;
    Some((*piece, pattern, answer))
}

/// The pairs of one path that are left: those of the piece in hand, and those of the pieces behind it.
#[derive(Drop)]
pub struct TablePairs<'s, P, Q: Ord, V> {
    pub here: Option<(&'s P, RowPairs<'s, Q, V>)>,
    pub rows: btree_map::Iter<'s, P, Row<V>>,
    pub patterns: &'s BTreeMap<Q, u32>,
    pub empty: &'s V,
}

impl<'s, P, Q: Ord, V: Drop> Iterator for TablePairs<'s, P, Q, V> {
    type Item = (&'s P, &'s Q, &'s V);

    ghost next_gives = { YieldsFirstBy seen_in_table table_left };

    ghost remaining = { item_count table_left };

    fn next(&mut self) -> Option<(&'s P, &'s Q, &'s V)> {
        if let Some(found) = next_of_piece(&mut self.here) {
            return Some(found);
        }
        while let Some((piece, row)) = self.rows.next() {
            let mut left = RowPairs {
                patterns: self.patterns.iter(),
                row,
                empty: self.empty,
            };
            if let Some((pattern, answer)) = left.next() {
                self.here = Some((piece, left));
                return Some((piece, pattern, answer));
            }
        }
        None
    }
}

// The pairs of a path that are left, with the path.
type PathPairs<'s, P, Q, V> = (&'s str, TablePairs<'s, P, Q, V>);

/// A pair that is kept: a path, the keys of a piece and of a pattern, and the answer.
#[derive(Clone, Copy)]
pub struct Pair<'s, P, Q, V> {
    pub path: &'s str,
    pub piece: &'s P,
    pub pattern: &'s Q,
    pub answer: &'s V,
}

// The next pair of the path in hand.
fn next_of_path<'s, P, Q: Ord, V: Drop>(
    here: &mut Option<PathPairs<'s, P, Q, V>>,
) -> Option<Pair<'s, P, Q, V>>
    ensures { YieldsFirstBy seen_pair path_left here.old result here.new }
{
    let (path, left) = here.as_mut()?;
    let (piece, pattern, answer) = left.next()?;
    Some(Pair {
        path: *path,
        piece,
        pattern,
        answer,
    })
}

/// The kept pairs that are left: those of the path in hand, and those of the paths behind it.
#[derive(Drop)]
pub struct Pairs<'s, P: Ord, Q: Ord, V> {
    pub here: Option<(&'s str, TablePairs<'s, P, Q, V>)>,
    pub tables: btree_map::Iter<'s, String, Table<P, V>>,
    pub patterns: &'s BTreeMap<Q, u32>,
    pub empty: &'s V,
}

impl<'s, P: Ord, Q: Ord, V: Drop> Iterator for Pairs<'s, P, Q, V> {
    type Item = Pair<'s, P, Q, V>;

    ghost next_gives = { YieldsFirstBy seen_pair pairs_left };

    ghost remaining = { item_count pairs_left };

    fn next(&mut self) -> Option<Pair<'s, P, Q, V>> {
        if let Some(found) = next_of_path(&mut self.here) {
            return Some(found);
        }
        while let Some((path, table)) = self.tables.next() {
            let path = path.as_str();
            let mut left = TablePairs {
                here: None,
                rows: table.rows.iter(),
                patterns: self.patterns,
                empty: self.empty,
            };
            if let Some((piece, pattern, answer)) = left.next() {
                self.here = Some((path, left));
                return Some(Pair {
                    path,
                    piece,
                    pattern,
                    answer,
                });
            }
        }
        None
    }
}

// Goes through all paths. A map tells that its keys are in order only when it is asked something.
fn ask_each<P: Ord, V>(tables: &BTreeMap<String, Table<P, V>>)
    ensures { All (λ t. IsOrdered P.cmp t.1.rows) tables.now.entries }
{
    for table in tables.values() {
        let _pieces = table.rows.len();
    }
}

impl<P: Ord + Drop, Q: Ord + Drop, V: Answer> Store<P, Q, V> {
    /// The kept pairs one after the other, each once: by path, then by piece, then by pattern. It takes no memory, and copies
    /// nothing.
    pub fn pairs(&self) -> Pairs<'_, P, Q, V>
        ensures listed { pairs_left result ≡ pairs_of self.now }
        ensures each_once { (o : list ℕ) → (p : P) → (q : Q) →
            answers_for P.cmp Q.cmp o p q (pairs_of self.now) ≡
            kept_alone (kept P.cmp Q.cmp self.now o p q) }
    {
        ask_each(&self.shelf.tables);
        let tables = self.shelf.tables.iter();
        let _patterns = self.numbers.len();
        Pairs {
            here: None,
            tables,
            patterns: &self.numbers,
            empty: &self.empty,
        }
    }
}
