//! What is kept, path by path.

ghost use Rattle.std.specs.Prelude.{◌≡◌, ℕ, List as list, None, Some, OnOk, OnErr, IfNone, IfSome, is_some, option_map, if◌then◌else◌, true};
ghost use Rattle.std.specs.Option.{option_copied};
ghost use Rattle.std.specs.Str.{bytes_eq};
ghost use Rattle.piece_store.specs.Slots.{slot, marked, turned};
ghost use Rattle.piece_store.specs.Views.{at, put_there, put_rows};

use crate::row::Row;
use crate::table::Table;
use node_tree::Memory;
use std::alloc::Global;
use std::collections::BTreeMap;

/// The answers of pairs of a piece and a pattern's number, path by path.
#[derive(Drop)]
pub struct Shelf<P: Ord, V> {
    pub alloc: Global,
    pub tables: BTreeMap<String, Table<P, V>>,
}

impl<P: Ord + Drop, V: Drop> Shelf<P, V> {
    /// Nothing. It takes no memory.
    pub fn new(alloc: Global) -> Shelf<P, V>
        ensures { (path : list ℕ) → (p : P) → (i : ℕ) → at P.cmp result path p i ≡ None }
    {
        Shelf {
            alloc,
            tables: BTreeMap::new(alloc),
        }
    }

    /// The answer of a pair, where it is kept: None within for the empty one.
    pub fn look(&self, path: &str, piece: &P, number: u32) -> Option<Option<&V>>
        ensures { option_map (λ k. k.0) (at P.cmp self.now path.now piece.now number) ≡
            option_map (λ v. option_copied v) result }
    {
        match self.tables.get(path) {
            None => None,
            Some(table) => table.look(piece, number),
        }
    }

    /// Keeps an answer for a pair. It is met.
    pub fn keep(
        &mut self,
        path: &str,
        piece: P,
        number: u32,
        value: Option<V>,
    ) -> Result<(), Memory>
        ensures ok { OnOk result ((o : list ℕ) → (p : P) → (i : ℕ) →
            at P.cmp self.new o p i ≡
            put_there P.cmp path.now piece number (Some (value, true)) (at P.cmp self.old) o p i) }
        ensures err { OnErr result ((o : list ℕ) → (p : P) → (i : ℕ) →
            at P.cmp self.new o p i ≡ at P.cmp self.old o p i) }
    {
        let alloc = self.alloc;
        if let Some(table) = self.tables.get_mut(path) {
            table.keep(alloc, piece, number, value)?;
            return Ok(());
        }
        let mut table = Table::new(alloc);
        table.keep(alloc, piece, number, value)?;
        self.tables.insert(String::from_str(alloc, path)?, table)?;
        Ok(())
    }

    /// Notes that the answer of a pair is met, and tells whether it is kept.
    pub fn mark(&mut self, path: &str, piece: &P, number: u32) -> bool
        ensures told { result ≡ is_some (at P.cmp self.old path.now piece.now number) }
        ensures marked { (o : list ℕ) → (p : P) → (i : ℕ) →
            at P.cmp self.new o p i ≡
            put_there P.cmp path.now piece.now number (marked
            (at P.cmp self.old path.now piece.now number)) (at P.cmp self.old) o p i }
    {
        match self.tables.get_mut(path) {
            None => false,
            Some(table) => table.mark(piece, number),
        }
    }

    /// Notes that all that is kept of a path is met.
    pub fn mark_all(&mut self, path: &str)
        ensures { (o : list ℕ) → (p : P) → (i : ℕ) →
            at P.cmp self.new o p i ≡
            if bytes_eq path.now o then marked
            (at P.cmp self.old o p i) else at P.cmp self.old o p i }
    {
        if let Some(table) = self.tables.get_mut(path) {
            table.mark_all();
        }
    }

    /// Takes out what is kept of a piece of a path.
    pub fn take(&mut self, path: &str, piece: &P) -> Option<Row<V>>
        ensures taken { IfSome result (λ row. (i : ℕ) →
            slot row i ≡ at P.cmp self.old path.now piece.now i) }
        ensures none { IfNone result ((i : ℕ) → at P.cmp self.old path.now piece.now i ≡ None) }
        ensures left { (o : list ℕ) → (p : P) → (i : ℕ) →
            at P.cmp self.new o p i ≡
            put_rows P.cmp path.now piece.now (λ _. None) (at P.cmp self.old) o p i }
    {
        match self.tables.get_mut(path) {
            None => None,
            Some(table) => table.take(piece),
        }
    }

    /// Puts in what is kept of a piece of a path, in place of what was kept of it.
    pub fn give(&mut self, path: &str, piece: P, row: Row<V>) -> Result<(), Memory>
        ensures ok { OnOk result ((o : list ℕ) → (p : P) → (i : ℕ) →
            at P.cmp self.new o p i ≡
            put_rows P.cmp path.now piece (slot row) (at P.cmp self.old) o p i) }
        ensures err { OnErr result ((o : list ℕ) → (p : P) → (i : ℕ) →
            at P.cmp self.new o p i ≡ at P.cmp self.old o p i) }
    {
        let alloc = self.alloc;
        if let Some(table) = self.tables.get_mut(path) {
            table.give(piece, row)?;
            return Ok(());
        }
        let mut table = Table::new(alloc);
        table.give(piece, row)?;
        self.tables.insert(String::from_str(alloc, path)?, table)?;
        Ok(())
    }

    /// Drops what was not met. Nothing is met then.
    pub fn turn(&mut self)
        ensures { (o : list ℕ) → (p : P) → (i : ℕ) →
            at P.cmp self.new o p i ≡ turned (at P.cmp self.old o p i) }
    {
        self.tables.retain(|_path, table| table.turn());
    }

    /// Drops all.
    pub fn clear(&mut self)
        ensures { (o : list ℕ) → (p : P) → (i : ℕ) → at P.cmp self.new o p i ≡ None }
    {
        self.tables.clear();
    }
}
