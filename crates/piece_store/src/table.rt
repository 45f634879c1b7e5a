//! What is kept of one path.

ghost use Rattle.std.specs.Prelude.{◌≡◌, ℕ, None, Some, OnOk, OnErr, IfNone, IfSome, is_some, option_map, true, false};
ghost use Rattle.std.specs.Option.{option_copied};
ghost use Rattle.piece_store.specs.Slots.{slot, marked, turned, put_for, put_row};
ghost use Rattle.piece_store.specs.Views.{held};

use crate::row::Row;
use crate::rows;
use node_tree::Memory;
use std::alloc::Global;
use std::collections::BTreeMap;

/// Which of the answers of a path were met in this turn.
#[derive(Clone, Copy, Debug, PartialEq, Eq)]
pub enum Met {
    /// None of them, whatever the rows say.
    Nothing,
    /// All of them, whatever the rows say.
    All,
    /// Those of which the rows say so.
    Each,
}

/// The answers of one path, piece by piece.
#[derive(Drop)]
pub struct Table<P: Ord, V> {
    pub rows: BTreeMap<P, Row<V>>,
    pub met: Met,
}

impl<P: Ord + Drop, V: Drop> Table<P, V> {
    /// Nothing. It takes no memory.
    pub fn new(alloc: Global) -> Table<P, V>
        ensures { (p : P) → (i : ℕ) → held P.cmp result p i ≡ None }
    {
        Table {
            rows: BTreeMap::new(alloc),
            met: Met::Each,
        }
    }

    /// The answer of a piece and a pattern, where it is kept: None within for the empty one.
    pub fn look(&self, piece: &P, number: u32) -> Option<Option<&V>>
        ensures { option_map (λ k. k.0) (held P.cmp self.now piece.now number) ≡
            option_map (λ v. option_copied v) result }
    {
        match self.rows.get(piece) {
            None => None,
            Some(row) => row.look(number),
        }
    }

    // Lets the rows say what was met.
    fn settle(&mut self)
        ensures same { (p : P) → (i : ℕ) → held P.cmp self.new p i ≡ held P.cmp self.old p i }
        ensures each { self.new.met ≡ Met.Each }
    {
        let met = match self.met {
            Met::Each => return,
            Met::Nothing => false,
            Met::All => true,
        };
        rows::meet_all(&mut self.rows, met);
        self.met = Met::Each;
    }

    /// Keeps an answer for a piece and a pattern. It is met.
    pub fn keep(
        &mut self,
        alloc: Global,
        piece: P,
        number: u32,
        value: Option<V>,
    ) -> Result<(), Memory>
        ensures ok { OnOk result ((p : P) → (i : ℕ) →
            held P.cmp self.new p i ≡
            put_for P.cmp piece number (Some (value, true)) (held P.cmp self.old) p i) }
        ensures err { OnErr result ((p : P) → (i : ℕ) →
            held P.cmp self.new p i ≡ held P.cmp self.old p i) }
    {
        self.settle();
        rows::keep(alloc, &mut self.rows, piece, number, value)
    }

    /// Notes that the answer of a piece and a pattern is met, and tells whether it is kept.
    pub fn mark(&mut self, piece: &P, number: u32) -> bool
        ensures told { result ≡ is_some (held P.cmp self.old piece.now number) }
        ensures marked { (p : P) → (i : ℕ) →
            held P.cmp self.new p i ≡
            put_for P.cmp piece.now number (marked (held P.cmp self.old piece.now number))
            (held P.cmp self.old) p i }
    {
        self.settle();
        rows::mark(&mut self.rows, piece, number)
    }

    /// Notes that all that is kept is met. It costs the same however much there is.
    pub fn mark_all(&mut self)
        ensures { (p : P) → (i : ℕ) → held P.cmp self.new p i ≡ marked (held P.cmp self.old p i) }
    {
        self.met = Met::All;
    }

    /// Takes out what is kept of a piece. It takes no memory.
    pub fn take(&mut self, piece: &P) -> Option<Row<V>>
        ensures taken { IfSome result (λ row. (i : ℕ) →
            slot row i ≡ held P.cmp self.old piece.now i) }
        ensures none { IfNone result ((i : ℕ) → held P.cmp self.old piece.now i ≡ None) }
        ensures left { (p : P) → (i : ℕ) →
            held P.cmp self.new p i ≡
            put_row P.cmp piece.now (λ _. None) (held P.cmp self.old) p i }
    {
        self.settle();
        rows::take(&mut self.rows, piece)
    }

    /// Puts in what is kept of a piece, in place of what was kept of it.
    pub fn give(&mut self, piece: P, row: Row<V>) -> Result<(), Memory>
        ensures ok { OnOk result ((p : P) → (i : ℕ) →
            held P.cmp self.new p i ≡ put_row P.cmp piece (slot row) (held P.cmp self.old) p i) }
        ensures err { OnErr result ((p : P) → (i : ℕ) →
            held P.cmp self.new p i ≡ held P.cmp self.old p i) }
    {
        self.settle();
        rows::give(&mut self.rows, piece, row)
    }

    /// Drops what was not met, and tells whether anything may be left, which isn't met then. It takes no memory, and where all
    /// is met it costs the same however much there is.
    pub fn turn(&mut self) -> bool
        ensures turned { (p : P) → (i : ℕ) →
            held P.cmp self.new p i ≡ turned (held P.cmp self.old p i) }
        ensures left { result ≡ false → (p : P) → (i : ℕ) → held P.cmp self.new p i ≡ None }
    {
        match self.met {
            Met::Nothing => self.rows.clear(),
            Met::All => {}
            Met::Each => rows::turn(&mut self.rows),
        }
        self.met = Met::Nothing;
        !self.rows.is_empty()
    }
}
