//! What is kept of pairs of a piece and a pattern, path by path.

ghost use Rattle.std.specs.Prelude.{◌≡◌, ◌≤◌, ℕ, List as list, None, Some, IfOk, OnOk, OnErr, IfSome, IfNone, option_map, is_some, unwrap_or, if◌then◌else◌, true};
ghost use Rattle.std.specs.Option.{option_copied};
ghost use Rattle.std.specs.Str.{bytes_eq};
ghost use Rattle.std.specs.BTreeMap.{get};
ghost use Rattle.piece_store.specs.Slots.{marked, turned};
ghost use Rattle.piece_store.specs.Kept.{kept, put_pair, put_piece, IsSound, IsRowOf, row_answer};
ghost use Rattle.piece_store.specs.declared.row.Row.{Row as a_row};

use crate::answer::Answer;
use crate::row::Row;
use crate::shelf::Shelf;
use node_tree::Memory;
use std::alloc::Global;
use std::collections::BTreeMap;

// An answer that is not the empty one.
fn unless_empty<V: Answer>(answer: V) -> Option<V>
    ensures { unwrap_or result V.empty ≡ answer }
{
    if answer.is_empty() {
        None
    } else {
        Some(answer)
    }
}

/// The answers of pairs of a piece and a pattern, path by path. Each pattern has a number of its own in the store, which is not
/// used again. Pieces and patterns are known by keys that are in order.
#[derive(Drop)]
pub struct Store<P: Ord, Q: Ord, V> {
    pub numbers: BTreeMap<Q, u32>,
    pub next: u32,
    pub shelf: Shelf<P, V>,
    pub empty: V,
}

impl<P: Ord + Drop, Q: Ord + Drop, V: Answer> Store<P, Q, V> {
    /// Nothing. The empty answer is lent where one is kept. It takes no memory.
    pub fn new(alloc: Global, empty: V) -> Store<P, Q, V>
        requires { empty ≡ V.empty }
        ensures sound { IsSound P.cmp Q.cmp V.empty result }
        ensures empty { (o : list ℕ) → (p : P) → (q : Q) → kept P.cmp Q.cmp result o p q ≡ None }
    {
        Store {
            numbers: BTreeMap::new(alloc),
            next: 0,
            shelf: Shelf::new(alloc),
            empty,
        }
    }

    /// The answer of a pair, None exactly where it is not kept. It takes no memory.
    pub fn look(&self, path: &str, piece: &P, pattern: &Q) -> Option<&V>
        ensures { option_copied result ≡
            option_map (λ k. k.0) (kept P.cmp Q.cmp self.now path.now piece.now pattern.now) }
    {
        let number = self.numbers.get(pattern)?;
        match self.shelf.look(path, piece, *number) {
            None => None,
            Some(None) => Some(&self.empty),
            Some(Some(answer)) => Some(answer),
        }
    }

    /// The number of a pattern, a new one for a new pattern. What is kept stays.
    pub fn number(&mut self, pattern: Q) -> Result<u32, Memory>
        requires { IsSound P.cmp Q.cmp V.empty self.old }
        ensures sound { IsSound P.cmp Q.cmp V.empty self.new }
        ensures number { IfOk result (λ i. get Q.cmp self.new.numbers pattern ≡ Some i) }
        ensures same { (o : list ℕ) → (p : P) → (q : Q) →
            kept P.cmp Q.cmp self.new o p q ≡ kept P.cmp Q.cmp self.old o p q }
        // So do rows that were taken out.
        ensures fit { (row : a_row V) → IsRowOf self.old row → IsRowOf self.new row }
        ensures rows { (row : a_row V) → IsRowOf self.old row → (q : Q) →
            row_answer Q.cmp self.new row q ≡ row_answer Q.cmp self.old row q }
    {
        if let Some(number) = self.numbers.get(&pattern) {
            return Ok(*number);
        }
        let number = self.next;
        let Some(next) = number.checked_add(1) else {
            return Err(Memory);
        };
        self.numbers.insert(pattern, number)?;
        self.next = next;
        Ok(number)
    }

    /// Keeps an answer for a pair. It is met.
    pub fn keep(&mut self, path: &str, piece: P, pattern: Q, answer: V) -> Result<(), Memory>
        requires { IsSound P.cmp Q.cmp V.empty self.old }
        ensures sound { IsSound P.cmp Q.cmp V.empty self.new }
        ensures ok { OnOk result ((o : list ℕ) → (p : P) → (q : Q) →
            kept P.cmp Q.cmp self.new o p q ≡
            put_pair P.cmp Q.cmp path.now piece pattern (Some (answer, true))
            (kept P.cmp Q.cmp self.old) o p q) }
        ensures err { OnErr result ((o : list ℕ) → (p : P) → (q : Q) →
            kept P.cmp Q.cmp self.new o p q ≡ kept P.cmp Q.cmp self.old o p q) }
    {
        let number = self.number(pattern)?;
        self.shelf.keep(path, piece, number, unless_empty(answer))
    }

    /// Notes that the answer of a pair is met, and tells whether it is kept. It takes no memory.
    pub fn mark(&mut self, path: &str, piece: &P, pattern: &Q) -> bool
        requires { IsSound P.cmp Q.cmp V.empty self.old }
        ensures sound { IsSound P.cmp Q.cmp V.empty self.new }
        ensures told { result ≡ is_some (kept P.cmp Q.cmp self.old path.now piece.now pattern.now) }
        ensures met { (o : list ℕ) → (p : P) → (q : Q) → kept P.cmp Q.cmp self.new o p q ≡
            put_pair P.cmp Q.cmp path.now piece.now pattern.now
            (marked (kept P.cmp Q.cmp self.old path.now piece.now pattern.now))
            (kept P.cmp Q.cmp self.old) o p q }
    {
        match self.numbers.get(pattern) {
            None => false,
            Some(number) => self.shelf.mark(path, piece, *number),
        }
    }

    /// Notes that all answers of a path that are kept are met. It costs the same however many there are, and takes no memory.
    pub fn mark_all(&mut self, path: &str)
        requires { IsSound P.cmp Q.cmp V.empty self.old }
        ensures sound { IsSound P.cmp Q.cmp V.empty self.new }
        ensures met { (o : list ℕ) → (p : P) → (q : Q) → kept P.cmp Q.cmp self.new o p q ≡
            if bytes_eq path.now o then marked (kept P.cmp Q.cmp self.old o p q)
            else kept P.cmp Q.cmp self.old o p q }
    {
        self.shelf.mark_all(path);
    }

    /// Takes out what is kept of a piece of a path, to be worked on by the numbers of the patterns and then given back. None
    /// where nothing is kept of it. It takes no memory.
    pub fn take(&mut self, path: &str, piece: &P) -> Option<Row<V>>
        requires { IsSound P.cmp Q.cmp V.empty self.old }
        ensures sound { IsSound P.cmp Q.cmp V.empty self.new }
        ensures numbers { self.new.numbers ≡ self.old.numbers }
        ensures next { self.new.next ≡ self.old.next }
        ensures fits { IfSome result (IsRowOf self.new) }
        ensures taken { IfSome result (λ row. (q : Q) → row_answer Q.cmp self.new row q ≡
            kept P.cmp Q.cmp self.old path.now piece.now q) }
        ensures none { IfNone result ((q : Q) →
            kept P.cmp Q.cmp self.old path.now piece.now q ≡ None) }
        ensures left { (o : list ℕ) → (p : P) → (q : Q) → kept P.cmp Q.cmp self.new o p q ≡
            put_piece P.cmp path.now piece.now (λ _. None) (kept P.cmp Q.cmp self.old) o p q }
    {
        self.shelf.take(path, piece)
    }

    /// Puts in what is kept of a piece of a path, in place of what was kept of it.
    pub fn give(&mut self, path: &str, piece: P, row: Row<V>) -> Result<(), Memory>
        requires sound { IsSound P.cmp Q.cmp V.empty self.old }
        requires fits { IsRowOf self.old row }
        ensures sound { IsSound P.cmp Q.cmp V.empty self.new }
        ensures numbers { self.new.numbers ≡ self.old.numbers }
        ensures next { self.new.next ≡ self.old.next }
        ensures ok { OnOk result ((o : list ℕ) → (p : P) → (q : Q) →
            kept P.cmp Q.cmp self.new o p q ≡
            put_piece P.cmp path.now piece (row_answer Q.cmp self.old row)
            (kept P.cmp Q.cmp self.old) o p q) }
        ensures err { OnErr result ((o : list ℕ) → (p : P) → (q : Q) →
            kept P.cmp Q.cmp self.new o p q ≡ kept P.cmp Q.cmp self.old o p q) }
    {
        self.shelf.give(path, piece, row)
    }

    /// Drops the answers that were neither kept nor marked since the last turn. It costs what the paths cost that were not
    /// marked as a whole, and takes no memory.
    pub fn turn(&mut self)
        requires { IsSound P.cmp Q.cmp V.empty self.old }
        ensures sound { IsSound P.cmp Q.cmp V.empty self.new }
        ensures turned { (o : list ℕ) → (p : P) → (q : Q) → kept P.cmp Q.cmp self.new o p q ≡
            turned (kept P.cmp Q.cmp self.old o p q) }
    {
        self.shelf.turn();
    }

    /// Drops all pairs, and all numbers of patterns. It takes no memory.
    pub fn clear(&mut self)
        requires { IsSound P.cmp Q.cmp V.empty self.old }
        ensures sound { IsSound P.cmp Q.cmp V.empty self.new }
        ensures none { (o : list ℕ) → (p : P) → (q : Q) → kept P.cmp Q.cmp self.new o p q ≡ None }
    {
        self.numbers.clear();
        self.next = 0;
        self.shelf.clear();
    }
}
