//! A store of which some rows of one path are in hand.

ghost use Rattle.std.specs.Prelude.{◌≡◌, ◌≤◌, ◌<◌, ◌++◌, ◌∷◌, ℕ, List as list, [], None, Some, IfOk, OnOk, OnErr, length, map, option_map, is_some, slice_get, unwrap_or, true};
ghost use Rattle.std.specs.Option.{option_copied};
ghost use Rattle.std.specs.BTreeMap.{get};
ghost use Rattle.piece_store.specs.Slots.{marked};
ghost use Rattle.piece_store.specs.Kept.{kept, put_pair, put_piece, row_answer, IsRowOf, IsSound};
ghost use Rattle.open_store.specs.InHand.{held, HasNone, IsOpen};
ghost use Rattle.open_store.specs.declared.held.HeldRow.{HeldRow as a_row};

use node_tree::{Memory, Text};
use piece_store::{Answer, Row, Store};
use std::alloc::Global;

/// What is kept of one piece, taken out of a store.
#[derive(Drop)]
pub struct HeldRow<P, V> {
    pub piece: P,
    pub row: Row<V>,
}

/// A store with the rows of some pieces of one path in hand. `specs/InHand.antt` says what is kept then.
#[derive(Drop)]
pub struct OpenStore<P: Ord, Q: Ord, V> {
    pub store: Store<P, Q, V>,
    pub path: Text,
    pub rows: Vec<HeldRow<P, V>>,
}

// The answer, unless it is the empty one.
fn unless_empty<V: Answer>(answer: V) -> Option<V>
    ensures { unwrap_or result V.empty ≡ answer }
{
    if answer.is_empty() {
        None
    } else {
        Some(answer)
    }
}

// Takes what is kept of a piece of a path out of the store.
fn take_row<P: Ord + Drop, Q: Ord + Drop, V: Answer>(
    alloc: Global,
    store: &mut Store<P, Q, V>,
    path: &str,
    piece: &P,
) -> Row<V>
    requires { IsSound P.cmp Q.cmp V.empty store.old }
    ensures sound { IsSound P.cmp Q.cmp V.empty store.new }
    ensures numbers { store.new.numbers ≡ store.old.numbers }
    ensures next { store.new.next ≡ store.old.next }
    ensures fits { IsRowOf store.new result }
    ensures taken { (q : Q) → row_answer Q.cmp store.new result q ≡ kept P.cmp Q.cmp store.old path.now piece.now q }
    ensures left { (o : list ℕ) → (p : P) → (q : Q) → kept P.cmp Q.cmp store.new o p q ≡
        put_piece P.cmp path.now piece.now (λ _. None) (kept P.cmp Q.cmp store.old) o p q }
{
    match store.take(path, piece) {
        Some(row) => row,
        None => Row::new(alloc),
    }
}

impl<P: Ord + Drop, Q: Ord + Drop, V: Answer> OpenStore<P, Q, V> {
    /// The store with no row of the path in hand. It takes no memory.
    pub fn of(alloc: Global, store: Store<P, Q, V>, path: Text) -> OpenStore<P, Q, V>
        requires { IsSound P.cmp Q.cmp V.empty store }
        ensures open { IsOpen P.cmp Q.cmp V.empty result }
        ensures same { (o : list ℕ) → (p : P) → (q : Q) →
            held P.cmp Q.cmp result o p q ≡ kept P.cmp Q.cmp store o p q }
        ensures path { result.path ≡ path }
        ensures none { result.rows.items ≡ [] }
    {
        OpenStore {
            store,
            path,
            rows: Vec::new(alloc),
        }
    }

    /// Takes the row of a further piece in hand, behind the others. Where memory runs out, what is kept is open.
    pub fn hold(&mut self, alloc: Global, piece: P) -> Result<(), Memory>
        requires open { IsOpen P.cmp Q.cmp V.empty self.old }
        requires other { HasNone P.cmp self.old.rows.items piece }
        ensures open { OnOk result (IsOpen P.cmp Q.cmp V.empty self.new) }
        ensures same { OnOk result ((o : list ℕ) → (p : P) → (q : Q) →
            held P.cmp Q.cmp self.new o p q ≡ held P.cmp Q.cmp self.old o p q) }
        ensures path { self.new.path ≡ self.old.path }
        ensures behind { OnOk result (map (λ (r : a_row P V). r.piece) self.new.rows.items ≡
            map (λ (r : a_row P V). r.piece) self.old.rows.items ++ piece ∷ []) }
    {
        let row = take_row(alloc, &mut self.store, self.path.as_str(), &piece);
        self.rows.push(HeldRow { piece, row })?;
        Ok(())
    }

    /// The number of a pattern, a new one for a new pattern. What is kept stays.
    pub fn number(&mut self, pattern: Q) -> Result<u32, Memory>
        requires { IsOpen P.cmp Q.cmp V.empty self.old }
        ensures open { IsOpen P.cmp Q.cmp V.empty self.new }
        ensures number { IfOk result (λ i. get Q.cmp self.new.store.numbers pattern ≡ Some i) }
        ensures same { (o : list ℕ) → (p : P) → (q : Q) →
            held P.cmp Q.cmp self.new o p q ≡ held P.cmp Q.cmp self.old o p q }
        ensures path { self.new.path ≡ self.old.path }
        ensures rows { self.new.rows.items ≡ self.old.rows.items }
    {
        self.store.number(pattern)
    }

    /// Notes that the answer of a pattern of that number for the piece in hand at that place is met, and tells whether it is kept.
    pub fn mark(&mut self, at: usize, number: u32) -> bool
        requires open { IsOpen P.cmp Q.cmp V.empty self.old }
        requires at { at < length self.old.rows.items }
        ensures open { IsOpen P.cmp Q.cmp V.empty self.new }
        ensures told { (r : a_row P V) → (q : Q) → slice_get self.old.rows.items at ≡ Some r → get Q.cmp self.old.store.numbers q ≡ Some number →
            result ≡ is_some (held P.cmp Q.cmp self.old self.old.path r.piece q) }
        ensures met { (r : a_row P V) → (q : Q) → slice_get self.old.rows.items at ≡ Some r → get Q.cmp self.old.store.numbers q ≡ Some number →
            (o : list ℕ) → (p : P) → (s : Q) → held P.cmp Q.cmp self.new o p s ≡
            put_pair P.cmp Q.cmp self.old.path r.piece q
            (marked (held P.cmp Q.cmp self.old self.old.path r.piece q))
            (held P.cmp Q.cmp self.old) o p s }
        ensures path { self.new.path ≡ self.old.path }
        ensures numbers { self.new.store.numbers ≡ self.old.store.numbers }
        ensures pieces { map (λ (r : a_row P V). r.piece) self.new.rows.items ≡ map (λ (r : a_row P V). r.piece) self.old.rows.items }
    {
        self.rows[at].row.mark(number)
    }

    /// Keeps an answer for the piece in hand at that place and a pattern of that number. It is met.
    pub fn keep(&mut self, at: usize, number: u32, answer: V) -> Result<(), Memory>
        requires open { IsOpen P.cmp Q.cmp V.empty self.old }
        requires at { at < length self.old.rows.items }
        requires given { number < self.old.store.next }
        ensures open { IsOpen P.cmp Q.cmp V.empty self.new }
        ensures ok { (r : a_row P V) → (q : Q) → slice_get self.old.rows.items at ≡ Some r → get Q.cmp self.old.store.numbers q ≡ Some number →
            OnOk result ((o : list ℕ) → (p : P) → (s : Q) → held P.cmp Q.cmp self.new o p s ≡
            put_pair P.cmp Q.cmp self.old.path r.piece q (Some (answer, true))
            (held P.cmp Q.cmp self.old) o p s) }
        ensures err { OnErr result ((o : list ℕ) → (p : P) → (s : Q) →
            held P.cmp Q.cmp self.new o p s ≡ held P.cmp Q.cmp self.old o p s) }
        ensures path { self.new.path ≡ self.old.path }
        ensures numbers { self.new.store.numbers ≡ self.old.store.numbers }
        ensures pieces { map (λ (r : a_row P V). r.piece) self.new.rows.items ≡ map (λ (r : a_row P V). r.piece) self.old.rows.items }
    {
        self.rows[at].row.keep(number, unless_empty(answer))
    }

    /// The answer of a pattern of that number for the piece in hand at that place, None exactly where it is not kept.
    pub fn look(&self, at: usize, number: u32) -> Option<&V>
        requires open { IsOpen P.cmp Q.cmp V.empty self.now }
        requires at { at < length self.now.rows.items }
        ensures { (r : a_row P V) → (q : Q) → slice_get self.now.rows.items at ≡ Some r → get Q.cmp self.now.store.numbers q ≡ Some number →
            option_copied result ≡ option_map (λ k. k.0) (held P.cmp Q.cmp self.now self.now.path r.piece q) }
    {
        match self.rows[at].row.look(number) {
            None => None,
            Some(None) => Some(&self.store.empty),
            Some(Some(answer)) => Some(answer),
        }
    }

    /// Puts the rows back.
    pub fn close(self) -> Result<Store<P, Q, V>, Memory>
        requires { IsOpen P.cmp Q.cmp V.empty self }
        ensures sound { IfOk result (IsSound P.cmp Q.cmp V.empty) }
        ensures same { IfOk result (λ store. (o : list ℕ) → (p : P) → (q : Q) →
            kept P.cmp Q.cmp store o p q ≡ held P.cmp Q.cmp self o p q) }
    {
        let mut store = self.store;
        let mut rows = self.rows;
        while let Some(last) = rows.pop() {
            store.give(self.path.as_str(), last.piece, last.row)?;
        }
        Ok(store)
    }
}
