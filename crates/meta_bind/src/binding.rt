//! What the metavariables of a pattern stand for.

ghost use Rattle.std.specs.Prelude.{◌≡◌, ◌≤◌, [], ◌∷◌, ◌++◌, map, length, take, drop, OnOk, OnErr, IfOk, MatchOption, None, Some, IsTrue, IfSome, ◌↔◌};
ghost use Rattle.meta_bind.specs.Bounds.{seen, with_bound, bound_at, Agree, NamesAscend};
ghost use Rattle.meta_bind.specs.Merges.{merged};
ghost use Rattle.meta_bind.specs.declared.bound.Bound.{Bound as bound_value};

use crate::bound::Bound;
use crate::name::{is_below, is_same};
use crate::trail::Trail;
use node_tree::{List, Memory, Twin, copy_all, same_all};
use std::alloc::Global;
use std::marker::Model;

/// What the metavariables of a pattern stand for: bounds in order of name, each name once. Contracts see the bounds with
/// the contents of their nodes.
#[derive(Drop)]
pub struct Binding {
    bounds: List<Bound>,
}

impl Model for Binding {
    ghost use Rattle.std.specs.Prelude.{List as list, map};
    ghost use Rattle.std.specs.Coded.{coded_list};
    ghost use Rattle.meta_bind.specs.declared.bound.Bound.{Bound as bound};
    ghost use Rattle.meta_bind.specs.contracts.bound.Bound as bounds_of;
    ghost use Rattle.meta_bind.specs.Bounds.{seen, NamesAscend};

    ghost Value = { list bound };

    ghost coded = { coded_list bounds_of.the_row.coded };

    ghost view = { λ b. map seen b.bounds };

    ghost invariant = { λ b. NamesAscend (map seen b.bounds) };
}

// Where a bound of that name belongs.
fn place_of(bounds: &[Bound], name: &str) -> usize
    ensures within { result ≤ length bounds.now }
    ensures place { (b : bound_value) → b.name ≡ name.now → with_bound b (map seen bounds.now) ≡ map seen (take result bounds.now) ++ b ∷ map seen (drop result bounds.now) }
{
    for (i, bound) in bounds.iter().enumerate() {
        if is_below(name, bound.name.as_str()) {
            return i;
        }
    }
    bounds.len()
}

// Whether the other binding has no other contents for that name.
fn is_agreed(bound: &Bound, other: &Binding) -> bool
    ensures { IsTrue result ↔ IfSome (bound_at bound.now.name other.now) (λ c. (seen bound.now).nodes ≡ c.nodes) }
{
    match other.get(bound.name.as_str()) {
        None => true,
        Some(same) => same_all(bound.nodes.as_slice(), same.nodes.as_slice()),
    }
}

impl Binding {
    /// The binding of no name, which takes no memory.
    pub fn empty(alloc: Global) -> Binding
        ensures { result ≡ [] }
    {
        Binding {
            bounds: List::new(alloc),
        }
    }

    // These bounds.
    pub fn of(bounds: List<Bound>) -> Binding
        requires { NamesAscend (map seen bounds) }
        ensures { result ≡ map seen bounds }
    {
        Binding { bounds }
    }

    /// The bounds in order of name.
    pub fn bounds(&self) -> &[Bound]
        ensures bounds { map seen result.now ≡ self.now }
        ensures ordered { NamesAscend self.now }
    {
        self.bounds.as_slice()
    }

    /// The bound of that name.
    pub fn get(&self, name: &str) -> Option<&Bound>
        ensures { MatchOption result (bound_at name.now self.now ≡ None) (λ b. bound_at name.now self.now ≡ Some (seen b.now)) }
    {
        for bound in self.bounds.as_slice() {
            if is_same(bound.name.as_str(), name) {
                return Some(bound);
            }
        }
        None
    }

    // Where the binding takes its memory.
    pub fn alloc(&self) -> Global {
        self.bounds.alloc()
    }

    /// Adds a bound, for a name that isn't bound.
    pub fn bind(&mut self, bound: Bound) -> Result<(), Memory>
        requires { bound_at bound.name self.old ≡ None }
        ensures ok { OnOk result (self.new ≡ with_bound (seen bound) self.old) }
        ensures err { OnErr result (self.new ≡ self.old) }
    {
        let place = place_of(self.bounds.as_slice(), bound.name.as_str());
        self.bounds.insert(place, bound)?;
        Ok(())
    }

    /// Whether each name that is bound in both stands for the same contents.
    pub fn agrees(&self, other: &Binding) -> bool
        ensures { IsTrue result ↔ Agree self.now other.now }
    {
        for bound in self.bounds.as_slice() {
            if !is_agreed(bound, other) {
                return false;
            }
        }
        true
    }

    /// The names of both, for bindings that agree. Of a name that is bound in both the place that begins later is kept, and
    /// of those the one that ends first.
    pub fn merge(&self, other: &Binding) -> Result<Binding, Memory>
        requires { Agree self.now other.now }
        ensures { IfOk result (λ b. b ≡ merged self.now other.now) }
    {
        Trail::of(self)?.merge(&Trail::of(other)?)?.keep()
    }
}

impl Twin for Binding {
    fn copy(&self) -> Result<Binding, Memory> {
        let bounds = copy_all(self.bounds.alloc(), self.bounds.as_slice())?;
        Ok(Binding { bounds })
    }
}
