//! A binding that borrows what it binds.

ghost use Rattle.std.specs.Prelude.{◌≡◌, ◌≤◌, [], ◌∷◌, ◌++◌, map, length, take, drop, OnOk, OnErr, IfOk, MatchOption, None, Some, IsTrue, IfSome, ◌↔◌};
ghost use Rattle.meta_bind.specs.Bounds.{seen_held, with_bound, bound_at, place_cmp, contents_cmp, binding_cmp, NamesAscend, Agree};
ghost use Rattle.meta_bind.specs.Merges.{merged, extended};
ghost use Rattle.std.specs.Cmp.Lexicographic.{slice_cmp};
ghost use Rattle.meta_bind.specs.declared.bound.Bound.{Bound as bound_value};

use crate::binding::Binding;
use crate::bound::Bound;
use crate::join::{Keep, join};
use crate::name::{is_below, is_same};
use node_tree::{List, Memory, Node, Span, Text, copy_all, order_all, same_all};
use std::alloc::Global;
use std::cmp::Ordering;
use std::marker::Model;

/// A name and the nodes that it stands for, all of them borrowed.
#[derive(Clone, Copy)]
pub struct Held<'t> {
    pub name: &'t str,
    pub span: Span,
    pub run: &'t [Node],
}

/// A binding that borrows its names and nodes, for a search that copies no node before it is done. Contracts see it as
/// they see a [`Binding`].
#[derive(Drop)]
pub struct Trail<'t> {
    held: Vec<Held<'t>>,
}

impl<'t> Model for Trail<'t> {
    ghost use Rattle.std.specs.Prelude.{List as list, map};
    ghost use Rattle.std.specs.Coded.{coded_list};
    ghost use Rattle.meta_bind.specs.declared.bound.Bound.{Bound as bound};
    ghost use Rattle.meta_bind.specs.contracts.bound.Bound as bounds_of;
    ghost use Rattle.meta_bind.specs.Bounds.{seen_held, NamesAscend};

    ghost Value = { list bound };

    ghost coded = { coded_list bounds_of.the_row.coded };

    ghost view = { λ t. map seen_held t.held.items };

    ghost invariant = { λ t. NamesAscend (map seen_held t.held.items) };
}

// Where a name belongs.
fn place_of<'t>(held: &[Held<'t>], name: &str) -> usize
    ensures within { result ≤ length held.now }
    ensures place { (b : bound_value) → b.name ≡ name.now → with_bound b (map seen_held held.now) ≡ map seen_held (take result held.now) ++ b ∷ map seen_held (drop result held.now) }
{
    for (i, one) in held.iter().enumerate() {
        if is_below(name, one.name) {
            return i;
        }
    }
    held.len()
}

// Whether the other binding has no other contents for that name.
fn is_agreed<'t>(one: &Held<'t>, other: &Trail<'t>) -> bool
    ensures { IsTrue result ↔ IfSome (bound_at one.now.name.now other.now) (λ c. (seen_held one.now).nodes ≡ c.nodes) }
{
    match other.get(one.name) {
        None => true,
        Some(same) => same_all(one.run, same.run),
    }
}

// By name, then range.
fn order_place(a: &Held<'_>, b: &Held<'_>) -> Ordering
    ensures { result ≡ place_cmp (seen_held a.now) (seen_held b.now) }
{
    a.name.cmp(b.name).then(a.span.order(b.span))
}

// By names with their ranges.
fn order_places(a: &[Held<'_>], b: &[Held<'_>]) -> Ordering
    ensures { result ≡ slice_cmp place_cmp (map seen_held a.now) (map seen_held b.now) }
{
    for (i, one) in a.iter().enumerate() {
        if b.len() <= i {
            return Ordering::Greater;
        }
        match order_place(one, &b[i]) {
            Ordering::Less => return Ordering::Less,
            Ordering::Greater => return Ordering::Greater,
            Ordering::Equal => {}
        }
    }
    if a.len() < b.len() {
        Ordering::Less
    } else {
        Ordering::Equal
    }
}

// By what is bound.
fn order_contents(a: &[Held<'_>], b: &[Held<'_>]) -> Ordering
    ensures { result ≡ slice_cmp contents_cmp (map seen_held a.now) (map seen_held b.now) }
{
    for (i, one) in a.iter().enumerate() {
        if b.len() <= i {
            return Ordering::Greater;
        }
        match order_all(one.run, b[i].run) {
            Ordering::Less => return Ordering::Less,
            Ordering::Greater => return Ordering::Greater,
            Ordering::Equal => {}
        }
    }
    if a.len() < b.len() {
        Ordering::Less
    } else {
        Ordering::Equal
    }
}

impl<'t> Trail<'t> {
    /// The binding of no name, which takes no memory.
    pub fn new(alloc: Global) -> Trail<'t>
        ensures { result ≡ [] }
    {
        Trail {
            held: Vec::new(alloc),
        }
    }

    /// The binding, borrowed.
    pub fn of(binding: &'t Binding) -> Result<Trail<'t>, Memory>
        ensures { IfOk result (λ t. t ≡ binding.now) }
    {
        let mut held = Vec::new(binding.alloc());
        for bound in binding.bounds() {
            held.push(Held {
                name: bound.name.as_str(),
                span: bound.span,
                run: bound.nodes.as_slice(),
            })?;
        }
        Ok(Trail { held })
    }

    /// Whether each name that is bound in both stands for the same contents.
    pub fn agrees(&self, other: &Trail<'t>) -> bool
        ensures { IsTrue result ↔ Agree self.now other.now }
    {
        for one in self.held.as_slice() {
            if !is_agreed(one, other) {
                return false;
            }
        }
        true
    }

    /// The names of both, for bindings that agree. Of a name that is bound in both the place that begins later is kept, and
    /// of those the one that ends first.
    pub fn merge(&self, other: &Trail<'t>) -> Result<Trail<'t>, Memory>
        ensures { IfOk result (λ t. t ≡ merged self.now other.now) }
    {
        let held = join(
            *self.held.allocator(),
            Keep::Later,
            self.held.as_slice(),
            other.held.as_slice(),
        )?;
        Ok(Trail { held })
    }

    /// The names of both. Of a name that is bound in both the place of this binding is kept.
    pub fn extend(&self, other: &Trail<'t>) -> Result<Trail<'t>, Memory>
        ensures { IfOk result (λ t. t ≡ extended self.now other.now) }
    {
        let held = join(
            *self.held.allocator(),
            Keep::First,
            self.held.as_slice(),
            other.held.as_slice(),
        )?;
        Ok(Trail { held })
    }

    /// How many names are bound.
    pub fn len(&self) -> usize
        ensures { result ≡ length self.now }
    {
        self.held.len()
    }

    /// What that name stands for.
    pub fn get(&self, name: &str) -> Option<Held<'t>>
        ensures { MatchOption result (bound_at name.now self.now ≡ None) (λ h. bound_at name.now self.now ≡ Some (seen_held h)) }
    {
        for one in self.held.as_slice() {
            if is_same(one.name, name) {
                return Some(*one);
            }
        }
        None
    }

    /// Adds what a name stands for, for a name that isn't bound.
    pub fn bind(&mut self, one: Held<'t>) -> Result<(), Memory>
        requires { bound_at one.name.now self.old ≡ None }
        ensures ok { OnOk result (self.new ≡ with_bound (seen_held one.entry) self.old) }
        ensures err { OnErr result (self.new ≡ self.old) }
    {
        let place = place_of(self.held.as_slice(), one.name);
        self.held.insert(place, one)?;
        Ok(())
    }

    /// The order of bindings: by names with their spans, then by what is bound.
    pub fn order(&self, other: &Trail<'t>) -> Ordering
        ensures { result ≡ binding_cmp self.now other.now }
    {
        match order_places(self.held.as_slice(), other.held.as_slice()) {
            Ordering::Less => Ordering::Less,
            Ordering::Greater => Ordering::Greater,
            Ordering::Equal => order_contents(self.held.as_slice(), other.held.as_slice()),
        }
    }

    /// Whether names, spans and contents are the same.
    pub fn is_same(&self, other: &Trail<'t>) -> bool
        ensures { IsTrue result ↔ (self.now ≡ other.now) }
    {
        match self.order(other) {
            Ordering::Equal => true,
            Ordering::Less => false,
            Ordering::Greater => false,
        }
    }

    /// The same binding, which borrows the same nodes.
    pub fn copy(&self) -> Result<Trail<'t>, Memory>
        ensures { IfOk result (λ t. t ≡ self.now) }
    {
        Ok(Trail {
            held: Vec::from_slice(*self.held.allocator(), self.held.as_slice())?,
        })
    }

    /// The same binding with names and nodes of its own.
    pub fn keep(&self) -> Result<Binding, Memory>
        ensures { IfOk result (λ b. b ≡ self.now) }
    {
        let alloc = *self.held.allocator();
        let mut bounds = List::new(alloc);
        for one in self.held.as_slice() {
            bounds.push(Bound {
                name: Text::from_str(alloc, one.name)?,
                span: one.span,
                nodes: copy_all(alloc, one.run)?,
            })?;
        }
        Ok(Binding::of(bounds))
    }
}
