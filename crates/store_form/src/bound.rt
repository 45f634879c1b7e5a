//! Bounds that are read.

ghost use Rattle.std.specs.Prelude.{◌≡◌, ◌↔◌, IsTrue, List as list};
ghost use Rattle.meta_bind.specs.Bounds.{name_cmp, NamesAscend};
ghost use Rattle.std.specs.declared.cmp.Ordering.TheVariants.{Less as is_less};
ghost use Rattle.store_form.specs.Form.{node_bytes, bound_bytes, list_bytes, binding_bytes, IsNode, IsBound, IsListOf, IsBinding};
ghost use Rattle.store_form.specs.Takes.{Gives, Finds};

use crate::fault::FormFault;
use crate::front::Front;
use crate::node::{MOST_LEVELS, room_for};
use meta_bind::{Binding, Bound};
use node_tree::{List, Node};
use std::alloc::Global;
use std::cmp::Ordering;

// Whether the name of the first bound is below that of the second.
fn is_below(a: &Bound, b: &Bound) -> bool
    ensures { IsTrue result ↔ (name_cmp a.now.name b.now.name ≡ is_less) }
{
    match a.name.as_str().cmp(b.name.as_str()) {
        Ordering::Less => true,
        Ordering::Equal => false,
        Ordering::Greater => false,
    }
}

// Whether the bounds stand in order of name, each name once.
fn is_in_order(bounds: &[Bound]) -> bool
    ensures { IsTrue result ↔ NamesAscend bounds.now }
{
    for i in 1..bounds.len() {
        if !is_below(&bounds[i - 1], &bounds[i]) {
            return false;
        }
    }
    true
}

impl Front<'_> {
    // Takes a list of nodes off the front.
    fn nodes(&mut self, alloc: Global) -> Result<List<Node>, FormFault>
        ensures given { Gives (IsListOf IsNode) (list_bytes node_bytes)
            self.old.rest.now result self.new.rest.now }
        ensures found { Finds (IsListOf IsNode) (list_bytes node_bytes)
            self.old.rest.now result self.new.rest.now }
    {
        let count = self.number()?;
        let mut nodes = room_for(alloc, count)?;
        for _i in 0..count {
            let node = self.node(alloc, MOST_LEVELS)?;
            nodes.push(node)?;
        }
        nodes.shrink_to_fit();
        Ok(List::from_vec(nodes))
    }

    // Takes a bound off the front.
    fn bound(&mut self, alloc: Global) -> Result<Bound, FormFault>
        ensures given { Gives IsBound bound_bytes self.old.rest.now result self.new.rest.now }
        ensures found { Finds IsBound bound_bytes self.old.rest.now result self.new.rest.now }
    {
        let name = self.text(alloc)?;
        let span = self.span()?;
        let nodes = self.nodes(alloc)?;
        Ok(Bound { name, span, nodes })
    }

    // Takes a list of bounds off the front.
    fn bounds(&mut self, alloc: Global) -> Result<List<Bound>, FormFault>
        ensures given { Gives (IsListOf IsBound) binding_bytes
            self.old.rest.now result self.new.rest.now }
        ensures found { Finds (IsListOf IsBound) binding_bytes
            self.old.rest.now result self.new.rest.now }
    {
        let count = self.number()?;
        let mut bounds = room_for(alloc, count)?;
        for _i in 0..count {
            let bound = self.bound(alloc)?;
            bounds.push(bound)?;
        }
        bounds.shrink_to_fit();
        Ok(List::from_vec(bounds))
    }

    /// Takes a binding off the front.
    pub fn binding(&mut self, alloc: Global) -> Result<Binding, FormFault>
        ensures given { Gives IsBinding binding_bytes self.old.rest.now result self.new.rest.now }
        ensures found { Finds IsBinding binding_bytes self.old.rest.now result self.new.rest.now }
    {
        let bounds = self.bounds(alloc)?;
        if !is_in_order(bounds.as_slice()) {
            return Err(FormFault::NoForm);
        }
        Ok(Binding::of(bounds))
    }
}
