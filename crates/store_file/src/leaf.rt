//! Leaves that are read and written.

ghost use Rattle.std.specs.Prelude.{◌≡◌, ◌↔◌, IsTrue, IfOk};
ghost use Rattle.std.specs.declared.cmp.Ordering.TheVariants.{Less as is_less};
ghost use Rattle.tree_match.specs.Ascending.{IsAscending};
ghost use Rattle.tree_match.specs.Members.{member_cmp};
ghost use Rattle.store_form.specs.Takes.{Gives, Finds};
ghost use Rattle.store_form.specs.Adds.{Adds};
ghost use Rattle.store_file.specs.StoreText.{leaf_bytes, IsStored};

use meta_bind::{Binding, Trail};
use node_tree::{Bytes, Memory, Span};
use std::alloc::Global;
use std::cmp::Ordering;
use store_form::{FormFault, Front, add_length, add_members, add_number};
use tree_match::{Leaf, LeafSet, MOST_MEMBERS};

// Which of two members comes first.
fn order(a: &(Span, Binding), b: &(Span, Binding)) -> Result<Ordering, Memory>
    ensures { IfOk result (λ o. o ≡ member_cmp a.now b.now) }
{
    match a.0.order(b.0) {
        Ordering::Less => Ok(Ordering::Less),
        Ordering::Greater => Ok(Ordering::Greater),
        Ordering::Equal => Ok(Trail::of(&a.1)?.order(&Trail::of(&b.1)?)),
    }
}

// Whether the first member is below the second.
fn is_below(a: &(Span, Binding), b: &(Span, Binding)) -> Result<bool, Memory>
    ensures { IfOk result (λ t. IsTrue t ↔ (member_cmp a.now b.now ≡ is_less)) }
{
    match order(a, b)? {
        Ordering::Less => Ok(true),
        Ordering::Equal => Ok(false),
        Ordering::Greater => Ok(false),
    }
}

// Whether the members stand in order, each once.
fn is_in_order(members: &[(Span, Binding)]) -> Result<bool, Memory>
    ensures { IfOk result (λ b. IsTrue b ↔ IsAscending member_cmp members.now) }
{
    for i in 1..members.len() {
        let ascends = is_below(&members[i - 1], &members[i])?;
        if !ascends {
            return Ok(false);
        }
    }
    Ok(true)
}

/// Takes a leaf off the front.
pub fn take_leaf(alloc: Global, front: &mut Front<'_>) -> Result<Leaf, FormFault>
    ensures given { Gives IsStored leaf_bytes front.old.rest.now result front.new.rest.now }
    ensures found { Finds IsStored leaf_bytes front.old.rest.now result front.new.rest.now }
{
    let count = front.number()?;
    if count == u32::MAX {
        return Ok(Leaf::Crowded);
    }
    if count as usize > MOST_MEMBERS {
        return Err(FormFault::NoForm);
    }
    let members = front.members(alloc, count)?;
    if !is_in_order(members.as_slice())? {
        return Err(FormFault::NoForm);
    }
    Ok(Leaf::Full(LeafSet::of(members)))
}

/// Adds a leaf.
pub fn add_leaf(out: &mut Bytes, leaf: &Leaf) -> Result<(), FormFault>
    ensures { Adds IsStored leaf_bytes leaf.now out.old result out.new }
{
    match leaf {
        Leaf::Crowded => add_number(out, u32::MAX),
        Leaf::Full(set) => {
            add_length(out, set.len())?;
            add_members(out, set.members())
        }
    }
}
