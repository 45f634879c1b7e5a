//! The join of two sets.

ghost use Rattle.std.specs.Prelude.{◌≡◌, ◌⊎◌, ◌↔◌, IfOk, OnOk};
ghost use Rattle.node_match.specs.Sets.{Among, Adds};
ghost use Rattle.tree_match.specs.Ascending.{IsAscending};
ghost use Rattle.tree_match.specs.Members.{Member as member_value, member_cmp};
ghost use Rattle.place_join.specs.Joined.{IsJoined, IsFirst, IsFirstThere, Joined};

use crate::place::first_at;
use meta_bind::{Binding, Trail};
use node_tree::{List, Memory, Span};
use sorted_sets::{Member, settled};
use std::alloc::Global;
use tree_match::{Leaf, LeafSet, MOST_MEMBERS};

// Adds a member, whose binding is lent.
fn add<'l>(one: &'l (Span, Binding), into: &mut Vec<Member<'l>>) -> Result<(), Memory>
    ensures { OnOk result (Adds into.old.items into.new.items (λ m. one.now ≡ m)) }
{
    into.push((one.0, Trail::of(&one.1)?))?;
    Ok(())
}

// Adds all members.
fn add_all<'l>(members: &'l [(Span, Binding)], into: &mut Vec<Member<'l>>) -> Result<(), Memory>
    ensures { OnOk result (Adds into.old.items into.new.items (Among members.now)) }
{
    for one in members {
        add(one, into)?;
    }
    Ok(())
}

// Adds the first of the further members at the place of that one, where no plain one stands.
fn add_first<'l>(
    plain: &[(Span, Binding)],
    further: &'l [(Span, Binding)],
    one: &(Span, Binding),
    into: &mut Vec<Member<'l>>,
) -> Result<(), Memory>
    requires plain { IsAscending member_cmp plain.now }
    requires further { IsAscending member_cmp further.now }
    ensures { OnOk result (Adds into.old.items into.new.items (λ m. IsFirstThere plain.now further.now m one.now)) }
{
    if first_at(plain, one).is_some() {
        return Ok(());
    }
    let Some(first) = first_at(further, one) else {
        return Ok(());
    };
    add(first, into)
}

// Adds the first of the further members at each place where no plain one stands.
fn add_firsts<'l>(
    plain: &[(Span, Binding)],
    further: &'l [(Span, Binding)],
    into: &mut Vec<Member<'l>>,
) -> Result<(), Memory>
    requires plain { IsAscending member_cmp plain.now }
    requires further { IsAscending member_cmp further.now }
    ensures { OnOk result (Adds into.old.items into.new.items (IsFirst plain.now further.now)) }
{
    for one in further {
        add_first(plain, further, one, into)?;
    }
    Ok(())
}

// The members of both sets in order, one at each place of the second, with lent bindings.
fn joined<'l>(
    alloc: Global,
    plain: &'l [(Span, Binding)],
    further: &'l [(Span, Binding)],
) -> Result<Vec<Member<'l>>, Memory>
    requires plain { IsAscending member_cmp plain.now }
    requires further { IsAscending member_cmp further.now }
    ensures ordered { IfOk result (λ v. IsAscending member_cmp v.items) }
    ensures same { IfOk result (λ v. (m : member_value) → Among v.items m ↔ Joined plain.now further.now m) }
{
    let mut members = Vec::new(alloc);
    add_all(plain, &mut members)?;
    add_firsts(plain, further, &mut members)?;
    settled(alloc, members)
}

// The members with bindings of their own.
fn kept(alloc: Global, members: &[Member<'_>]) -> Result<List<(Span, Binding)>, Memory>
    ensures { IfOk result (λ list. list ≡ members.now) }
{
    let mut list = List::new(alloc);
    for (range, trail) in members {
        list.push((*range, trail.keep()?))?;
    }
    Ok(list)
}

/// The members of the first set, and of each place where none of them stands the least of the second: members are at one place
/// if they have the same range and the same names with the same spans. It is crowded where either set is, or where there are
/// more than 10,000.
pub fn join_by_place(plain: &Leaf, further: &Leaf) -> Result<Leaf, Memory>
    ensures { IfOk result (IsJoined plain.now further.now) }
{
    let Leaf::Full(plain) = plain else {
        return Ok(Leaf::Crowded);
    };
    let Leaf::Full(further) = further else {
        return Ok(Leaf::Crowded);
    };
    let alloc = plain.alloc();
    let members = joined(alloc, plain.members(), further.members())?;
    if members.len() > MOST_MEMBERS {
        return Ok(Leaf::Crowded);
    }
    Ok(Leaf::Full(LeafSet::of(kept(alloc, members.as_slice())?)))
}
