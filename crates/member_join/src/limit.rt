//! The most members of a set.

ghost use Rattle.std.specs.Prelude.{◌≡◌, ◌↔◌, ◌≤◌, ◌<◌, [], length, IfOk, IfErr};
ghost use Rattle.std.specs.Option.{option_to_list};
ghost use Rattle.node_match.specs.Sets.{Among};
ghost use Rattle.tree_match.specs.Ascending.{IsAscending};
ghost use Rattle.tree_match.specs.Members.{Member as member_value, member_cmp};
ghost use Rattle.member_join.specs.Limits.{NamesSet, IsFaultFrom, OneSet};

use crate::fault::EvalFault;
use node_tree::List;
use sorted_sets::{Member, settled};
use std::alloc::Global;
use tree_match::MOST_MEMBERS;

/// So many items are gathered before they are put in order.
pub const ROOM: usize = 40000;

/// That a set has too many members: the formula's own, or that of the child with this number.
pub fn crowded<T>(alloc: Global, number: Option<usize>) -> Result<T, EvalFault>
    ensures none { IfOk result (λ _. ⊥) }
    ensures named { IfErr result (NamesSet (option_to_list number)) }
{
    let mut numbers = List::new(alloc);
    if let Some(number) = number {
        numbers.push(number as u64)?;
    }
    Err(EvalFault::Crowded(numbers))
}

/// The members, unless there are more than 10,000.
pub fn limited<'t>(alloc: Global, members: Vec<Member<'t>>) -> Result<Vec<Member<'t>>, EvalFault>
    ensures few { IfOk result (λ v. (v.items ≡ members.entry.items) × (length members.entry.items ≤ MOST_MEMBERS)) }
    ensures named { IfErr result (NamesSet []) }
    ensures many { IfErr result (λ _. MOST_MEMBERS < length members.entry.items) }
{
    if members.len() > MOST_MEMBERS {
        return crowded(alloc, None);
    }
    Ok(members)
}

/// The members in order, each once, unless there are more than 10,000.
pub fn gathered<'t>(alloc: Global, members: Vec<Member<'t>>) -> Result<Vec<Member<'t>>, EvalFault>
    ensures ordered { IfOk result (λ v. IsAscending member_cmp v.items) }
    ensures same { IfOk result (λ v. (m : member_value) → Among v.items m ↔ Among members.entry.items m) }
    ensures few { IfOk result (λ v. length v.items ≤ MOST_MEMBERS) }
    ensures crowded { IfErr result (IsFaultFrom (OneSet [] (Among members.entry.items))) }
{
    limited(alloc, settled(alloc, members)?)
}

/// The same members, put in order and each once where they are many.
pub fn thinned<'t>(alloc: Global, members: Vec<Member<'t>>) -> Result<Vec<Member<'t>>, EvalFault>
    ensures same { IfOk result (λ v. (m : member_value) → Among v.items m ↔ Among members.entry.items m) }
    ensures crowded { IfErr result (IsFaultFrom (OneSet [] (Among members.entry.items))) }
{
    if members.len() <= ROOM {
        return Ok(members);
    }
    gathered(alloc, members)
}
