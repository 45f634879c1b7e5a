//! Two lists of members in order, made one.

ghost use Rattle.std.specs.Prelude.{◌≡◌, ◌⊎◌, ◌↔◌, [], IsTrue, IfOk, MatchOption};
ghost use Rattle.std.specs.Ordering.{MatchOrdering};
ghost use Rattle.node_match.specs.Sets.{Among};
ghost use Rattle.tree_match.specs.Ascending.{IsAscending};
ghost use Rattle.tree_match.specs.Members.{Member as a_member, member_cmp};
ghost use Rattle.piece_match.specs.Merging.{IsFalling, AreBefore, EndsBefore, EndsAlike, TakesLeast, CanGoOn};

use meta_bind::{Binding, Trail};
use node_tree::{List, Memory, Span};
use std::cmp::Ordering;

// Which of two members comes first.
fn order(a: &(Span, Binding), b: &(Span, Binding)) -> Result<Ordering, Memory>
    ensures { IfOk result (λ o. o ≡ member_cmp a.now b.now) }
{
    match a.0.order(b.0) {
        Ordering::Less => Ok(Ordering::Less),
        Ordering::Greater => Ok(Ordering::Greater),
        Ordering::Equal => {
            let (left, right) = (Trail::of(&a.1)?, Trail::of(&b.1)?);
            Ok(left.order(&right))
        }
    }
}

// Which of the last members comes first. Where a list has none it is that of the other.
fn order_lasts(left: &[(Span, Binding)], right: &[(Span, Binding)]) -> Result<Ordering, Memory>
    ensures { IfOk result (λ o. MatchOrdering o (EndsBefore left.now right.now) (EndsAlike left.now right.now) (EndsBefore right.now left.now)) }
{
    if left.is_empty() {
        if right.is_empty() {
            return Ok(Ordering::Equal);
        }
        return Ok(Ordering::Greater);
    }
    if right.is_empty() {
        return Ok(Ordering::Less);
    }
    order(&left[left.len() - 1], &right[right.len() - 1])
}

// Takes the least member of two falling lists off, of both where it stands in both.
fn take_least(
    left: &mut List<(Span, Binding)>,
    right: &mut List<(Span, Binding)>,
) -> Result<Option<(Span, Binding)>, Memory>
    requires left_falls { IsFalling left.old }
    requires right_falls { IsFalling right.old }
    ensures { IfOk result (λ one. MatchOption one ((left.old ≡ []) × (right.old ≡ [])) (λ m. TakesLeast left.old right.old left.new right.new m)) }
{
    match order_lasts(left.as_slice(), right.as_slice())? {
        Ordering::Less => Ok(left.pop()),
        Ordering::Greater => Ok(right.pop()),
        Ordering::Equal => {
            left.pop();
            Ok(right.pop())
        }
    }
}

// Goes on with the members of two falling lists, each once.
fn go_on(
    mut done: List<(Span, Binding)>,
    mut left: List<(Span, Binding)>,
    mut right: List<(Span, Binding)>,
) -> Result<List<(Span, Binding)>, Memory>
    requires { CanGoOn done left right }
    ensures ordered { IfOk result (λ all. IsAscending member_cmp all) }
    ensures same { IfOk result (λ all. (m : a_member) → (Among done m ⊎ (Among left m ⊎ Among right m)) ↔ Among all m) }
{
    while let Some(one) = take_least(&mut left, &mut right)? {
        done.push(one)?;
    }
    Ok(done)
}

// Whether each of the first comes before each of the others, by the ends that meet.
fn is_before(first: &[(Span, Binding)], others: &[(Span, Binding)]) -> Result<bool, Memory>
    requires first { IsAscending member_cmp first.now }
    requires others { IsAscending member_cmp others.now }
    ensures { IfOk result (λ before. IsTrue before → AreBefore first.now others.now) }
{
    if first.is_empty() {
        return Ok(true);
    }
    if others.is_empty() {
        return Ok(true);
    }
    match order(&first[first.len() - 1], &others[0])? {
        Ordering::Less => Ok(true),
        Ordering::Greater => Ok(false),
        Ordering::Equal => Ok(false),
    }
}

/// The members of both lists in order, each once. It costs what the second has, where that comes behind the first.
pub fn merged(
    first: List<(Span, Binding)>,
    mut others: List<(Span, Binding)>,
) -> Result<List<(Span, Binding)>, Memory>
    requires first { IsAscending member_cmp first }
    requires others { IsAscending member_cmp others }
    ensures ordered { IfOk result (λ all. IsAscending member_cmp all) }
    ensures same { IfOk result (λ all. (m : a_member) → (Among first m ⊎ Among others m) ↔ Among all m) }
{
    let alloc = first.alloc();
    if is_before(first.as_slice(), others.as_slice())? {
        others.reverse();
        return go_on(first, List::new(alloc), others);
    }
    let mut falling = first;
    falling.reverse();
    others.reverse();
    go_on(List::new(alloc), falling, others)
}
