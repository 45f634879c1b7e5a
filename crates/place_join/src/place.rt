//! Places of members: a range, and names with their spans.

ghost use Rattle.std.specs.Prelude.{◌≡◌, map};
ghost use Rattle.std.specs.Cmp.Lexicographic.{slice_cmp};
ghost use Rattle.std.specs.Option.{option_copied};
ghost use Rattle.std.specs.Ordering.{is_eq, is_lt};
ghost use Rattle.meta_bind.specs.Bounds.{place_cmp as bound_cmp, seen};
ghost use Rattle.tree_match.specs.Ascending.{IsAscending};
ghost use Rattle.tree_match.specs.Members.{member_cmp};
ghost use Rattle.std.specs.List.Sorted.{IsPartitionPoint};
ghost use Rattle.std.specs.Prelude.{true, false};
ghost use Rattle.place_join.specs.Joined.{place_cmp, IsFirstAt};

use meta_bind::{Binding, Bound};
use node_tree::Span;
use std::cmp::Ordering;

// Which of two bounds comes first, by name and then by span.
fn bound_order(a: &Bound, b: &Bound) -> Ordering
    ensures { result ≡ bound_cmp (seen a.now) (seen b.now) }
{
    a.name
        .as_str()
        .cmp(b.name.as_str())
        .then(a.span.order(b.span))
}

// Which of two lists of bounds comes first, by names with spans.
fn bounds_order(a: &[Bound], b: &[Bound]) -> Ordering
    ensures { result ≡ slice_cmp bound_cmp (map seen a.now) (map seen b.now) }
{
    for (i, one) in a.iter().enumerate() {
        if b.len() <= i {
            return Ordering::Greater;
        }
        match bound_order(one, &b[i]) {
            Ordering::Less => return Ordering::Less,
            Ordering::Greater => return Ordering::Greater,
            Ordering::Equal => {}
        }
    }
    if a.len() < b.len() {
        Ordering::Less
    } else {
        Ordering::Equal
    }
}

// Which of two members comes first, by place.
fn place_order(a: &(Span, Binding), b: &(Span, Binding)) -> Ordering
    ensures { result ≡ place_cmp a.now b.now }
{
    match a.0.order(b.0) {
        Ordering::Less => Ordering::Less,
        Ordering::Greater => Ordering::Greater,
        Ordering::Equal => bounds_order(a.1.bounds(), b.1.bounds()),
    }
}

// Whether the first comes before the place of the second.
fn is_before(a: &(Span, Binding), b: &(Span, Binding)) -> bool
    ensures { result ≡ is_lt (place_cmp a.now b.now) }
{
    match place_order(a, b) {
        Ordering::Less => true,
        Ordering::Equal => false,
        Ordering::Greater => false,
    }
}

// Whether both stand at one place.
fn is_there(a: &(Span, Binding), b: &(Span, Binding)) -> bool
    ensures { result ≡ is_eq (place_cmp a.now b.now) }
{
    match place_order(a, b) {
        Ordering::Less => false,
        Ordering::Equal => true,
        Ordering::Greater => false,
    }
}

// How many of the members come before the place of that one.
fn count_before(members: &[(Span, Binding)], one: &(Span, Binding)) -> usize
    requires { IsAscending member_cmp members.now }
    ensures { IsPartitionPoint (λ m. is_lt (place_cmp m one.now) ≡ true) (λ m. is_lt (place_cmp m one.now) ≡ false) members.now result }
{
    members.partition_point(|m| is_before(m, one))
}

/// The least of the members at the place of that one.
pub fn first_at<'l>(
    members: &'l [(Span, Binding)],
    one: &(Span, Binding),
) -> Option<&'l (Span, Binding)>
    requires { IsAscending member_cmp members.now }
    ensures { IsFirstAt members.now one.now (option_copied result) }
{
    let at = count_before(members, one);
    if members.len() <= at {
        return None;
    }
    let found = &members[at];
    if is_there(found, one) {
        Some(found)
    } else {
        None
    }
}
