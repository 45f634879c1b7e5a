//! A kid of a list, where a search may go into it.

ghost use Rattle.std.specs.Prelude.{◌≡◌, true, false, IsTrue, MatchOption};
ghost use Rattle.node_tree.specs.Tree.{kind_of};
ghost use Rattle.node_match.specs.Free.{HasText};
ghost use Rattle.node_match.specs.Orders.{order_of as order, is_arguments as are_arguments};
ghost use Rattle.node_match.specs.declared.order.Order.TheVariants.{Any};
ghost use Rattle.tree_match.specs.Insides.{IsInOrder, IsByKids, IsKidBy, IsWay, Opens};

use crate::aim::Search;
use crate::place::Inside;
use crate::stepping::asked_at;
use node_match::{Order, Role, has_names, is_alike, is_arguments, is_named, order_of, role_of};
use node_search::State;
use node_tree::{Kind, Node};

// Among how many kids all ways to choose are gathered: eight can be chosen in 40,320 ways.
const FEW_KIDS: usize = 8;

// Whether two kids of the pattern have a name, so that they may match in another order.
fn has_two_names(pattern: &Node) -> bool {
    let mut some = false;
    for kid in pattern.kids.as_slice() {
        if is_named(kid) {
            if some {
                return true;
            }
            some = true;
        }
    }
    false
}

// Whether the pattern itself may match in more than one way, whatever its kids are.
fn is_open(pattern: &Node) -> bool {
    match role_of(pattern.kind) {
        Role::Dots => true,
        Role::MetaDots => true,
        Role::Deep => true,
        _ => order_of(pattern) == Order::Any || has_two_names(pattern),
    }
}

// Whether the kids of the pattern, taken in order, may match in more than one way.
fn has_ways(pattern: &Node) -> bool {
    for kid in pattern.kids.as_slice() {
        if is_open(kid) {
            return true;
        }
        if has_ways(kid) {
            return true;
        }
    }
    false
}

/// Whether the pattern matches this kid, of a holder of that kind, just where its kids match those of the kid in order.
pub fn is_in_order(holder: Kind, pattern: &Node, node: &Node) -> bool
    ensures { IsTrue result → IsInOrder holder pattern.now node.now }
{
    let Role::Plain = role_of(pattern.kind) else {
        return false;
    };
    if pattern.kind.is_literal() {
        return false;
    }
    let Order::Fixed = order_of(pattern) else {
        return false;
    };
    if !is_alike(pattern, node) {
        return false;
    }
    if !is_arguments(holder, pattern) {
        return true;
    }
    if has_names(pattern.kids.as_slice()) {
        return false;
    }
    !has_names(node.kids.as_slice())
}

/// Whether the pattern may match in more than one way by its kids.
pub fn may_branch(pattern: &Node) -> bool {
    order_of(pattern) == Order::Any || has_two_names(pattern) || has_ways(pattern)
}

// Whether a kid of the pattern may match in more than one way by its own kids.
fn has_inner_ways(pattern: &Node) -> bool {
    for kid in pattern.kids.as_slice() {
        if has_ways(kid) {
            return true;
        }
    }
    false
}

/// Whether the pattern's kids choose among so few that all ways can be gathered at once.
pub fn is_small_choice(pattern: &Node, node: &Node) -> bool
    ensures { IsTrue result → order pattern.now ≡ Any }
{
    let Order::Any = order_of(pattern) else {
        return false;
    };
    if FEW_KIDS < node.kids.len() {
        return false;
    }
    !has_inner_ways(pattern)
}

// Whether the pattern matches this node just where its kids match those of the node.
fn is_by_kids(pattern: &Node, node: &Node) -> bool
    ensures { IsTrue result → IsByKids pattern.now node.now }
{
    let Role::Plain = role_of(pattern.kind) else {
        return false;
    };
    if pattern.kind.is_literal() {
        return false;
    }
    is_alike(pattern, node)
}

/// The same, in one of several ways.
pub fn may_enter(pattern: &Node, node: &Node) -> bool
    ensures { IsTrue result → IsByKids pattern.now node.now }
{
    may_branch(pattern) && is_by_kids(pattern, node)
}

// The same of a kid of a holder of that kind.
fn is_kid_by_kids(holder: Kind, pattern: &Node, node: &Node) -> bool
    ensures { IsTrue result → IsKidBy false holder pattern.now node.now }
{
    if is_arguments(holder, pattern) {
        return is_in_order(holder, pattern, node);
    }
    is_by_kids(pattern, node)
}

// Whether pattern and kid are arguments of a call, a holder of that kind, of which so many may have names that they aren't gathered.
fn are_many_arguments(holder: Kind, pattern: &Node, node: &Node) -> bool
    ensures arguments { IsTrue result → are_arguments holder pattern.now ≡ true }
    ensures alike { IsTrue result → (kind_of pattern.now ≡ kind_of node.now) × HasText pattern.now node.now }
{
    if !is_arguments(holder, pattern) {
        return false;
    }
    if node.kids.len() <= FEW_KIDS && !has_inner_ways(pattern) {
        return false;
    }
    is_alike(pattern, node)
}

// How a kid of a holder of that kind is matched by the kids of the part, if it is: whether as arguments of a call of which some have names.
fn way_into(holder: Kind, pattern: &Node, node: &Node) -> Option<bool>
    ensures { MatchOption result (Unit {0}) (λ way. IsWay way holder pattern.now node.now) }
{
    if is_small_choice(pattern, node) {
        return None;
    }
    if is_kid_by_kids(holder, pattern, node) {
        return Some(false);
    }
    if are_many_arguments(holder, pattern, node) {
        return Some(true);
    }
    None
}

/// The part at this place and the kid before which the state stands, where the part matches the kid just where its kids match those
/// of the kid, in one of several ways.
pub fn inside_of<'p, 't>(
    search: Search<'_, '_, 'p, 't>,
    from: usize,
    state: &State<'t>,
) -> Option<Inside<'p, 't>>
    ensures { MatchOption result (Unit {0}) (Opens search.entry from state.now) }
{
    if state.floating {
        return None;
    }
    let nodes = search.holder.kids;
    if nodes.len() <= state.at {
        return None;
    }
    if search.pattern.kids.len() <= from {
        return None;
    }
    let Some(part) = asked_at(search, from) else {
        return None;
    };
    if !may_branch(part) {
        return None;
    }
    let kid = nodes[state.at];
    let Some(arguments) = way_into(search.holder.spot.node.kind, part, kid.node) else {
        return None;
    };
    Some(Inside {
        part,
        kid,
        arguments,
        from: from + 1,
        at: state.at + 1,
    })
}
