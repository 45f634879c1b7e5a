//! A look at a node and the levels below it that rules a match out, whatever is bound, before the search makes any state.

ghost use Rattle.std.specs.Prelude.{◌≡◌, ◌↔◌, true, IsTrue};
ghost use Rattle.node_tree.specs.Tree.{kids_of, kind_of};
ghost use Rattle.node_tree.specs.declared.kind.Kind.TheVariants.{Name};
ghost use Rattle.node_tree.specs.Kinds.{is_literal as literal};
ghost use Rattle.std.specs.Option.{option_copied};
ghost use Rattle.node_match.specs.Free.{parts_of};
ghost use Rattle.node_match.specs.Orders.{is_list};
ghost use Rattle.node_match.specs.Refused.{IsSingle, all_single, IsRefused, IsRefusedBy, IsKidRefused, AreRefused, IsFrontRefused, AreKidsRefused, AreArgumentsRefused, AreNamesRefused, IsChoiceRefused};

use crate::asked::{has_dots, has_names, is_arguments, is_dots, is_named, order_of};
use crate::class::{Role, is_alike, is_one, is_same, is_string, role_of};
use crate::free::part_at;
use crate::order::Order;
use node_tree::{Kind, Node};

/// How many levels below the kids of a node are looked at. A name of a member is at the first of them.
pub const LOOK: u32 = 2;

// Whether the part takes one node, and not a run.
fn is_single(part: Option<&Node>) -> bool
    ensures { IsTrue result ↔ IsSingle (option_copied part.entry) }
{
    match part {
        None => true,
        Some(pattern) => is_one(role_of(pattern.kind)),
    }
}

// Whether each part takes one node.
fn are_single(pattern: &Node) -> bool
    ensures { IsTrue result ↔ all_single (parts_of pattern.now) }
{
    for at in 0..pattern.kids.len() {
        if !is_single(part_at(pattern, at)) {
            return false;
        }
    }
    true
}

// Whether the pattern is a literal, and the node a name that may be known to hold it.
fn may_hold(pattern: Kind, node: Kind) -> bool
    ensures { IsTrue result ↔ ((literal pattern ≡ true) × (node ≡ Name)) }
{
    if !pattern.is_literal() {
        return false;
    }
    is_same(node, Kind::Name)
}

// Whether a match of the node is ruled out by the node itself and so many levels below it.
#[cycle(refusal)]
fn is_refused(pattern: &Node, node: &Node, levels: u32) -> bool
    ensures { IsTrue result → IsRefused pattern.now node.now }
{
    match role_of(pattern.kind) {
        Role::Plain => {
            if may_hold(pattern.kind, node.kind) {
                return false;
            }
            if !is_alike(pattern, node) {
                return true;
            }
            if levels == 0 {
                return false;
            }
            are_kids_refused(pattern, node, levels - 1)
        }
        Role::Meta => !node.kind.is_term(),
        Role::StrAny => {
            if is_same(node.kind, Kind::Name) {
                return false;
            }
            !is_string(node)
        }
        Role::Deep => !node.kind.is_expression(),
        Role::Dots => false,
        Role::MetaDots => false,
    }
}

/// Whether a match of the kids is ruled out by how many they are, or by themselves and so many levels below them.
#[cycle(refusal)]
pub fn are_kids_refused(pattern: &Node, node: &Node, levels: u32) -> bool
    ensures { IsTrue result → AreKidsRefused pattern.now node.now }
{
    let nodes = node.kids.as_slice();
    match order_of(pattern) {
        Order::Fixed => are_refused(node.kind, pattern, nodes, levels),
        Order::Any => is_choice_refused(pattern, nodes, levels),
    }
}

// The same where each pattern takes a kid that none before it took.
#[cycle(refusal)]
fn is_choice_refused(pattern: &Node, nodes: &[Node], levels: u32) -> bool
    ensures { IsTrue result → IsChoiceRefused (kids_of pattern.now) nodes.now }
{
    let patterns = pattern.kids.as_slice();
    if nodes.len() != patterns.len() && !has_dots(patterns) {
        return true;
    }
    for one in patterns {
        if is_none(one, nodes, levels) && !is_dots(one) {
            return true;
        }
    }
    false
}

// Whether none of the nodes can match, as the nodes and so many levels below them say.
#[cycle(refusal)]
fn is_none(pattern: &Node, nodes: &[Node], levels: u32) -> bool
    ensures { IsTrue result → IsRefusedBy nodes.now pattern.now }
{
    for node in nodes {
        if !is_refused(pattern, node, levels) {
            return false;
        }
    }
    true
}

/// Whether a match of a kid of a holder of that kind is ruled out by the kid itself and so many levels below it.
#[cycle(refusal)]
pub fn is_kid_refused(holder: Kind, pattern: &Node, node: &Node, levels: u32) -> bool
    ensures { IsTrue result → IsKidRefused holder pattern.now node.now }
{
    if is_arguments(holder, pattern) {
        return are_arguments_refused(pattern, node, levels);
    }
    is_refused(pattern, node, levels)
}

// The same of the arguments of a call.
#[cycle(refusal)]
fn are_arguments_refused(pattern: &Node, node: &Node, levels: u32) -> bool
    requires { is_list (kind_of pattern.now) ≡ true }
    ensures { IsTrue result → AreArgumentsRefused pattern.now node.now }
{
    if !is_alike(pattern, node) {
        return true;
    }
    if levels == 0 {
        return false;
    }
    let patterns = pattern.kids.as_slice();
    let nodes = node.kids.as_slice();
    if has_names(patterns) {
        return is_named_refused(pattern, nodes, levels - 1);
    }
    if has_names(nodes) {
        return false;
    }
    are_refused(node.kind, pattern, nodes, levels - 1)
}

// Whether an argument with a name matches none of the nodes, as the nodes and so many levels below them say.
#[cycle(refusal)]
fn is_named_refused(pattern: &Node, nodes: &[Node], levels: u32) -> bool
    ensures { IsTrue result → AreNamesRefused (kids_of pattern.now) nodes.now }
{
    for one in pattern.kids.as_slice() {
        if is_named(one) {
            if is_none(one, nodes, levels) {
                return true;
            }
        }
    }
    false
}

// Whether a match of these nodes, all of them and in order, by what the pattern asks of kids is ruled out by how many they
// are, or by one before the first dots and so many levels below it. A node of that kind holds them.
#[cycle(refusal)]
fn are_refused(holder: Kind, pattern: &Node, nodes: &[Node], levels: u32) -> bool
    ensures { IsTrue result → AreRefused holder (parts_of pattern.now) nodes.now }
{
    if pattern.kids.len() < nodes.len() && are_single(pattern) {
        return true;
    }
    is_front_refused(holder, pattern, nodes, levels)
}

/// Whether a match of some of these nodes from the first on is ruled out by one before the first dots and so many levels
/// below it. A node of that kind holds them.
#[cycle(refusal)]
pub fn is_front_refused(holder: Kind, pattern: &Node, nodes: &[Node], levels: u32) -> bool
    ensures { IsTrue result → IsFrontRefused holder (parts_of pattern.now) nodes.now }
{
    for at in 0..pattern.kids.len() {
        let part = part_at(pattern, at);
        if !is_single(part) {
            return false;
        }
        if nodes.len() <= at {
            return true;
        }
        let node = &nodes[at];
        if let Some(kid) = part {
            if is_kid_refused(holder, kid, node, levels) {
                return true;
            }
        }
    }
    false
}
