//! What a pattern asks of kids that may stand in another order.

ghost use Rattle.std.specs.Prelude.{◌≡◌};
ghost use Rattle.node_tree.specs.Tree.{kids_of};
ghost use Rattle.node_match.specs.Orders.{is_dots as dots, is_run as run, has_dots as dots_in, has_runs as runs_in, members_by, order_of as order, is_arguments as are_arguments, is_named as is_keyword, some_is, chooses as choosing, is_in as in_part};

use crate::class::{Role, role_of};
use crate::order::Order;
use node_tree::{Kind, Node};

/// Whether the pattern is `...`.
pub fn is_dots(pattern: &Node) -> bool
    ensures { result ≡ dots pattern.now }
{
    match role_of(pattern.kind) {
        Role::Dots => true,
        _ => false,
    }
}

// Whether the pattern is `$...X`.
fn is_run(pattern: &Node) -> bool
    ensures { result ≡ run pattern.now }
{
    match role_of(pattern.kind) {
        Role::MetaDots => true,
        _ => false,
    }
}

/// Whether one of the patterns is `...`.
pub fn has_dots(patterns: &[Node]) -> bool
    ensures { result ≡ dots_in patterns.now }
{
    for pattern in patterns {
        if is_dots(pattern) {
            return true;
        }
    }
    false
}

// Whether one of the patterns is `$...X`.
fn has_runs(patterns: &[Node]) -> bool
    ensures { result ≡ runs_in patterns.now }
{
    for pattern in patterns {
        if is_run(pattern) {
            return true;
        }
    }
    false
}

// The order of members.
fn members_order(pattern: &Node) -> Order
    ensures { result ≡ members_by (kids_of pattern.now) }
{
    if has_runs(pattern.kids.as_slice()) {
        return Order::Fixed;
    }
    Order::Any
}

/// In which order the kids of the pattern take those of a node.
pub fn order_of(pattern: &Node) -> Order
    ensures { result ≡ order pattern.now }
{
    match pattern.kind {
        Kind::Object => members_order(pattern),
        _ => Order::Fixed,
    }
}

/// Whether the pattern is the list of the arguments of a call, as its holder is of that kind, and binds none of them as a run.
pub fn is_arguments(holder: Kind, pattern: &Node) -> bool
    ensures { result ≡ are_arguments holder pattern.now }
{
    match (holder, pattern.kind) {
        (Kind::Call, Kind::List) => !has_runs(pattern.kids.as_slice()),
        _ => false,
    }
}

/// Whether it is an argument with a name.
pub fn is_named(node: &Node) -> bool
    ensures { result ≡ is_keyword node.now }
{
    match node.kind {
        Kind::Keyword => true,
        _ => false,
    }
}

/// Whether one of them is an argument with a name.
pub fn has_names(nodes: &[Node]) -> bool
    ensures { result ≡ some_is is_keyword nodes.now }
{
    for node in nodes {
        if is_named(node) {
            return true;
        }
    }
    false
}

/// Whether the pattern takes a node by choosing.
pub fn chooses(named: bool, pattern: &Node) -> bool
    ensures { result ≡ choosing named pattern.now }
{
    if named {
        return is_named(pattern);
    }
    !is_dots(pattern)
}

/// Whether the node is in the part of those with a name, or in that of those without.
pub fn is_in(named: bool, node: &Node) -> bool
    ensures { result ≡ in_part named node.now }
{
    if named {
        return is_named(node);
    }
    !is_named(node)
}
