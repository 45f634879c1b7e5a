//! What pattern nodes do, and what one node is by itself.

ghost use Rattle.std.specs.Prelude.{◌≡◌, ◌↔◌, IsTrue};
ghost use Rattle.node_tree.specs.Tree.{kind_of};
ghost use Rattle.node_match.specs.Kinds.{role_of as role, IsOne};
ghost use Rattle.node_match.specs.Free.{HasText};
ghost use Rattle.node_match.specs.Relation.{wild, IsString, all_strings};

use crate::free::is_text_free;
use node_tree::{Kind, Node, Text};

/// What a pattern node does.
#[derive(Clone, Copy, Debug, PartialEq, Eq)]
pub enum Role {
    /// It matches a node of the same kind and text.
    Plain,
    /// `$X`: it takes an expression, a name or a type.
    Meta,
    /// `$...X`: it takes a run of kids.
    MetaDots,
    /// `...`: it passes over kids.
    Dots,
    /// `<... p ...>`: it matches an expression in which the pattern matches some node.
    Deep,
    /// `"..."`: it matches any string.
    StrAny,
}

/// What a pattern node of this kind does.
pub fn role_of(kind: Kind) -> Role
    ensures { result ≡ role kind }
{
    match kind {
        Kind::Meta => Role::Meta,
        Kind::MetaDots => Role::MetaDots,
        Kind::Dots => Role::Dots,
        Kind::Deep => Role::Deep,
        Kind::StrAny => Role::StrAny,
        _ => Role::Plain,
    }
}

/// Whether a pattern node with that role matches one node, and not a run.
pub fn is_one(role: Role) -> bool
    ensures { IsTrue result ↔ IsOne role }
{
    match role {
        Role::Dots => false,
        Role::MetaDots => false,
        _ => true,
    }
}

/// Whether two kinds are one: `Id` and `Name` are two here.
pub fn is_same(a: Kind, b: Kind) -> bool
    ensures { IsTrue result ↔ (a ≡ b) }
{
    a == b
}

// Whether all of them are strings.
fn are_strings(nodes: &[Node]) -> bool
    ensures { IsTrue result ↔ all_strings nodes.now }
{
    for node in nodes {
        if !is_same(node.kind, Kind::Str) {
            return false;
        }
    }
    true
}

/// Whether the node is a string, or joined strings.
pub fn is_string(node: &Node) -> bool
    ensures { IsTrue result ↔ IsString node.now }
{
    if is_same(node.kind, Kind::Str) {
        return true;
    }
    if !is_same(node.kind, Kind::StrJoin) {
        return false;
    }
    are_strings(node.kids.as_slice())
}

/// Whether it is `$_`, the name that binds nothing.
pub fn is_wild(name: &Text) -> bool
    ensures { IsTrue result ↔ (name.now ≡ wild) }
{
    name.as_str().as_bytes() == b"$_".as_slice()
}

/// Whether the kind is the same, and the text is the one that the pattern asks for.
pub fn is_alike(pattern: &Node, node: &Node) -> bool
    ensures { IsTrue result ↔ ((kind_of pattern.now ≡ kind_of node.now) × HasText pattern.now node.now) }
{
    if !is_same(pattern.kind, node.kind) {
        return false;
    }
    if pattern.text.is_same(&node.text) {
        return true;
    }
    is_text_free(pattern)
}
