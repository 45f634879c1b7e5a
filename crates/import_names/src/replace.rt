//! Trees in which names are replaced.

ghost use Rattle.std.specs.Prelude.{◌≡◌, IfOk};
ghost use Rattle.node_tree.specs.declared.kind.Kind.TheVariants.{Name};
ghost use Rattle.import_names.specs.Claims as said;
ghost use Rattle.import_names.specs.Ordered.{AreInOrder};
ghost use Rattle.import_names.specs.Resolved as spec;

use crate::claim::Claim;
use crate::meanings::meaning;
use node_tree::{Kind, List, Memory, Node, Span, Text, Twin, Written};
use std::alloc::Global;

/// What a node stands for: one without kids that is a name.
pub fn meant<'c, 't>(claims: &'c [Claim<'t>], node: &Node) -> &'c [Written<'t>]
    requires { AreInOrder claims.now }
    ensures { result.now ≡ spec.meant_at (said.meaning claims.now) node.now }
{
    if node.kind != Kind::Name {
        return &[];
    }
    if node.kids.len() > 0 {
        return &[];
    }
    meaning(claims, node.text.as_str())
}

// A node without kids.
fn leaf(alloc: Global, kind: Kind, text: &str, span: Span) -> Result<Node, Memory>
    ensures { IfOk result (λ node. node ≡ spec.leaf kind text.now span) }
{
    Ok(Node {
        kind,
        text: Text::from_str(alloc, text)?,
        kids: List::new(alloc),
        span,
    })
}

// An attribute of an object.
fn attribute(alloc: Global, object: Node, name: &str, span: Span) -> Result<Node, Memory>
    ensures { IfOk result (λ node. node ≡ spec.attribute object name.now span) }
{
    let mut kids = List::new(alloc);
    kids.push(object)?;
    kids.push(leaf(alloc, Kind::Id, name, span)?)?;
    Ok(Node {
        kind: Kind::Attr,
        text: Text::from_str(alloc, ".")?,
        kids,
        span,
    })
}

// A dotted name of a first part and others.
fn dotted(
    alloc: Global,
    first: &Written<'_>,
    others: &[Written<'_>],
    span: Span,
) -> Result<Node, Memory>
    ensures { IfOk result (λ node. node ≡
        spec.attributes (spec.leaf Name first.now span) others.now span) }
{
    let mut node = leaf(alloc, Kind::Name, first.as_str(), span)?;
    for name in others {
        node = attribute(alloc, node, name.as_str(), span)?;
    }
    Ok(node)
}

/// A tree with each name replaced by what it stands for by these claims.
pub fn replaced(alloc: Global, claims: &[Claim<'_>], node: &Node) -> Result<Node, Memory>
    requires { AreInOrder claims.now }
    ensures { IfOk result (λ tree. tree ≡ spec.replaced (said.meaning claims.now) node.now) }
{
    if let Some((first, others)) = meant(claims, node).split_first() {
        let tree = dotted(alloc, first, others, node.span)?;
        return Ok(tree);
    }
    let text = node.text.copy()?;
    let mut kids = List::new(alloc);
    for kid in node.kids.as_slice() {
        kids.push(replaced(alloc, claims, kid)?)?;
    }
    Ok(Node {
        kind: node.kind,
        text,
        kids,
        span: node.span,
    })
}
