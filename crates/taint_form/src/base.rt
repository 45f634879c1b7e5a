//! The name that an expression is, or that holds its object.

ghost use Rattle.std.specs.Prelude.{◌≡◌, codes};
ghost use Rattle.std.specs.Str.{bytes_eq};
ghost use Rattle.node_tree.specs.Tree.{kind_of, text_of, kids_of};
ghost use Rattle.assignments.specs.declared.assignment.Reach.TheVariants.{Base as as_base};
ghost use Rattle.assignments.specs.Targets.{is_name as is_name_spec, leading as leading_spec};
ghost use Rattle.taint_form.specs.Bases.{IsBase, node_in};
ghost use Rattle.point_nodes.specs.Tops.{part};

use node_tree::{Kind, List, Node, Text};

/// Whether it is a name.
pub fn is_name(kind: Kind) -> bool
    ensures { result ≡ is_name_spec kind }
{
    match kind {
        Kind::Name => true,
        _ => false,
    }
}

// Whether the text is `*`.
fn is_star(text: &Text) -> bool
    ensures { result ≡ bytes_eq text.now (codes "*") }
{
    text.as_str().as_bytes() == b"*".as_slice()
}

// The node at a place, if there is one.
fn kid(kids: &List<Node>, place: usize) -> Option<&Node>
    ensures { node_in result ≡ part place kids.now }
{
    kids.get(place)
}

// The kid of an expression that leads to the name of its object.
fn leading(node: &Node) -> Option<&Node>
    ensures { node_in result ≡
        leading_spec as_base (kind_of node.now) (text_of node.now) (kids_of node.now) }
{
    let kids = &node.kids;
    match node.kind {
        Kind::Attr => kid(kids, 0),
        Kind::Sub => kid(kids, 0),
        Kind::Cast => kid(kids, 1),
        Kind::Unary => {
            if is_star(&node.text) {
                return kid(kids, 0);
            }
            None
        }
        _ => None,
    }
}

/// The name that an expression is, or else the base of its object, if it has one.
pub fn base_of(node: &Node) -> Option<&str>
    ensures { IsBase result node.now }
{
    if is_name(node.kind) {
        return Some(node.text.as_str());
    }
    match leading(node) {
        Some(kid) => base_of(kid),
        None => None,
    }
}
