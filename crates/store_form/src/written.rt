//! Values that are written.

ghost use Rattle.std.specs.Prelude.{◌≡◌, List as list, map};
ghost use Rattle.node_tree.specs.Tree.{content_of, no_span};
ghost use Rattle.meta_bind.specs.Bounds.{seen};
ghost use Rattle.store_form.specs.Form.{number_bytes, text_bytes, span_bytes, list_bytes, kind_bytes, IsKind, head_of, head_bytes, node_bytes, bound_bytes, binding_bytes, member_bytes, members_bytes, IsNumber, IsText, IsSpan, IsHead, IsNodeWithin, IsNode, IsListOf, IsBound, IsBinding, IsMember};
ghost use Rattle.store_form.specs.Adds.{Adds, AddsAll};

use crate::fault::FormFault;
use crate::node::MOST_LEVELS;
use meta_bind::{Binding, Bound};
use node_tree::{Bytes, Kind, Node, Span};

/// Adds a number.
#[tactic(auto, unfolding(crate::specs::Form::number_bytes))]
pub fn add_number(out: &mut Bytes, number: u32) -> Result<(), FormFault>
    ensures { Adds IsNumber number_bytes number out.old result out.new }
{
    out.extend(&number.to_le_bytes())?;
    Ok(())
}

/// Adds a length.
pub fn add_length(out: &mut Bytes, length: usize) -> Result<(), FormFault>
    ensures { Adds IsNumber number_bytes length out.old result out.new }
{
    let Ok(number) = u32::try_from(length) else {
        return Err(FormFault::NoForm);
    };
    add_number(out, number)
}

// Adds a text.
fn add_text(out: &mut Bytes, text: &str) -> Result<(), FormFault>
    ensures { Adds IsText text_bytes text.now out.old result out.new }
{
    add_length(out, text.len())?;
    out.extend(text.as_bytes())?;
    Ok(())
}

// Adds a range.
fn add_span(out: &mut Bytes, span: Span) -> Result<(), FormFault>
    ensures { Adds IsSpan span_bytes span out.old result out.new }
{
    add_number(out, span.from)?;
    add_number(out, span.to)
}

// Adds a kind of a content.
#[tactic(auto, unfolding(crate::specs::Form::kind_bytes))]
fn add_kind(out: &mut Bytes, kind: Kind) -> Result<(), FormFault>
    requires { IsKind kind }
    ensures { Adds IsKind kind_bytes kind out.old result out.new }
{
    add_number(out, kind.place() as u32)
}

// Adds what of a node that has these parts stands before its kids.
fn add_parts(out: &mut Bytes, kind: Kind, text: &str, kids: usize) -> Result<(), FormFault>
    requires { IsKind kind }
    ensures { Adds IsHead head_bytes
        (record { kind = kind; text = text.now; span = no_span; kids = kids })
        out.old result out.new }
{
    add_kind(out, kind)?;
    add_text(out, text)?;
    add_span(out, Span { from: 0, to: 0 })?;
    add_length(out, kids)
}

// Adds what of a node's content stands before its kids.
fn add_head(out: &mut Bytes, node: &Node) -> Result<(), FormFault>
    ensures { Adds IsHead head_bytes (head_of (content_of node.now)) out.old result out.new }
{
    add_parts(
        out,
        node.kind.content(),
        node.text.as_str(),
        node.kids.len(),
    )
}

/// Adds the content of a node that has at most so many levels.
pub fn add_node(out: &mut Bytes, node: &Node, levels: u32) -> Result<(), FormFault>
    ensures { Adds (IsNodeWithin levels) node_bytes (content_of node.now) out.old result out.new }
{
    if levels == 0 {
        return Err(FormFault::NoForm);
    }
    add_head(out, node)?;
    for kid in node.kids.as_slice() {
        add_node(out, kid, levels - 1)?;
    }
    Ok(())
}

// Adds the contents of some nodes.
fn add_nodes(out: &mut Bytes, nodes: &[Node]) -> Result<(), FormFault>
    ensures { Adds (IsListOf IsNode) (list_bytes node_bytes) (map content_of nodes.now)
        out.old result out.new }
{
    add_length(out, nodes.len())?;
    for node in nodes {
        add_node(out, node, MOST_LEVELS)?;
    }
    Ok(())
}

// Adds a bound.
fn add_bound(out: &mut Bytes, bound: &Bound) -> Result<(), FormFault>
    ensures { Adds IsBound bound_bytes (seen bound.now) out.old result out.new }
{
    add_text(out, bound.name.as_str())?;
    add_span(out, bound.span)?;
    add_nodes(out, bound.nodes.as_slice())
}

// Adds some bounds.
fn add_bounds(out: &mut Bytes, bounds: &[Bound]) -> Result<(), FormFault>
    ensures { Adds (IsListOf IsBound) binding_bytes (map seen bounds.now)
        out.old result out.new }
{
    add_length(out, bounds.len())?;
    for bound in bounds {
        add_bound(out, bound)?;
    }
    Ok(())
}

// Adds a member.
fn add_member(out: &mut Bytes, member: &(Span, Binding)) -> Result<(), FormFault>
    ensures { Adds IsMember member_bytes member.now out.old result out.new }
{
    add_span(out, member.0)?;
    add_bounds(out, member.1.bounds())
}

/// Adds some members.
pub fn add_members(out: &mut Bytes, members: &[(Span, Binding)]) -> Result<(), FormFault>
    ensures { AddsAll IsMember member_bytes members.now out.old result out.new }
{
    for member in members {
        add_member(out, member)?;
    }
    Ok(())
}
