//! The expressions in a node that take part in its taint, and the outermost ones in a range.

ghost use Rattle.std.specs.Prelude.{◌≡◌, ◌++◌, List as list, OnOk, IfOk};
ghost use Rattle.node_tree.specs.declared.span.Span.{Span as a_span};
ghost use Rattle.taint_form.specs.Expressions.{exposed, outermost, lies_in as lies_in_spec, is_lambda as is_lambda_spec, nodes_now, shown, opens};
ghost use Rattle.taint_form.specs.Tables.{Holds};

use crate::span_set::SpanSet;
use node_tree::{Kind, List, Memory, Node, Span};

// Whether it is a lambda.
fn is_lambda(kind: Kind) -> bool
    ensures { result ≡ is_lambda_spec kind }
{
    match kind {
        Kind::Lambda => true,
        _ => false,
    }
}

// Adds the node, if it is exposed, and says whether what is below it may be.
fn enter<'t>(
    sanitizers: &SpanSet,
    node: &'t Node,
    into: &mut List<&'t Node>,
) -> Result<bool, Memory>
    ensures shown { (spans : list a_span) → Holds sanitizers.now spans → OnOk result (nodes_now into.new ≡
        nodes_now into.old ++ shown spans node.now) }
    ensures opens { (spans : list a_span) → Holds sanitizers.now spans →
        IfOk result (λ entered. entered ≡ opens spans node.now) }
{
    if !node.kind.is_expression() {
        return Ok(true);
    }
    if sanitizers.has(node.span) {
        return Ok(false);
    }
    into.push(node)?;
    Ok(!is_lambda(node.kind))
}

/// Adds the expressions in a node, itself among them, that no sanitizer and no lambda shuts off.
pub fn add_exposed<'t>(
    sanitizers: &SpanSet,
    node: &'t Node,
    into: &mut List<&'t Node>,
) -> Result<(), Memory>
    ensures { (spans : list a_span) → Holds sanitizers.now spans → OnOk result (nodes_now into.new ≡
        nodes_now into.old ++ exposed spans node.now) }
{
    if !enter(sanitizers, node, into)? {
        return Ok(());
    }
    for kid in node.kids.as_slice() {
        add_exposed(sanitizers, kid, into)?;
    }
    Ok(())
}

// Whether a span lies in a range.
fn lies_in(range: Span, span: Span) -> bool
    ensures { result ≡ lies_in_spec range span }
{
    range.from <= span.from && span.to <= range.to
}

/// Adds the outermost of the expressions in a node whose spans lie in the range.
pub fn add_outermost<'t>(
    range: Span,
    node: &'t Node,
    into: &mut List<&'t Node>,
) -> Result<(), Memory>
    ensures { OnOk result (nodes_now into.new ≡ nodes_now into.old ++ outermost range node.now) }
{
    if node.kind.is_expression() {
        if lies_in(range, node.span) {
            into.push(node)?;
            return Ok(());
        }
    }
    for kid in node.kids.as_slice() {
        add_outermost(range, kid, into)?;
    }
    Ok(())
}
