//! From a text to the pattern that it is.

ghost use Rattle.std.specs.Prelude.{◌≡◌, ◌≤◌, length, IfOk, Some};
ghost use Rattle.node_tree.specs.Gives.{Gives};
ghost use Rattle.node_tree.specs.Spans.{SpansLieIn};
ghost use Rattle.node_tree.specs.declared.node.Node.{Node as a_node};
ghost use Rattle.node_tree.specs.declared.view.Shape.{Shape as a_shape};
ghost use Rattle.c_unit.specs.Units as units;
ghost use Rattle.c_unit.specs.Units.{level_of, IsExpression, IsRun, IsPattern};

use crate::unit::{ITEM_DEPTH, lexed};
use crate::whole::{Whole, read_whole};
use c_expr::{Token, classified, span_at};
use c_items::nodes_of;
use node_tree::{Kind, MOST_BYTES, MOST_DEEP, Mode, Node, ReadFault, Shape, Span, Text};
use std::alloc::Global;

/// The expression that the tokens are.
fn read_expression(alloc: Global, tokens: &[Token<'_>]) -> Result<Node, ReadFault>
    ensures found { IfOk result (IsExpression tokens.now) }
    ensures only { (n : a_node) → IsExpression tokens.now n → Gives (λ m. m) result (Some n) }
{
    let (mut parts, end) = read_whole(alloc, tokens, Whole::Expression, MOST_DEEP)?;
    let Some(part) = parts.pop() else {
        return Err(ReadFault::NoTree);
    };
    Ok(part.node)
}

/// Where the first so many tokens stand; at the text's start if there are none.
fn run_span(tokens: &[Token<'_>], end: usize) -> Span
    ensures { result ≡ units.run_span tokens.now end }
{
    if end == 0 {
        return Span { from: 0, to: 0 };
    }
    span_at(tokens, 0, end)
}

/// The block of the items that the tokens are.
fn read_run(alloc: Global, tokens: &[Token<'_>], whole: Whole) -> Result<Node, ReadFault>
    ensures found { IfOk result (IsRun (level_of whole) tokens.now) }
    ensures only { (n : a_node) → IsRun (level_of whole) tokens.now n → Gives (λ m. m) result (Some n) }
{
    let (parts, end) = read_whole(alloc, tokens, whole, ITEM_DEPTH)?;
    Ok(Node {
        kind: Kind::Block,
        text: Text::new(alloc),
        kids: nodes_of(alloc, parts)?,
        span: run_span(tokens, end),
    })
}

/// Reads the pattern that a text in C is: an expression (`comma`) where it is one, else a run of the items of a block, else one
/// of the items of a file.
///
/// The tree of a run is a `Block`. NoTree comes exactly where the text is none of these within the limits of depth and brackets.
pub fn read_c_pattern(alloc: Global, text: &str) -> Result<(Shape, Node), ReadFault>
    requires { length text.now ≤ MOST_BYTES }
    // What is read is the pattern that the text is.
    ensures found { IfOk result (λ x. IsPattern text.now x.0 x.1) }
    // The spans of its tree lie in the text, and cut no character of it.
    ensures placed { IfOk result (λ x. SpansLieIn text.now x.1) }
    // Each pattern that the text is, is the one that is read, unless memory runs out. So there is at most one.
    ensures only { (s : a_shape) (n : a_node) → IsPattern text.now s n → Gives (λ x. x) result (Some (s, n)) }
{
    let all = lexed(alloc, text, Mode::Pattern)?;
    let classed = classified(alloc, &all, Mode::Pattern)?;
    let tokens = classed.as_slice();
    match read_expression(alloc, tokens) {
        Ok(tree) => return Ok((Shape::Expr, tree)),
        Err(ReadFault::Memory) => return Err(ReadFault::Memory),
        Err(ReadFault::NoTree) => {}
    }
    match read_run(alloc, tokens, Whole::Items) {
        Ok(block) => return Ok((Shape::Run, block)),
        Err(ReadFault::Memory) => return Err(ReadFault::Memory),
        Err(ReadFault::NoTree) => {}
    }
    let block = read_run(alloc, tokens, Whole::FileItems)?;
    Ok((Shape::Run, block))
}
