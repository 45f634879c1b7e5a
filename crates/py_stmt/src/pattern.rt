//! From a text to the pattern that it is.

ghost use Rattle.std.specs.Prelude.{◌≡◌, ◌≤◌, ◌↔◌, [], ◌∷◌, length, IfOk, Some, IsTrue};
ghost use Rattle.node_tree.specs.declared.node.Node.{Node as a_node};
ghost use Rattle.node_tree.specs.declared.view.Shape.{Shape as a_shape};
ghost use Rattle.node_tree.specs.Gives.{Gives};
ghost use Rattle.node_tree.specs.Spans.{SpansLieIn};
ghost use Rattle.py_stmt.specs.Modules.{IsExpression, IsShape, IsPattern};
ghost use Rattle.py_stmt.specs.Modules as spec;

use crate::whole::{lexed, read_items};
use node_tree::{Kind, List, MOST_BYTES, MOST_DEEP, Memory, Mode, Node, ReadFault, Shape};
use py_expr::{Item, is_shallow, items, over};
use py_suite::plain;
use std::alloc::Global;

/// The block of the statements that the items are, from where the first begins to where the last ends.
#[tactic(auto, using(py_suite::proofs::Forms::padded_none))]
fn block(alloc: Global, items: &[Item<'_>], statements: List<Node>) -> Result<Node, Memory>
    ensures { IfOk result (λ n. n ≡ spec.block items.now statements) }
{
    if statements.is_empty() {
        return Ok(over(alloc, Kind::Block, 0, 0, statements));
    }
    plain(
        alloc,
        items,
        Kind::Block,
        0,
        items.len().saturating_sub(1),
        statements,
    )
}

/// Whether statements are one, which is an expression.
fn is_expression(statements: &[Node]) -> bool
    ensures { IsTrue result ↔ ((tree : a_node) × IsExpression statements.now tree) }
{
    let [statement] = statements else {
        return false;
    };
    if statement.kind != Kind::ExprStmt {
        return false;
    }
    statement.kids.len() == 1
}

/// What the statements that the items are are as a pattern.
fn shaped(
    alloc: Global,
    items: &[Item<'_>],
    mut statements: List<Node>,
) -> Result<(Shape, Node), ReadFault>
    ensures found { IfOk result (λ x. IsShape items.now statements x.0 x.1) }
    ensures only { (s : a_shape) (n : a_node) → IsShape items.now statements s n → Gives (λ x. x) result (Some (s, n)) }
{
    if !is_expression(statements.as_slice()) {
        return Ok((Shape::Run, block(alloc, items, statements)?));
    }
    let Some(mut statement) = statements.pop() else {
        return Err(ReadFault::NoTree);
    };
    let Some(tree) = statement.kids.pop() else {
        return Err(ReadFault::NoTree);
    };
    Ok((Shape::Expr, tree))
}

/// Reads the pattern that a text in Python is: an expression where it is one statement that is an expression, else a run of
/// statements, of which there may be none.
///
/// The tree of a run is a `Block`, from where the first statement begins to where the last ends. NoTree comes exactly where the
/// text has no tokens, or no tree at most 500 deep spells them, or a token stands inside more than 500 open brackets.
pub fn read_py_pattern(alloc: Global, text: &str) -> Result<(Shape, Node), ReadFault>
    requires { length text.now ≤ MOST_BYTES }
    // What is read is the pattern that the text is.
    ensures found { IfOk result (λ x. IsPattern text.now x.0 x.1) }
    // Its spans lie in the text, and cut no character of it.
    ensures placed { IfOk result (λ x. SpansLieIn text.now x.1) }
    // Each pattern that the text is, is the one that is read, unless memory runs out. So there is at most one.
    ensures only { (s : a_shape) (n : a_node) → IsPattern text.now s n → Gives (λ x. x) result (Some (s, n)) }
{
    let all = lexed(alloc, text, Mode::Pattern)?;
    let seen = items(alloc, Mode::Pattern, all.as_slice(), MOST_DEEP)?;
    let items = seen.as_slice();
    let statements = read_items(alloc, items)?;
    let (shape, tree) = shaped(alloc, items, statements)?;
    if !is_shallow(&tree, MOST_DEEP) {
        return Err(ReadFault::NoTree);
    }
    Ok((shape, tree))
}
