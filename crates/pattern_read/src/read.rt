//! Reading a pattern.

ghost use Rattle.std.specs.Prelude.{◌≡◌, ◌≤◌, length, IfOk, IfErr, Some};
ghost use Rattle.node_tree.specs.declared.node.Node.{Node as node};
ghost use Rattle.node_tree.specs.declared.view.Pattern.{Pattern as a_pattern};
ghost use Rattle.node_tree.specs.Gives.{Gives};
ghost use Rattle.node_tree.specs.declared.view.Shape.{Shape as a_shape};
ghost use Rattle.pattern_read.specs.Patterns.{IsPatternOf, IsFault, IsJsonPattern, IsTextOf, is_only_dots as spec_only_dots};
ghost use Rattle.code_reader.specs.Patterns.{GivesPattern};

use crate::dots::{are_all_dots, are_dots_placed, is_dots};
use c_unit::read_c_pattern;
use code_reader::PatternFault;
use json_tree::read_json;
use node_tree::{Lang, MOST_BYTES, Mode, Node, Pattern, ReadFault, Shape};
use py_stmt::read_py_pattern;
use std::alloc::Global;

// The one value of a JSON pattern.
fn json_pattern(alloc: Global, text: &str) -> Result<(Shape, Node), ReadFault>
    requires { length text.now ≤ MOST_BYTES }
    ensures value { IfOk result (λ x. IsJsonPattern text.now x.0 x.1) }
    ensures only { (shape : a_shape) (value : node) → IsJsonPattern text.now shape value → Gives (λ x. x) result (Some (shape, value)) }
{
    let mut root = read_json(alloc, text, Mode::Pattern)?;
    let Some(value) = root.kids.pop() else {
        return Err(ReadFault::NoTree);
    };
    Ok((Shape::Expr, value))
}

// The shape and the tree of a pattern, be its dots well placed or not.
fn pattern_tree(alloc: Global, lang: Lang, text: &str) -> Result<(Shape, Node), ReadFault>
    ensures value { IfOk result (λ x. IsTextOf lang text.now x.0 x.1) }
    ensures only { (shape : a_shape) (tree : node) → IsTextOf lang text.now shape tree → Gives (λ x. x) result (Some (shape, tree)) }
{
    if text.len() > MOST_BYTES {
        return Err(ReadFault::NoTree);
    }
    match lang {
        Lang::Json => json_pattern(alloc, text),
        Lang::Python => read_py_pattern(alloc, text),
        Lang::C => read_c_pattern(alloc, text),
        Lang::Regex => Err(ReadFault::NoTree),
    }
}

// Whether each top item of a pattern is `...` or `$...X`.
fn is_only_dots(shape: Shape, tree: &Node) -> bool
    ensures { result ≡ spec_only_dots shape tree.now }
{
    match shape {
        Shape::Expr => is_dots(tree.kind),
        Shape::Run => are_all_dots(tree.kids.as_slice()),
    }
}

/// Reads the pattern that a text writes in a language: a value of JSON, an expression or a run of statements of Python, an
/// expression or a run of items of C. For the language of texts alone NoPattern is given.
///
/// A pattern may have metavariables (`$X`), `...`, `$...X`, `"..."` and `<... P ...>` besides what the language has.
pub fn read_pattern(alloc: Global, lang: Lang, text: &str) -> Result<Pattern, PatternFault>
    ensures pattern { IfOk result (IsPatternOf lang text.now) }
    ensures fault { IfErr result (IsFault lang text.now) }
    // Each pattern that the text writes is the one that is read, unless memory runs out. So there is at most one.
    ensures only { (p : a_pattern) → IsPatternOf lang text.now p → GivesPattern p result }
{
    let (shape, tree) = pattern_tree(alloc, lang, text)?;
    if is_only_dots(shape, &tree) {
        return Err(PatternFault::OnlyDots);
    }
    if !are_dots_placed(&tree)? {
        return Err(PatternFault::DotsPlace);
    }
    Ok(Pattern {
        lang,
        shape,
        tree,
        constants: true,
    })
}
