//! From a text to the tree of its module.

ghost use Rattle.std.specs.Prelude.{◌≡◌, ◌≤◌, length, IfOk, Some};
ghost use Rattle.node_tree.specs.declared.node.Node.{Node as a_node};
ghost use Rattle.node_tree.specs.Gives.{Gives};
ghost use Rattle.node_tree.specs.Spans.{SpansLieIn};
ghost use Rattle.py_stmt.specs.Modules.{IsModule};

use crate::whole::{lexed, read_items};
use node_tree::{Kind, MOST_BYTES, MOST_DEEP, Mode, Node, ReadFault};
use py_expr::{is_shallow, items, over};
use std::alloc::Global;

/// Reads the tree of a module in Python: a `Root`, which spans the whole text, over its statements.
///
/// NoTree comes exactly where the text has no tokens, or no tree at most 500 deep spells them, or a token stands inside more
/// than 500 open brackets.
pub fn read_module(alloc: Global, text: &str) -> Result<Node, ReadFault>
    requires { length text.now ≤ MOST_BYTES }
    // What is read is the tree of the module.
    ensures found { IfOk result (IsModule text.now) }
    // Its spans lie in the text, and cut no character of it.
    ensures placed { IfOk result (SpansLieIn text.now) }
    // Each tree of the module is the one that is read, unless memory runs out. So there is at most one.
    ensures only { (n : a_node) → IsModule text.now n → Gives (λ m. m) result (Some n) }
{
    let all = lexed(alloc, text, Mode::Text)?;
    let items = items(alloc, Mode::Text, all.as_slice(), MOST_DEEP)?;
    let statements = read_items(alloc, items.as_slice())?;
    let root = over(alloc, Kind::Root, 0, text.len() as u32, statements);
    if !is_shallow(&root, MOST_DEEP) {
        return Err(ReadFault::NoTree);
    }
    Ok(root)
}
