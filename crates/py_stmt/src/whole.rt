//! The statements that a whole text is.

ghost use Rattle.std.specs.Prelude.{◌≤◌, List as list, length, IfOk, Some};
ghost use Rattle.node_tree.specs.declared.node.Node.{Node as a_node};
ghost use Rattle.node_tree.specs.Gives.{Gives};
ghost use Rattle.py_expr.specs.Parts.{depth_nodes};
ghost use Rattle.py_stmt.specs.Modules.{AreStatements};
ghost use Rattle.py_lex.specs.declared.token.PyToken.{PyToken as token};
ghost use Rattle.py_lex.specs.Lexing.{IsTokensOf};
ghost use Rattle.py_lex.specs.Places.{AreTokensIn};

use node_tree::{LexFault, List, MOST_BYTES, Mode, Node, ReadFault};
use py_expr::{Item, shallow_end};
use py_lex::{PyToken, tokens};
use py_suite::file_input;
use std::alloc::Global;

/// How many steps deeper the reader may go: 501 for depth, 500 for brackets, and two.
const ROOM: u32 = 1003;

/// The statements that all items are, unless one is too deep.
pub fn read_items(alloc: Global, items: &[Item<'_>]) -> Result<List<Node>, ReadFault>
    ensures found { IfOk result (λ ns. depth_nodes ns ≤ 501 → AreStatements items.now ns) }
    ensures only { (ns : list a_node) → AreStatements items.now ns → Gives (λ m. m) result (Some ns) }
{
    if shallow_end(items, 0) < items.len() {
        return Err(ReadFault::NoTree);
    }
    let (kids, end) = file_input(alloc, items, ROOM, 0)?;
    if end < items.len() {
        return Err(ReadFault::NoTree);
    }
    Ok(kids)
}

/// The tokens of a text.
pub fn lexed(alloc: Global, text: &str, mode: Mode) -> Result<List<PyToken>, ReadFault>
    requires { length text.now ≤ MOST_BYTES }
    ensures given { IfOk result (IsTokensOf mode text.now) }
    ensures placed { IfOk result (AreTokensIn text.now) }
    ensures only { (ts : list token) → IsTokensOf mode text.now ts → Gives (λ l. l) result (Some ts) }
{
    match tokens(alloc, text, mode) {
        Ok(all) => Ok(all),
        Err(LexFault::Memory) => Err(ReadFault::Memory),
        Err(LexFault::NoTokens) => Err(ReadFault::NoTree),
    }
}
