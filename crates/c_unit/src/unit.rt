//! From a text to the tree of its file.

ghost use Rattle.std.specs.Prelude.{◌≡◌, ◌≤◌, List as list, length, IfOk, Some};
ghost use Rattle.node_tree.specs.Gives.{Gives};
ghost use Rattle.node_tree.specs.Spans.{SpansLieIn};
ghost use Rattle.node_tree.specs.declared.node.Node.{Node as a_node};
ghost use Rattle.c_lex.specs.declared.token.CToken.{CToken as c_token};
ghost use Rattle.c_lex.specs.Lexing.{IsTokensOf};
ghost use Rattle.c_lex.specs.Places.{AreTokensIn};
ghost use Rattle.c_unit.specs.Units.{IsUnit};

use crate::whole::{Whole, read_whole};
use c_expr::classified;
use c_items::nodes_of;
use c_lex::{CToken, c_tokens};
use node_tree::{Kind, LexFault, List, MOST_BYTES, MOST_DEEP, Mode, Node, ReadFault, Span, Text};
use std::alloc::Global;

/// How deep an item of a file, or of a run, may be.
pub const ITEM_DEPTH: u32 = MOST_DEEP - 1;

/// The tokens of a text.
pub fn lexed(alloc: Global, text: &str, mode: Mode) -> Result<List<CToken>, ReadFault>
    requires { length text.now ≤ MOST_BYTES }
    ensures given { IfOk result (λ l. IsTokensOf mode text.now l) }
    ensures placed { IfOk result (AreTokensIn text.now) }
    ensures only { (ts : list c_token) → IsTokensOf mode text.now ts → Gives (λ l. l) result (Some ts) }
{
    match c_tokens(alloc, text, mode) {
        Ok(all) => Ok(all),
        Err(LexFault::Memory) => Err(ReadFault::Memory),
        Err(LexFault::NoTokens) => Err(ReadFault::NoTree),
    }
}

/// Reads the tree of a file in C: a `Root`, which spans the whole text, over its items.
///
/// NoTree comes exactly where the text has no tokens, or no tree at most 500 deep spells them, or a token stands inside more
/// than 500 open brackets.
pub fn read_unit(alloc: Global, text: &str) -> Result<Node, ReadFault>
    requires { length text.now ≤ MOST_BYTES }
    // What is read is the tree of the file.
    ensures found { IfOk result (IsUnit text.now) }
    // Its spans lie in the text, and cut no character of it.
    ensures placed { IfOk result (SpansLieIn text.now) }
    // Each tree of the file is the one that is read, unless memory runs out. So there is at most one.
    ensures only { (n : a_node) → IsUnit text.now n → Gives (λ m. m) result (Some n) }
{
    let all = lexed(alloc, text, Mode::Text)?;
    let classed = classified(alloc, &all, Mode::Text)?;
    let (parts, end) = read_whole(alloc, classed.as_slice(), Whole::FileItems, ITEM_DEPTH)?;
    let span = Span {
        from: 0,
        to: text.len() as u32,
    };
    Ok(Node {
        kind: Kind::Root,
        text: Text::new(alloc),
        kids: nodes_of(alloc, parts)?,
        span,
    })
}
