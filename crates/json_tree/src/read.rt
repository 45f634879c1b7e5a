//! The public call: from a text to its tree.

ghost use Rattle.std.specs.Prelude.{◌≤◌, length, IfOk, Some};
ghost use Rattle.node_tree.specs.Spans.{SpansLieIn};
ghost use Rattle.node_tree.specs.declared.node.Node.{Node as node};
ghost use Rattle.node_tree.specs.Gives.{Gives};
ghost use Rattle.json_tree.specs.Spells.{IsTreeOf, IsValueOf};

use crate::lex::lex;
use crate::limits::{few_brackets, is_shallow};
use crate::reader::{node_over, value};
use crate::token::Token;
use node_tree::{Kind, List, MOST_BYTES, MOST_DEEP, Mode, Node, ReadFault};
use std::alloc::Global;

/// How deep a value may be, below the root of a tree.
const MAX_DEPTH: u32 = MOST_DEEP - 1;

/// How many steps deeper the reader may go: so that depth, brackets and what stands in them never reach it.
const ROOM: u32 = 1001;

/// The value that all the tokens spell.
fn whole_value(alloc: Global, tokens: &[Token<'_>]) -> Result<Node, ReadFault>
    ensures found { IfOk result (IsValueOf tokens.now) }
    ensures only { (n : node) → IsValueOf tokens.now n → Gives (λ m. m) result (Some n) }
{
    let (found, end) = value(alloc, tokens, ROOM, 0)?;
    if end != tokens.len() {
        return Err(ReadFault::NoTree);
    }
    if !is_shallow(&found, MAX_DEPTH) {
        return Err(ReadFault::NoTree);
    }
    if !few_brackets(tokens) {
        return Err(ReadFault::NoTree);
    }
    Ok(found)
}

/// Reads a JSON text (RFC 8259) into its tree.
///
/// The tree is a `Root` over the one value. An `Object` has `Member`s, each with a `Str` as its key and a value, an `Array`
/// has values, and a `Str`, a `Number` and a `Const` (`true`, `false` and `null`) have no kids. Numbers and escapes stay as
/// they are written: the text of a `Str` is the opening quote and what follows it up to the closing one. Two members may have
/// the same key. A byte order mark at the start is skipped. Spans are in bytes, from 0, and the root spans the whole text.
///
/// In a pattern `...` (`Dots`), `$...NAME` (`MetaDots`), `$NAME` (`Meta`) and `<... value ...>` (`Deep`) are values too.
/// `Dots` and `MetaDots` also stand in an object where a member does, and a `Meta` may be a key. The string `"..."` is a
/// `StrAny`, as a key and as a value. A NAME is a capital letter or `_`, and then capital letters, digits and `_`.
///
/// NoTree comes exactly where the text is no JSON text, or its tree would be more than 500 deep, or a token would stand
/// inside more than 500 open brackets.
pub fn read_json(alloc: Global, text: &str, mode: Mode) -> Result<Node, ReadFault>
    requires { length text.now ≤ MOST_BYTES }
    // What is read is the tree of the text.
    ensures found { IfOk result (IsTreeOf mode text.now) }
    // Each tree of the text is the one that is read, unless memory runs out. So there is at most one.
    ensures only { (n : node) → IsTreeOf mode text.now n → Gives (λ m. m) result (Some n) }
    ensures placed { IfOk result (SpansLieIn text.now) }
{
    let tokens = lex(alloc, text, mode)?;
    let found = whole_value(alloc, tokens.as_slice())?;
    let kids = List::from_vec(vec![in alloc; found]?);
    Ok(node_over(alloc, Kind::Root, 0, text.len() as u32, kids))
}
