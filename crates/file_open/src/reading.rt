//! From texts to trees.

ghost use Rattle.std.specs.Prelude.{◌≡◌, ◌≤◌, length, IfOk, Some};
ghost use Rattle.node_tree.specs.Gives.{Gives};
ghost use Rattle.node_tree.specs.Spans.{SpansLieIn};
ghost use Rattle.node_tree.specs.declared.node.Node.{Node as node};
ghost use Rattle.file_open.specs.Reading.{IsTreeIn, plain_tree as plain};

use code_reader::TreeReader;
use node_tree::{Kind, Lang, List, MOST_BYTES, Node, ReadFault, Span, Text};
use std::alloc::Global;

/// The tree of a text that is only searched: one node over all of it. It takes no memory.
#[tactic(auto, using(crate::proofs::PlainTrees::plain_lies))]
pub fn plain_tree(alloc: Global, text: &str) -> Node
    requires { length text.now ≤ MOST_BYTES }
    ensures tree { result ≡ plain text.now }
    ensures placed { SpansLieIn text.now result }
{
    Node {
        kind: Kind::Root,
        text: Text::new(alloc),
        kids: List::new(alloc),
        span: Span {
            from: 0,
            to: text.len() as u32,
        },
    }
}

/// The tree of a text in the language. A text that is only searched is never asked of the reader.
pub fn tree_in<R: TreeReader>(
    alloc: Global,
    reader: &R,
    lang: Lang,
    text: &str,
) -> Result<Node, ReadFault>
    requires { length text.now ≤ MOST_BYTES }
    ensures tree { IfOk result (IsTreeIn (R.spells reader.now) lang text.now) }
    ensures only { (tree : node) → IsTreeIn (R.spells reader.now) lang text.now tree → Gives (λ n. n) result (Some tree) }
    ensures placed { IfOk result (SpansLieIn text.now) }
{
    match lang {
        Lang::Regex => Ok(plain_tree(alloc, text)),
        Lang::Json | Lang::Python | Lang::C => reader.read_tree(alloc, lang, text),
    }
}
