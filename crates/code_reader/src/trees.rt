//! Readers of trees, and of the names that are known in them.

ghost use Rattle.std.specs.Prelude.{◌≡◌, ◌≤◌, List as list, ℕ, length, IfOk, Some};
ghost use Rattle.node_tree.specs.Gives.{Gives};
ghost use Rattle.node_tree.specs.Spans.{SpansLieIn};
ghost use Rattle.node_tree.specs.KnownNames.{AreNames, AreInOrder};
ghost use Rattle.node_tree.specs.declared.known.Known.{Known as a_known};
ghost use Rattle.node_tree.specs.declared.node.Node.{Node as a_node};
ghost use Rattle.node_tree.specs.declared.view.Lang.{Lang as language};

use node_tree::{Known, Lang, List, MOST_BYTES, Memory, Node, ReadFault};
use std::alloc::Global;

/// What reads the files of languages into trees, and finds the names in a tree that are known to hold a literal. That costs
/// more than reading, so it is a call of its own.
pub trait TreeReader {
    // A text is a file of a language, with this tree.
    ghost spells: { Self → language → list ℕ → a_node → Type 0 };

    // In a file of a language with a tree these names are known to hold a literal.
    ghost knows: { Self → language → a_node → list a_known → Type 0 };

    /// The tree of a text in a language. NoTree comes exactly where it has none, and it has at most one.
    fn read_tree(&self, alloc: Global, lang: Lang, text: &str) -> Result<Node, ReadFault>
        requires { length text.now ≤ MOST_BYTES }
        ensures tree { IfOk result (spells self.now lang text.now) }
        // Its spans lie in the text, and cut no character of it.
        ensures placed { IfOk result (SpansLieIn text.now) }
        // Each tree of the text is the one that is read, unless memory runs out.
        ensures only { (n : a_node) → spells self.now lang text.now n → Gives (λ m. m) result (Some n) };

    /// The names in the tree of a file that are known to hold a literal, in order of number, each once.
    fn known_names(&self, alloc: Global, lang: Lang, tree: &Node) -> Result<List<Known>, Memory>
        ensures known { IfOk result (knows self.now lang tree.now) }
        ensures names { IfOk result (AreNames tree.now) }
        ensures in_order { IfOk result AreInOrder }
        // Each list of what is known there is the one that is found.
        ensures only { (l : list a_known) → knows self.now lang tree.now l → IfOk result (λ found. found ≡ l) };
}
