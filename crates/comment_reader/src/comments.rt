//! Readers of comments.

ghost use Rattle.std.specs.Prelude.{◌≡◌, ◌≤◌, List as list, ℕ, length, All, IfOk};
ghost use Rattle.node_tree.specs.declared.span.Span.{Span as a_span};
ghost use Rattle.node_tree.specs.declared.view.Lang.{Lang as language};
ghost use Rattle.node_tree.specs.Span.{LiesIn};

use node_tree::{Lang, List, MOST_BYTES, Memory, Span};
use std::alloc::Global;

/// What finds the comments in texts of languages.
pub trait CommentReader {
    // A text in a language has these comments, in this order.
    ghost comments: { Self → language → list ℕ → list a_span → Type 0 };

    /// The comments of a text in a language. There is one such list.
    fn read_comments(&self, alloc: Global, lang: Lang, text: &str) -> Result<List<Span>, Memory>
        requires { length text.now ≤ MOST_BYTES }
        ensures given { IfOk result (comments self.now lang text.now) }
        // They lie in the text, and cut no character of it.
        ensures lie { IfOk result (All (λ (s : a_span). LiesIn text.now s)) }
        // Each list of comments of the text is the one that is given, unless memory runs out.
        ensures only { (l : list a_span) → comments self.now lang text.now l → IfOk result (λ found. found ≡ l) };
}
