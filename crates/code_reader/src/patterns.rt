//! Readers of patterns.

ghost use Rattle.std.specs.Prelude.{List as list, ℕ, IfOk};
ghost use Rattle.node_tree.specs.declared.view.Lang.{Lang as language};
ghost use Rattle.node_tree.specs.declared.view.Pattern.{Pattern as a_pattern};
ghost use Rattle.code_reader.specs.Patterns.{GivesPattern};

use crate::fault::PatternFault;
use node_tree::{Lang, Pattern};
use std::alloc::Global;

/// What reads the patterns of languages.
pub trait PatternReader {
    // A text in a language writes a pattern.
    ghost writes: { Self → language → list ℕ → a_pattern → Type 0 };

    /// The pattern that a text writes in a language. There is at most one.
    fn read_pattern(&self, alloc: Global, lang: Lang, text: &str) -> Result<Pattern, PatternFault>
        ensures pattern { IfOk result (writes self.now lang text.now) }
        // Each pattern that the text writes is the one that is read, unless memory runs out.
        ensures only { (p : a_pattern) → writes self.now lang text.now p → GivesPattern p result };
}
