//! What answers which members patterns have in a file.

ghost use Rattle.std.specs.Prelude.{◌≡◌, ℕ, IfOk, OnOk};
ghost use Rattle.node_tree.specs.declared.view.FileView.{FileView as a_view};
ghost use Rattle.node_tree.specs.declared.view.Pattern.{Pattern as a_pattern};
ghost use Rattle.tree_match.specs.Members.{known_tree};
ghost use Rattle.tree_match.specs.Placed.{IsLeafPlaced};
ghost use Rattle.file_parts.specs.Seen.{seen_leaf};

use node_tree::{Memory, Pattern, Steps};
use std::alloc::Global;
use std::sync::ledger::Ledger;
use tree_match::Leaf;

/// What answers which members patterns have in a file, one pattern after the other.
pub trait FileSearch {
    // The file that is searched.
    ghost file: { Self → a_view };

    // What a question makes of the search, and of the steps that were counted so far.
    ghost asks: { a_pattern → Self → ℕ → Self → ℕ → Type 0 };

    /// The members that the pattern has in the file, in Python seen through the file's imports.
    fn leaf<L: Ledger>(
        &mut self,
        alloc: Global,
        pattern: &Pattern,
        steps: &mut Steps<L>,
    ) -> Result<Leaf, Memory>
        ensures exact { IfOk result (seen_leaf (file self.old).lang (known_tree (file self.old)) pattern.now) }
        // Its members stand at places of the file's text.
        ensures placed { IfOk result (IsLeafPlaced (file self.old).bytes) }
        ensures same { file self.new ≡ file self.old }
        ensures asks { OnOk result (asks pattern.now self.old steps.old self.new steps.new) };
}
