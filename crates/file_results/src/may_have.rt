//! What tells which patterns may have members.

ghost use Rattle.std.specs.Prelude.{◌↔◌, IsTrue, IfOk};
ghost use Rattle.node_tree.specs.declared.view.Pattern.{Pattern as a_pattern};

use file_match::ReadyFile;
use file_search::WholeFile;
use node_tree::{Memory, Pattern};
use std::alloc::Global;

/// What tells which patterns may have members.
pub trait MayHave {
    // The patterns that may have some.
    ghost may: { Self → a_pattern → Type 0 };

    /// Whether the pattern may have members.
    fn may_have(&self, alloc: Global, pattern: &Pattern) -> Result<bool, Memory>
        ensures { IfOk result (λ has. IsTrue has ↔ may self.now pattern.now) };
}

/// Any file: each pattern may have members there.
#[derive(Clone, Copy)]
pub struct AnyFile;

impl MayHave for AnyFile {
    ghost may = { λ _ _. Unit {0} };

    fn may_have(&self, _alloc: Global, _pattern: &Pattern) -> Result<bool, Memory> {
        Ok(true)
    }
}

impl<'v> MayHave for ReadyFile<'v> {
    ghost use Rattle.file_match.specs.Words.{MayHave as is_there};

    ghost may = { λ file pattern. is_there pattern file.tree };

    fn may_have(&self, alloc: Global, pattern: &Pattern) -> Result<bool, Memory> {
        ReadyFile::may_have(self, alloc, pattern)
    }
}

impl<'v> MayHave for WholeFile<'v> {
    ghost use Rattle.file_search.specs.Whole.{MayHaveIn};

    ghost may = { λ file pattern. MayHaveIn file.lang file.tree pattern };

    fn may_have(&self, alloc: Global, pattern: &Pattern) -> Result<bool, Memory> {
        WholeFile::may_have(self, alloc, pattern)
    }
}
