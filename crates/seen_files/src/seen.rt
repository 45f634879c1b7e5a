//! Files as they were seen.

ghost use Rattle.std.specs.Prelude.{◌≡◌};
ghost use Rattle.packed_view.specs.Opened.{HasText, HasText-prop};

use kept_leaves::KeptLeaves;
use node_tree::{Bytes, List, Text};
use packed_view::PackedOpened;
use report_form::{Notice, Reported};
use std::rc::Rc;

/// A file as the last scan saw it: how it was opened, with the names that are known in it if the rules needed them, and what was
/// found in it. Its tree is kept as bytes, since only other rules look at it again.
#[derive(Drop)]
pub struct SeenFile {
    pub(crate) path: Text,
    pub(crate) bytes: Rc<Bytes>,
    pub(crate) opened: PackedOpened,
    pub(crate) results: List<Reported>,
    pub(crate) notices: List<Notice>,
    ghost text: { HasText bytes.value opened } by { HasText-prop bytes.value opened },
}

impl SeenFile {
    /// Where it stands.
    pub fn path(&self) -> &str
        ensures { result.now ≡ self.now.path }
    {
        self.path.as_str()
    }

    /// What it holds.
    pub fn bytes(&self) -> &[u8]
        ensures { result.now ≡ self.now.bytes.value }
    {
        Rc::as_ref(&self.bytes).as_slice()
    }

    /// What the rules found in it and no comment quiets, in order.
    pub fn results(&self) -> &List<Reported>
        ensures { result.now ≡ self.now.results }
    {
        &self.results
    }

    /// What there is to be said of it, in order.
    pub fn notices(&self) -> &List<Notice>
        ensures { result.now ≡ self.now.notices }
    {
        &self.notices
    }
}

/// What the last scan has seen: the files in order of path, and the leaves of the pairs that its rules needed.
#[derive(Drop)]
pub struct SeenFiles {
    pub(crate) files: List<SeenFile>,
    pub(crate) kept: KeptLeaves,
}
