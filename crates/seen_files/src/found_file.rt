//! What was found in a file.

ghost use Rattle.std.specs.Prelude.{◌≡◌};
ghost use Rattle.packed_view.specs.Opened.{HasText, HasText-prop};

use file_open::Opened;
use node_tree::{Bytes, List, Text};
use report_form::{Notice, Reported};
use std::rc::Rc;

/// A file as it was opened, with the names that are known in it if the rules needed them, and what was found in it.
#[derive(Drop)]
pub struct FoundFile {
    pub(crate) path: Text,
    pub(crate) bytes: Rc<Bytes>,
    pub(crate) opened: Opened,
    pub(crate) results: List<Reported>,
    pub(crate) notices: List<Notice>,
    ghost text: { HasText bytes.value opened } by { HasText-prop bytes.value opened },
}

impl FoundFile {
    /// What the rules found in it and no comment quiets, and what there is to be said of it, both in order.
    pub fn into_said(self) -> (List<Reported>, List<Notice>)
        ensures { result ≡ (self.results, self.notices) }
    {
        (self.results, self.notices)
    }
}
