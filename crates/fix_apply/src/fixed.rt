//! What fixes changed.

use node_tree::{Bytes, List, Text};
use report_form::{Edit, Report};

/// A file that fixes changed: the edits that were taken, in order, and the bytes with all of them applied.
#[derive(Drop)]
pub struct FixedFile {
    pub path: Text,
    pub edits: List<Edit>,
    pub whole: Bytes,
}

/// What a scan found, and the files that its fixes changed.
#[derive(Drop)]
pub struct FixReport {
    pub report: Report,
    pub files: List<FixedFile>,
}
