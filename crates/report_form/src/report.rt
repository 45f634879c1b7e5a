//! What a scan finds.

use crate::notice::Notice;
use graph_form::Role;
use meta_bind::Finding;
use node_tree::{List, Place, Text};
use rule_form::Severity;

/// A finding as it is reported: the path of the file, the rule's id and severity, its message and its fix with what the
/// metavariables stand for, the places where the range begins and ends, and its trace.
#[derive(Drop)]
pub struct Reported {
    pub path: Text,
    pub id: Text,
    pub severity: Severity,
    pub message: Text,
    pub fix: Option<Text>,
    pub start: Place,
    pub end: Place,
    pub finding: Finding,
    /// How data gets from its source to the range: for each point after the entry, where its node begins, and the point's
    /// role. Empty where nothing was asked or no data was followed.
    pub trace: List<(u32, Role)>,
}

/// What a scan found, and what it passed over.
#[derive(Drop)]
pub struct Report {
    pub results: List<Reported>,
    pub notices: List<Notice>,
}
