//! What a run is asked for.

use node_tree::Lang;

/// What a command over a folder is to do.
#[derive(Clone, Copy, PartialEq, Eq, Debug, Drop)]
pub struct Job<'w> {
    /// Whether the command's flag was given: `--error` for `scan`, `--dryrun` for `fix`.
    pub flag: bool,
    /// More findings than this are too many.
    pub most: u64,
    /// The path of the rules.
    pub config: &'w str,
    /// The folder or file that is looked at, `.` for all.
    pub prefix: &'w str,
    /// Whether findings are to have traces.
    pub trace: bool,
    /// The path of the store, which only `scan` has.
    pub store: Option<&'w str>,
}

/// A command with its words.
#[derive(Clone, Copy, PartialEq, Eq, Debug, Drop)]
pub enum Command<'w> {
    /// Matches a pattern of this language in what is read.
    Match(Lang, &'w str),
    /// Tells where what is read stops being JSON.
    Check,
    /// Scans a folder and reports the findings.
    Scan(Job<'w>),
    /// Scans a folder, applies the fixes and reports both.
    Fix(Job<'w>),
    /// Runs the commands of a stream, with this limit of findings, and with traces or without.
    Session(u64, bool),
    /// Runs a session that is made from this number.
    Drill(u32),
}
