//! What has a limit.

/// What has a limit, of which there was too much.
#[derive(Clone, Copy, Debug, PartialEq, Eq)]
pub enum LimitKind {
    /// The files that are scanned, at most 10,000.
    Files,
    /// The bytes of all files that are scanned, at most 33,554,432.
    FileBytes,
    /// The rule files, at most 100.
    RuleFiles,
    /// The bytes of a rule file, at most 262,144.
    RuleBytes,
    /// The entries of all rule files, at most 1,000.
    Rules,
    /// The bytes of a stream of commands up to its end, at most 268,435,456.
    Stream,
    /// The bytes of the input of `match`, at most 1,000,000.
    Target,
}
