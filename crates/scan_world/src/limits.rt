//! The limits of a scan's files and rules. Each is named here alone.

/// The most files.
pub const MOST_FILES: usize = 10_000;

/// The most bytes that all files have together.
pub const MOST_FILE_BYTES: usize = 33_554_432;

/// The most bytes of a rule file.
pub const MOST_RULE_BYTES: usize = 262_144;

/// The most entries that all rule files have together.
pub const MOST_RULES: usize = 1_000;
