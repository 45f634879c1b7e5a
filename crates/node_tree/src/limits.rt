//! The limits of what is read. Each is named here alone.

/// The most bytes that a text has which is read into a tree.
pub const MOST_BYTES: usize = 1_000_000;

/// How deep a tree is at most. No token of it stands inside more open brackets either.
pub const MOST_DEEP: u32 = 500;
