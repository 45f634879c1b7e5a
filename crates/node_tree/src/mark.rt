//! How far a text was read.

/// How many lines ended in what was read, and how many bytes of the line after them were read.
#[derive(Clone, Copy, Debug, PartialEq, Eq)]
pub struct Mark {
    pub lines: u32,
    pub bytes: u32,
}
