//! Places in a text as people name them.

/// A place in a text: its line and column from 1, the column in bytes, and its offset in bytes from 0.
#[derive(Clone, Copy, Debug, PartialEq, Eq)]
pub struct Place {
    pub line: u32,
    pub col: u32,
    pub offset: u32,
}
