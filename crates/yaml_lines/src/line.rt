//! Lines that begin a value.

use node_tree::{List, Text};

/// A line that begins a value, and the lines that go on with it.
#[derive(Drop)]
pub struct YLine {
    /// The line's number, from 1.
    pub number: u32,
    /// Where what follows the marks begins, in bytes from 0, or the line's length where nothing follows them.
    pub column: u32,
    /// Where the line's marks `- ` stand, in bytes from 0.
    pub dashes: List<u32>,
    /// The content of the key, if the line has one.
    pub key: Option<Text>,
    /// The text after marks and key, as it is written, without the blanks round it and without a comment at its end.
    pub value: Text,
    /// The lines below that belong to the value, as they are written, without their line ends.
    pub body: List<Text>,
}
