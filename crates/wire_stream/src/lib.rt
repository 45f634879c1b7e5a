//! The stream of a session: a list of commands, read one at a time from a source that gives its bytes in any pieces.
//!
//! A command is a line with its end, and after `put LEN PATH` and `rule LEN NAME` a body of LEN bytes with its end. A line's
//! and a body's end is the byte 10. The other lines are `del PATH`, `unrule NAME`, `sync PREFIX`, `scan`, `fix` and `end`. LEN
//! is decimal without leading zeros, at most 268,435,456. PATH and NAME are paths in UTF-8, PREFIX is a path or `.`. There are
//! no other spellings. A body is read whole, and only a front of a long one is kept, so the memory that a stream takes is that
//! of its longest kept body.
#![tactic(auto)]

mod body;
mod command;
mod feed;
mod hand;
mod head;
mod line;
mod open;
mod trouble;
mod wire;

pub use feed::{Feed, next_command, one_command};
pub use wire::{Wire, WireFault};
