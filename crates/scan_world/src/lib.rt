//! The outside: where bytes are read from and written to, and where files are.
//!
//! A [`Source`], a [`Sink`] and a [`Tree`] count their faults, so that a caller's contract can tie each answer of failure to a count
//! that rose. They may tell which bytes are left or written, or which files there are, and the contracts speak of content exactly where they do.
#![tactic(auto)]

mod calls;
mod limits;
mod memory_sink;
mod memory_source;
mod memory_tree;
mod paths;
mod streams;
mod tree;

pub use limits::{MOST_FILE_BYTES, MOST_FILES, MOST_RULE_BYTES, MOST_RULES};
pub use memory_sink::MemorySink;
pub use memory_source::MemorySource;
pub use memory_tree::MemoryTree;
pub use paths::{is_under, put_path};
pub use streams::{Failed, Sink, Source};
pub use tree::{Tree, TreeFault};
