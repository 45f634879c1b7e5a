//! Trees written as bytes, and read back.
//!
//! No two trees have the same bytes, and no tree's bytes go on to make those of another, so bytes of trees serve as keys. They
//! take a fraction of the memory that the trees do.
#![tactic(auto)]

mod front;
mod head;
mod look;
mod sum;
mod written;

pub use front::Front;
pub use look::Look;
pub use sum::mix;
pub use written::{add_length, add_number, add_text, add_tree};
