//! The file in which leaves are kept between runs, by the digests of their pieces and patterns.
//!
//! `store_text` writes it, `read_store` reads it, and `Saved::find` looks a leaf up. What is read is bad input: whatever a file
//! holds, it is either the text of some entries, which are then exactly those that are given, or nothing.
#![tactic(auto)]

mod codes;
mod digest;
mod entry;
mod leaf;
mod offer;
mod ordered;
mod placed;
mod saved;
mod text;
mod whole;

pub use digest::Digest;
pub use entry::{Entry, MARK};
pub use offer::Offer;
pub use saved::{Saved, read_store};
pub use text::store_text;
pub use whole::MOST_BYTES;
