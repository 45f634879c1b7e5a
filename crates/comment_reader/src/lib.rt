//! How scans know comments: a reader of the comments of texts.
//!
//! A contract over a [`CommentReader`] holds for all languages, so what scans is proved without a grammar. The crate `languages`
//! has the reader of Python and C.
#![tactic(auto)]

mod comments;

pub use comments::CommentReader;
