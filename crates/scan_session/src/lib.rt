//! What a fresh scan of files by rule files reports, whatever reads their trees, their comments and the patterns of the
//! rules.
//!
//! The contracts speak of the relations that a [`TreeReader`], a [`CommentReader`] and a [`PatternReader`] read by, so
//! they hold for all languages. What is found in one file is the matter of `file_results`.
//!
//! [`TreeReader`]: code_reader::TreeReader
//! [`CommentReader`]: comment_reader::CommentReader
//! [`PatternReader`]: code_reader::PatternReader
#![tactic(auto)]

mod fault;
mod scanner;

pub use fault::ScanFault;
pub use scanner::Scanner;
