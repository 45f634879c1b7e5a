//! What the rules that run find in one file, in the order of a report: results without those that comments quiet, with
//! their traces where these are wanted, and notices.
//!
//! The contracts speak of the relations that a [`TreeReader`] and a [`CommentReader`] read by, so they hold for all
//! languages. What patterns have in a file is seen through its imports. It is asked of a [`FileSearch`], so what rules
//! find doesn't depend on how that answers.
//!
//! [`TreeReader`]: code_reader::TreeReader
//! [`CommentReader`]: comment_reader::CommentReader
//! [`FileSearch`]: file_search::FileSearch
#![tactic(auto)]

mod looking;
mod may_have;
mod needing;
mod quiet;
mod reporting;
mod row;
mod scanning;
mod tracing;

pub use needing::{view_needs, with_needed_names};
pub use row::order_results;
pub use scanning::scan_view;
