//! What a command comes to.

use fix_apply::FixReport;
use report_form::Report;

/// What a command comes to.
#[derive(Drop)]
pub enum Reply {
    /// It is done, and there is nothing to tell.
    Done,
    /// Whether there was something to take away.
    Removed(bool),
    /// What a scan reports.
    Reported(Report),
    /// What fixes changed.
    Fixed(FixReport),
    /// There are more findings than this many.
    TooMany(u64),
}
