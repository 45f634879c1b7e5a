//! Files and rule files that are edited, scanned and fixed.

ghost use Rattle.std.specs.Prelude.{◌≡◌, []};
ghost use Rattle.seen_files.specs.Seen.{HasSeenNone};
ghost use Rattle.session.specs.Sessions.{state_of};

use crate::fixing::fix_by;
use crate::scan_state::ScanState;
use code_reader::{PatternReader, TreeReader};
use comment_reader::CommentReader;
use file_map::{FileMap, PutFault, SyncFault};
use fix_apply::FixReport;
use node_tree::Steps;
use report_form::Report;
use rx_text::Patterns;
use scan_session::ScanFault;
use scan_world::Tree;
use std::alloc::Global;
use std::sync::ledger::Ledger;
use workspace::{FixFault, Workspace};

/// Files and rule files that are edited, scanned and fixed, one command after the other. What a scan saw is kept to the next one.
#[derive(Drop)]
pub struct Session<'r, R: TreeReader + CommentReader + PatternReader> {
    alloc: Global,
    files: FileMap,
    scans: ScanState<'r, R>,
    most: u64,
}

impl<'r, R: TreeReader + CommentReader + PatternReader> Session<'r, R> {
    /// Neither files nor rules, which are read by the reader. A report may have at most so many findings, with their traces if
    /// `traced` says so. It takes no memory.
    pub fn new(alloc: Global, reader: &'r R, most: u64, traced: bool) -> Session<'r, R>
        ensures new { state_of result ≡ record { files = []; rules = []; decided = record { refused = []; built = [] }; most = most } }
        ensures reader { result.scans.rules.reader ≡ reader.now }
        ensures traced { result.scans.traced ≡ traced }
        ensures unseen { HasSeenNone result.scans.seen }
    {
        Session {
            alloc,
            files: FileMap::new(alloc),
            scans: ScanState::new(alloc, reader, traced),
            most,
        }
    }
}

impl<'r, R: TreeReader + CommentReader + PatternReader> Workspace for Session<'r, R> {
    // What reads texts, and whether findings have their traces.
    type Reader = (R, bool);

    ghost use Rattle.session.specs.Sessions.{state_of};
    ghost use Rattle.workspace.specs.Reports.{readings_of};

    ghost reader = { λ s. (s.scans.rules.reader, s.scans.traced) };

    ghost readings = { λ r. readings_of (R.spells r.0) (R.knows r.0) (R.comments r.0) (R.writes r.0) r.1 };

    ghost state = { state_of };

    ghost seen = { λ s. s.scans.seen };

    fn put(&mut self, path: &str, bytes: &[u8]) -> Result<(), PutFault> {
        self.files.put(path, bytes)
    }

    fn del(&mut self, path: &str) -> bool {
        self.files.del(path)
    }

    fn put_rules(&mut self, name: &str, bytes: &[u8]) -> Result<(), PutFault> {
        self.scans.put_rules(name, bytes)
    }

    fn del_rules(&mut self, name: &str) -> bool {
        self.scans.del_rules(name)
    }

    fn file(&self, path: &str) -> Option<&[u8]> {
        self.files.get(path)
    }

    fn sync<T: Tree>(&mut self, tree: &mut T, prefix: &str) -> Result<(), SyncFault> {
        self.files.sync(tree, prefix)
    }

    fn scan<P: Patterns, L: Ledger>(
        &mut self,
        patterns: &mut P,
        steps: &mut Steps<L>,
    ) -> Result<Report, ScanFault> {
        self.scans
            .scan(self.alloc, &self.files, self.most, patterns, steps)
    }

    fn fix<P: Patterns, L: Ledger>(
        &mut self,
        patterns: &mut P,
        steps: &mut Steps<L>,
    ) -> Result<FixReport, FixFault> {
        let report = match self.scan(patterns, steps) {
            Ok(report) => report,
            Err(ScanFault::Memory) => return Err(FixFault::Memory),
            Err(ScanFault::TooMany(most)) => return Err(FixFault::TooMany(most)),
        };
        fix_by(self.alloc, &mut self.files, report)
    }
}
