//! Taking the rules and the files of a folder.

ghost use Rattle.std.specs.Prelude.{◌≡◌, [], IfOk, IfErr, IsSome, OnOk};
ghost use Rattle.scan_world.specs.Trees.{KeepsFiles, LacksFile};
ghost use Rattle.run_status.specs.Status.{IsAnswer};
ghost use Rattle.run_status.specs.declared.status.Status.TheVariants.{NoSuchPath as no_path};
ghost use Rattle.stream_run.specs.Reports.{readings_of};
ghost use Rattle.folder_run.specs.Taking.{IsConfig, RulesEndOnce, Takes, TakesNone};
ghost use Rattle.folder_run.specs.Causes.{HasTakingCause};

use code_reader::{PatternReader, TreeReader};
use comment_reader::CommentReader;
use file_map::{FileMap, PutFault, SyncFault};
use node_tree::Bytes;
use rule_map::RuleMap;
use run_status::Status;
use scan_world::{MOST_RULE_BYTES, Tree, TreeFault};
use wire_words::Job;

// The bytes of the rules.
fn read_config<T: Tree>(tree: &mut T, path: &str) -> Result<Bytes, Status>
    ensures read { IfOk result (IsConfig (T.files tree.old) path.now) }
    ensures absent { IfErr result (λ status. IsAnswer status → (status ≡ no_path) × LacksFile (T.files tree.old) path.now) }
    ensures kept { KeepsFiles (T.files tree.old) (T.files tree.new) }
    ensures unfailed { OnOk result (T.faults tree.new ≡ T.faults tree.old) }
    ensures cause { IfErr result (HasTakingCause (T.faults tree.old) (T.faults tree.new) (T.absences tree.old) (T.absences tree.new)) }
{
    match tree.read(path, MOST_RULE_BYTES as u64) {
        Ok(bytes) => Ok(bytes),
        Err(TreeFault::Absent) => Err(Status::NoSuchPath),
        Err(TreeFault::Memory) => Err(Status::Memory),
        Err(TreeFault::Failed) => Err(Status::TreeFault),
    }
}

/// Takes the rules at the path of the config and the files under the prefix, where there were neither.
pub fn take_folder<R: TreeReader + CommentReader + PatternReader, T: Tree>(
    rules: &mut RuleMap<'_, R>,
    files: &mut FileMap,
    tree: &mut T,
    job: &Job<'_>,
) -> Result<(), Status>
    requires rules { rules.old.files ≡ [] }
    requires files { files.old ≡ [] }
    ensures takes { OnOk result (Takes (readings_of (R.spells rules.old.reader) (R.knows rules.old.reader) (R.comments rules.old.reader) (R.writes rules.old.reader) job.now.trace) (T.files tree.old) job.now.config.now job.now.prefix.now (record { files = files.new; rules = rules.new.files })) }
    ensures none { IfErr result (λ status. IsAnswer status → TakesNone (readings_of (R.spells rules.old.reader) (R.knows rules.old.reader) (R.comments rules.old.reader) (R.writes rules.old.reader) job.now.trace) (T.files tree.old) job.now.config.now job.now.prefix.now status) }
    ensures once { IsSome (T.files tree.old) → IfErr result IsAnswer → RulesEndOnce (readings_of (R.spells rules.old.reader) (R.knows rules.old.reader) (R.comments rules.old.reader) (R.writes rules.old.reader) job.now.trace) (T.files tree.old) job.now.config.now }
    ensures same_reader { rules.new.reader ≡ rules.old.reader }
    ensures kept { KeepsFiles (T.files tree.old) (T.files tree.new) }
    ensures unfailed { OnOk result (T.faults tree.new ≡ T.faults tree.old) }
    ensures cause { IfErr result (HasTakingCause (T.faults tree.old) (T.faults tree.new) (T.absences tree.old) (T.absences tree.new)) }
{
    let bytes = match read_config(tree, job.config) {
        Ok(bytes) => bytes,
        Err(status) => return Err(status),
    };
    match rules.put(job.config, bytes.as_slice()) {
        Ok(()) => {}
        Err(PutFault::Memory) => return Err(Status::Memory),
        Err(PutFault::OverLimit(kind, count)) => return Err(Status::OverLimit(kind, count)),
    }
    match files.sync(tree, job.prefix) {
        Ok(()) => Ok(()),
        Err(SyncFault::Memory) => Err(Status::Memory),
        Err(SyncFault::Failed) => Err(Status::TreeFault),
        Err(SyncFault::OverLimit(kind, count)) => Err(Status::OverLimit(kind, count)),
    }
}
