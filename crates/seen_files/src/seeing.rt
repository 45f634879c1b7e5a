//! All files of a session, seen again and again.

ghost use Rattle.std.specs.Prelude.{◌≡◌, List as list, IfOk, OnOk, OnErr};
ghost use Rattle.tree_match.specs.Ascending.{IsAscending};
ghost use Rattle.rule_form.specs.declared.rule.Rule.{Rule as a_rule};
ghost use Rattle.kept_leaves.specs.Kept.{map_of};
ghost use Rattle.file_results.specs.Shown.{file_cmp};
ghost use Rattle.file_results.specs.Quieted.{grammars_of};
ghost use Rattle.seen_files.specs.More.{IsMore};
ghost use Rattle.seen_files.specs.Needs.{IsNeeded};
ghost use Rattle.seen_files.specs.Once.{IsOneCost};
ghost use Rattle.seen_files.specs.Seen.{HasSeen, HasSeenNone, AfterSeen, HasRightLeaves};
ghost use Rattle.seen_files.specs.Spends.{Spends};
ghost use Rattle.seen_files.specs.Walk.{HasWalked, turned};

use crate::more_rules::{rules_added, rules_now};
use crate::seen::{SeenFile, SeenFiles};
use crate::walk::{see_file, take_at};
use code_reader::TreeReader;
use comment_reader::CommentReader;
use file_map::FileMap;
use kept_leaves::KeptLeaves;
use node_tree::{List, Memory, Steps};
use rule_form::Rule;
use running_rules::Runner;
use std::alloc::Global;
use std::mem;
use std::sync::ledger::Ledger;

// Sees all the files. Those that were seen before are left, the last of which comes first. Where these rules were added alone, what
// the others found in a file that stays is kept.
fn see_all<R: TreeReader + CommentReader, L: Ledger>(
    alloc: Global,
    reader: &R,
    files: &FileMap,
    mut left: List<SeenFile>,
    running: &[Runner<'_>],
    added: &Option<List<Runner<'_>>>,
    traced: bool,
    kept: &mut KeptLeaves,
    steps: &mut Steps<L>,
) -> Result<List<SeenFile>, Memory>
    ensures walked { (before : list a_rule) → IsMore before running.now added.now
        → AfterSeen (grammars_of (R.spells reader.now) (R.knows reader.now) (R.comments reader.now) traced) before running.now (turned left kept.old) (λ old.
        IfOk result (HasWalked (grammars_of (R.spells reader.now) (R.knows reader.now) (R.comments reader.now) traced) running.now old files.now (map_of kept.old) steps.old (map_of kept.new) steps.new)) }
    ensures ordered { OnOk result (IsAscending file_cmp files.now) }
{
    let mut seen = List::new(alloc);
    let entries = files.entries()?;
    for (path, bytes) in entries.as_slice() {
        let taken = take_at(&mut left, path)?;
        let file = see_file(
            alloc, reader, path, bytes, taken, running, added, traced, kept, steps,
        )?;
        seen.push(file)?;
    }
    Ok(seen)
}

impl SeenFiles {
    /// Nothing was seen. It takes no memory.
    pub fn new(alloc: Global) -> SeenFiles
        ensures { HasSeenNone result }
    {
        SeenFiles {
            files: List::new(alloc),
            kept: KeptLeaves::new(alloc),
        }
    }

    /// The files in order of path.
    pub fn files(&self) -> &[SeenFile]
        ensures { result.now ≡ self.now.files }
    {
        self.files.as_slice()
    }

    /// Each leaf that is kept has the members of its pattern in its piece.
    pub fn are_leaves_right(&self)
        ensures { HasRightLeaves self.now }
    {
        self.kept.is_right();
    }

    /// How many steps it takes to see files again by rules follows from these, and from the files and rules before.
    pub fn is_one_cost<R: TreeReader + CommentReader>(reader: &R, traced: bool)
        ensures { IsOneCost (grammars_of (R.spells reader.now) (R.knows reader.now) (R.comments reader.now) traced) }
    {}

    // Nothing was seen any more. It takes no memory.
    fn forget(&mut self, alloc: Global)
        ensures { HasSeenNone self.new }
    {
        self.files = List::new(alloc);
        self.kept.clear();
    }

    // Sees the files that there are now by the rules that run, and gives these to be kept. Where memory runs out what was seen is open.
    fn see_now<R: TreeReader + CommentReader, L: Ledger>(
        &mut self,
        alloc: Global,
        reader: &R,
        files: &FileMap,
        before: List<Rule>,
        running: &[Runner<'_>],
        traced: bool,
        steps: &mut Steps<L>,
    ) -> Result<List<Rule>, Memory>
        ensures seen { AfterSeen (grammars_of (R.spells reader.now) (R.knows reader.now) (R.comments reader.now) traced) before running.now self.old (λ old.
            OnOk result (HasSeen (grammars_of (R.spells reader.now) (R.knows reader.now) (R.comments reader.now) traced) running.now files.now self.new)) }
        ensures spent { AfterSeen (grammars_of (R.spells reader.now) (R.knows reader.now) (R.comments reader.now) traced) before running.now self.old (λ old.
            OnOk result (Spends old files.now (IsNeeded before self.old.files) (IsNeeded running.now self.new.files) steps.old steps.new)) }
        ensures rules { IfOk result (λ rules. rules ≡ running.now) }
    {
        let added = rules_added(alloc, before.as_slice(), running)?;
        let rules = rules_now(alloc, before, &added, running)?;
        let mut left = mem::replace(&mut self.files, List::new(alloc));
        left.reverse();
        let kept = &mut self.kept;
        let seen = see_all(
            alloc, reader, files, left, running, &added, traced, kept, steps,
        )?;
        self.files = seen;
        self.kept.turn();
        Ok(rules)
    }

    /// Sees the files that there are now by the rules that run. The files were seen by `rules` before, which become those that run.
    /// Findings have their traces if `traced` says so, as they had then.
    ///
    /// A file with the bytes with which it was seen isn't opened again. If the rules before still run, in their order, what they
    /// found in it stays, and only the rules that came look at it. Else each pattern that the rules ask for in a file is matched in
    /// those of its pieces for which it wasn't needed before. What was needed before and isn't now is dropped. Where memory runs out
    /// nothing was seen any more, and `rules` are open.
    pub fn see<R: TreeReader + CommentReader, L: Ledger>(
        &mut self,
        alloc: Global,
        reader: &R,
        files: &FileMap,
        rules: &mut List<Rule>,
        running: &[Runner<'_>],
        traced: bool,
        steps: &mut Steps<L>,
    ) -> Result<(), Memory>
        ensures seen { AfterSeen (grammars_of (R.spells reader.now) (R.knows reader.now) (R.comments reader.now) traced) rules.old running.now self.old (λ old.
            OnOk result (HasSeen (grammars_of (R.spells reader.now) (R.knows reader.now) (R.comments reader.now) traced) running.now files.now self.new)) }
        ensures spent { AfterSeen (grammars_of (R.spells reader.now) (R.knows reader.now) (R.comments reader.now) traced) rules.old running.now self.old (λ old.
            OnOk result (Spends old files.now (IsNeeded rules.old self.old.files) (IsNeeded running.now self.new.files) steps.old steps.new)) }
        ensures rules { OnOk result (rules.new ≡ running.now) }
        ensures forgotten { OnErr result (HasSeenNone self.new) }
    {
        let before = mem::replace(rules, List::new(alloc));
        match self.see_now(alloc, reader, files, before, running, traced, steps) {
            Ok(now) => {
                *rules = now;
                Ok(())
            }
            Err(Memory) => {
                self.forget(alloc);
                Err(Memory)
            }
        }
    }
}
