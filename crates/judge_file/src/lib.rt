//! One file and one rule, in the languages that are read here: what the bytes of a file are, and what a rule finds in the file.
#![tactic(auto)]

ghost use Rattle.std.specs.Prelude.{◌≡◌, ◌+◌, ◌<◌, length, slice_get, All, IfOk};
ghost use Rattle.file_open.specs.Opening.{HasOnlyTree};
ghost use Rattle.languages.specs.Trees.{IsTree};
ghost use Rattle.judge_file.specs.Opening.{IsOpenedNamed};
ghost use Rattle.tree_match.specs.Placed.{IsLeafPlaced};
ghost use Rattle.taint_judge.specs.Placed.{IsFindingPlaced};
ghost use Rattle.part_judge.specs.declared.outcome.Outcome.{Outcome as an_outcome};
ghost use Rattle.part_judge.specs.Findings.{PartFinds, findings_of};

pub use file_open::Opened;
use file_open::with_names;
use languages::Languages;
use node_tree::{Bytes, FileView, Lang, List, Memory, Steps};
use part_judge::SharedFile;
pub use part_judge::{Found, FoundNotice};
use rule_form::Rule;
use rx_text::Rx;
use std::alloc::Global;
use std::sync::ledger::Ledger;
use tree_match::Leaf;

/// What the bytes of a file are in the language. TooLarge comes exactly where there are more than 1,000,000, else NotUtf8
/// exactly where they are no UTF-8, else NoTree exactly where the text has no tree in the language. A text of the language
/// `Regex` always has one: a `Root` without kids that spans all of it. It is one step, whatever it answers. The bytes become
/// those of the file, so none is copied. The names of the file that are known to hold a literal are found, whatever the rule.
pub fn open_file<L: Ledger>(
    alloc: Global,
    lang: Lang,
    bytes: Bytes,
    steps: &mut Steps<L>,
) -> Result<Opened, Memory>
    ensures opened { IfOk result (IsOpenedNamed lang bytes) }
    ensures only { IfOk result (HasOnlyTree IsTree lang bytes) }
    ensures one_step { steps.new ≡ steps.old + 1 }
{
    match file_open::open_file(alloc, &Languages, lang, bytes, steps)? {
        Opened::Read(view) => Ok(Opened::Read(with_names(alloc, &Languages, view)?)),
        unread => Ok(unread),
    }
}

/// What the part of the rule with that number finds in the file, where `leaves` has the members of the part's patterns by
/// number and `rx` the rule's regular expressions, as `part_judge` says. What it takes to follow data is made here.
pub fn judge(
    alloc: Global,
    view: &FileView,
    rule: &Rule,
    part: u32,
    leaves: &List<Leaf>,
    rx: &mut List<Rx>,
) -> Result<Found, Memory>
    requires part { part < length rule.now.parts }
    requires placed { All (λ leaf. IsLeafPlaced view.now.bytes leaf) leaves.now }
    ensures finds { IfOk result (PartFinds leaves.now rx.old view.now.bytes view.now.tree (slice_get rule.now.parts part)) }
    ensures placed { IfOk result (λ found. All (λ finding. IsFindingPlaced view.now.bytes finding) (findings_of found)) }
    ensures only { IfOk result (λ found. (o : an_outcome) → PartFinds leaves.now rx.old view.now.bytes view.now.tree (slice_get rule.now.parts part) o → o ≡ found) }
    ensures same { rx.new ≡ rx.old }
{
    part_judge::judge(alloc, &mut SharedFile::of(view), rule, part, leaves, rx)
}
