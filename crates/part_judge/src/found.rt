//! What a rule finds in a file.

ghost use Rattle.std.specs.Prelude.{◌≡◌, IfSome, IfNone};
ghost use Rattle.part_judge.specs.Findings.{findings_of, Tells, HasNoNotice};

use crate::outcome::Outcome;
use meta_bind::Finding;
use std::marker::Model;

/// What a rule finds in a file, in order, or a notice. Only `judge` makes it.
#[derive(Drop)]
pub struct Found {
    outcome: Outcome,
}

impl Model for Found {
    ghost use Rattle.part_judge.specs.declared.outcome.Outcome.{Outcome as an_outcome};
    ghost use Rattle.part_judge.specs.contracts.outcome.Outcome as outcomes;

    ghost Value = { an_outcome };

    ghost coded = { outcomes.the_row.coded };

    ghost view = { λ f. f.outcome };
}

/// Why a rule finds nothing in a file.
#[derive(Clone, Copy, Debug, PartialEq, Eq)]
pub enum FoundNotice<'f> {
    /// A set of the rule's formula has more than 10,000 members. The numbers of the children lead to it, counted from 0 from
    /// the top, with a `.` between each two. In a rule that follows data the word of a list and the formula's number there
    /// come before them.
    Crowded(&'f str),
    /// The function, or the top level, that begins there is too large to follow data in.
    FlowTooLarge(u32),
}

impl Found {
    // That outcome.
    pub fn of(outcome: Outcome) -> Found
        ensures { result ≡ outcome }
    {
        Found { outcome }
    }

    /// The findings in order. Where there is a notice there are none.
    pub fn findings(&self) -> &[Finding]
        ensures { result.now ≡ findings_of self.now }
    {
        match &self.outcome {
            Outcome::Findings(findings) => findings.as_slice(),
            _ => &[],
        }
    }

    /// The notice.
    pub fn notice(&self) -> Option<FoundNotice<'_>>
        ensures some { IfSome result (Tells self.now) }
        ensures none { IfNone result (HasNoNotice self.now) }
    {
        match &self.outcome {
            Outcome::Findings(_) => None,
            Outcome::Crowded(numbers) => Some(FoundNotice::Crowded(numbers.as_str())),
            Outcome::FlowTooLarge(at) => Some(FoundNotice::FlowTooLarge(*at)),
        }
    }
}
