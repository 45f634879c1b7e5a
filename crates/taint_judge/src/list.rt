//! The lists of a rule that follows data.

ghost use Rattle.std.specs.Prelude.{◌≡◌};
ghost use Rattle.taint_judge.specs.Lists.{list_word};

/// A list of a rule that follows data.
#[derive(Clone, Copy, Debug, PartialEq, Eq)]
pub enum RuleList {
    Sources,
    Sinks,
    Sanitizers,
    Propagators,
}

impl RuleList {
    /// The word of the list in a notice.
    pub fn word(self) -> &'static str
        ensures { result.now ≡ list_word self }
    {
        match self {
            RuleList::Sources => "sources",
            RuleList::Sinks => "sinks",
            RuleList::Sanitizers => "sanitizers",
            RuleList::Propagators => "propagators",
        }
    }
}
