//! In which way an entry is no rule.

/// In which way an entry is no rule.
#[derive(Clone, Copy, Debug, PartialEq, Eq)]
pub enum RuleFaultKind {
    /// A key that must be there isn't.
    MissingKey,
    /// A key that nothing knows is there.
    UnknownKey,
    /// A value isn't of the form that its key asks for.
    WrongShape,
    /// A text writes no pattern of the language.
    BadPattern,
    /// A text is no comparison.
    BadComparison,
    /// A language, mode or key that Semgrep has and that isn't read here.
    OutsideProfile,
    /// An earlier rule has the id.
    DuplicateId,
}
