//! What a scan could not do.

ghost use Rattle.std.specs.Prelude.{◌≡◌};
ghost use Rattle.report_form.specs.Notice.{kind_word};

use node_tree::Text;

/// Why a file, a rule or an option was passed over.
#[derive(Clone, Copy, Debug, PartialEq, Eq)]
pub enum NoticeKind {
    /// The bytes of a file or of a rule file are not UTF-8.
    NotUtf8,
    /// The file is too large to be read.
    TooLarge,
    /// The file has no tree in its language.
    NoTree,
    /// A formula has too many members in the file.
    Crowded,
    /// The taint in a function is too large to be worked out.
    FlowTooLarge,
    /// A rule lacks a key.
    MissingKey,
    /// A rule has a key that nothing is known of.
    UnknownKey,
    /// A key of a rule holds what it may not hold.
    WrongShape,
    /// The text of a pattern is no pattern.
    BadPattern,
    /// The text of a comparison is no comparison.
    BadComparison,
    /// A rule uses what is left out here.
    OutsideProfile,
    /// An earlier rule has the id.
    DuplicateId,
    /// A rule file uses what of YAML is left out here.
    YamlProfile,
    /// A rule file has no value.
    YamlNoValue,
    /// A rule file has no list of rules.
    NoRules,
    /// An option has no meaning here.
    OptionUnread,
    /// A regular expression was refused.
    Regex,
}

impl NoticeKind {
    /// The word that stands for it in a report.
    pub fn word(self) -> &'static str
        ensures { result.now ≡ kind_word self }
    {
        match self {
            NoticeKind::NotUtf8 => "NotUtf8",
            NoticeKind::TooLarge => "TooLarge",
            NoticeKind::NoTree => "NoTree",
            NoticeKind::Crowded => "Crowded",
            NoticeKind::FlowTooLarge => "FlowTooLarge",
            NoticeKind::MissingKey => "MissingKey",
            NoticeKind::UnknownKey => "UnknownKey",
            NoticeKind::WrongShape => "WrongShape",
            NoticeKind::BadPattern => "BadPattern",
            NoticeKind::BadComparison => "BadComparison",
            NoticeKind::OutsideProfile => "OutsideProfile",
            NoticeKind::DuplicateId => "DuplicateId",
            NoticeKind::YamlProfile => "YamlProfile",
            NoticeKind::YamlNoValue => "YamlNoValue",
            NoticeKind::NoRules => "NoRules",
            NoticeKind::OptionUnread => "OptionUnread",
            NoticeKind::Regex => "Regex",
        }
    }
}

/// Something that a scan passed over: the path of the file or rule file, the id of the rule where there is one, why, and
/// what of it.
#[derive(Drop)]
pub struct Notice {
    pub path: Text,
    pub rule_id: Text,
    pub kind: NoticeKind,
    pub detail: Text,
}
