//! How a run ends.

ghost use Rattle.std.specs.Prelude.{◌≡◌};
ghost use Rattle.run_status.specs.Status.{number_of};
ghost use Rattle.run_status.specs.declared.status.Status.TheVariants.{Memory as out_of_memory};

use file_map::LimitKind;
use node_tree::Memory;

/// How a run ends.
#[derive(Clone, Copy, Debug, PartialEq, Eq)]
pub enum Status {
    /// All was done.
    Done,
    /// All was done, there are findings, and the words ask to be told so.
    Findings,
    /// The words ask for nothing that the program does.
    Usage,
    /// Memory ran out.
    Memory,
    /// A read of the input failed.
    InputFault,
    /// A write failed.
    OutputFault,
    /// A call of the tree of files failed.
    TreeFault,
    /// From that place on, in bytes from 0, the stream begins with no command, or it ends before a command does or before `end`.
    BadCommand(u64),
    /// Something passes its limit, with the number that it came to.
    OverLimit(LimitKind, u64),
    /// There are more members or findings than that.
    TooMany(u64),
    /// There is no file at the path of the rules.
    NoSuchPath,
    /// The input is not UTF-8, or it has no tree.
    BadTarget,
    /// The text is no pattern: it has no tree, is too long, is only dots, or has dots where no list of items is.
    BadPattern,
}

impl Status {
    /// The number that the program ends with.
    pub fn number(self) -> u8
        ensures { result ≡ number_of self }
    {
        match self {
            Status::Done => 0,
            Status::Findings => 1,
            Status::Usage => 2,
            Status::Memory => 3,
            Status::InputFault => 4,
            Status::OutputFault => 5,
            Status::TreeFault => 6,
            Status::BadCommand(_) => 7,
            Status::OverLimit(_, _) => 8,
            Status::TooMany(_) => 9,
            Status::NoSuchPath => 10,
            Status::BadTarget => 11,
            Status::BadPattern => 12,
        }
    }
}

impl From<Memory> for Status {
    ghost from_gives = { λ _ status. status ≡ out_of_memory };

    fn from(_e: Memory) -> Status {
        Status::Memory
    }
}
