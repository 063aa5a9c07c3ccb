// How a run ends.
ghost use Rattle.std.specs.Prelude.{◌≡◌};
ghost use Rattle.g4_tool.specs.Ends.{number_of};

/// How a run ended.
#[derive(Clone, Copy, Debug, PartialEq, Eq)]
pub enum Status {
    /// Every file was accepted.
    Done,
    /// Some file has a fault.
    Refused,
    /// The words are no command.
    Usage,
    /// The grammar has a fault.
    GrammarRefused,
    /// A file was absent, a grammar file past the limit, or reading failed.
    Unread,
    /// Writing failed.
    Unwritten,
    NoMemory,
}

impl Status {
    /// The number with which the program ends.
    pub fn number(self) -> u8
        ensures { result ≡ number_of self }
    {
        match self {
            Status::Done => 0,
            Status::Refused => 1,
            Status::Usage => 2,
            Status::GrammarRefused => 3,
            Status::Unread => 4,
            Status::Unwritten => 5,
            Status::NoMemory => 6,
        }
    }
}
