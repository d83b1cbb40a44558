ghost use Rattle.std.specs.Prelude.{◌≡◌};
ghost use Rattle.sbp_command.specs.Headline.{exit_number};

/// How a call of the program ended.
#[derive(Clone, Copy, Debug, PartialEq, Eq)]
pub enum Status {
    /// The source was read to its end, no line had a fault, and all output was written.
    Done,
    /// The words are in no row of the table; the usage line was written, and nothing was read.
    Words,
    /// A line has a fault; the lines before it were served, and the fault was written.
    Script,
    /// The source failed; the whole lines before were served.
    ReadFault,
    /// The sink failed; a front of the output was written.
    WriteFault,
    /// Memory was wanting; a front of the output was written.
    NoMemory,
}

impl Status {
    /// The exit status.
    pub fn number(self) -> u8
        ensures { result ≡ exit_number self }
    {
        match self {
            Status::Done => 0,
            Status::Words => 1,
            Status::Script => 2,
            Status::ReadFault => 3,
            Status::WriteFault => 4,
            Status::NoMemory => 5,
        }
    }
}
