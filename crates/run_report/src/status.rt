// The status that a command ends with.
ghost use Rattle.std.specs.Prelude.{◌≡◌};
ghost use Rattle.run_report.specs.Status.{number_of, last_text};

/// How a command ended, by which a script knows the cause.
#[derive(Clone, Copy, Debug, PartialEq, Eq, Drop)]
pub enum Status {
    /// None of those below.
    Good,
    /// A corrupt block was found.
    Corrupt,
    /// A call of an arm failed.
    Device,
    /// The parameter file was refused.
    Parameter,
    /// The words are no command.
    Usage,
    /// A read of the parameter file failed.
    Source,
    /// A write of the output failed.
    Sink,
    /// A call of a journal's disk failed.
    Journal,
    /// A journal has no valid gate.
    NoJournal,
    /// A journal is damaged.
    Damaged,
    /// A journal is another store's.
    Mismatch,
    /// A call of the yard failed.
    Yard,
    /// A journal is in its last epoch and a new one is needed.
    EpochEnd,
    /// Memory ran out.
    NoMemory,
}

impl Status {
    /// The number that the program ends with.
    pub fn number(self) -> u8
        ensures { result ≡ number_of self }
    {
        match self {
            Status::Good => 0,
            Status::Corrupt => 1,
            Status::Device => 2,
            Status::Parameter => 3,
            Status::Usage => 4,
            Status::Source => 5,
            Status::Sink => 6,
            Status::Journal => 7,
            Status::NoJournal => 8,
            Status::Damaged => 9,
            Status::Mismatch => 10,
            Status::Yard => 12,
            Status::EpochEnd => 13,
            Status::NoMemory => 20,
        }
    }
}

/// The last lines of a command: its status, and before it where memory ran out. After a write that failed there are none. They take no
/// memory, so that every status can be said.
pub fn last_lines(status: Status) -> &'static str
    ensures { result.now ≡ last_text status }
{
    match status {
        Status::Good => "status 0\n",
        Status::Corrupt => "status 1\n",
        Status::Device => "status 2\n",
        Status::Parameter => "status 3\n",
        Status::Usage => "status 4\n",
        Status::Source => "status 5\n",
        Status::Sink => "",
        Status::Journal => "status 7\n",
        Status::NoJournal => "status 8\n",
        Status::Damaged => "status 9\n",
        Status::Mismatch => "status 10\n",
        Status::Yard => "status 12\n",
        Status::EpochEnd => "status 13\n",
        Status::NoMemory => "no memory\nstatus 20\n",
    }
}
