// What a command is to do.

/// What a command does.
#[derive(Clone, Copy, Debug, PartialEq, Eq, Drop)]
pub enum Mode {
    /// Prints the plan: `-s`.
    Show,
    /// Runs the work and keeps no journal: `-v`, `-vr`, or none of the modes.
    Validate,
    /// Runs the work over new journals: `-j`.
    Journal,
    /// Recovers the journals, verifies the stores and runs the work: `-jr`.
    Recover,
    /// Recovers the journals and verifies the stores: `-jro`.
    RecoverOnly,
    /// Runs a schedule of so many steps of the machine of workers, journal and device: `-sim`.
    Simulate(u32),
}

/// A command.
#[derive(Clone, Copy, Debug, PartialEq, Eq, Drop)]
pub struct Command {
    pub mode: Mode,
    /// Whether each block is read again after it was written: `-vr`.
    pub reread: bool,
    /// The place of the word that names the parameter file, which begins with `-f` where both are one word.
    pub file: Option<u32>,
}

/// What an option says.
#[derive(Clone, Copy, Drop)]
pub enum Flag {
    /// Which word names the parameter file.
    FileAt(u32),
    /// A folder, without effect.
    Folder,
    Does(Mode),
    /// Whether blocks are read again after they were written.
    Rereads(bool),
}
