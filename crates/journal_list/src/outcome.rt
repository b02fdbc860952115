// What an audit finds.

/// What an audit finds.
#[derive(Clone, Copy, Debug, PartialEq, Eq, Drop)]
pub enum Audit {
    /// The records are legal from the base: how many writes they end, the blocks of ended runs counted one by one, and how many blocks
    /// are pending and how many are bad after them.
    Legal { ends: u64, pending: u64, bad: u64 },
    /// The records before this one are legal, and with it they aren't.
    Illegal { at: u64 },
}
