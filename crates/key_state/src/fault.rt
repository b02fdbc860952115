// Why a book takes no record.
use thiserror::Error;

/// Why a call of a book did nothing, or not all. After `Failed` and `Stopped` the book takes no more records, and after `EpochEnd` none
/// where a record was refused by it.
#[derive(Clone, Copy, Debug, PartialEq, Eq, Drop, Error)]
pub enum BookFault {
    /// A call of its disk failed. A record that was to be appended may be, and may be stored or not.
    #[error("a call of the journal's disk failed")]
    Failed,
    /// An earlier call of this book failed, and its epoch then had so many records. Nothing changes.
    #[error("the journal was stopped by an earlier failure")]
    Stopped { records: u64 },
    /// A turnover is due in this epoch, which is the last one: for a record that its full log has no room for, or since it was asked
    /// for. Nothing changes, and a log with room, of which the text doesn't speak, goes on taking records.
    #[error("the journal's last epoch is full")]
    EpochEnd { epoch: u64 },
}
