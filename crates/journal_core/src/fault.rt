// Why a journal isn't opened.
use thiserror::Error;
use vd_disk::Disk;

/// Why a journal wasn't made or opened.
#[derive(Clone, Copy, Debug, PartialEq, Eq, Drop, Error)]
pub enum OpenFault {
    /// The live epoch is the last one. Nothing was changed.
    #[error("the journal's last epoch is open")]
    EpochEnd { epoch: u64 },
    /// A call of the disk failed.
    #[error("a call of the journal's disk failed")]
    Failed,
    /// No memory for the entries. Nothing was changed.
    #[error("no memory")]
    NoMemory,
}

/// The disk of a journal that wasn't opened, and why.
#[derive(Drop)]
pub struct OpenRefused<D: Disk> {
    pub disk: D,
    pub why: OpenFault,
}
