// What verification saw of one block.
use block_verdict::Verdict;

/// What verification saw of one block.
#[derive(Clone, Copy, Debug, PartialEq, Eq, Drop)]
pub enum Look {
    /// It isn't read: it was never written, or is bad.
    Skipped,
    /// It couldn't be read.
    Unread,
    /// It was read, and judged by its entry.
    Sees(Verdict),
}
