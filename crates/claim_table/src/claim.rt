// A block that was claimed, and the answers to a claim.
use key_state::Entry;
use vd_base::BlockNo;

/// A block that a seat holds: its entry in the book, and its pass.
#[derive(Drop)]
pub struct Claimed<P> {
    pub block: BlockNo,
    pub entry: Entry,
    pub pass: P,
}

/// What a claim answers.
#[derive(Drop)]
pub enum Claim<P> {
    Claimed(Claimed<P>),
    /// Another seat holds the block; the word that was found.
    Busy { word: u64 },
    /// The block is corrupt and isn't used again.
    BadBlock,
}
