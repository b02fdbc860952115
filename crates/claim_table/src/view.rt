// What contracts see of a seat. Of these types but `Answer` no value is made.
use key_state::{BookSeen, Entry};
use std::collections::LinkedList;
use vd_base::StoreId;

/// A block that a seat holds.
pub struct Item {
    pub block: u32,
    /// Its entry as it was claimed.
    pub was: Entry,
    /// The entry that the book has for it.
    pub own: Entry,
    /// Set where, in the book as this seat last gave it back, the entry was pending and was also the synced one: a stop can't take it
    /// back.
    pub safe: bool,
}

/// What a claim answered.
#[derive(Clone, Copy, Debug, PartialEq, Eq, Drop)]
pub enum Answer {
    /// The block was had, with this entry.
    Claimed(Entry),
    /// Another seat held it.
    Busy,
    /// It is corrupt.
    Bad,
}

/// A claim that was made.
pub struct Try {
    pub block: u32,
    /// The word that it found.
    pub word: u64,
    pub answer: Answer,
}

/// What a table was made with.
pub struct Made {
    pub store: StoreId,
    pub seats: u32,
    /// The book as it was handed in.
    pub book: BookSeen,
    /// The bytes of each block, where its pass told them.
    pub told: LinkedList<Option<LinkedList<u8>>>,
}

/// What a seat knows. Its lists have the newest first, so the blocks that it holds fall.
pub struct View {
    /// The blocks that it holds, at most 64.
    pub held: LinkedList<Item>,
    /// The book as it was lent to this seat, where it has it.
    pub loan: Option<BookSeen>,
    /// The claims that it made, each with the word that it found.
    pub mine: LinkedList<Try>,
    /// The blocks whose write it ended.
    pub wrote: LinkedList<u32>,
    /// The blocks that it cleared, which weren't settled at 0.
    pub cleared: LinkedList<u32>,
    /// The blocks that it made bad.
    pub spoilt: LinkedList<u32>,
    /// The books that it gave back, as it gave them.
    pub gave: LinkedList<BookSeen>,
    /// Whether a book that it gave back was shut.
    pub shut: bool,
    /// Its parts of the right to close the table; there are 2^32 for each seat that the table was made with.
    pub parts: u64,
    /// Whether it was joined to another seat.
    pub spent: bool,
    /// Within a call, 1 more than the slot that is out; else 0.
    pub hand: u64,
    pub made: Made,
}
