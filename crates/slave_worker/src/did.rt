// What a turn did, why the work ended, and what a worker goes by.
use block_verdict::Finding;
use claim_table::Try;
use key_state::{BookFault, BookSeen, Entry};
use std::collections::LinkedList;
use worker_tally::{Done, Intervals, Refusal};
use workload_gen::Turn;

/// Why a worker's work ended.
#[derive(Clone, Copy, Debug, PartialEq, Eq, Drop)]
pub enum WorkEnd {
    /// All turns of the run were made.
    TurnsMade,
    /// The clock's last reading is at or past the run's end.
    TimeUp { last: u64 },
    /// The count of errors that the worker's last note answered has reached the plan's limit.
    ErrorLimit { seen: u64 },
    /// The book answered this fault.
    Book(BookFault),
}

/// What a worker goes by in a run.
#[derive(Clone, Copy, Debug, PartialEq, Eq, Drop)]
pub struct Rules {
    /// The worker's number in the run.
    pub worker: u32,
    /// Whether a block that was written before is read and checked before it is written again.
    pub preread: bool,
    /// Whether a block is read and checked after it was written.
    pub reread: bool,
    /// The number of errors that ends the work.
    pub limit: u32,
    /// How the run's time is divided; its start is the run's.
    pub intervals: Intervals,
    /// When the run ends, in microseconds, held at the greatest u64.
    pub end: u64,
}

/// What one turn did. Of this type no value is made.
pub struct Did {
    /// The turn that was drawn.
    pub turn: Turn,
    /// Its claims, the newest first.
    pub mine: LinkedList<Try>,
    /// The entries of the blocks that it had, from the turn's first on.
    pub had: LinkedList<Entry>,
    /// Why it had not all of them.
    pub refusal: Option<Refusal>,
    /// What it did with them where it had all.
    pub done: Done,
    /// The corrupt blocks that it reported, in rising order.
    pub corrupt: LinkedList<Finding>,
    /// The blocks that it made bad, the newest first.
    pub spoilt: LinkedList<u32>,
    /// The books that it gave back, the newest first.
    pub gave: LinkedList<BookSeen>,
    /// The fault that the book answered.
    pub fault: Option<BookFault>,
}
