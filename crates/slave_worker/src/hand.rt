// What goes into a run, and what comes back of it.
use crate::did::WorkEnd;
use worker_tally::Tally;

/// A store in a run: its place in the plan's stores, one pass for each of its blocks, in block order, or none while they aren't open, and
/// its book.
#[derive(Drop)]
pub struct StoreHand<P, B> {
    pub store: u32,
    pub passes: Vec<P>,
    pub book: B,
}

/// Why the workers of a run didn't start.
#[derive(Clone, Copy, Debug, PartialEq, Eq, Drop)]
pub enum RunFault {
    /// A call of the yard failed for this store, by its place in the plan's stores.
    Yard { store: u32 },
    NoMemory,
}

/// What comes back of a run.
#[derive(Drop)]
pub struct RunAnswer<P, B> {
    /// The stores as they went in, in their order.
    pub hands: Vec<StoreHand<P, B>>,
    /// One for each worker, in the plan's order; none where the workers didn't start.
    pub tallies: Vec<Tally>,
    /// Why the work of each worker ended, in the same order.
    pub ends: Vec<WorkEnd>,
    /// The errors from before the run and those of all its workers.
    pub errors: u64,
    pub why: Result<(), RunFault>,
}
