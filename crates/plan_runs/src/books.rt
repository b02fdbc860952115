// How the books of a run's stores stand once it has ended.
ghost use Rattle.std.specs.Prelude.{◌≡◌};
ghost use Rattle.std.specs.List.{list_any, zip};
ghost use Rattle.slave_worker.specs.Hands.{hand_seen};
ghost use Rattle.plan_runs.specs.Books.{book_end_of, is_epoch_end, met_end};

use journal_core::JournalBook;
use key_state::{Book, BookFault, QuietBook};
use plan_types::{RunPlan, WorkerPlan};
use slave_worker::{StoreHand, WorkEnd};
use vd_arm::Pass;
use vd_disk::Disk;

/// A book that tells whether a call of it failed.
pub trait RunBook: Book {
    /// How many records the epoch had when a call failed, where one did.
    fn stopped_after(&self) -> Option<u64>
        ensures stopped { result ≡ (Self.seen self.now).stopped };
}

impl RunBook for QuietBook {
    fn stopped_after(&self) -> Option<u64> {
        None
    }
}

impl<D: Disk + Send> RunBook for JournalBook<D> {
    fn stopped_after(&self) -> Option<u64> {
        self.stopped_at()
    }
}

/// How a store's book stands after a run.
#[derive(Clone, Copy, Debug, PartialEq, Eq, Drop)]
pub enum BookEnd {
    Well,
    /// A call of it failed, after so many records of its epoch.
    Failed { records: u64 },
    /// A record was refused at the end of its last epoch.
    EpochOver,
}

fn is_refused_at_end(end: &WorkEnd) -> bool
    ensures { result ≡ is_epoch_end end.now }
{
    match end {
        WorkEnd::Book(BookFault::EpochEnd { .. }) => true,
        WorkEnd::Book(BookFault::Failed) => false,
        WorkEnd::Book(BookFault::Stopped { .. }) => false,
        WorkEnd::TurnsMade => false,
        WorkEnd::TimeUp { .. } => false,
        WorkEnd::ErrorLimit { .. } => false,
    }
}

/// Whether a worker of a store was refused at the end of the last epoch.
fn some_met_end(store: u32, workers: &[WorkerPlan], ends: &[WorkEnd]) -> bool
    ensures { result ≡ met_end store workers.now ends.now }
{
    let [worker, others @ ..] = workers else {
        return false;
    };
    let [end, rest @ ..] = ends else {
        return false;
    };
    if worker.store == store && is_refused_at_end(end) {
        return true;
    }
    some_met_end(store, others, rest)
}

/// How a store's book stands after a run, by the book and by why the work of the store's workers ended.
pub(crate) fn book_end<P: Pass, B: RunBook>(
    run: &RunPlan,
    ends: &[WorkEnd],
    hand: &StoreHand<P, B>,
) -> BookEnd
    ensures { result ≡ book_end_of run.now ends.now (hand_seen P.seen B.seen hand.now) }
{
    if let Some(records) = hand.book.stopped_after() {
        return BookEnd::Failed { records };
    }
    if some_met_end(hand.store, run.workers.as_slice(), ends) {
        return BookEnd::EpochOver;
    }
    BookEnd::Well
}
