// Closing the journals of a plan's stores.
ghost use Rattle.std.specs.Prelude.{◌≡◌, ◌≤◌, ℕ, IsTrue, List, length, map, slice_get, take, Some, IsSome};
ghost use Rattle.key_state.specs.declared.seen.BookSeen.{BookSeen};
ghost use Rattle.vd_disk.specs.Disk.{DiskSeen};
ghost use Rattle.vd_yard.specs.Kept.{Kept, kept_at};
ghost use Rattle.vd_yard.specs.Out.{AtDisk, Out, out_at};
ghost use Rattle.run_report.specs.Says.{printing};
ghost use Rattle.journal_core.specs.Book.{seen_of};
ghost use Rattle.plan_types.specs.declared.store.StorePlan.{StorePlan};
ghost use Rattle.plan_journals.specs.Growth.{AreKeptClosed, IsNoneOf, LeavesRest, ChangesOnlyJournals, SomeRose};
ghost use Rattle.plan_journals.specs.Open.{AreFrom, JournalsAreOut, Start, held_of, out_besides};
ghost use Rattle.plan_journals.specs.Closing.{AllEnded, AreJournalsApart, EndsAs, IsClosingStatus, OneEnded, WentBack, WentWell, after_closing as status_after, after_refusal as status_after_refusal};

use journal_core::JournalBook;
use plan_types::StorePlan;
use run_report::{Printer, Status, journal_fault_line};
use std::alloc::Global;
use still_plan::say_line;
use vd_outside::Sink;
use vd_yard::Yard;

/// How a journal's closing ended.
#[derive(Clone, Copy, Debug, PartialEq, Eq, Drop)]
pub enum Closed {
    /// All its records stay.
    Well,
    /// A call of its disk had failed before, and its line was due then.
    FailedBefore,
    /// A call of its disk failed only now, after so many records of its epoch.
    Failed { records: u64 },
}

/// Closes a store's journal, and gives its disk back to the yard.
pub fn close_journal<Y: Yard>(yard: &mut Y, store: &StorePlan, book: JournalBook<Y::Disk>) -> Closed
    requires { 1 ≤ out_at (Y.seen yard.old).out AtDisk store.now.journal }
    ensures { (disk : DiskSeen) × WentBack (Y.seen yard.old) (Y.seen yard.new) store.now.journal disk × EndsAs (held_of book) disk result }
{
    book.one_history();
    let records = book.records();
    let before = book.stopped_at();
    match book.close() {
        Ok(whole) => {
            yard.keep_disk(&store.journal, whole);
            Closed::Well
        }
        Err(left) => {
            yard.keep_disk(&store.journal, left);
            match before {
                Some(_) => Closed::FailedBefore,
                None => Closed::Failed { records },
            }
        }
    }
}

/// The status of a command that ran once its journals were closed, by the one before and that of closing. Want of memory stands above every
/// other one, since the line of a journal that failed is missing then; a journal that failed stands above good, corrupt, device and the end
/// of a run by a journal's last epoch.
pub fn after_closing(before: Status, closing: Status) -> Status
    ensures status { result ≡ status_after before closing }
    // With a status of 0, 1 or 2 closing was good, so that each journal stands closed.
    ensures well { IsClosingStatus closing → WentWell result → closing ≡ Status.Good }
{
    match closing {
        Status::Good => before,
        Status::Journal => match before {
            Status::Good => Status::Journal,
            Status::Corrupt => Status::Journal,
            Status::Device => Status::Journal,
            Status::EpochEnd => Status::Journal,
            stays => stays,
        },
        closed => closed,
    }
}

/// The status of a command whose opening of journals stopped, once those that were open were closed: that with which it stopped, but for
/// want of memory.
pub fn after_refusal(before: Status, closing: Status) -> Status
    ensures status { result ≡ status_after_refusal before closing }
{
    match closing {
        Status::NoMemory => Status::NoMemory,
        _closed => before,
    }
}

/// Closes a store's journal, and says its line where it failed only now.
fn close_one<Y: Yard, S: Sink>(
    alloc: Global,
    yard: &mut Y,
    store: &StorePlan,
    book: JournalBook<Y::Disk>,
    printer: &mut Printer,
    out: &mut S,
) -> Status
    requires { 1 ≤ out_at (Y.seen yard.old).out AtDisk store.now.journal }
    ensures { OneEnded (Y.seen yard.old) (Y.seen yard.new) store.now (held_of book)
        (printing printer.old.failed (S.taken out.old) (S.faults out.old)) (printing printer.new.failed (S.taken out.new) (S.faults out.new)) result }
{
    match close_journal(yard, store, book) {
        Closed::Well => Status::Good,
        Closed::FailedBefore => Status::Journal,
        Closed::Failed { records } => say_line(
            journal_fault_line(alloc, &store.id.name, records),
            Status::Journal,
            printer,
            out,
        ),
    }
}

/// Closes the journals of the first of the stores, in order, gives their disks back to the yard, and says the line of each that failed only
/// now. It answers `Good` where none failed, now or before, `NoMemory` where such a line couldn't be made, and else `Journal`. All of them
/// are closed, and each line that can be made is said, in any case.
pub fn close_journals<Y: Yard, S: Sink>(
    alloc: Global,
    yard: &mut Y,
    stores: &[StorePlan],
    mut books: Vec<JournalBook<Y::Disk>>,
    printer: &mut Printer,
    out: &mut S,
) -> Status
    requires few { length books.items ≤ length stores.now }
    requires out { JournalsAreOut (Y.seen yard.old).out (take (length books.items) stores.now) }
    ensures leaves { LeavesRest (Y.seen yard.old) (Y.seen yard.new) }
    ensures faults { (Y.seen yard.new).faults ≡ (Y.seen yard.old).faults }
    ensures back { (before : Out) → (Y.seen yard.old).out ≡ out_besides before (take (length books.items) stores.now) → (Y.seen yard.new).out ≡ before }
    ensures answers { IsClosingStatus result }
    ensures ends { AllEnded (Y.seen yard.old) (Y.seen yard.new) stores.now (map held_of books.items)
        (printing printer.old.failed (S.taken out.old) (S.faults out.old)) (printing printer.new.failed (S.taken out.new) (S.faults out.new)) result }
    ensures others { (path : List ℕ) → IsNoneOf path (take (length books.items) stores.now) → kept_at (Y.seen yard.new).disks path ≡ kept_at (Y.seen yard.old).disks path }
    // Where these books were opened over what was kept first, and only journals changed of the kept disks since, only they changed still.
    ensures grows { (starts : List Start) (first : Kept DiskSeen) → (IsTrue (Y.seen yard.old).tells.keeps_disks → AreFrom first stores.now starts (map seen_of books.items))
        → ChangesOnlyJournals starts first (Y.seen yard.old).disks → ChangesOnlyJournals starts first (Y.seen yard.new).disks }
    // Where one was stopped it isn't `Good`.
    ensures stopped { (place : ℕ) (b : BookSeen) → slice_get (map seen_of books.items) place ≡ Some b → IsSome b.stopped → result ≡ Status.Good → ⊥ }
    // At `Good` each stands closed, with all its records; `Journal` comes only where the count of faults of one of their disks rose since.
    ensures whole { (starts : List Start) (first : Kept DiskSeen) → result ≡ Status.Good → IsTrue (Y.seen yard.old).tells.keeps_disks → AreJournalsApart stores.now
        → AreFrom first stores.now starts (map seen_of books.items) → AreKeptClosed first (Y.seen yard.new).disks starts (map seen_of books.items) }
    ensures fault { (starts : List Start) (first : Kept DiskSeen) → result ≡ Status.Journal → IsTrue (Y.seen yard.old).tells.keeps_disks → AreJournalsApart stores.now
        → AreFrom first stores.now starts (map seen_of books.items) → SomeRose stores.now first (Y.seen yard.new).disks }
{
    if books.len() == 0 {
        return Status::Good;
    }
    let [store, ..] = stores else {
        return Status::Good;
    };
    // There are few books, so that it doesn't matter that the others move.
    let book = books.remove(0);
    let first = close_one(alloc, yard, store, book, printer, out);
    let rest = close_journals(alloc, yard, &stores[1..], books, printer, out);
    after_closing(first, rest)
}
