// Opening the recovered journals of a plan's stores in their next epoch.
ghost use Rattle.std.specs.Prelude.{◌≡◌, ◌<◌, ◌≤◌, ◌∷◌, ◌++◌, ℕ, List, [], IfErr, IfOk, OnErr, OnOk, IsErrOf, IsTrue, Some, length, map, take};
ghost use Rattle.key_state.specs.declared.seen.BookSeen.{BookSeen};
ghost use Rattle.vd_yard.specs.Kept.{kept_at};
ghost use Rattle.vd_yard.specs.Out.{AtDisk, Out, one_more, out_at};
ghost use Rattle.run_report.specs.Lines.{opened_text};
ghost use Rattle.run_report.specs.Says.{printing};
ghost use Rattle.still_plan.specs.Lines.{SaysOr};
ghost use Rattle.journal_core.specs.Book.{seen_of};
ghost use Rattle.journal_core.specs.Seen.{last_epoch};
ghost use Rattle.plan_journals.specs.Closing.{AreJournalsApart};
ghost use Rattle.plan_journals.specs.Growth.{ChangesOnlyJournals, DiskRose, LeavesRest};
ghost use Rattle.plan_journals.specs.Open.{IsOpenedNow, JournalsAreOut};
ghost use Rattle.plan_reopened.specs.Kept.{AreStillKept};
ghost use Rattle.plan_reopened.specs.Reopening.{AllReopened, AreOpenedOn, AreReady, CanReopen, IsLow, IsOpenedOn, OneReopened, ReopeningEnds, ReopeningEndsAt, StandReopened, items_of, next_start, next_starts, refusal_line, refusal_status};

use crate::kept::give_back;
use journal_core::{JournalBook, OpenFault, OpenRefused};
use journal_layout::Live;
use journal_recover::Recovered;
use key_state::{Book, Entry};
use plan_types::StorePlan;
use run_report::{Printer, Status, epoch_end_line, journal_fault_line, opened_line};
use std::alloc::Global;
use still_plan::say_line;
use vd_outside::Sink;
use vd_yard::Yard;

/// Why a store's journal isn't opened in its next epoch.
#[derive(Clone, Copy, Debug, PartialEq, Eq, Drop)]
pub enum NotReopened {
    /// Its last epoch is over.
    EpochEnd,
    /// A call of its disk failed.
    Journal,
    NoMemory,
}

/// Opens a store's journal on a disk that was taken from the yard, in the epoch after the live one, with these entries and no records. The
/// disk of one that can't be opened goes back to the yard.
#[tactic(auto, using(vd_yard::specs::Out::one_more_here, vd_yard::specs::Out::one_more_cancel))]
pub fn reopen_journal<Y: Yard>(
    yard: &mut Y,
    store: &StorePlan,
    disk: Y::Disk,
    live: &Live,
    entries: Vec<Entry>,
) -> Result<JournalBook<Y::Disk>, NotReopened>
    requires out { 1 ≤ out_at (Y.seen yard.old).out AtDisk store.now.journal }
    requires kept { IsTrue (Y.seen yard.old).tells.keeps_disks → kept_at (Y.seen yard.old).disks store.now.journal ≡ Some (Y.Disk.seen disk) }
    requires ready { CanReopen store.now (Y.Disk.seen disk) live.now entries.items }
    ensures leaves { LeavesRest (Y.seen yard.old) (Y.seen yard.new) }
    ensures faults { (Y.seen yard.new).faults ≡ (Y.seen yard.old).faults }
    ensures same { OnOk result (Y.seen yard.new ≡ Y.seen yard.old) }
    ensures back { OnErr result ((Y.seen yard.old).out ≡ one_more (Y.seen yard.new).out AtDisk store.now.journal) }
    ensures opened { IfOk result (λ book. IsOpenedNow (Y.seen yard.old) (next_start store.now live.now entries.items) (seen_of book)) }
    // over any yard, whether it keeps disks or not
    ensures its_disk { IfOk result (λ book. IsOpenedOn (Y.Disk.seen disk) (seen_of book)) }
    ensures grows { ChangesOnlyJournals (next_start store.now live.now entries.items ∷ []) (Y.seen yard.old).disks (Y.seen yard.new).disks }
    ensures others { (path : List ℕ) → (path ≡ store.now.journal → ⊥) → kept_at (Y.seen yard.new).disks path ≡ kept_at (Y.seen yard.old).disks path }
    // exactly in the last epoch
    ensures epoch_end { IsErrOf result NotReopened.EpochEnd → live.now.epoch ≡ last_epoch }
    ensures low { (IsErrOf result NotReopened.EpochEnd → ⊥) → live.now.epoch < last_epoch }
    ensures disk_fault { IsErrOf result NotReopened.Journal → IsTrue (Y.seen yard.old).tells.keeps_disks →
        DiskRose (Y.seen yard.old).disks (Y.seen yard.new).disks store.now.journal }
    ensures disk_quiet { (IsErrOf result NotReopened.Journal → ⊥) → (path : List ℕ) → kept_at (Y.seen yard.new).disks path ≡ kept_at (Y.seen yard.old).disks path }
{
    match JournalBook::open_after(disk, live, entries) {
        Ok(book) => {
            book.one_history();
            Ok(book)
        }
        Err(OpenRefused { disk, why }) => {
            yard.keep_disk(&store.journal, disk);
            match why {
                OpenFault::EpochEnd { epoch: _ } => Err(NotReopened::EpochEnd),
                OpenFault::Failed => Err(NotReopened::Journal),
                OpenFault::NoMemory => Err(NotReopened::NoMemory),
            }
        }
    }
}

/// Says why a store's journal isn't opened, and answers the status.
fn refuse<S: Sink>(
    alloc: Global,
    store: &StorePlan,
    why: NotReopened,
    printer: &mut Printer,
    out: &mut S,
) -> Status
    ensures { SaysOr (refusal_line store.now why) (refusal_status why) result (printing printer.old.failed (S.taken out.old) (S.faults out.old)) (printing printer.new.failed (S.taken out.new) (S.faults out.new)) }
{
    match why {
        NotReopened::EpochEnd => say_line(
            epoch_end_line(alloc, &store.id.name),
            Status::EpochEnd,
            printer,
            out,
        ),
        NotReopened::Journal => say_line(
            journal_fault_line(alloc, &store.id.name, 0),
            Status::Journal,
            printer,
            out,
        ),
        NotReopened::NoMemory => Status::NoMemory,
    }
}

/// Says that a store's journal was opened in an epoch.
fn say_reopened<S: Sink>(
    alloc: Global,
    store: &StorePlan,
    epoch: u64,
    printer: &mut Printer,
    out: &mut S,
) -> Status
    ensures { SaysOr (opened_text store.now.id.name epoch) Status.Good result (printing printer.old.failed (S.taken out.old) (S.faults out.old)) (printing printer.new.failed (S.taken out.new) (S.faults out.new)) }
{
    say_line(
        opened_line(alloc, &store.id.name, epoch),
        Status::Good,
        printer,
        out,
    )
}

/// Opens a store's journal in its next epoch, puts it behind `books`, and says its line.
#[tactic(auto, using(vd_yard::specs::Out::one_more_here, vd_yard::specs::Out::one_more_cancel))]
fn reopen_one<Y: Yard, S: Sink>(
    alloc: Global,
    yard: &mut Y,
    store: &StorePlan,
    disk: Y::Disk,
    live: &Live,
    entries: Vec<Entry>,
    books: &mut Vec<JournalBook<Y::Disk>>,
    printer: &mut Printer,
    out: &mut S,
) -> Result<(), Status>
    requires out { 1 ≤ out_at (Y.seen yard.old).out AtDisk store.now.journal }
    requires kept { IsTrue (Y.seen yard.old).tells.keeps_disks → kept_at (Y.seen yard.old).disks store.now.journal ≡ Some (Y.Disk.seen disk) }
    requires ready { CanReopen store.now (Y.Disk.seen disk) live.now entries.items }
    ensures leaves { LeavesRest (Y.seen yard.old) (Y.seen yard.new) }
    ensures faults { (Y.seen yard.new).faults ≡ (Y.seen yard.old).faults }
    ensures opened { OnOk result (OneReopened (Y.seen yard.old) (Y.seen yard.new) (next_start store.now live.now entries.items) (map seen_of books.old.items) (map seen_of books.new.items)
        (printing printer.old.failed (S.taken out.old) (S.faults out.old)) (printing printer.new.failed (S.taken out.new) (S.faults out.new))) }
    ensures stops { IfErr result (λ status. ReopeningEndsAt (Y.seen yard.old) (Y.seen yard.new) store.now (next_start store.now live.now entries.items) (map seen_of books.old.items) (map seen_of books.new.items)
        (printing printer.old.failed (S.taken out.old) (S.faults out.old)) (printing printer.new.failed (S.taken out.new) (S.faults out.new)) status) }
    ensures its_disk { OnOk result ((b : BookSeen) × (map seen_of books.new.items ≡ map seen_of books.old.items ++ b ∷ []) × IsOpenedOn (Y.Disk.seen disk) b) }
    ensures at_most_its_disk { OnErr result ((more : List BookSeen) × (map seen_of books.new.items ≡ map seen_of books.old.items ++ more) × AreOpenedOn (Y.Disk.seen disk ∷ []) more) }
    ensures grows { ChangesOnlyJournals (next_start store.now live.now entries.items ∷ []) (Y.seen yard.old).disks (Y.seen yard.new).disks }
    ensures disk_quiet { (IsErrOf result Status.Journal → ⊥) → (IsErrOf result Status.NoMemory → ⊥) → (path : List ℕ) → kept_at (Y.seen yard.new).disks path ≡ kept_at (Y.seen yard.old).disks path }
{
    // A place before the journal is opened, so that no open disk is lost for want of memory.
    let Ok(()) = books.reserve(1) else {
        yard.keep_disk(&store.journal, disk);
        return Err(Status::NoMemory);
    };
    let book = match reopen_journal(yard, store, disk, live, entries) {
        Ok(book) => book,
        Err(why) => return Err(refuse(alloc, store, why, printer, out)),
    };
    let epoch = book.epoch();
    books.push_reserved(book);
    match say_reopened(alloc, store, epoch, printer, out) {
        Status::Good => Ok(()),
        status => Err(status),
    }
}

/// Opens the journals of stores in order on disks that were taken from the yard, each in the epoch after its live one, with the settled
/// entries of its blocks and no records, puts them behind `books`, and says their lines. It stops at the first that can't be opened or for
/// which memory runs out, which may be as its line is made. What is open is then in `books` all the same, and the other disks are back.
pub fn reopen_journals<Y: Yard, S: Sink>(
    alloc: Global,
    yard: &mut Y,
    stores: &[StorePlan],
    mut disks: Vec<Y::Disk>,
    found: &[Recovered],
    mut settled: Vec<Vec<Entry>>,
    books: &mut Vec<JournalBook<Y::Disk>>,
    printer: &mut Printer,
    out: &mut S,
) -> Result<(), Status>
    requires as_many { (length disks.items ≡ length stores.now) × (length found.now ≡ length stores.now) × (length settled.items ≡ length stores.now) }
    requires apart { AreJournalsApart stores.now }
    requires out { JournalsAreOut (Y.seen yard.old).out stores.now }
    requires kept { IsTrue (Y.seen yard.old).tells.keeps_disks → AreStillKept (Y.seen yard.old).disks stores.now (map Y.Disk.seen disks.items) }
    requires ready { AreReady stores.now (map Y.Disk.seen disks.items) found.now (map items_of settled.items) }
    ensures leaves { LeavesRest (Y.seen yard.old) (Y.seen yard.new) }
    ensures faults { (Y.seen yard.new).faults ≡ (Y.seen yard.old).faults }
    ensures opened { OnOk result (AllReopened (Y.seen yard.old) (Y.seen yard.new) (next_starts stores.now found.now (map items_of settled.items)) (map seen_of books.old.items) (map seen_of books.new.items)
        (printing printer.old.failed (S.taken out.old) (S.faults out.old)) (printing printer.new.failed (S.taken out.new) (S.faults out.new))) }
    ensures stops { IfErr result (λ status. ReopeningEnds (Y.seen yard.old) (Y.seen yard.new) stores.now (next_starts stores.now found.now (map items_of settled.items)) (map seen_of books.old.items) (map seen_of books.new.items)
        (printing printer.old.failed (S.taken out.old) (S.faults out.old)) (printing printer.new.failed (S.taken out.new) (S.faults out.new)) status) }
    // on every way out: over any yard, whether it keeps disks or not, what came behind the books was opened on the disks that came in
    ensures their_disks { (more : List BookSeen) × (map seen_of books.new.items ≡ map seen_of books.old.items ++ more) × AreOpenedOn (map Y.Disk.seen disks.items) more }
    ensures stands { length books.old.items ≡ 0 → StandReopened (Y.seen yard.old) (Y.seen yard.new) stores.now (next_starts stores.now found.now (map items_of settled.items)) (length books.new.items) (map seen_of books.new.items) }
    ensures grows { ChangesOnlyJournals (next_starts stores.now found.now (map items_of settled.items)) (Y.seen yard.old).disks (Y.seen yard.new).disks }
    ensures disk_quiet { (IsErrOf result Status.Journal → ⊥) → (IsErrOf result Status.NoMemory → ⊥) → (path : List ℕ) → kept_at (Y.seen yard.new).disks path ≡ kept_at (Y.seen yard.old).disks path }
{
    let [store, ..] = stores else {
        return Ok(());
    };
    let [one, ..] = found else {
        return Ok(());
    };
    // There are few stores, so that it doesn't matter that the others move.
    let disk = disks.remove(0);
    let entries = settled.remove(0);
    match reopen_one(
        alloc, yard, store, disk, &one.live, entries, books, printer, out,
    ) {
        Ok(()) => reopen_journals(
            alloc,
            yard,
            &stores[1..],
            disks,
            &found[1..],
            settled,
            books,
            printer,
            out,
        ),
        Err(status) => {
            give_back(yard, &stores[1..], disks);
            Err(status)
        }
    }
}
