// Making the journals of a plan's stores anew.
ghost use Rattle.std.specs.Prelude.{◌≡◌, ◌<◌, ◌≤◌, ◌∷◌, List, ℕ, [], IfOk, IfErr, OnErr, OnOk, IsErrOf, IsTrue, length, map};
ghost use Rattle.vd_outside.specs.Causes.{Rose};
ghost use Rattle.vd_yard.specs.Kept.{kept_at};
ghost use Rattle.vd_yard.specs.Out.{AtDisk, one_more};
ghost use Rattle.run_report.specs.Lines.{opened_text};
ghost use Rattle.run_report.specs.Says.{Says, printing};
ghost use Rattle.plan_journals.specs.Growth.{DiskRose, IsUnwritten, LeavesRest, ChangesOnlyJournals};
ghost use Rattle.plan_journals.specs.Open.{IsMade, new_start, new_starts};
ghost use Rattle.plan_journals.specs.Opening.{AllOpened, OneOpened, OpeningEndsAt, StandOpen, OpeningEnds, refusal_line, refusal_status};
ghost use Rattle.journal_core.specs.Book.{seen_of};
ghost use Rattle.still_plan.specs.Lines.{SaysOr};

use journal_core::{JournalBook, OpenFault, OpenRefused};
use journal_layout::Places;
use plan_types::StorePlan;
use run_report::{Printer, Status, cannot_open_line, journal_fault_line, opened_line};
use std::alloc::Global;
use still_plan::say_line;
use vd_outside::Sink;
use vd_yard::{Yard, YardFault};

/// Why a store's journal isn't opened.
#[derive(Clone, Copy, Debug, PartialEq, Eq, Drop)]
pub enum NotOpened {
    /// The yard can't open its disk.
    Yard,
    /// A call of its disk failed.
    Journal,
    NoMemory,
}

/// Makes a store's journal anew, with so many log sectors in an area. A disk whose journal can't be made goes back to the yard.
#[tactic(auto, using(vd_yard::specs::Out::one_more_here, vd_yard::specs::Out::one_more_cancel))]
pub fn open_journal<Y: Yard>(
    alloc: Global,
    yard: &mut Y,
    store: &StorePlan,
    log_sectors: u32,
) -> Result<JournalBook<Y::Disk>, NotOpened>
    requires logs { (0 < log_sectors) × (log_sectors ≤ 65536) }
    ensures leaves { LeavesRest (Y.seen yard.old) (Y.seen yard.new) }
    ensures taken { OnOk result ((Y.seen yard.new).out ≡ one_more (Y.seen yard.old).out AtDisk store.now.journal) }
    ensures not_taken { OnErr result ((Y.seen yard.new).out ≡ (Y.seen yard.old).out) }
    ensures made { IfOk result (λ book. IsMade (Y.seen yard.old) store.now log_sectors (seen_of book)) }
    ensures grows { ChangesOnlyJournals (new_start log_sectors store.now ∷ []) (Y.seen yard.old).disks (Y.seen yard.new).disks }
    ensures others { (path : List ℕ) → (path ≡ store.now.journal → ⊥) → kept_at (Y.seen yard.new).disks path ≡ kept_at (Y.seen yard.old).disks path }
    ensures disk_fault { IsErrOf result NotOpened.Journal → IsTrue (Y.seen yard.old).tells.keeps_disks →
        DiskRose (Y.seen yard.old).disks (Y.seen yard.new).disks store.now.journal }
    ensures disk_quiet { (IsErrOf result NotOpened.Journal → ⊥) → (IsErrOf result NotOpened.NoMemory → ⊥) → (Y.seen yard.new).disks ≡ (Y.seen yard.old).disks }
    // Where memory ran out nothing was written.
    ensures memory { IsErrOf result NotOpened.NoMemory → IsUnwritten (Y.seen yard.old).disks (Y.seen yard.new).disks store.now.journal }
    ensures yard_fault { IsErrOf result NotOpened.Yard → Rose (Y.seen yard.old).faults (Y.seen yard.new).faults }
    ensures yard_quiet { (IsErrOf result NotOpened.Yard → ⊥) → (Y.seen yard.new).faults ≡ (Y.seen yard.old).faults }
    ensures willing { IsTrue (Y.seen yard.old).willing → IsErrOf result NotOpened.Yard → ⊥ }
{
    let sectors = Places::new(store.id.geometry.blocks(), log_sectors).end();
    let disk = match yard.new_disk(&store.journal, sectors) {
        Ok(disk) => disk,
        Err(YardFault::Failed) => return Err(NotOpened::Yard),
        Err(YardFault::NoMemory) => return Err(NotOpened::NoMemory),
    };
    match JournalBook::create(alloc, disk, &store.id, log_sectors) {
        Ok(book) => {
            book.one_history();
            Ok(book)
        }
        Err(OpenRefused { disk, why }) => {
            yard.keep_disk(&store.journal, disk);
            match why {
                OpenFault::NoMemory => Err(NotOpened::NoMemory),
                _ => Err(NotOpened::Journal),
            }
        }
    }
}

/// Says why a store's journal isn't opened, and answers the status.
fn refuse<S: Sink>(
    alloc: Global,
    store: &StorePlan,
    why: NotOpened,
    printer: &mut Printer,
    out: &mut S,
) -> Status
    ensures { SaysOr (refusal_line store.now why) (refusal_status why) result (printing printer.old.failed (S.taken out.old) (S.faults out.old)) (printing printer.new.failed (S.taken out.new) (S.faults out.new)) }
{
    match why {
        NotOpened::Yard => say_line(
            cannot_open_line(alloc, &store.journal),
            Status::Yard,
            printer,
            out,
        ),
        NotOpened::Journal => say_line(
            journal_fault_line(alloc, &store.id.name, 0),
            Status::Journal,
            printer,
            out,
        ),
        NotOpened::NoMemory => Status::NoMemory,
    }
}

/// Says that a store's journal was opened.
fn say_opened<S: Sink>(
    alloc: Global,
    store: &StorePlan,
    printer: &mut Printer,
    out: &mut S,
) -> Status
    ensures { SaysOr (opened_text store.now.id.name 0) Status.Good result (printing printer.old.failed (S.taken out.old) (S.faults out.old)) (printing printer.new.failed (S.taken out.new) (S.faults out.new)) }
{
    say_line(
        opened_line(alloc, &store.id.name, 0),
        Status::Good,
        printer,
        out,
    )
}

/// Makes a store's journal, puts it behind `books`, and says its line.
fn open_one<Y: Yard, S: Sink>(
    alloc: Global,
    yard: &mut Y,
    store: &StorePlan,
    log_sectors: u32,
    books: &mut Vec<JournalBook<Y::Disk>>,
    printer: &mut Printer,
    out: &mut S,
) -> Result<(), Status>
    requires logs { (0 < log_sectors) × (log_sectors ≤ 65536) }
    ensures leaves { LeavesRest (Y.seen yard.old) (Y.seen yard.new) }
    ensures opened { OnOk result (OneOpened (Y.seen yard.old) (Y.seen yard.new) store.now log_sectors (map seen_of books.old.items) (map seen_of books.new.items)
        (printing printer.old.failed (S.taken out.old) (S.faults out.old)) (printing printer.new.failed (S.taken out.new) (S.faults out.new))) }
    ensures stops { IfErr result (λ status. OpeningEndsAt (Y.seen yard.old) (Y.seen yard.new) store.now log_sectors (map seen_of books.old.items) (map seen_of books.new.items)
        (printing printer.old.failed (S.taken out.old) (S.faults out.old)) (printing printer.new.failed (S.taken out.new) (S.faults out.new)) status) }
    ensures grows { ChangesOnlyJournals (new_start log_sectors store.now ∷ []) (Y.seen yard.old).disks (Y.seen yard.new).disks }
    ensures yard_quiet { (IsErrOf result Status.Yard → ⊥) → (IsErrOf result Status.NoMemory → ⊥) → (Y.seen yard.new).faults ≡ (Y.seen yard.old).faults }
    ensures disk_quiet { (IsErrOf result Status.Journal → ⊥) → (IsErrOf result Status.NoMemory → ⊥) → (Y.seen yard.new).disks ≡ (Y.seen yard.old).disks }
{
    // A place before the journal is opened, so that no open disk is lost for want of memory.
    let Ok(()) = books.reserve(1) else {
        return Err(Status::NoMemory);
    };
    let book = match open_journal(alloc, yard, store, log_sectors) {
        Ok(book) => book,
        Err(why) => return Err(refuse(alloc, store, why, printer, out)),
    };
    books.push_reserved(book);
    match say_opened(alloc, store, printer, out) {
        Status::Good => Ok(()),
        status => Err(status),
    }
}

/// Makes the journals of stores in order, puts them behind `books`, and says their lines. It stops at the first that can't be opened or for
/// which memory runs out, which may be as its line is made; what is open is then in `books` all the same.
pub fn open_journals<Y: Yard, S: Sink>(
    alloc: Global,
    yard: &mut Y,
    stores: &[StorePlan],
    log_sectors: u32,
    books: &mut Vec<JournalBook<Y::Disk>>,
    printer: &mut Printer,
    out: &mut S,
) -> Result<(), Status>
    requires logs { (0 < log_sectors) × (log_sectors ≤ 65536) }
    ensures leaves { LeavesRest (Y.seen yard.old) (Y.seen yard.new) }
    ensures opened { OnOk result (AllOpened (Y.seen yard.old) (Y.seen yard.new) stores.now log_sectors (map seen_of books.old.items) (map seen_of books.new.items)
        (printing printer.old.failed (S.taken out.old) (S.faults out.old)) (printing printer.new.failed (S.taken out.new) (S.faults out.new))) }
    ensures stops { IfErr result (λ status. OpeningEnds (Y.seen yard.old) (Y.seen yard.new) stores.now log_sectors (map seen_of books.old.items) (map seen_of books.new.items)
        (printing printer.old.failed (S.taken out.old) (S.faults out.old)) (printing printer.new.failed (S.taken out.new) (S.faults out.new)) status) }
    // on every way out
    ensures stands { length books.old.items ≡ 0 → StandOpen (Y.seen yard.old) (Y.seen yard.new) stores.now log_sectors (length books.new.items) (map seen_of books.new.items) }
    ensures grows { ChangesOnlyJournals (new_starts log_sectors stores.now) (Y.seen yard.old).disks (Y.seen yard.new).disks }
    ensures yard_quiet { (IsErrOf result Status.Yard → ⊥) → (IsErrOf result Status.NoMemory → ⊥) → (Y.seen yard.new).faults ≡ (Y.seen yard.old).faults }
    ensures disk_quiet { (IsErrOf result Status.Journal → ⊥) → (IsErrOf result Status.NoMemory → ⊥) → (Y.seen yard.new).disks ≡ (Y.seen yard.old).disks }
{
    let [store, ..] = stores else {
        return Ok(());
    };
    let one = open_one(alloc, yard, store, log_sectors, books, printer, out);
    let Ok(()) = one else {
        return one;
    };
    open_journals(alloc, yard, &stores[1..], log_sectors, books, printer, out)
}
