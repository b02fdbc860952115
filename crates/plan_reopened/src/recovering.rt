// Recovering the journals of a plan's stores, whose disks stay out.
ghost use Rattle.std.specs.Prelude.{◌≡◌, ◌<◌, ◌-◌, ◌^◌, ℕ, List, IfOk, IfErr, OnErr, OnOk, IsErrOf, IsTrue, None, Some, length, map, slice_get, true};
ghost use Rattle.vd_disk.specs.Disk.{DiskSeen, WhenTold};
ghost use Rattle.vd_outside.specs.Causes.{Rose};
ghost use Rattle.vd_yard.specs.Kept.{kept_at};
ghost use Rattle.vd_yard.specs.Out.{AtDisk, one_more};
ghost use Rattle.vd_yard.specs.Yard.{is_there};
ghost use Rattle.journal_recover.specs.declared.fault.RecoverFault.{RecoverFault as AFault};
ghost use Rattle.plan_types.specs.declared.store.StorePlan.{StorePlan as AStore};
ghost use Rattle.run_report.specs.Says.{Says, printing};
ghost use Rattle.still_store.specs.Frame.{JournalsStay};
ghost use Rattle.still_store.specs.Recovery.{AnswersFor, JournalRefused};
ghost use Rattle.still_plan.specs.Journals.{JournalStop, JournalsStop, journals_text, recovered_text};
ghost use Rattle.plan_journals.specs.Closing.{AreJournalsApart};
ghost use Rattle.plan_journals.specs.Growth.{LeavesRest};
ghost use Rattle.plan_journals.specs.Open.{out_besides};
ghost use Rattle.plan_reopened.specs.Recovering.{AllRecovered, AreRecovered, IsRecovered, RecoveringEnds};

use crate::kept::give_back;
use journal_layout::gives_once;
use journal_recover::{RecoverFault, Recovered, recovered};
use plan_types::StorePlan;
use run_report::{Printer, Status, cannot_open_line};
use std::alloc::Global;
use still_plan::{refuse, say_line, say_recovered};
use still_store::NotRecovered;
use vd_disk::Disk;
use vd_outside::Sink;
use vd_yard::{Yard, YardFault};

/// A journal that was recovered, and its disk, which is out.
#[derive(Drop)]
pub struct OpenJournal<D: Disk> {
    pub disk: D,
    pub found: Recovered,
}

/// The journals of stores that were recovered, in order: their disks, which are out, and what they gave.
#[derive(Drop)]
pub struct OpenJournals<D: Disk> {
    pub disks: Vec<D>,
    pub found: Vec<Recovered>,
}

/// Opens a store's journal and recovers it. The disk of one that isn't recovered goes back to the yard.
#[tactic(auto, using(vd_yard::specs::Out::one_more_here, vd_yard::specs::Out::one_more_cancel))]
pub fn recover_journal<Y: Yard>(
    alloc: Global,
    yard: &mut Y,
    store: &StorePlan,
) -> Result<OpenJournal<Y::Disk>, NotRecovered>
    ensures leaves { LeavesRest (Y.seen yard.old) (Y.seen yard.new) }
    ensures taken { OnOk result ((Y.seen yard.new).out ≡ one_more (Y.seen yard.old).out AtDisk store.now.journal) }
    ensures not_taken { OnErr result ((Y.seen yard.new).out ≡ (Y.seen yard.old).out) }
    ensures gives { IfOk result (λ one. IsRecovered (Y.seen yard.old) store.now (Y.Disk.seen one.disk) one.found) }
    ensures same { OnOk result ((Y.seen yard.new).disks ≡ (Y.seen yard.old).disks) }
    ensures journals { JournalsStay (Y.seen yard.old).disks (Y.seen yard.new).disks }
    ensures others { (path : List ℕ) → (path ≡ store.now.journal → ⊥) → kept_at (Y.seen yard.new).disks path ≡ kept_at (Y.seen yard.old).disks path }
    ensures recovers { (disk : DiskSeen) → kept_at (Y.seen yard.old).disks store.now.journal ≡ Some disk →
        WhenTold disk.told (λ sectors. IfErr result (λ why. AnswersFor sectors store.now.id (Err why))) }
    ensures absent_refused { IsTrue (Y.seen yard.old).tells.keeps_disks → kept_at (Y.seen yard.old).disks store.now.journal ≡ None →
        (fault : AFault) → IsErrOf result (NotRecovered.Refused fault) → fault ≡ RecoverFault.NoMemory }
    ensures refused { JournalRefused (Y.seen yard.old) store.now → OnOk result ⊥ }
    ensures yard_fault { IsErrOf result NotRecovered.Yard → Rose (Y.seen yard.old).faults (Y.seen yard.new).faults }
    ensures yard_quiet { (IsErrOf result NotRecovered.Yard → ⊥) → (Y.seen yard.new).faults ≡ (Y.seen yard.old).faults }
    ensures willing { IsTrue (Y.seen yard.old).willing → IsTrue (is_there (Y.seen yard.old).files AtDisk store.now.journal) →
        IsErrOf result NotRecovered.Yard → ⊥ }
    ensures disk_fault { IsErrOf result (NotRecovered.Refused RecoverFault.Failed) → IsTrue (Y.seen yard.old).tells.keeps_disks →
        (disk now : DiskSeen) → kept_at (Y.seen yard.old).disks store.now.journal ≡ Some disk →
        kept_at (Y.seen yard.new).disks store.now.journal ≡ Some now → Rose disk.faults now.faults }
    ensures disk_quiet { (IsErrOf result (NotRecovered.Refused RecoverFault.Failed) → ⊥) → (path : List ℕ) →
        kept_at (Y.seen yard.new).disks path ≡ kept_at (Y.seen yard.old).disks path }
    ensures sure { (disk : DiskSeen) → kept_at (Y.seen yard.old).disks store.now.journal ≡ Some disk → IsTrue disk.sure →
        disk.faults < 2 ^ 64 - 1 → IsErrOf result (NotRecovered.Refused RecoverFault.Failed) → ⊥ }
{
    gives_once();
    let mut disk = match yard.disk(&store.journal) {
        Ok(disk) => disk,
        Err(YardFault::Failed) => return Err(NotRecovered::Yard),
        Err(YardFault::NoMemory) => return Err(NotRecovered::Refused(RecoverFault::NoMemory)),
    };
    match recovered(alloc, &mut disk, &store.id) {
        Ok(found) => Ok(OpenJournal { disk, found }),
        Err(fault) => {
            yard.keep_disk(&store.journal, disk);
            Err(NotRecovered::Refused(fault))
        }
    }
}

/// Recovers a store's journal, and says its line.
#[tactic(auto, using(vd_yard::specs::Out::one_more_here, vd_yard::specs::Out::one_more_cancel))]
fn recover_one<Y: Yard, S: Sink>(
    alloc: Global,
    yard: &mut Y,
    store: &StorePlan,
    printer: &mut Printer,
    out: &mut S,
) -> Result<OpenJournal<Y::Disk>, Status>
    ensures leaves { LeavesRest (Y.seen yard.old) (Y.seen yard.new) }
    ensures taken { OnOk result ((Y.seen yard.new).out ≡ one_more (Y.seen yard.old).out AtDisk store.now.journal) }
    ensures not_taken { OnErr result ((Y.seen yard.new).out ≡ (Y.seen yard.old).out) }
    ensures recovers { IfOk result (λ one. IsRecovered (Y.seen yard.old) store.now (Y.Disk.seen one.disk) one.found
        × Says (printing printer.old.failed (S.taken out.old) (S.faults out.old)) (printing printer.new.failed (S.taken out.new) (S.faults out.new)) (recovered_text store.now one.found)) }
    ensures same { OnOk result ((Y.seen yard.new).disks ≡ (Y.seen yard.old).disks) }
    ensures journals { JournalsStay (Y.seen yard.old).disks (Y.seen yard.new).disks }
    ensures others { (path : List ℕ) → (path ≡ store.now.journal → ⊥) → kept_at (Y.seen yard.new).disks path ≡ kept_at (Y.seen yard.old).disks path }
    ensures stops { IfErr result (λ status. (text : List ℕ)
        × Says (printing printer.old.failed (S.taken out.old) (S.faults out.old)) (printing printer.new.failed (S.taken out.new) (S.faults out.new)) text
        × JournalStop (Y.seen yard.old) (Y.seen yard.new) store.now text status) }
    ensures refused { JournalRefused (Y.seen yard.old) store.now → OnOk result ⊥ }
    ensures yard_quiet { (IsErrOf result Status.Yard → ⊥) → (IsErrOf result Status.NoMemory → ⊥) → (Y.seen yard.new).faults ≡ (Y.seen yard.old).faults }
    ensures disk_quiet { (IsErrOf result Status.Journal → ⊥) → (IsErrOf result Status.NoMemory → ⊥) → (path : List ℕ) →
        kept_at (Y.seen yard.new).disks path ≡ kept_at (Y.seen yard.old).disks path }
    ensures output { IsErrOf result Status.Sink → printer.new.failed ≡ true }
{
    match recover_journal(alloc, yard, store) {
        Ok(one) => match say_recovered(alloc, store, &one.found, printer, out) {
            Ok(()) => Ok(one),
            Err(status) => {
                yard.keep_disk(&store.journal, one.disk);
                Err(status)
            }
        },
        Err(NotRecovered::Yard) => Err(say_line(
            cannot_open_line(alloc, &store.journal),
            Status::Yard,
            printer,
            out,
        )),
        Err(NotRecovered::Refused(fault)) => Err(refuse(alloc, &store.id, fault, printer, out)),
    }
}

/// Recovers the journals of stores in order, says their lines, and puts their disks and what they give behind `disks` and `found`. It stops
/// at the first that isn't recovered, with the disks of those before in `disks`.
fn recover_all<Y: Yard, S: Sink>(
    alloc: Global,
    yard: &mut Y,
    stores: &[StorePlan],
    disks: &mut Vec<Y::Disk>,
    found: &mut Vec<Recovered>,
    printer: &mut Printer,
    out: &mut S,
) -> Result<(), Status>
    ensures leaves { LeavesRest (Y.seen yard.old) (Y.seen yard.new) }
    ensures recovers { OnOk result (AllRecovered (Y.seen yard.old) (Y.seen yard.new) stores.now (map Y.Disk.seen disks.old.items) (map Y.Disk.seen disks.new.items) found.old.items found.new.items
        (printing printer.old.failed (S.taken out.old) (S.faults out.old)) (printing printer.new.failed (S.taken out.new) (S.faults out.new))) }
    ensures stops { IfErr result (λ status. RecoveringEnds (Y.seen yard.old) (Y.seen yard.new) stores.now (map Y.Disk.seen disks.old.items) (map Y.Disk.seen disks.new.items)
        (printing printer.old.failed (S.taken out.old) (S.faults out.old)) (printing printer.new.failed (S.taken out.new) (S.faults out.new)) status) }
    ensures journals { JournalsStay (Y.seen yard.old).disks (Y.seen yard.new).disks }
    ensures refused { (n : ℕ) (store : AStore) → slice_get stores.now n ≡ Some store → JournalRefused (Y.seen yard.old) store → OnOk result ⊥ }
    ensures yard_quiet { (IsErrOf result Status.Yard → ⊥) → (IsErrOf result Status.NoMemory → ⊥) → (Y.seen yard.new).faults ≡ (Y.seen yard.old).faults }
    ensures disk_quiet { (IsErrOf result Status.Journal → ⊥) → (IsErrOf result Status.NoMemory → ⊥) → (path : List ℕ) →
        kept_at (Y.seen yard.new).disks path ≡ kept_at (Y.seen yard.old).disks path }
    ensures output { IsErrOf result Status.Sink → printer.new.failed ≡ true }
    ensures silent { printer.old.failed ≡ true → (Y.seen yard.new ≡ Y.seen yard.old) × (length disks.new.items ≡ length disks.old.items) }
{
    let [store, ..] = stores else {
        return Ok(());
    };
    if printer.failed {
        return Err(Status::Sink);
    }
    // Places before the journal is opened, so that no open disk is lost for want of memory.
    let Ok(()) = disks.reserve(1) else {
        return Err(Status::NoMemory);
    };
    let Ok(()) = found.reserve(1) else {
        return Err(Status::NoMemory);
    };
    let one = match recover_one(alloc, yard, store, printer, out) {
        Ok(one) => one,
        Err(status) => return Err(status),
    };
    disks.push_reserved(one.disk);
    found.push_reserved(one.found);
    recover_all(alloc, yard, &stores[1..], disks, found, printer, out)
}

/// Recovers the journals of stores in order, says their lines, and keeps their disks out. It stops at the first that isn't recovered, and
/// then all disks are back. No disk is written.
pub fn recover_journals<Y: Yard, S: Sink>(
    alloc: Global,
    yard: &mut Y,
    stores: &[StorePlan],
    printer: &mut Printer,
    out: &mut S,
) -> Result<OpenJournals<Y::Disk>, Status>
    requires apart { AreJournalsApart stores.now }
    ensures leaves { LeavesRest (Y.seen yard.old) (Y.seen yard.new) }
    ensures taken { OnOk result ((Y.seen yard.new).out ≡ out_besides (Y.seen yard.old).out stores.now) }
    ensures not_taken { OnErr result ((Y.seen yard.new).out ≡ (Y.seen yard.old).out) }
    ensures recovers { IfOk result (λ all. AreRecovered (Y.seen yard.old) stores.now (map Y.Disk.seen all.disks.items) all.found.items
        × Says (printing printer.old.failed (S.taken out.old) (S.faults out.old)) (printing printer.new.failed (S.taken out.new) (S.faults out.new)) (journals_text stores.now all.found.items)) }
    ensures same { OnOk result ((Y.seen yard.new).disks ≡ (Y.seen yard.old).disks) }
    ensures journals { JournalsStay (Y.seen yard.old).disks (Y.seen yard.new).disks }
    ensures stops { IfErr result (λ status. (text : List ℕ)
        × Says (printing printer.old.failed (S.taken out.old) (S.faults out.old)) (printing printer.new.failed (S.taken out.new) (S.faults out.new)) text
        × JournalsStop (Y.seen yard.old) (Y.seen yard.new) stores.now text status) }
    ensures refused { (n : ℕ) (store : AStore) → slice_get stores.now n ≡ Some store → JournalRefused (Y.seen yard.old) store → OnOk result ⊥ }
    ensures yard_quiet { (IsErrOf result Status.Yard → ⊥) → (IsErrOf result Status.NoMemory → ⊥) → (Y.seen yard.new).faults ≡ (Y.seen yard.old).faults }
    ensures disk_quiet { (IsErrOf result Status.Journal → ⊥) → (IsErrOf result Status.NoMemory → ⊥) → (path : List ℕ) →
        kept_at (Y.seen yard.new).disks path ≡ kept_at (Y.seen yard.old).disks path }
    ensures output { IsErrOf result Status.Sink → printer.new.failed ≡ true }
    // After a failed write nothing is opened.
    ensures silent { printer.old.failed ≡ true → Y.seen yard.new ≡ Y.seen yard.old }
{
    let mut disks = Vec::new(alloc);
    let mut found = Vec::new(alloc);
    match recover_all(alloc, yard, stores, &mut disks, &mut found, printer, out) {
        Ok(()) => Ok(OpenJournals { disks, found }),
        Err(status) => {
            give_back(yard, stores, disks);
            Err(status)
        }
    }
}
