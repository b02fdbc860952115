// Recovering the journals of a plan's stores.
ghost use Rattle.std.specs.Prelude.{◌≡◌, ◌≢◌, ◌++◌, ◌⊎◌, ℕ, List, [], IfOk, OnOk, IfErr, IsErrOf, IsTrue, Some, true, slice_get};
ghost use Rattle.vd_yard.specs.Kept.{kept_at};
ghost use Rattle.journal_recover.specs.declared.found.Recovered.{Recovered as ARecovered};
ghost use Rattle.plan_types.specs.declared.store.StorePlan.{StorePlan as AStore};
ghost use Rattle.run_report.specs.Says.{Says, printing};
ghost use Rattle.still_store.specs.Frame.{Keeps, JournalsStay};
ghost use Rattle.still_store.specs.Recovery.{JournalRefused};
ghost use Rattle.still_plan.specs.Journals.{AllRecover, JournalStop, JournalsStop, RecoversTo, journals_text, recovered_text};

use crate::lines::{refuse, say_line};
use journal_recover::Recovered;
use plan_types::StorePlan;
use run_report::{Printer, Status, cannot_open_line, journal_line};
use std::alloc::Global;
use still_store::{NotRecovered, recover_store};
use vd_outside::Sink;
use vd_yard::Yard;

/// Says that a store's journal was recovered.
pub fn say_recovered<S: Sink>(
    alloc: Global,
    store: &StorePlan,
    found: &Recovered,
    printer: &mut Printer,
    out: &mut S,
) -> Result<(), Status>
    ensures said { OnOk result (Says (printing printer.old.failed (S.taken out.old) (S.faults out.old)) (printing printer.new.failed (S.taken out.new) (S.faults out.new)) (recovered_text store.now found.now)) }
    ensures unsaid { IsErrOf result Status.NoMemory → Says (printing printer.old.failed (S.taken out.old) (S.faults out.old)) (printing printer.new.failed (S.taken out.new) (S.faults out.new)) [] }
    ensures failed { IsErrOf result Status.Sink → (printer.new.failed ≡ true)
        × Says (printing printer.old.failed (S.taken out.old) (S.faults out.old)) (printing printer.new.failed (S.taken out.new) (S.faults out.new)) (recovered_text store.now found.now) }
    ensures why { IfErr result (λ status. (status ≡ Status.NoMemory) ⊎ (status ≡ Status.Sink)) }
{
    let Ok(line) = journal_line(alloc, &store.id.name, found.live.epoch, found.records) else {
        return Err(Status::NoMemory);
    };
    printer.say(out, line.as_str());
    if printer.failed {
        return Err(Status::Sink);
    }
    Ok(())
}

/// Recovers a store's journal, and says its line.
fn recover_one<Y: Yard, S: Sink>(
    alloc: Global,
    yard: &mut Y,
    store: &StorePlan,
    printer: &mut Printer,
    out: &mut S,
) -> Result<Recovered, Status>
    ensures keeps { Keeps (Y.seen yard.old) (Y.seen yard.new) }
    ensures counts { (Y.seen yard.new).counts ≡ (Y.seen yard.old).counts }
    ensures contents { (Y.seen yard.new).contents ≡ (Y.seen yard.old).contents }
    ensures journals { JournalsStay (Y.seen yard.old).disks (Y.seen yard.new).disks }
    ensures recovers { IfOk result (λ found. RecoversTo (Y.seen yard.old) store.now found
        × Says (printing printer.old.failed (S.taken out.old) (S.faults out.old)) (printing printer.new.failed (S.taken out.new) (S.faults out.new)) (recovered_text store.now found)) }
    ensures stops { IfErr result (λ status. (text : List ℕ)
        × Says (printing printer.old.failed (S.taken out.old) (S.faults out.old)) (printing printer.new.failed (S.taken out.new) (S.faults out.new)) text
        × JournalStop (Y.seen yard.old) (Y.seen yard.new) store.now text status) }
    ensures refused { JournalRefused (Y.seen yard.old) store.now → OnOk result ⊥ }
    ensures yard_quiet { (IsErrOf result Status.Yard → ⊥) → (IsErrOf result Status.NoMemory → ⊥) → (Y.seen yard.new).faults ≡ (Y.seen yard.old).faults }
    ensures disk_quiet { (IsErrOf result Status.Journal → ⊥) → (IsErrOf result Status.NoMemory → ⊥) → (path : List ℕ) →
        kept_at (Y.seen yard.new).disks path ≡ kept_at (Y.seen yard.old).disks path }
    ensures others { (path : List ℕ) → (path ≡ store.now.journal → ⊥) → kept_at (Y.seen yard.new).disks path ≡ kept_at (Y.seen yard.old).disks path }
    ensures output { IsErrOf result Status.Sink → printer.new.failed ≡ true }
{
    match recover_store(alloc, yard, store) {
        Ok(found) => match say_recovered(alloc, store, &found, printer, out) {
            Ok(()) => Ok(found),
            Err(status) => Err(status),
        },
        Err(NotRecovered::Yard) => Err(say_line(
            cannot_open_line(alloc, &store.journal),
            Status::Yard,
            printer,
            out,
        )),
        Err(NotRecovered::Refused(fault)) => Err(refuse(alloc, &store.id, fault, printer, out)),
    }
}

/// Recovers the journals of stores in order, says their lines, and puts what they give behind `found`. It stops at the first that isn't
/// recovered.
pub fn recover_stores<Y: Yard, S: Sink>(
    alloc: Global,
    yard: &mut Y,
    stores: &[StorePlan],
    found: &mut Vec<Recovered>,
    printer: &mut Printer,
    out: &mut S,
) -> Result<(), Status>
    ensures keeps { Keeps (Y.seen yard.old) (Y.seen yard.new) }
    ensures counts { (Y.seen yard.new).counts ≡ (Y.seen yard.old).counts }
    ensures contents { (Y.seen yard.new).contents ≡ (Y.seen yard.old).contents }
    ensures journals { JournalsStay (Y.seen yard.old).disks (Y.seen yard.new).disks }
    ensures recovers { OnOk result ((more : List ARecovered) × (found.new.items ≡ found.old.items ++ more)
        × AllRecover (Y.seen yard.old) stores.now more
        × Says (printing printer.old.failed (S.taken out.old) (S.faults out.old)) (printing printer.new.failed (S.taken out.new) (S.faults out.new)) (journals_text stores.now more)) }
    ensures stops { IfErr result (λ status. (text : List ℕ)
        × Says (printing printer.old.failed (S.taken out.old) (S.faults out.old)) (printing printer.new.failed (S.taken out.new) (S.faults out.new)) text
        × JournalsStop (Y.seen yard.old) (Y.seen yard.new) stores.now text status) }
    ensures refused { (n : ℕ) (store : AStore) → slice_get stores.now n ≡ Some store → JournalRefused (Y.seen yard.old) store → OnOk result ⊥ }
    ensures yard_quiet { (IsErrOf result Status.Yard → ⊥) → (IsErrOf result Status.NoMemory → ⊥) → (Y.seen yard.new).faults ≡ (Y.seen yard.old).faults }
    ensures disk_quiet { (IsErrOf result Status.Journal → ⊥) → (IsErrOf result Status.NoMemory → ⊥) → (path : List ℕ) →
        kept_at (Y.seen yard.new).disks path ≡ kept_at (Y.seen yard.old).disks path }
    ensures output { IsErrOf result Status.Sink → printer.new.failed ≡ true }
    // After a failed write nothing is opened.
    ensures silent { printer.old.failed ≡ true → Y.seen yard.new ≡ Y.seen yard.old }
{
    let [store, ..] = stores else {
        return Ok(());
    };
    if printer.failed {
        return Err(Status::Sink);
    }
    let one = match recover_one(alloc, yard, store, printer, out) {
        Ok(one) => one,
        Err(status) => return Err(status),
    };
    let Ok(()) = found.push(one) else {
        return Err(Status::NoMemory);
    };
    recover_stores(alloc, yard, &stores[1..], found, printer, out)
}
