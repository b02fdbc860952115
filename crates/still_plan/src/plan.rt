// A still command over the stores of a plan.
ghost use Rattle.std.specs.Prelude.{◌≡◌, ◌≢◌, ℕ, List, IsTrue, Some, true, slice_get};
ghost use Rattle.plan_types.specs.declared.store.StorePlan.{StorePlan as AStore};
ghost use Rattle.run_report.specs.Says.{Says, printing};
ghost use Rattle.vd_outside.specs.Causes.{Rose};
ghost use Rattle.vd_yard.specs.Counts.{source_faults, arm_faults};
ghost use Rattle.vd_yard.specs.Kept.{kept_at};
ghost use Rattle.still_store.specs.Frame.{Keeps, JournalsStay};
ghost use Rattle.still_store.specs.Recovery.{JournalRefused};
ghost use Rattle.still_plan.specs.Frame.{AreApart, CountsStay, DiskFailed, IsPathOf, StoresStay};
ghost use Rattle.still_plan.specs.Still.{IsStill, is_still_status};

use crate::journals::recover_stores;
use crate::stores::verify_stores;
use plan_types::StorePlan;
use run_report::{Printer, Status};
use std::alloc::Global;
use vd_outside::Sink;
use vd_yard::Yard;

/// Recovers the journals of a plan's stores, and then verifies the stores, both in order. It writes no journal, and no block's bytes
/// change. It answers the status that the command ends with.
pub fn still_stores<Y: Yard, S: Sink>(
    alloc: Global,
    yard: &mut Y,
    stores: &[StorePlan],
    printer: &mut Printer,
    out: &mut S,
) -> Status
    requires apart { AreApart stores.now }
    ensures keeps { Keeps (Y.seen yard.old) (Y.seen yard.new) }
    ensures journals { JournalsStay (Y.seen yard.old).disks (Y.seen yard.new).disks }
    ensures sources { (q : List ℕ) → source_faults (Y.seen yard.new).counts q ≡ source_faults (Y.seen yard.old).counts q }
    ensures elsewhere { (q : List ℕ) → (IsPathOf stores.now q → ⊥) → CountsStay (Y.seen yard.old) (Y.seen yard.new) q }
    ensures contents { StoresStay stores.now (Y.seen yard.old).contents (Y.seen yard.new).contents }
    ensures said { (text : List ℕ)
        × Says (printing printer.old.failed (S.taken out.old) (S.faults out.old)) (printing printer.new.failed (S.taken out.new) (S.faults out.new)) text
        × IsStill (Y.seen yard.old) (Y.seen yard.new) stores.now text result }
    ensures status { IsTrue (is_still_status result) }
    // No data is opened where a journal is refused as told, nor with a status that comes before data is opened alone.
    ensures refused { (n : ℕ) (store : AStore) → slice_get stores.now n ≡ Some store → JournalRefused (Y.seen yard.old) store →
        (Y.seen yard.new).contents ≡ (Y.seen yard.old).contents }
    ensures untouched { result ≢ Status.Good → result ≢ Status.Corrupt → result ≢ Status.Device → result ≢ Status.Yard → result ≢ Status.Sink →
        result ≢ Status.NoMemory → (Y.seen yard.new).contents ≡ (Y.seen yard.old).contents }
    // Each status of a failed call has its cause, and with the others, want of memory and a failed output aside, nothing of that kind failed;
    // that data couldn't be opened may hide that an arm failed before.
    ensures yard_fault { result ≡ Status.Yard → Rose (Y.seen yard.old).faults (Y.seen yard.new).faults }
    ensures yard_quiet { result ≢ Status.Yard → result ≢ Status.NoMemory → (Y.seen yard.new).faults ≡ (Y.seen yard.old).faults }
    ensures disk_fault { result ≡ Status.Journal → IsTrue (Y.seen yard.old).tells.keeps_disks → DiskFailed (Y.seen yard.old) (Y.seen yard.new) }
    ensures disk_quiet { result ≢ Status.Journal → result ≢ Status.NoMemory → (path : List ℕ) →
        kept_at (Y.seen yard.new).disks path ≡ kept_at (Y.seen yard.old).disks path }
    ensures device_fault { result ≡ Status.Device → (path : List ℕ) × IsPathOf stores.now path
        × Rose (arm_faults (Y.seen yard.old).counts path) (arm_faults (Y.seen yard.new).counts path) }
    ensures device_quiet { result ≢ Status.Device → result ≢ Status.Yard → result ≢ Status.Sink → result ≢ Status.NoMemory → (path : List ℕ) →
        arm_faults (Y.seen yard.new).counts path ≡ arm_faults (Y.seen yard.old).counts path }
    ensures output { result ≡ Status.Sink → printer.new.failed ≡ true }
    // After a failed write nothing is opened.
    ensures silent { printer.old.failed ≡ true → Y.seen yard.new ≡ Y.seen yard.old }
{
    let mut found = Vec::new(alloc);
    match recover_stores(alloc, yard, stores, &mut found, printer, out) {
        Ok(()) => verify_stores(alloc, yard, stores, found.as_slice(), printer, out),
        Err(status) => status,
    }
}
