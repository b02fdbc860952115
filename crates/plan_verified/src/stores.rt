// Verifying a plan's stores, whose passes stay out.
ghost use Rattle.std.specs.Prelude.{◌≡◌, ◌≢◌, ◌++◌, ℕ, List, IfOk, IfErr, OnOk, OnErr, IsErrOf, IsTrue, true, map};
ghost use Rattle.recover_run.specs.declared.look.Look.{Look as ALook};
ghost use Rattle.run_report.specs.Says.{Says, printing};
ghost use Rattle.vd_yard.specs.Counts.{source_faults, arm_faults};
ghost use Rattle.vd_yard.specs.Out.{AtPasses, one_more};
ghost use Rattle.still_store.specs.Frame.{BlocksStay, Stays};
ghost use Rattle.still_store.specs.Verification.{store_text};
ghost use Rattle.still_plan.specs.Frame.{AreApart, CountsStay, IsPathOf, StoresStay};
ghost use Rattle.still_plan.specs.Journals.{AreFit, IsFit};
ghost use Rattle.still_plan.specs.Stores.{StoreStop, StoresEnd, all_looks, looks_status, stores_text};
ghost use Rattle.plan_verified.specs.Stores.{LeavesStore, LeaveStores, answered, is_stop, store_seen, stores_out};
ghost use Rattle.plan_verified.specs.declared.verified.VerifiedStore.{VerifiedStore as AStore};

use crate::VerifiedStore;
use block_verdict::verdict_laws;
use journal_recover::Recovered;
use plan_types::StorePlan;
use run_report::{Printer, Status, cannot_open_line};
use std::alloc::Global;
use still_plan::{say_line, status_of, worse};
use still_store::{NotVerified, look_at_store};
use vd_arm::Arm;
use vd_outside::Sink;
use vd_yard::Yard;

/// A store that was verified, and its status.
#[derive(Drop)]
struct Ended<P> {
    status: Status,
    store: VerifiedStore<P>,
}

/// Verifies a store, and answers it with its status, or the status of a command that stops there.
fn look_at_one<Y: Yard, S: Sink>(
    alloc: Global,
    yard: &mut Y,
    store: &StorePlan,
    found: &Recovered,
    printer: &mut Printer,
    out: &mut S,
) -> Result<Ended<<Y::Arm as Arm>::Pass>, Status>
    requires fit { IsFit store.now found.now }
    ensures stays { Stays (Y.seen yard.old) (Y.seen yard.new) }
    ensures taken { OnOk result ((Y.seen yard.new).out ≡ one_more (Y.seen yard.old).out AtPasses store.now.path) }
    ensures not_taken { OnErr result ((Y.seen yard.new).out ≡ (Y.seen yard.old).out) }
    ensures disks { (Y.seen yard.new).disks ≡ (Y.seen yard.old).disks }
    ensures sources { (q : List ℕ) → source_faults (Y.seen yard.new).counts q ≡ source_faults (Y.seen yard.old).counts q }
    ensures elsewhere { (q : List ℕ) → (q ≡ store.now.path → ⊥) → CountsStay (Y.seen yard.old) (Y.seen yard.new) q }
    ensures contents { OnOk result ((Y.seen yard.new).contents ≡ (Y.seen yard.old).contents) }
    ensures blocks { BlocksStay store.now (Y.seen yard.old).contents (Y.seen yard.new).contents }
    ensures leaves { IfOk result (λ one. (looks : List ALook)
        × LeavesStore (Y.seen yard.old) (Y.seen yard.new) store.now found.now looks (store_seen Y.Arm.Pass.seen one.store)
        × (one.status ≡ looks_status looks)
        × Says (printing printer.old.failed (S.taken out.old) (S.faults out.old)) (printing printer.new.failed (S.taken out.new) (S.faults out.new)) (store_text store.now.id found.now.entries.items looks)) }
    ensures stops { IfErr result (λ status. (text : List ℕ)
        × Says (printing printer.old.failed (S.taken out.old) (S.faults out.old)) (printing printer.new.failed (S.taken out.new) (S.faults out.new)) text
        × StoreStop (Y.seen yard.old) (Y.seen yard.new) store.now found.now text status) }
    ensures yard_quiet { (IsErrOf result Status.Yard → ⊥) → (IsErrOf result Status.NoMemory → ⊥) → (Y.seen yard.new).faults ≡ (Y.seen yard.old).faults }
    ensures arms_quiet { IfOk result (λ one. one.status ≢ Status.Device → (q : List ℕ) →
        arm_faults (Y.seen yard.new).counts q ≡ arm_faults (Y.seen yard.old).counts q) }
    ensures output { IsErrOf result Status.Sink → printer.new.failed ≡ true }
{
    verdict_laws();
    match look_at_store(alloc, yard, store, found.entries.as_slice(), printer, out) {
        Ok(looked) => Ok(Ended {
            status: status_of(&looked.counted),
            store: VerifiedStore {
                passes: looked.passes,
                settled: looked.settled,
            },
        }),
        Err(NotVerified::Yard) => Err(say_line(
            cannot_open_line(alloc, &store.path),
            Status::Yard,
            printer,
            out,
        )),
        Err(NotVerified::Output) => Err(Status::Sink),
        Err(NotVerified::NoMemory) => Err(Status::NoMemory),
    }
}

/// Verifies stores in order, each by what its journal gave, as a still command does, and with its text and status. Where the command goes
/// on (good, corrupt and device) each store is behind `verified`, and its passes are out. Where it stops (a store that can't be opened, a
/// failed write, want of memory) all passes are back, and `verified` is as it was.
pub fn look_at_stores<Y: Yard, S: Sink>(
    alloc: Global,
    yard: &mut Y,
    stores: &[StorePlan],
    found: &[Recovered],
    verified: &mut Vec<VerifiedStore<<Y::Arm as Arm>::Pass>>,
    printer: &mut Printer,
    out: &mut S,
) -> Result<Status, Status>
    requires apart { AreApart stores.now }
    requires fit { AreFit stores.now found.now }
    ensures stays { Stays (Y.seen yard.old) (Y.seen yard.new) }
    ensures taken { OnOk result ((Y.seen yard.new).out ≡ stores_out stores.now (Y.seen yard.old).out) }
    ensures not_taken { OnErr result ((Y.seen yard.new).out ≡ (Y.seen yard.old).out) }
    ensures disks { (Y.seen yard.new).disks ≡ (Y.seen yard.old).disks }
    ensures sources { (q : List ℕ) → source_faults (Y.seen yard.new).counts q ≡ source_faults (Y.seen yard.old).counts q }
    ensures elsewhere { (q : List ℕ) → (IsPathOf stores.now q → ⊥) → CountsStay (Y.seen yard.old) (Y.seen yard.new) q }
    // While the passes are out, what the yard keeps is as it was; where they came back, each block is.
    ensures kept { OnOk result ((Y.seen yard.new).contents ≡ (Y.seen yard.old).contents) }
    ensures contents { StoresStay stores.now (Y.seen yard.old).contents (Y.seen yard.new).contents }
    ensures leaves { IfOk result (λ status. (seen : List (List ALook)) × (more : List (AStore (Y.Arm.Pass)))
        × (verified.new.items ≡ verified.old.items ++ more)
        × LeaveStores (Y.seen yard.old) (Y.seen yard.new) stores.now found.now seen (map (store_seen Y.Arm.Pass.seen) more)
        × (status ≡ looks_status (all_looks seen))
        × Says (printing printer.old.failed (S.taken out.old) (S.faults out.old)) (printing printer.new.failed (S.taken out.new) (S.faults out.new)) (stores_text stores.now found.now seen)) }
    ensures none { OnErr result (verified.new.items ≡ verified.old.items) }
    // The text and the status are those of a still command's verification.
    ensures said { (text : List ℕ)
        × Says (printing printer.old.failed (S.taken out.old) (S.faults out.old)) (printing printer.new.failed (S.taken out.new) (S.faults out.new)) text
        × StoresEnd (Y.seen yard.old) (Y.seen yard.new) stores.now found.now text (answered result) }
    ensures stops { IfErr result (λ status. IsTrue (is_stop status)) }
    ensures yard_quiet { (IsErrOf result Status.Yard → ⊥) → (IsErrOf result Status.NoMemory → ⊥) → (Y.seen yard.new).faults ≡ (Y.seen yard.old).faults }
    ensures arms_quiet { IfOk result (λ status. status ≢ Status.Device → (q : List ℕ) →
        arm_faults (Y.seen yard.new).counts q ≡ arm_faults (Y.seen yard.old).counts q) }
    ensures output { IsErrOf result Status.Sink → printer.new.failed ≡ true }
    // After a failed write nothing is opened.
    ensures silent { printer.old.failed ≡ true → Y.seen yard.new ≡ Y.seen yard.old }
{
    let [store, ..] = stores else {
        return Ok(Status::Good);
    };
    let [journal, ..] = found else {
        return Ok(Status::Good);
    };
    if printer.failed {
        return Err(Status::Sink);
    }
    // A place before the store is opened, so that no passes are lost for want of memory.
    let Ok(()) = verified.reserve(1) else {
        return Err(Status::NoMemory);
    };
    let first = match look_at_one(alloc, yard, store, journal, printer, out) {
        Ok(one) => one,
        Err(status) => return Err(status),
    };
    verified.push_reserved(first.store);
    match look_at_stores(
        alloc,
        yard,
        &stores[1..],
        &found[1..],
        verified,
        printer,
        out,
    ) {
        Ok(rest) => Ok(worse(first.status, rest)),
        Err(status) => {
            let Some(last) = verified.pop() else {
                unreachable!()
            };
            yard.keep_passes(store, last.passes);
            Err(status)
        }
    }
}
