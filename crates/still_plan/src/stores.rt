// Verifying a plan's stores.
ghost use Rattle.std.specs.Prelude.{◌≡◌, ◌≢◌, ℕ, List, IfOk, IfErr, IsErrOf, true};
ghost use Rattle.recover_run.specs.declared.look.Look.{Look as ALook};
ghost use Rattle.run_report.specs.Says.{Says, printing};
ghost use Rattle.vd_yard.specs.Counts.{source_faults, arm_faults};
ghost use Rattle.still_store.specs.Frame.{Keeps, BlocksStay};
ghost use Rattle.still_store.specs.Verification.{counted_status, store_text as one_store_text};
ghost use Rattle.still_plan.specs.Frame.{AreApart, CountsStay, IsPathOf, StoresStay};
ghost use Rattle.still_plan.specs.Journals.{AreFit, IsFit};
ghost use Rattle.still_plan.specs.Stores.{StoreStop, StoresEnd, VerifiesAs, looks_status, worse as worse_of};

use crate::lines::say_line;
use journal_recover::Recovered;
use plan_types::StorePlan;
use run_report::{Printer, Status, Verified, cannot_open_line};
use std::alloc::Global;
use still_store::{NotVerified, verify_store};
use vd_outside::Sink;
use vd_yard::Yard;

/// The status of a store that was verified: a failed read comes before a corrupt block.
pub fn status_of(counted: &Verified) -> Status
    ensures { result ≡ counted_status counted.now }
{
    if counted.faults != 0 {
        return Status::Device;
    }
    if counted.corrupt != 0 {
        return Status::Corrupt;
    }
    Status::Good
}

/// The status of a store that was verified and of those behind it, by what these end with.
pub fn worse(first: Status, rest: Status) -> Status
    ensures { result ≡ worse_of first rest }
{
    match rest {
        Status::Good => first,
        Status::Corrupt => match first {
            Status::Device => Status::Device,
            _ => Status::Corrupt,
        },
        other => other,
    }
}

/// Verifies a store, and answers its status, or the status of a command that stops there.
fn verify_one<Y: Yard, S: Sink>(
    alloc: Global,
    yard: &mut Y,
    store: &StorePlan,
    found: &Recovered,
    printer: &mut Printer,
    out: &mut S,
) -> Result<Status, Status>
    requires fit { IsFit store.now found.now }
    ensures keeps { Keeps (Y.seen yard.old) (Y.seen yard.new) }
    ensures disks { (Y.seen yard.new).disks ≡ (Y.seen yard.old).disks }
    ensures sources { (q : List ℕ) → source_faults (Y.seen yard.new).counts q ≡ source_faults (Y.seen yard.old).counts q }
    ensures elsewhere { (q : List ℕ) → (q ≡ store.now.path → ⊥) → CountsStay (Y.seen yard.old) (Y.seen yard.new) q }
    ensures blocks { BlocksStay store.now (Y.seen yard.old).contents (Y.seen yard.new).contents }
    ensures verifies { IfOk result (λ status. (looks : List ALook)
        × VerifiesAs (Y.seen yard.old) (Y.seen yard.new) store.now found.now looks
        × (status ≡ looks_status looks)
        × Says (printing printer.old.failed (S.taken out.old) (S.faults out.old)) (printing printer.new.failed (S.taken out.new) (S.faults out.new)) (one_store_text store.now.id found.now.entries.items looks)) }
    ensures stops { IfErr result (λ status. (text : List ℕ)
        × Says (printing printer.old.failed (S.taken out.old) (S.faults out.old)) (printing printer.new.failed (S.taken out.new) (S.faults out.new)) text
        × StoreStop (Y.seen yard.old) (Y.seen yard.new) store.now found.now text status) }
    ensures yard_quiet { (IsErrOf result Status.Yard → ⊥) → (IsErrOf result Status.NoMemory → ⊥) → (Y.seen yard.new).faults ≡ (Y.seen yard.old).faults }
    ensures arms_quiet { IfOk result (λ status. status ≢ Status.Device → (q : List ℕ) →
        arm_faults (Y.seen yard.new).counts q ≡ arm_faults (Y.seen yard.old).counts q) }
    ensures output { IsErrOf result Status.Sink → printer.new.failed ≡ true }
{
    match verify_store(alloc, yard, store, found.entries.as_slice(), printer, out) {
        Ok(counted) => Ok(status_of(&counted)),
        Err(NotVerified::Yard) => Err(say_line(
            cannot_open_line(alloc, &store.path),
            Status::Yard,
            printer,
            out,
        )),
        Err(NotVerified::Output) => Err(Status::Sink),
        Err(NotVerified::NoMemory) => Err(Status::NoMemory),
    }
}

/// Verifies stores in order, each by what its journal gave, and answers the status that the command ends with. It stops at a store
/// that can't be opened, and after a failed write.
pub fn verify_stores<Y: Yard, S: Sink>(
    alloc: Global,
    yard: &mut Y,
    stores: &[StorePlan],
    found: &[Recovered],
    printer: &mut Printer,
    out: &mut S,
) -> Status
    requires apart { AreApart stores.now }
    requires fit { AreFit stores.now found.now }
    ensures keeps { Keeps (Y.seen yard.old) (Y.seen yard.new) }
    ensures disks { (Y.seen yard.new).disks ≡ (Y.seen yard.old).disks }
    ensures sources { (q : List ℕ) → source_faults (Y.seen yard.new).counts q ≡ source_faults (Y.seen yard.old).counts q }
    ensures elsewhere { (q : List ℕ) → (IsPathOf stores.now q → ⊥) → CountsStay (Y.seen yard.old) (Y.seen yard.new) q }
    ensures contents { StoresStay stores.now (Y.seen yard.old).contents (Y.seen yard.new).contents }
    ensures said { (text : List ℕ)
        × Says (printing printer.old.failed (S.taken out.old) (S.faults out.old)) (printing printer.new.failed (S.taken out.new) (S.faults out.new)) text
        × StoresEnd (Y.seen yard.old) (Y.seen yard.new) stores.now found.now text result }
    ensures yard_quiet { result ≢ Status.Yard → result ≢ Status.NoMemory → (Y.seen yard.new).faults ≡ (Y.seen yard.old).faults }
    ensures arms_quiet { result ≢ Status.Device → result ≢ Status.Yard → result ≢ Status.Sink → result ≢ Status.NoMemory → (q : List ℕ) →
        arm_faults (Y.seen yard.new).counts q ≡ arm_faults (Y.seen yard.old).counts q }
    ensures output { result ≡ Status.Sink → printer.new.failed ≡ true }
    // After a failed write nothing is opened.
    ensures silent { printer.old.failed ≡ true → Y.seen yard.new ≡ Y.seen yard.old }
{
    let [store, ..] = stores else {
        return Status::Good;
    };
    let [journal, ..] = found else {
        return Status::Good;
    };
    if printer.failed {
        return Status::Sink;
    }
    match verify_one(alloc, yard, store, journal, printer, out) {
        Ok(first) => worse(
            first,
            verify_stores(alloc, yard, &stores[1..], &found[1..], printer, out),
        ),
        Err(status) => status,
    }
}
