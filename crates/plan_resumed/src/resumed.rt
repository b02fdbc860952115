// A plan's runs over journals that are recovered.
ghost use Rattle.std.specs.Prelude.{◌≡◌, ◌≢◌, [], IsTrue, List, true, ℕ};
ghost use Rattle.vd_outside.specs.Causes.{Rose};
ghost use Rattle.vd_yard.specs.Counts.{arm_faults, source_faults};
ghost use Rattle.vd_yard.specs.Yard.{StaysThere};
ghost use Rattle.plan_types.specs.Valid.{IsPlan};
ghost use Rattle.run_report.specs.Says.{printing};
ghost use Rattle.plan_journals.specs.Growth.{SomeRose};
ghost use Rattle.plan_runs.specs.Stages.{stage};
ghost use Rattle.plan_resumed.specs.Resumed.{AreThere, CanEndResumed, Resumed};

use crate::going::run_verified;
use journal_core::JournalBook;
use key_state::Book;
use plan_reopened::{OpenJournals, give_back, recover_journals};
use plan_runs::worse;
use plan_types::Plan;
use plan_verified::look_at_stores;
use run_report::{Printer, Status};
use std::alloc::Global;
use std::sync::Wait;
use std::thread::Threads;
use vd_outside::{Sink, Turnstile, Twin};
use vd_yard::Yard;

/// All runs of a plan over the journals of its stores as they are recovered. First every journal is recovered and every store verified, as
/// by a still command, which stops where that stops. Then the journals are opened in their next epoch with the entries that verification
/// left, the runs are made over them, and they are closed. Whatever was opened goes back to the yard. It answers the status that goes with
/// what was found, or why it ended.
pub fn run_resumed<Y: Yard, C: Twin, T: Turnstile, S: Sink, R: Threads + Wait + Sync>(
    rt: &R,
    alloc: Global,
    plan: &Plan,
    yard: &mut Y,
    clock: &mut C,
    gate: &T,
    printer: &mut Printer,
    out: &mut S,
) -> Status
where
    Y::Disk: Send,
    requires { IsPlan plan.now }
    // The text begins with that of a still command; each journal begins its next epoch with the entries that the looks of that text left.
    ensures ran { Resumed Y.Arm.Pass.seen ⟦<JournalBook<Y::Disk> as Book>⟧.seen plan.now
        (stage [] (Y.seen yard.old) (C.seen clock.old) 0 (printing printer.old.failed (S.taken out.old) (S.faults out.old)))
        (stage [] (Y.seen yard.new) (C.seen clock.new) 0 (printing printer.new.failed (S.taken out.new) (S.faults out.new))) result }
    ensures back { (Y.seen yard.new).out ≡ (Y.seen yard.old).out }
    ensures tells { (Y.seen yard.new).tells ≡ (Y.seen yard.old).tells }
    ensures willing { IsTrue (Y.seen yard.old).willing → IsTrue (Y.seen yard.new).willing × (AreThere (Y.seen yard.old) plan.now.stores → result ≢ Status.Yard) }
    ensures files { StaysThere (Y.seen yard.old).files (Y.seen yard.new).files }
    ensures sources { (path : List ℕ) → source_faults (Y.seen yard.new).counts path ≡ source_faults (Y.seen yard.old).counts path }
    ensures journal_fault { result ≡ Status.Journal → IsTrue (Y.seen yard.old).tells.keeps_disks → SomeRose plan.now.stores (Y.seen yard.old).disks (Y.seen yard.new).disks }
    ensures yard_fault { result ≡ Status.Yard → Rose (Y.seen yard.old).faults (Y.seen yard.new).faults }
    ensures yard_quiet { result ≢ Status.Yard → result ≢ Status.NoMemory → (Y.seen yard.new).faults ≡ (Y.seen yard.old).faults }
    ensures device_fault { result ≡ Status.Device → (path : List ℕ) × Rose (arm_faults (Y.seen yard.old).counts path) (arm_faults (Y.seen yard.new).counts path) }
    ensures device_quiet { result ≢ Status.Device → result ≢ Status.EpochEnd → result ≢ Status.Journal → result ≢ Status.Yard → result ≢ Status.Sink → result ≢ Status.NoMemory → (path : List ℕ) → arm_faults (Y.seen yard.new).counts path ≡ arm_faults (Y.seen yard.old).counts path }
    ensures can { CanEndResumed result printer.new.failed }
    // After a failed write nothing is opened.
    ensures silent { printer.old.failed ≡ true → Y.seen yard.new ≡ Y.seen yard.old }
{
    let stores = plan.stores.as_slice();
    let OpenJournals { disks, found } = match recover_journals(alloc, yard, stores, printer, out) {
        Ok(all) => all,
        Err(status) => return status,
    };
    let mut verified = Vec::new(alloc);
    let looked = look_at_stores(
        alloc,
        yard,
        stores,
        found.as_slice(),
        &mut verified,
        printer,
        out,
    );
    match looked {
        Ok(first) => {
            let rest = run_verified(
                rt,
                alloc,
                plan,
                disks,
                found.as_slice(),
                verified,
                yard,
                clock,
                gate,
                printer,
                out,
            );
            worse(first, rest)
        }
        Err(status) => {
            give_back(yard, stores, disks);
            status
        }
    }
}
