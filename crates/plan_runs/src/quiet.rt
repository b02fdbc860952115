// A plan's runs without journals.
ghost use Rattle.std.specs.Prelude.{◌≡◌, ◌≢◌, [], IfOk, IsTrue, List, map, ℕ};
ghost use Rattle.vd_outside.specs.Causes.{Rose};
ghost use Rattle.vd_yard.specs.Counts.{arm_faults, source_faults};
ghost use Rattle.vd_yard.specs.Yard.{StaysThere};
ghost use Rattle.key_state.specs.Quiet.{quiet_seen};
ghost use Rattle.plan_types.specs.Valid.{IsPlan};
ghost use Rattle.run_report.specs.Says.{printing};
ghost use Rattle.plan_hands.specs.Stores.{with_books};
ghost use Rattle.plan_runs.specs.Quiet.{CanEndRun, RunsQuietly, unwritten};
ghost use Rattle.plan_runs.specs.Stages.{stage};

use crate::running::run_all;
use key_state::QuietBook;
use plan_hands::{hands_of, leave};
use plan_types::{Plan, StorePlan};
use run_report::{Printer, Status};
use std::alloc::Global;
use std::sync::Wait;
use std::thread::Threads;
use vd_outside::{NoMemory, Sink, Turnstile, Twin};
use vd_yard::Yard;

/// A book without a journal for each of these stores.
fn quiet_books(alloc: Global, stores: &[StorePlan]) -> Result<Vec<QuietBook>, NoMemory>
    ensures { IfOk result (λ books. map quiet_seen books.items ≡ map unwritten stores.now) }
{
    let mut books = Vec::with_capacity(alloc, stores.len())?;
    for store in stores {
        let book = QuietBook::new(alloc, store.id.geometry.blocks())?;
        books.push_reserved(book);
    }
    Ok(books)
}

/// All runs of a plan without journals, from blocks that count as never written. Whatever was opened goes back to the yard. It answers the
/// status that goes with what the runs found.
pub fn run_quietly<Y: Yard, C: Twin, T: Turnstile, S: Sink, R: Threads + Wait + Sync>(
    rt: &R,
    alloc: Global,
    plan: &Plan,
    yard: &mut Y,
    clock: &mut C,
    gate: &T,
    printer: &mut Printer,
    out: &mut S,
) -> Status
    requires { IsPlan plan.now }
    ensures ran { (text : List ℕ) × RunsQuietly Y.Arm.Pass.seen quiet_seen plan.now
        (stage (with_books (map unwritten plan.now.stores)) (Y.seen yard.old) (C.seen clock.old) 0 (printing printer.old.failed (S.taken out.old) (S.faults out.old)))
        (stage [] (Y.seen yard.new) (C.seen clock.new) 0 (printing printer.new.failed (S.taken out.new) (S.faults out.new))) text result }
    ensures back { (Y.seen yard.new).out ≡ (Y.seen yard.old).out }
    ensures tells { (Y.seen yard.new).tells ≡ (Y.seen yard.old).tells }
    ensures disks { (Y.seen yard.new).disks ≡ (Y.seen yard.old).disks }
    ensures willing { IsTrue (Y.seen yard.old).willing → IsTrue (Y.seen yard.new).willing × (result ≢ Status.Yard) }
    ensures files { StaysThere (Y.seen yard.old).files (Y.seen yard.new).files }
    ensures yard_fault { result ≡ Status.Yard → Rose (Y.seen yard.old).faults (Y.seen yard.new).faults }
    ensures yard_quiet { result ≢ Status.Yard → result ≢ Status.NoMemory → (Y.seen yard.new).faults ≡ (Y.seen yard.old).faults }
    ensures device_fault { result ≡ Status.Device → (path : List ℕ) × Rose (arm_faults (Y.seen yard.old).counts path) (arm_faults (Y.seen yard.new).counts path) }
    ensures device_quiet { result ≢ Status.Device → result ≢ Status.Yard → result ≢ Status.NoMemory → (path : List ℕ) → arm_faults (Y.seen yard.new).counts path ≡ arm_faults (Y.seen yard.old).counts path }
    ensures sources { (path : List ℕ) → source_faults (Y.seen yard.new).counts path ≡ source_faults (Y.seen yard.old).counts path }
    ensures can { CanEndRun result }
{
    let Ok(mut books) = quiet_books(alloc, plan.stores.as_slice()) else {
        return Status::NoMemory;
    };
    let Ok(mut hands) = hands_of(alloc, &mut books) else {
        return Status::NoMemory;
    };
    let mut errors = 0;
    let status = run_all(
        rt,
        alloc,
        plan,
        plan.runs.as_slice(),
        &mut errors,
        &mut hands,
        yard,
        clock,
        gate,
        printer,
        out,
    );
    leave(plan, &mut hands, &mut books, yard);
    status
}
