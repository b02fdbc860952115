// A plan's runs over open journals.
ghost use Rattle.std.specs.Prelude.{◌≡◌, ◌≢◌, ◌≤◌, [], IsTrue, List, length, map, ℕ};
ghost use Rattle.std.specs.Vec.{vec_capacity};
ghost use Rattle.vd_outside.specs.Causes.{Rose};
ghost use Rattle.vd_disk.specs.Disk.{DiskSeen};
ghost use Rattle.vd_yard.specs.Counts.{arm_faults, source_faults};
ghost use Rattle.vd_yard.specs.Kept.{Kept};
ghost use Rattle.vd_yard.specs.Out.{Out};
ghost use Rattle.vd_yard.specs.Yard.{StaysThere};
ghost use Rattle.plan_types.specs.Valid.{IsPlan};
ghost use Rattle.slave_worker.specs.Hands.{hand_seen};
ghost use Rattle.run_report.specs.Says.{printing};
ghost use Rattle.journal_core.specs.Book.{seen_of};
ghost use Rattle.plan_hands.specs.Stores.{AreStores};
ghost use Rattle.plan_journals.specs.Closing.{AreJournalsApart};
ghost use Rattle.plan_journals.specs.Growth.{ChangesOnlyJournals, SomeRose};
ghost use Rattle.plan_journals.specs.Open.{AreFrom, Start};
ghost use Rattle.plan_runs.specs.Stages.{stage};
ghost use Rattle.plan_journaled.specs.Over.{CanEndOver, RunsClosed, StoresAreOut, books_of};

use journal_core::JournalBook;
use key_state::Book;
use plan_hands::leave;
use plan_journals::{after_closing, close_journals};
use plan_runs::run_all;
use plan_types::Plan;
use run_report::{Printer, Status};
use slave_worker::StoreHand;
use std::alloc::Global;
use std::sync::Wait;
use std::thread::Threads;
use vd_arm::Arm;
use vd_outside::{Sink, Turnstile, Twin};
use vd_yard::Yard;

/// All runs of a plan from hands whose books are open journals, of whatever epoch: one hand for each store, in order. Then the open passes
/// go back to the yard, and the journals are closed and go back too. `books` is empty and has room for all of them.
///
/// It answers the status of the runs; or that of a journal which failed only as it was closed, where the runs ended by 0, 1, 2 or 13; or
/// want of memory.
pub fn run_over<Y: Yard, C: Twin, T: Turnstile, S: Sink, R: Threads + Wait + Sync>(
    rt: &R,
    alloc: Global,
    plan: &Plan,
    mut hands: Vec<StoreHand<<Y::Arm as Arm>::Pass, JournalBook<Y::Disk>>>,
    mut books: Vec<JournalBook<Y::Disk>>,
    yard: &mut Y,
    clock: &mut C,
    gate: &T,
    printer: &mut Printer,
    out: &mut S,
) -> Status
where
    Y::Disk: Send,
    requires plan { IsPlan plan.now }
    requires stores { AreStores plan.now (map (hand_seen Y.Arm.Pass.seen seen_of) hands.items) }
    requires out { (before : Out) × StoresAreOut plan.now (map (hand_seen Y.Arm.Pass.seen seen_of) hands.items) before (Y.seen yard.old).out }
    requires none { books.items ≡ [] }
    requires room { length hands.items ≤ vec_capacity books }
    ensures ran { (text : List ℕ) × RunsClosed Y.Arm.Pass.seen ⟦<JournalBook<Y::Disk> as Book>⟧.seen plan.now
        (stage (map (hand_seen Y.Arm.Pass.seen seen_of) hands.items) (Y.seen yard.old) (C.seen clock.old) 0 (printing printer.old.failed (S.taken out.old) (S.faults out.old)))
        (stage [] (Y.seen yard.new) (C.seen clock.new) 0 (printing printer.new.failed (S.taken out.new) (S.faults out.new))) text result }
    // Where these books were opened over what was kept first, and only journals changed of the kept disks since, only they changed still.
    ensures grows { (starts : List Start) (first : Kept DiskSeen) → (IsTrue (Y.seen yard.old).tells.keeps_disks → AreFrom first plan.now.stores starts (books_of (map (hand_seen Y.Arm.Pass.seen seen_of) hands.items)))
        → ChangesOnlyJournals starts first (Y.seen yard.old).disks → ChangesOnlyJournals starts first (Y.seen yard.new).disks }
    // The status of a failed journal comes only where the count of faults of one of their disks rose since.
    ensures journal_fault { (starts : List Start) (first : Kept DiskSeen) → result ≡ Status.Journal → IsTrue (Y.seen yard.old).tells.keeps_disks → AreJournalsApart plan.now.stores
        → AreFrom first plan.now.stores starts (books_of (map (hand_seen Y.Arm.Pass.seen seen_of) hands.items)) → SomeRose plan.now.stores first (Y.seen yard.new).disks }
    ensures back { (before : Out) → StoresAreOut plan.now (map (hand_seen Y.Arm.Pass.seen seen_of) hands.items) before (Y.seen yard.old).out → (Y.seen yard.new).out ≡ before }
    ensures tells { (Y.seen yard.new).tells ≡ (Y.seen yard.old).tells }
    ensures willing { IsTrue (Y.seen yard.old).willing → IsTrue (Y.seen yard.new).willing × (result ≢ Status.Yard) }
    ensures files { StaysThere (Y.seen yard.old).files (Y.seen yard.new).files }
    ensures sources { (path : List ℕ) → source_faults (Y.seen yard.new).counts path ≡ source_faults (Y.seen yard.old).counts path }
    ensures yard_fault { result ≡ Status.Yard → Rose (Y.seen yard.old).faults (Y.seen yard.new).faults }
    ensures yard_quiet { result ≢ Status.Yard → result ≢ Status.NoMemory → (Y.seen yard.new).faults ≡ (Y.seen yard.old).faults }
    ensures device_fault { result ≡ Status.Device → (path : List ℕ) × Rose (arm_faults (Y.seen yard.old).counts path) (arm_faults (Y.seen yard.new).counts path) }
    ensures device_quiet { result ≢ Status.Device → result ≢ Status.EpochEnd → result ≢ Status.Journal → result ≢ Status.Yard → result ≢ Status.NoMemory → (path : List ℕ) → arm_faults (Y.seen yard.new).counts path ≡ arm_faults (Y.seen yard.old).counts path }
    ensures can { CanEndOver result }
{
    let mut errors = 0;
    let work = run_all(
        rt,
        alloc,
        plan,
        plan.runs.as_slice(),
        &mut errors,
        &mut hands,
        yard,
        clock,
        gate,
        printer,
        out,
    );
    leave(plan, &mut hands, &mut books, yard);
    let closing = close_journals(alloc, yard, plan.stores.as_slice(), books, printer, out);
    after_closing(work, closing)
}
