// A plan's runs over journals that are made anew.
ghost use Rattle.std.specs.Prelude.{◌≡◌, ◌≢◌, [], IsTrue, List, ℕ};
ghost use Rattle.vd_outside.specs.Causes.{Rose};
ghost use Rattle.vd_yard.specs.Counts.{arm_faults, source_faults};
ghost use Rattle.vd_yard.specs.Yard.{StaysThere};
ghost use Rattle.plan_types.specs.Valid.{IsPlan};
ghost use Rattle.run_report.specs.Says.{Says, printing};
ghost use Rattle.plan_journals.specs.Closing.{WentWell};
ghost use Rattle.plan_journals.specs.Growth.{ChangesOnlyJournals, SomeRose};
ghost use Rattle.plan_journals.specs.Open.{new_starts};
ghost use Rattle.plan_runs.specs.Stages.{stage};
ghost use Rattle.plan_journaled.specs.Journaled.{RunsJournaled, StandClosed};
ghost use Rattle.plan_journaled.specs.Over.{CanEndOver};

use crate::over::run_over;
use journal_core::JournalBook;
use key_state::Book;
use plan_hands::hands_of;
use plan_journals::{after_closing, after_refusal, close_journals, open_journals};
use plan_types::Plan;
use run_report::{Printer, Status};
use std::alloc::Global;
use std::sync::Wait;
use std::thread::Threads;
use vd_outside::{Sink, Turnstile, Twin};
use vd_yard::Yard;

/// All runs of a plan over journals that are made anew for its stores, and closed behind the runs. Where a journal can't be made no run
/// starts. Whatever was opened goes back to the yard. It answers the status that goes with what was found, or why it ended.
pub fn run_journaled<Y: Yard, C: Twin, T: Turnstile, S: Sink, R: Threads + Wait + Sync>(
    rt: &R,
    alloc: Global,
    plan: &Plan,
    yard: &mut Y,
    clock: &mut C,
    gate: &T,
    printer: &mut Printer,
    out: &mut S,
) -> Status
where
    Y::Disk: Send,
    requires { IsPlan plan.now }
    ensures ran { (text : List ℕ) × RunsJournaled Y.Arm.Pass.seen ⟦<JournalBook<Y::Disk> as Book>⟧.seen plan.now
        (stage [] (Y.seen yard.old) (C.seen clock.old) 0 (printing printer.old.failed (S.taken out.old) (S.faults out.old)))
        (stage [] (Y.seen yard.new) (C.seen clock.new) 0 (printing printer.new.failed (S.taken out.new) (S.faults out.new))) text result
        × Says (printing printer.old.failed (S.taken out.old) (S.faults out.old)) (printing printer.new.failed (S.taken out.new) (S.faults out.new)) text }
    ensures back { (Y.seen yard.new).out ≡ (Y.seen yard.old).out }
    ensures tells { (Y.seen yard.new).tells ≡ (Y.seen yard.old).tells }
    ensures willing { IsTrue (Y.seen yard.old).willing → IsTrue (Y.seen yard.new).willing × (result ≢ Status.Yard) }
    ensures files { StaysThere (Y.seen yard.old).files (Y.seen yard.new).files }
    ensures sources { (path : List ℕ) → source_faults (Y.seen yard.new).counts path ≡ source_faults (Y.seen yard.old).counts path }
    // The disk that the yard keeps at a path is the one that it kept, one that was only read, or what is left of one of these journals.
    ensures grows { ChangesOnlyJournals (new_starts plan.now.journal_sectors plan.now.stores) (Y.seen yard.old).disks (Y.seen yard.new).disks }
    // With a status of 0, 1 or 2 each of these stands closed.
    ensures whole { WentWell result → IsTrue (Y.seen yard.old).tells.keeps_disks → StandClosed plan.now (Y.seen yard.old) (Y.seen yard.new) }
    ensures journal_fault { result ≡ Status.Journal → IsTrue (Y.seen yard.old).tells.keeps_disks → SomeRose plan.now.stores (Y.seen yard.old).disks (Y.seen yard.new).disks }
    ensures yard_fault { result ≡ Status.Yard → Rose (Y.seen yard.old).faults (Y.seen yard.new).faults }
    ensures yard_quiet { result ≢ Status.Yard → result ≢ Status.NoMemory → (Y.seen yard.new).faults ≡ (Y.seen yard.old).faults }
    ensures device_fault { result ≡ Status.Device → (path : List ℕ) × Rose (arm_faults (Y.seen yard.old).counts path) (arm_faults (Y.seen yard.new).counts path) }
    ensures device_quiet { result ≢ Status.Device → result ≢ Status.EpochEnd → result ≢ Status.Journal → result ≢ Status.Yard → result ≢ Status.NoMemory → (path : List ℕ) → arm_faults (Y.seen yard.new).counts path ≡ arm_faults (Y.seen yard.old).counts path }
    ensures can { CanEndOver result }
{
    let stores = plan.stores.as_slice();
    let mut books = Vec::new(alloc);
    let opened = open_journals(
        alloc,
        yard,
        stores,
        plan.journal_sectors,
        &mut books,
        printer,
        out,
    );
    if let Err(why) = opened {
        let closing = close_journals(alloc, yard, stores, books, printer, out);
        return after_refusal(why, closing);
    }
    let Ok(hands) = hands_of(alloc, &mut books) else {
        let closing = close_journals(alloc, yard, stores, books, printer, out);
        return after_closing(Status::NoMemory, closing);
    };
    run_over(
        rt, alloc, plan, hands, books, yard, clock, gate, printer, out,
    )
}
