// Behind verification: the journals are opened in their next epoch, and the runs follow.
ghost use Rattle.std.specs.Prelude.{◌≡◌, [], IsTrue, length, map};
ghost use Rattle.vd_yard.specs.Out.{Out};
ghost use Rattle.plan_types.specs.Valid.{IsPlan};
ghost use Rattle.run_report.specs.Says.{printing};
ghost use Rattle.plan_verified.specs.Stores.{settled_of, store_seen};
ghost use Rattle.plan_reopened.specs.Kept.{AreStillKept};
ghost use Rattle.plan_reopened.specs.Reopening.{AreReady, next_starts};
ghost use Rattle.plan_runs.specs.Stages.{stage};
ghost use Rattle.plan_resumed.specs.Going.{VerifiedAreOut, WentOn};
ghost use Rattle.plan_resumed.specs.Seating.{ArePassed};

use crate::seating::{open_hands_of, take_settled};
use journal_core::JournalBook;
use journal_recover::Recovered;
use key_state::Book;
use plan_journaled::run_over;
use plan_journals::{after_closing, after_refusal, close_journals};
use plan_reopened::{give_back, reopen_journals};
use plan_types::{Plan, StorePlan};
use plan_verified::VerifiedStore;
use run_report::{Printer, Status};
use std::alloc::Global;
use std::sync::Wait;
use std::thread::Threads;
use vd_arm::Arm;
use vd_outside::{Sink, Turnstile, Twin};
use vd_yard::Yard;

/// Journals are opened on disks that were taken from the yard, each after the settled entries of its store, and the runs of the plan are
/// made over them with the passes of the verified stores. Where a journal can't be opened no run starts. All passes and disks go back.
pub(crate) fn run_verified<Y: Yard, C: Twin, T: Turnstile, S: Sink, R: Threads + Wait + Sync>(
    rt: &R,
    alloc: Global,
    plan: &Plan,
    disks: Vec<Y::Disk>,
    found: &[Recovered],
    mut verified: Vec<VerifiedStore<<Y::Arm as Arm>::Pass>>,
    yard: &mut Y,
    clock: &mut C,
    gate: &T,
    printer: &mut Printer,
    out: &mut S,
) -> Status
where
    Y::Disk: Send,
    requires plan { IsPlan plan.now }
    requires as_many { (length disks.items ≡ length plan.now.stores) × (length found.now ≡ length plan.now.stores) }
    requires passed { ArePassed plan.now.stores (map (store_seen Y.Arm.Pass.seen) verified.items) }
    requires kept { IsTrue (Y.seen yard.old).tells.keeps_disks → AreStillKept (Y.seen yard.old).disks plan.now.stores (map Y.Disk.seen disks.items) }
    requires ready { AreReady plan.now.stores (map Y.Disk.seen disks.items) found.now (map settled_of (map (store_seen Y.Arm.Pass.seen) verified.items)) }
    requires out { (before : Out) × VerifiedAreOut plan.now before (Y.seen yard.old).out }
    ensures went { WentOn Y.Arm.Pass.seen ⟦<JournalBook<Y::Disk> as Book>⟧.seen plan.now (map Y.Disk.seen disks.items)
        (next_starts plan.now.stores found.now (map settled_of (map (store_seen Y.Arm.Pass.seen) verified.items))) (map (store_seen Y.Arm.Pass.seen) verified.items)
        (stage [] (Y.seen yard.old) (C.seen clock.old) 0 (printing printer.old.failed (S.taken out.old) (S.faults out.old)))
        (stage [] (Y.seen yard.new) (C.seen clock.new) 0 (printing printer.new.failed (S.taken out.new) (S.faults out.new))) result }
    ensures back { (before : Out) → VerifiedAreOut plan.now before (Y.seen yard.old).out → (Y.seen yard.new).out ≡ before }
{
    let stores = plan.stores.as_slice();
    let Ok(settled) = take_settled(alloc, &mut verified) else {
        plan_verified::give_back(yard, stores, &mut verified);
        give_back(yard, stores, disks);
        return Status::NoMemory;
    };
    let mut books = Vec::new(alloc);
    let opened = reopen_journals(
        alloc, yard, stores, disks, found, settled, &mut books, printer, out,
    );
    if let Err(why) = opened {
        plan_verified::give_back(yard, stores, &mut verified);
        let closing = close_journals(alloc, yard, stores, books, printer, out);
        return after_refusal(why, closing);
    }
    let Ok(hands) = open_hands_of(alloc, &mut verified, &mut books) else {
        plan_verified::give_back(yard, stores, &mut verified);
        let closing = close_journals(alloc, yard, stores, books, printer, out);
        return after_closing(Status::NoMemory, closing);
    };
    run_over(
        rt, alloc, plan, hands, books, yard, clock, gate, printer, out,
    )
}
