// What is said once a run has ended.
ghost use Rattle.std.specs.Prelude.{◌≡◌, ◌<◌, All, length, map, slice_get};
ghost use Rattle.run_report.specs.Runs.{PrintsRun};
ghost use Rattle.run_report.specs.Says.{printing};
ghost use Rattle.slave_worker.specs.Hands.{hand_seen};
ghost use Rattle.slave_worker.specs.declared.hand.StoreHand.{StoreHand as AHand};
ghost use Rattle.still_plan.specs.Lines.{SaysOr};
ghost use Rattle.plan_runs.specs.Books.{SaysAll, book_end_of, book_line, book_status, books_status, books_text, ran_status, ran_text};

use crate::books::{BookEnd, RunBook, book_end};
use crate::statuses::{status_of, worse};
use plan_types::{RunPlan, StorePlan};
use run_report::{Printer, Status, epoch_end_line, journal_fault_line, say_run_text};
use slave_worker::{StoreHand, WorkEnd};
use std::alloc::Global;
use still_plan::say_line;
use vd_arm::Pass;
use vd_outside::Sink;
use worker_tally::Tally;

/// The line of a store whose book failed or is at the end of its last epoch.
fn say_book<P: Pass, B: RunBook, S: Sink>(
    alloc: Global,
    stores: &[StorePlan],
    run: &RunPlan,
    ends: &[WorkEnd],
    hand: &StoreHand<P, B>,
    printer: &mut Printer,
    out: &mut S,
) -> Status
    requires { hand.now.store < length stores.now }
    ensures { SaysOr (book_line (slice_get stores.now hand.now.store) (book_end_of run.now ends.now (hand_seen P.seen B.seen hand.now)))
        (book_status (book_end_of run.now ends.now (hand_seen P.seen B.seen hand.now))) result
        (printing printer.old.failed (S.taken out.old) (S.faults out.old)) (printing printer.new.failed (S.taken out.new) (S.faults out.new)) }
{
    let store = &stores[hand.store as usize];
    match book_end(run, ends, hand) {
        BookEnd::Well => Status::Good,
        BookEnd::Failed { records } => say_line(
            journal_fault_line(alloc, &store.id.name, records),
            Status::Journal,
            printer,
            out,
        ),
        BookEnd::EpochOver => say_line(
            epoch_end_line(alloc, &store.id.name),
            Status::EpochEnd,
            printer,
            out,
        ),
    }
}

/// The lines of the stores whose books failed or are at the end of their last epoch, in order.
fn say_books<P: Pass, B: RunBook, S: Sink>(
    alloc: Global,
    stores: &[StorePlan],
    run: &RunPlan,
    ends: &[WorkEnd],
    hands: &[StoreHand<P, B>],
    printer: &mut Printer,
    out: &mut S,
) -> Status
    requires { All (λ (hand : AHand P B). hand.store < length stores.now) hands.now }
    ensures { SaysAll (books_text stores.now run.now ends.now (map (hand_seen P.seen B.seen) hands.now))
        (books_status run.now ends.now (map (hand_seen P.seen B.seen) hands.now)) result
        (printing printer.old.failed (S.taken out.old) (S.faults out.old)) (printing printer.new.failed (S.taken out.new) (S.faults out.new)) }
{
    let Some((hand, others)) = hands.split_first() else {
        return Status::Good;
    };
    let first = say_book(alloc, stores, run, ends, hand, printer, out);
    if let Status::NoMemory = first {
        return Status::NoMemory;
    }
    let rest = say_books(alloc, stores, run, ends, others, printer, out);
    if let Status::NoMemory = rest {
        return Status::NoMemory;
    }
    worse(first, rest)
}

/// Says what a run prints once it has ended, whose stores came back in these hands, and answers the status that goes with it.
pub fn say_ran<P: Pass, B: RunBook, S: Sink>(
    alloc: Global,
    stores: &[StorePlan],
    run: &RunPlan,
    tallies: &[Tally],
    ends: &[WorkEnd],
    hands: &[StoreHand<P, B>],
    printer: &mut Printer,
    out: &mut S,
) -> Status
    requires prints { PrintsRun stores.now run.now tallies.now }
    requires stores { All (λ (hand : AHand P B). hand.store < length stores.now) hands.now }
    ensures { SaysAll (ran_text stores.now run.now tallies.now ends.now (map (hand_seen P.seen B.seen) hands.now))
        (ran_status run.now tallies.now ends.now (map (hand_seen P.seen B.seen) hands.now)) result
        (printing printer.old.failed (S.taken out.old) (S.faults out.old)) (printing printer.new.failed (S.taken out.new) (S.faults out.new)) }
{
    if let Err(_) = say_run_text(alloc, stores, run, tallies, printer, out) {
        return Status::NoMemory;
    }
    let books = say_books(alloc, stores, run, ends, hands, printer, out);
    if let Status::NoMemory = books {
        return Status::NoMemory;
    }
    worse(books, status_of(tallies))
}
