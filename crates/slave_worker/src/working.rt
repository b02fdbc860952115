// The work of a worker: its turns one after the other.
ghost use Rattle.std.specs.Prelude.{◌≡◌, ◌+◌, ◌*◌, ◌^◌, ◌<◌, ◌≤◌, [], ◌∷◌, true, length, List, map};
ghost use Rattle.error_limit.specs.Seats.{IsSeatOf as IsErrorSeatOf, answers_of, notes_of};
ghost use Rattle.claim_table.specs.Sums.{Each};
ghost use Rattle.claim_table.specs.Passes.{Fitted};
ghost use Rattle.claim_table.specs.Seats.{view_of, IsSeatOf};
ghost use Rattle.worker_tally.specs.Dones.{has_called};
ghost use Rattle.worker_tally.specs.Tallies.{IsSmall, no_numbers};
ghost use Rattle.workload_gen.specs.Task.{task_of};
ghost use Rattle.workload_gen.specs.Turns.{drawn};
ghost use Rattle.slave_worker.specs.Dids.{IsTurn, IsTurnOf, found_of};
ghost use Rattle.slave_worker.specs.Works.{HasWorked, TakenAs};
ghost use Rattle.slave_worker.specs.Ends.{EndsTurn, Finished, HasBytes, IsWorkOf, ends_work, last_look, rules_of};
ghost use Rattle.slave_worker.specs.Standings.{AreIntervals, IsFree, Worked, standing};
ghost use Rattle.slave_worker.specs.declared.did.Did.{Did as ADid};

use crate::did::{Rules, WorkEnd};
use crate::turning::take_turn;
use claim_table::{ClaimSeat, ClaimTable, Run};
use error_limit::{ErrorSeat, ErrorWord};
use key_state::Book;
use plan_types::{Plan, RunPlan, WorkerPlan};
use std::sync::Wait;
use vd_arm::Arm;
use vd_base::StoreId;
use vd_outside::{Clock, Turnstile};
use worker_tally::{Intervals, Tally, rows_fit, turns_stay_small};
use workload_gen::{Draw, Turn};

/// What a worker of a run goes by that began at this microsecond.
fn rules_of(plan: &Plan, run: &RunPlan, worker: &WorkerPlan, start: u64) -> Rules
    requires interval { 0 < run.now.interval }
    requires elapsed { run.now.elapsed + run.now.interval < 2 ^ 32 }
    ensures { result ≡ rules_of plan.now run.now worker.now start }
{
    Rules {
        worker: worker.number,
        preread: plan.preread,
        reread: plan.reread,
        limit: plan.data_errors,
        intervals: Intervals {
            start,
            length: u64::from(run.interval) * 1_000_000,
            many: (run.elapsed + run.interval - 1) / run.interval,
        },
        end: start.saturating_add(u64::from(run.elapsed) * 1_000_000),
    }
}

/// One turn of a worker: it rests until the turn is due, claims its blocks, reads or writes them by the rules, reports each corrupt block
/// and makes it bad until the book refuses, releases them, and then notes each error that it reported. A busy or a bad block ends the turn
/// without an operation.
///
/// `number` is the turn's number, as the gate sees it. `buf` has at least the bytes of the turn's blocks; `room` is an empty run, which
/// is given back. It answers why the work ends with this turn: the book's fault, or the limit of errors that its last note reached;
/// and None where it goes on.
pub fn one_turn<A: Arm, B: Book, C: Clock, T: Turnstile, R: Wait>(
    rt: &R,
    plan: &Plan,
    run: &RunPlan,
    worker: &WorkerPlan,
    store: &StoreId,
    turn: &Turn,
    number: u64,
    table: &ClaimTable<A::Pass, B>,
    seat: &mut ClaimSeat,
    errors: &ErrorWord,
    error_seat: &mut ErrorSeat,
    arm: &mut A,
    clock: &mut C,
    gate: &T,
    start: u64,
    buf: &mut [u8],
    tally: &mut Tally,
    room: Run<A::Pass>,
) -> (Run<A::Pass>, Option<WorkEnd>)
    requires plan { IsWorkOf plan.now run.now worker.now store.now }
    requires of { IsSeatOf table.now seat.old }
    requires free { IsFree (view_of seat.old) }
    requires store { (view_of seat.old).made.store ≡ store.now }
    requires turn { IsTurnOf store.now turn.now }
    requires size { turn.now.many * store.now.geometry.block_size ≤ length buf.old }
    requires intervals { AreIntervals (rules_of plan.now run.now worker.now start).intervals tally.old }
    requires small { IsSmall tally.old }
    requires findings { length tally.old.findings + 64 ≤ tally.old.finding_room }
    requires errors { IsErrorSeatOf errors.now error_seat.old }
    requires few_notes { notes_of error_seat.old < plan.now.data_errors }
    requires room { room.entries.items ≡ [] }
    ensures of { IsSeatOf table.now seat.new }
    ensures free { IsFree (view_of seat.new) }
    ensures errors { IsErrorSeatOf errors.now error_seat.new }
    ensures empty { result.0.entries.items ≡ [] }
    ensures size { length buf.new ≡ length buf.old }
    ensures did { TakenAs (rules_of plan.now run.now worker.now start) store.now turn.now (view_of seat.old) (view_of seat.new) tally.old tally.new (A.seen arm.old) (A.seen arm.new) (answers_of error_seat.old) (answers_of error_seat.new) (C.seen clock.old) (C.seen clock.new) result.1 }
{
    let rules = rules_of(plan, run, worker, start);
    take_turn(
        rt, &rules, turn, number, store, table, seat, errors, error_seat, arm, clock, gate, buf,
        tally, room,
    )
}

/// The work of a worker in a run that began at `start`, by the microseconds of its clock: the turns of its draw, one after the other. It
/// ends with all turns made; or only where the clock's last reading is at or past the run's end, the last note of an error answered a
/// count that has reached the plan's limit, or the book answered that fault.
///
/// `store` is the worker's, over which the table was made. The tally is of no turns, with room for each interval of the run and for 64
/// findings more than the plan's limit; no turn was drawn; `buf` has the bytes of the greatest transfer; `room` is an empty run.
pub fn work<A: Arm, B: Book, C: Clock, T: Turnstile, R: Wait>(
    rt: &R,
    plan: &Plan,
    run: &RunPlan,
    worker: &WorkerPlan,
    store: &StoreId,
    draw: &mut Draw,
    table: &ClaimTable<A::Pass, B>,
    seat: &mut ClaimSeat,
    errors: &ErrorWord,
    error_seat: &mut ErrorSeat,
    arm: &mut A,
    clock: &mut C,
    gate: &T,
    start: u64,
    buf: &mut [u8],
    tally: &mut Tally,
    room: Run<A::Pass>,
) -> WorkEnd
    requires plan { IsWorkOf plan.now run.now worker.now store.now }
    requires draw { draw.old ≡ record { task = task_of run.now worker.now store.now.geometry; turns = 0 } }
    requires of { IsSeatOf table.now seat.old }
    requires free { IsFree (view_of seat.old) }
    requires store { (view_of seat.old).made.store ≡ store.now }
    requires errors { IsErrorSeatOf errors.now error_seat.old }
    requires few_notes { notes_of error_seat.old < plan.now.data_errors }
    requires numbers { tally.old.numbers ≡ no_numbers }
    requires lists { (tally.old.rows ≡ []) × (tally.old.findings ≡ []) }
    requires intervals { AreIntervals (rules_of plan.now run.now worker.now start).intervals tally.old }
    requires findings { plan.now.data_errors + 64 ≤ tally.old.finding_room }
    requires bytes { HasBytes run.now worker.now (length buf.old) }
    requires room { room.entries.items ≡ [] }
    ensures of { IsSeatOf table.now seat.new }
    ensures free { IsFree (view_of seat.new) }
    ensures errors { IsErrorSeatOf errors.now error_seat.new }
    ensures worked { HasWorked (rules_of plan.now run.now worker.now start) store.now run.now.turns (drawn draw.new) (standing (view_of seat.old) tally.old (A.seen arm.old) (notes_of error_seat.old) (C.seen clock.old)) (standing (view_of seat.new) tally.new (A.seen arm.new) (notes_of error_seat.new) (C.seen clock.new)) (answers_of error_seat.new) result }
    ensures task { draw.new.task ≡ draw.old.task }
{
    // The laws by which each turn leaves the tally room for the next.
    turns_stay_small();
    rows_fit();
    let rules = rules_of(plan, run, worker, start);
    let mut room = room;
    for number in 0..run.turns {
        let last = clock.now();
        if last >= rules.end {
            return WorkEnd::TimeUp { last };
        }
        let turn = draw.next();
        let (left, end) = take_turn(
            rt,
            &rules,
            &turn,
            u64::from(number),
            store,
            table,
            seat,
            errors,
            error_seat,
            arm,
            clock,
            gate,
            buf,
            tally,
            room,
        );
        room = left;
        if let Some(end) = ends_work(end, number + 1 == run.turns) {
            return end;
        }
    }
    WorkEnd::TurnsMade
}

/// Whether a turn's end ends the work: a limit that the last turn reached doesn't, since then all turns were made.
fn ends_work(end: Option<WorkEnd>, is_last: bool) -> Option<WorkEnd>
    ensures { result ≡ ends_work end is_last }
{
    match end {
        Some(WorkEnd::ErrorLimit { .. }) if is_last => None,
        other => other,
    }
}
