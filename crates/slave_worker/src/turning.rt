// One turn of a worker.
ghost use Rattle.std.specs.Prelude.{◌≡◌, ◌≢◌, ◌==◌, ◌+◌, ◌-◌, ◌*◌, ◌^◌, ◌<◌, ◌≤◌, ◌++◌, [], ◌∷◌, ℕ, true, false, cond, is_some, length, min, max, IfSome, IsSome, IsSomeAnd, IsTrue, None, slice_get};
ghost use Rattle.error_limit.specs.Seats.{IsSeatOf as IsErrorSeatOf, answers_of, last_of, notes_of};
ghost use Rattle.claim_table.specs.Sums.{Each};
ghost use Rattle.claim_table.specs.Passes.{Fitted};
ghost use Rattle.claim_table.specs.Seats.{view_of, IsSeatOf};
ghost use Rattle.block_ops.specs.Runs.{IsLive, held_run};
ghost use Rattle.seat_ops.specs.Holds.{falling};
ghost use Rattle.worker_tally.specs.Dones.{corrupt_in, ended_put, fault, fault_put, good, good_put, good_reads_of, good_writes_of, faults_of, has_called, corrupt_of, is_refused};
ghost use Rattle.worker_tally.specs.Tallies.{IsSmall};
ghost use Rattle.worker_tally.specs.declared.done.Put.TheVariants.{Skipped};
ghost use Rattle.slave_worker.specs.Dids.{AreCorrupt, FollowsRules, HadAll, IsDidOf, IsTurn, IsUsesOf, judged_as, IsTurnOf, TimedAt, done_of, fault_found, first_fault, found_of, looks_of, wrote_of};
ghost use Rattle.slave_worker.specs.Works.{Noted, TakenAs};
ghost use Rattle.slave_worker.specs.Ends.{EndsTurn, end_of};
ghost use Rattle.slave_worker.specs.Looks.{FindsNone, StartedAt, corrupt_run, forbids, reporting, started};
ghost use Rattle.slave_worker.specs.Standings.{AreIntervals, ArmCalls, Changed, DidCall, GaveOpen, HoldsPasses, IsFree, Ticked, ViewAfter, WasAnswered, Worked, standing, tallied};
ghost use Rattle.slave_worker.specs.declared.did.Did.{Did as ADid};

use crate::device::{Caller, first_look, second_look};
use crate::did::{Rules, WorkEnd};
use crate::marking::report_corrupt;
use crate::watch::Watch;
use crate::writing::put;
use block_verdict::{Finding, Verdict};
use claim_table::{ClaimSeat, ClaimTable, Run, RunClaim};
use error_limit::{ErrorSeat, ErrorWord};
use key_state::{Book, BookFault};
use std::sync::Wait;
use vd_arm::Arm;
use vd_base::{BlockNo, StoreId};
use vd_outside::{Clock, Turnstile};
use worker_tally::{Done, Look, Put, Refusal, Tally, Timed};
use workload_gen::Turn;

/// What was done with a run: the run, with the entries that the book has, how far the reads and the write came, and the book's fault.
#[derive(Drop)]
pub(crate) struct Operated<P> {
    pub(crate) held: Run<P>,
    pub(crate) first: Look,
    pub(crate) put: Put,
    pub(crate) again: Look,
    pub(crate) fault: Option<BookFault>,
}

/// Whether a look forbids the write.
fn forbids(look: Look) -> bool
    ensures { result ≡ forbids look }
{
    match look {
        Look::Fault => true,
        Look::Read { corrupt } => corrupt > 0,
        Look::Skipped => false,
    }
}

/// Reads the run, or checks, writes and checks it, by the rules.
fn operate<A: Arm, B: Book, C: Clock, T: Turnstile, R: Wait>(
    rt: &R,
    caller: Caller,
    rules: &Rules,
    read: bool,
    store: &StoreId,
    table: &ClaimTable<A::Pass, B>,
    seat: &mut ClaimSeat,
    arm: &mut A,
    clock: &mut C,
    gate: &T,
    watch: &mut Watch,
    held: Run<A::Pass>,
    buf: &mut [u8],
    verdicts: &mut [Verdict; 64],
) -> Operated<A::Pass>
    requires of { IsSeatOf table.now seat.old }
    requires has { HoldsPasses A.Pass.seen store.now (view_of seat.old) (held_run held) }
    requires live { Each IsLive held.entries.items }
    requires size { length buf.old ≡ length held.entries.items * store.now.geometry.block_size }
    requires watch { started watch.old ≡ 0 }
    requires clean { FindsNone verdicts.old }
    ensures of { IsSeatOf table.now seat.new }
    ensures has { HoldsPasses A.Pass.seen store.now (view_of seat.new) (held_run result.held) }
    ensures live { Each IsLive result.held.entries.items }
    ensures first { result.held.first ≡ held.first }
    ensures many { length result.held.entries.items ≡ length held.entries.items }
    ensures follows { FollowsRules rules.now held.entries.items (done_of (length held.entries.items) read result.first result.put result.again) }
    ensures changed { (uses : _) × IsUsesOf result.put uses × Changed uses (view_of seat.old) (view_of seat.new) (cond (ended_put result.put == 0) [] (falling held.first.0 (length held.entries.items))) [] }
    ensures called { ArmCalls (length held.entries.items * (good result.first + good result.again)) (length held.entries.items * good_put result.put) (fault result.first + fault_put result.put + fault result.again) (A.seen arm.old) (A.seen arm.new) }
    ensures watch { started watch.new ≡ cond (has_called (done_of (length held.entries.items) read result.first result.put result.again)) 1 0 }
    ensures clock { Ticked (started watch.new) (C.seen clock.old).until (C.seen clock.old) (C.seen clock.new) }
    ensures at { IsTrue (C.seen clock.old).still → StartedAt (C.seen clock.old).last watch.old → StartedAt (C.seen clock.old).last watch.new }
    ensures corrupt { corrupt_in result.first + corrupt_in result.again ≡ length (corrupt_run held.first.0 result.held.entries.items verdicts.new) }
    ensures found { AreCorrupt store.now held.first.0 (judged_as held.entries.items (done_of (length held.entries.items) read result.first result.put result.again)) (corrupt_run held.first.0 result.held.entries.items verdicts.new) }
    ensures refused { is_refused result.put ≡ is_some result.fault }
    ensures fault { IfSome result.fault (λ fault. WasAnswered (view_of seat.new) fault) }
    ensures goes_on { result.fault ≡ None → result.put ≢ Skipped → GaveOpen (view_of seat.new) }
    ensures sound { Fitted (view_of seat.old).made → corrupt_in result.first + corrupt_in result.again ≡ 0 }
{
    let mut held = held;
    let first = first_look(
        caller,
        read,
        rules.preread,
        store,
        arm,
        clock,
        gate,
        watch,
        &mut held,
        buf,
        verdicts,
    );
    if read || forbids(first) {
        return Operated {
            held,
            first,
            put: Put::Skipped,
            again: Look::Skipped,
            fault: None,
        };
    }
    let (mut held, put, fault) = put(
        rt, caller, store, table, seat, arm, clock, gate, watch, held, buf,
    );
    let again = second_look(
        caller,
        rules.reread,
        put,
        store,
        arm,
        clock,
        gate,
        watch,
        &mut held,
        buf,
        verdicts,
    );
    Operated {
        held,
        first,
        put,
        again,
        fault,
    }
}

/// The clock round the transfers, once they are over; it is looked at where one was made.
fn timed<C: Clock>(watch: Watch, clock: &mut C) -> Timed
    ensures clock { Ticked (started watch) (C.seen clock.old).until (C.seen clock.old) (C.seen clock.new) }
    ensures after { started watch ≡ 1 → result.after ≡ (C.seen clock.new).last }
    ensures before { (time : ℕ) → started watch ≡ 1 → StartedAt time watch → result.before ≡ time }
{
    match watch.before {
        Some(before) => Timed {
            before,
            after: clock.now(),
        },
        None => Timed {
            before: 0,
            after: 0,
        },
    }
}

/// A look that reported so many corrupt blocks at most.
fn reporting(look: Look, many: u32) -> Look
    ensures { result ≡ reporting look many }
{
    match look {
        Look::Read { corrupt } => Look::Read {
            corrupt: corrupt.min(many),
        },
        other => other,
    }
}

/// Keeps a finding of the call of the device that failed.
fn keep_fault(done: &Done, block: BlockNo, tally: &mut Tally)
    requires { length tally.old.findings + length (fault_found block.0 done.now) ≤ tally.old.finding_room }
    ensures { tally.new ≡ record tally.old { findings = tally.old.findings ++ fault_found block.0 done.now } }
{
    if done.first == Look::Fault || done.again == Look::Fault {
        tally.push(Finding::ReadFault { block });
    } else if done.put == Put::Fault {
        tally.push(Finding::WriteFault { block });
    }
}

/// How many errors a look found.
fn errors_in(look: Look) -> u32
    ensures { result ≡ fault look + corrupt_in look }
{
    match look {
        Look::Fault => 1,
        Look::Read { corrupt } => corrupt,
        Look::Skipped => 0,
    }
}

/// 1 for a write of which the device failed.
fn errors_of_put(put: Put) -> u32
    ensures { result ≡ fault_put put }
{
    match put {
        Put::Fault => 1,
        _ => 0,
    }
}

/// How many errors a turn found.
fn errors_of(done: &Done) -> u32
    requires { corrupt_of done.now ≤ 128 }
    ensures { result ≡ faults_of done.now + corrupt_of done.now }
{
    errors_in(done.first) + errors_of_put(done.put) + errors_in(done.again)
}

/// What a turn does with the run that it claimed, which it releases. It answers the empty run, what it did, and the book's fault.
fn hold<A: Arm, B: Book, C: Clock, T: Turnstile, R: Wait>(
    rt: &R,
    caller: Caller,
    rules: &Rules,
    turn: &Turn,
    store: &StoreId,
    table: &ClaimTable<A::Pass, B>,
    seat: &mut ClaimSeat,
    arm: &mut A,
    clock: &mut C,
    gate: &T,
    held: Run<A::Pass>,
    buf: &mut [u8],
    tally: &mut Tally,
) -> (Run<A::Pass>, Done, Option<BookFault>)
    requires of { IsSeatOf table.now seat.old }
    requires has { HoldsPasses A.Pass.seen store.now (view_of seat.old) (held_run held) }
    requires live { Each IsLive held.entries.items }
    requires turn { (held.first ≡ turn.now.block) × (length held.entries.items ≡ turn.now.many) }
    requires size { length buf.old ≡ length held.entries.items * store.now.geometry.block_size }
    requires room { length tally.old.findings + 64 ≤ tally.old.finding_room }
    ensures of { IsSeatOf table.now seat.new }
    ensures free { IsFree (view_of seat.new) }
    ensures empty { result.0.entries.items ≡ [] }
    ensures did { (did : ADid) × IsDidOf did turn.now held.entries.items result.1 result.2 × HadAll rules.now store.now did × (Changed (length did.gave) (view_of seat.old) (view_of seat.new) (wrote_of did) did.spoilt) × ((view_of seat.new).gave ≡ did.gave ++ (view_of seat.old).gave) × (tally.new ≡ record tally.old { findings = tally.old.findings ++ found_of did }) }
    ensures called { ArmCalls (good_reads_of result.1) (good_writes_of result.1) (faults_of result.1) (A.seen arm.old) (A.seen arm.new) }
    ensures clock { Ticked (cond (has_called result.1) 2 0) (C.seen clock.old).until (C.seen clock.old) (C.seen clock.new) }
    ensures time { has_called result.1 ≡ true → result.1.timed.after ≡ (C.seen clock.new).last }
    ensures still { IsTrue (C.seen clock.old).still → TimedAt (C.seen clock.old).last result.1 }
    ensures fault { IfSome result.2 (λ fault. WasAnswered (view_of seat.new) fault) }
    ensures sound { Fitted (view_of seat.old).made → corrupt_of result.1 ≡ 0 }
{
    let mut verdicts = [Verdict::Clean; 64];
    let mut watch = Watch { before: None };
    let operated = operate(
        rt,
        caller,
        rules,
        turn.read,
        store,
        table,
        seat,
        arm,
        clock,
        gate,
        &mut watch,
        held,
        buf,
        &mut verdicts,
    );
    let Operated {
        held,
        first,
        put,
        again,
        fault,
    } = operated;
    let timed = timed(watch, clock);
    let (held, reported, refused) = report_corrupt(rt, table, seat, held, &verdicts, tally);
    let done = Done {
        many: turn.many,
        read: turn.read,
        first: reporting(first, reported),
        put,
        again: reporting(again, reported),
        timed,
    };
    keep_fault(&done, turn.block, tally);
    let room = table.release_run(seat, held);
    (room, done, first_fault(fault, refused))
}

/// The fault of the write, or else that of making a block bad.
fn first_fault(write: Option<BookFault>, bad: Option<BookFault>) -> Option<BookFault>
    ensures { result ≡ first_fault write bad }
{
    match write {
        Some(fault) => Some(fault),
        None => bad,
    }
}

/// Claims the turn's blocks, does with them what the turn is for, and counts it. It answers the empty run, the book's fault, and how
/// many errors were found.
fn act<A: Arm, B: Book, C: Clock, T: Turnstile, R: Wait>(
    rt: &R,
    caller: Caller,
    rules: &Rules,
    turn: &Turn,
    store: &StoreId,
    table: &ClaimTable<A::Pass, B>,
    seat: &mut ClaimSeat,
    arm: &mut A,
    clock: &mut C,
    gate: &T,
    buf: &mut [u8],
    tally: &mut Tally,
    room: Run<A::Pass>,
) -> (Run<A::Pass>, Option<BookFault>, u32)
    requires of { IsSeatOf table.now seat.old }
    requires free { IsFree (view_of seat.old) }
    requires store { (view_of seat.old).made.store ≡ store.now }
    requires turn { IsTurnOf store.now turn.now }
    requires size { length buf.old ≡ turn.now.many * store.now.geometry.block_size }
    requires intervals { AreIntervals rules.now.intervals tally.old }
    requires small { IsSmall tally.old }
    requires findings { length tally.old.findings + 64 ≤ tally.old.finding_room }
    requires room { room.entries.items ≡ [] }
    ensures of { IsSeatOf table.now seat.new }
    ensures free { IsFree (view_of seat.new) }
    ensures empty { result.0.entries.items ≡ [] }
    ensures did { (did : ADid) × (did.turn ≡ turn.now) × (did.fault ≡ result.1) × (result.2 ≡ length (found_of did)) × IsTurn rules.now store.now did × ViewAfter (did ∷ []) (view_of seat.old) (view_of seat.new) × (tally.new ≡ tallied rules.now.intervals store.now.geometry.block_size (did ∷ []) tally.old) × DidCall did (A.seen arm.old) (A.seen arm.new) × Ticked (looks_of did) (C.seen clock.old).until (C.seen clock.old) (C.seen clock.new) × (has_called did.done ≡ true → did.done.timed.after ≡ (C.seen clock.new).last) × (Fitted (view_of seat.old).made → did.corrupt ≡ []) × (IsTrue (C.seen clock.old).still → TimedAt (C.seen clock.old).last did.done) }
    ensures few { result.2 ≤ 64 }
    ensures fault { IfSome result.1 (λ fault. WasAnswered (view_of seat.new) fault) }
{
    match table.claim_run(seat, turn.block, turn.many, room) {
        RunClaim::Claimed(held) => {
            let (room, done, fault) = hold(
                rt, caller, rules, turn, store, table, seat, arm, clock, gate, held, buf, tally,
            );
            tally.add(&rules.intervals, store.geometry.block_size(), &done);
            (room, fault, errors_of(&done))
        }
        RunClaim::Busy { room, .. } => {
            tally.turn_away(Refusal::Busy);
            (room, None, 0)
        }
        RunClaim::BadBlock { room, .. } => {
            tally.turn_away(Refusal::Bad);
            (room, None, 0)
        }
    }
}

/// Notes so many errors, and answers the count of the last note.
fn note_errors(errors: &ErrorWord, error_seat: &mut ErrorSeat, many: u32) -> u64
    requires of { IsErrorSeatOf errors.now error_seat.old }
    requires few { notes_of error_seat.old + many ≤ 2 ^ 32 }
    ensures of { IsErrorSeatOf errors.now error_seat.new }
    ensures notes { notes_of error_seat.new ≡ notes_of error_seat.old + many }
    ensures last { 0 < many → result ≡ last_of error_seat.new }
    ensures bound { 0 < many → notes_of error_seat.new ≤ last_of error_seat.new }
    ensures answers { Noted many (answers_of error_seat.old) (answers_of error_seat.new) }
{
    let mut last = 0;
    for _ in 0..many {
        last = errors.note(error_seat);
    }
    last
}

/// Why a turn ends the work, if it does.
fn end_of(limit: u32, fault: Option<BookFault>, found: u32, seen: u64) -> Option<WorkEnd>
    ensures { result ≡ end_of limit fault found seen }
{
    if let Some(fault) = fault {
        return Some(WorkEnd::Book(fault));
    }
    if found > 0 && seen >= u64::from(limit) {
        return Some(WorkEnd::ErrorLimit { seen });
    }
    None
}

/// One turn by these rules, as `one_turn` says.
pub(crate) fn take_turn<A: Arm, B: Book, C: Clock, T: Turnstile, R: Wait>(
    rt: &R,
    rules: &Rules,
    turn: &Turn,
    number: u64,
    store: &StoreId,
    table: &ClaimTable<A::Pass, B>,
    seat: &mut ClaimSeat,
    errors: &ErrorWord,
    error_seat: &mut ErrorSeat,
    arm: &mut A,
    clock: &mut C,
    gate: &T,
    buf: &mut [u8],
    tally: &mut Tally,
    room: Run<A::Pass>,
) -> (Run<A::Pass>, Option<WorkEnd>)
    requires of { IsSeatOf table.now seat.old }
    requires free { IsFree (view_of seat.old) }
    requires store { (view_of seat.old).made.store ≡ store.now }
    requires turn { IsTurnOf store.now turn.now }
    requires size { turn.now.many * store.now.geometry.block_size ≤ length buf.old }
    requires intervals { AreIntervals rules.now.intervals tally.old }
    requires small { IsSmall tally.old }
    requires findings { length tally.old.findings + 64 ≤ tally.old.finding_room }
    requires errors { IsErrorSeatOf errors.now error_seat.old }
    requires few_notes { notes_of error_seat.old + 64 ≤ 2 ^ 32 }
    requires room { room.entries.items ≡ [] }
    ensures of { IsSeatOf table.now seat.new }
    ensures free { IsFree (view_of seat.new) }
    ensures errors { IsErrorSeatOf errors.now error_seat.new }
    ensures empty { result.0.entries.items ≡ [] }
    ensures size { length buf.new ≡ length buf.old }
    ensures did { TakenAs rules.now store.now turn.now (view_of seat.old) (view_of seat.new) tally.old tally.new (A.seen arm.old) (A.seen arm.new) (answers_of error_seat.old) (answers_of error_seat.new) (C.seen clock.old) (C.seen clock.new) result.1 }
{
    clock.rest(rules.intervals.start.saturating_add(turn.due));
    let caller = Caller {
        worker: rules.worker,
        turn: number,
    };
    let bytes = turn.many as usize * store.geometry.block_size() as usize;
    let (room, fault, found) = act(
        rt,
        caller,
        rules,
        turn,
        store,
        table,
        seat,
        arm,
        clock,
        gate,
        &mut buf[..bytes],
        tally,
        room,
    );
    let seen = note_errors(errors, error_seat, found);
    (room, end_of(rules.limit, fault, found, seen))
}
