// The write of a run of blocks, from its beginning in the book to its end.
ghost use Rattle.std.specs.Prelude.{◌≡◌, ◌≢◌, ◌==◌, ◌+◌, ◌-◌, ◌*◌, ◌<◌, ◌≤◌, [], cond, is_some, length, map, IfSome, IsTrue, None};
ghost use Rattle.key_state.specs.Entries.{begun, ended};
ghost use Rattle.claim_table.specs.Sums.{Each};
ghost use Rattle.claim_table.specs.Seats.{view_of, IsSeatOf};
ghost use Rattle.block_ops.specs.Runs.{IsLive, held_run};
ghost use Rattle.seat_ops.specs.Holds.{falling};
ghost use Rattle.worker_tally.specs.Dones.{ended_put, fault_put, good_put, is_refused};
ghost use Rattle.worker_tally.specs.declared.done.Put.TheVariants.{Ended, Skipped};
ghost use Rattle.slave_worker.specs.Looks.{StartedAt, first_settled, started};
ghost use Rattle.slave_worker.specs.Standings.{ArmCalls, Changed, GaveOpen, HoldsPasses, Ticked, WasAnswered};
ghost use Rattle.slave_worker.specs.Dids.{IsUsesOf};

use crate::device::Caller;
use crate::watch::Watch;
use block_ops::write_block;
use claim_table::{ClaimSeat, ClaimTable, Run};
use key_state::{Book, BookFault, Entry};
use seat_ops::{confirm_begun, end_written, queue_held};
use std::sync::Wait;
use vd_arm::Arm;
use vd_base::StoreId;
use vd_outside::{Clock, Turnstile};
use worker_tally::Put;

/// Whether the first block of a run is settled.
fn is_first_settled(entries: &[Entry]) -> bool
    ensures { result ≡ first_settled entries.now }
{
    match entries {
        [Entry::Settled(_), ..] => true,
        _ => false,
    }
}

/// Writes the run: its beginning is synced, then the device writes, then its end is recorded. It answers the run, with the entries that
/// the book has, how far the write came, and the book's fault where it refused.
pub(crate) fn put<A: Arm, B: Book, C: Clock, T: Turnstile, R: Wait>(
    rt: &R,
    caller: Caller,
    store: &StoreId,
    table: &ClaimTable<A::Pass, B>,
    seat: &mut ClaimSeat,
    arm: &mut A,
    clock: &mut C,
    gate: &T,
    watch: &mut Watch,
    held: Run<A::Pass>,
    buf: &mut [u8],
) -> (Run<A::Pass>, Put, Option<BookFault>)
    requires of { IsSeatOf table.now seat.old }
    requires has { HoldsPasses A.Pass.seen store.now (view_of seat.old) (held_run held) }
    requires live { Each IsLive held.entries.items }
    requires size { length buf.old ≡ length held.entries.items * store.now.geometry.block_size }
    ensures of { IsSeatOf table.now seat.new }
    ensures has { HoldsPasses A.Pass.seen store.now (view_of seat.new) (held_run result.0) }
    ensures live { Each IsLive result.0.entries.items }
    ensures first { result.0.first ≡ held.first }
    ensures many { length result.0.entries.items ≡ length held.entries.items }
    ensures ended { result.1 ≡ Ended → result.0.entries.items ≡ map ended (map begun held.entries.items) }
    ensures size { length buf.new ≡ length buf.old }
    ensures changed { (uses : _) × IsUsesOf result.1 uses × Changed uses (view_of seat.old) (view_of seat.new) (cond (ended_put result.1 == 0) [] (falling held.first.0 (length held.entries.items))) [] }
    ensures called { ArmCalls 0 (length held.entries.items * good_put result.1) (fault_put result.1) (A.seen arm.old) (A.seen arm.new) }
    ensures clock { Ticked (started watch.new - started watch.old) (C.seen clock.old).until (C.seen clock.old) (C.seen clock.new) }
    ensures at { IsTrue (C.seen clock.old).still → StartedAt (C.seen clock.old).last watch.old → StartedAt (C.seen clock.old).last watch.new }
    ensures watch { started watch.old ≤ started watch.new }
    ensures watched { started watch.old ≡ 0 → started watch.new ≡ good_put result.1 + fault_put result.1 }
    ensures put { result.1 ≢ Skipped }
    ensures refused { is_refused result.1 ≡ is_some result.2 }
    ensures fault { IfSome result.2 (λ fault. WasAnswered (view_of seat.new) fault) }
    ensures goes_on { result.2 ≡ None → GaveOpen (view_of seat.new) }
{
    let queued = match queue_held(rt, table, seat, held) {
        Ok(queued) => queued,
        Err((held, fault)) => return (held, Put::Refused, Some(fault)),
    };
    let begun = match confirm_begun(rt, table, seat, queued) {
        Ok(begun) => begun,
        Err((held, fault)) => return (held, Put::Refused, Some(fault)),
    };
    watch.start(clock);
    gate.before(caller.worker, caller.turn, true);
    let answer = write_block(arm, store, begun, buf);
    gate.after(caller.worker, caller.turn, true);
    let written = match answer {
        Ok(written) => written,
        Err(begun) => return (begun.back(), Put::Fault, None),
    };
    match end_written(rt, table, seat, written) {
        Ok(ended) => (ended.back(), Put::Ended, None),
        Err((written, fault)) => {
            let held = written.back();
            let appended = is_first_settled(&held.entries);
            (held, Put::Unended { appended }, Some(fault))
        }
    }
}
