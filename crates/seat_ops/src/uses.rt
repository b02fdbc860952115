// One use of the book: it is taken, an operation on the run is made on it, and it is given back.
ghost use Rattle.std.specs.Prelude.{◌≡◌, ◌⊎◌, ◌+◌, ◌<◌, [], ◌∷◌, true, length, map, slice_set, IfOk, IfErr, OnOk, OnErr};
ghost use Rattle.key_state.specs.Books.{HasBookCause, HasFlushCause, Unsynced};
ghost use Rattle.key_state.specs.Entries.{begun, ended, entry_at};
ghost use Rattle.key_state.specs.declared.entry.Entry.TheVariants.{Bad};
ghost use Rattle.claim_table.specs.Sums.{Each};
ghost use Rattle.claim_table.specs.Runs.{ArePassesFor};
ghost use Rattle.claim_table.specs.Seats.{view_of, IsSeatOf};
ghost use Rattle.claim_table.specs.declared.view.Made.{Made};
ghost use Rattle.block_ops.specs.Runs.{IsBegun, IsLive, held_run};
ghost use Rattle.block_ops.specs.Answers.{HasQueueCause, IsEither, fault_in, held_in, run_in, state_in};
ghost use Rattle.seat_ops.specs.Holds.{AreSafeItems, GaveShut, HoldsRun, UsedAs, UsedBook, falling};

use block_ops::{Begun, Ended, Queued, Written, confirm, end_write, mark_bad, queue_begin};
use claim_table::{ClaimSeat, ClaimTable, Run};
use key_state::{Book, BookFault};
use std::sync::Wait;
use vd_arm::Pass;

/// Begins the write of each block of the run that the seat holds. The beginning may not be synced yet.
///
/// Refused exactly where the book refused, with its fault; the run then has the entries that the book has.
pub fn queue_held<P: Pass, B: Book, R: Wait>(
    rt: &R,
    table: &ClaimTable<P, B>,
    seat: &mut ClaimSeat,
    held: Run<P>,
) -> Result<Queued<P>, (Run<P>, BookFault)>
    requires of { IsSeatOf table.now seat.old }
    requires holds { HoldsRun (view_of seat.old) held.first.0 held.entries.items }
    requires some { 0 < length held.entries.items }
    requires live { Each IsLive held.entries.items }
    ensures of { IsSeatOf table.now seat.new }
    ensures holds { HoldsRun (view_of seat.new) held.first.0 (held_in result).entries }
    ensures used { UsedBook (view_of seat.old) (view_of seat.new) [] [] }
    ensures first { (held_in result).first ≡ held.first.0 }
    ensures passes { (held_in result).passes ≡ held.passes.items }
    ensures queued { IfOk result (λ queued. queued.entries ≡ map begun held.entries.items) }
    ensures refused { IfErr result (λ refused. IsEither held.entries.items (map begun held.entries.items) refused.0.entries.items) }
    ensures shut { IfErr result (λ refused. GaveShut (view_of seat.new) refused.1) }
    ensures cause { UsedAs (λ lent given. HasQueueCause held.entries.items lent given (fault_in result) × Unsynced lent given) (view_of seat.old) (view_of seat.new) }
    ensures fits { (made : Made) → ArePassesFor P.seen made held.first.0 held.entries.items held.passes.items → ArePassesFor P.seen made held.first.0 (held_in result).entries (held_in result).passes }
{
    let mut book = table.take_book(rt, seat);
    let answer = queue_begin(held, &mut book);
    table.give_book(seat, book);
    answer
}

/// Makes the beginning outlive a stop. After Ok the pending entry of each block is synced.
///
/// Refused exactly where the book's flush was, with its fault. The run is as it was in either case.
pub fn confirm_begun<P: Pass, B: Book, R: Wait>(
    rt: &R,
    table: &ClaimTable<P, B>,
    seat: &mut ClaimSeat,
    queued: Queued<P>,
) -> Result<Begun<P>, (Run<P>, BookFault)>
    requires of { IsSeatOf table.now seat.old }
    requires holds { HoldsRun (view_of seat.old) queued.first queued.entries }
    ensures of { IsSeatOf table.now seat.new }
    ensures holds { HoldsRun (view_of seat.new) queued.first queued.entries }
    ensures used { UsedBook (view_of seat.old) (view_of seat.new) [] [] }
    ensures same { held_in result ≡ queued }
    ensures safe { OnOk result (AreSafeItems (view_of seat.new)) }
    ensures shut { IfErr result (λ refused. GaveShut (view_of seat.new) refused.1) }
    ensures cause { UsedAs (λ lent given. HasFlushCause lent given (fault_in result)) (view_of seat.old) (view_of seat.new) }
{
    let mut book = table.take_book(rt, seat);
    let answer = confirm(queued, &mut book);
    table.give_book(seat, book);
    answer
}

/// Ends the write of each block of the run, which the device has written.
///
/// Refused exactly where the book refused, with its fault; the run then has the entries that the book has, and the writes count as ended
/// where the record was appended all the same.
pub fn end_written<P: Pass, B: Book, R: Wait>(
    rt: &R,
    table: &ClaimTable<P, B>,
    seat: &mut ClaimSeat,
    written: Written<P>,
) -> Result<Ended<P>, (Written<P>, BookFault)>
    requires of { IsSeatOf table.now seat.old }
    requires holds { HoldsRun (view_of seat.old) written.first written.entries }
    requires begun { Each IsBegun written.entries }
    ensures of { IsSeatOf table.now seat.new }
    ensures holds { HoldsRun (view_of seat.new) written.first (state_in result).entries }
    ensures ended { IfOk result (λ ended_run. (ended_run.entries ≡ map ended written.entries) × UsedBook (view_of seat.old) (view_of seat.new) (falling written.first (length written.entries)) []) }
    ensures refused { IfErr result (λ refused. ((refused.0.entries ≡ written.entries) × UsedBook (view_of seat.old) (view_of seat.new) [] []) ⊎ ((refused.0.entries ≡ map ended written.entries) × UsedBook (view_of seat.old) (view_of seat.new) (falling written.first (length written.entries)) [])) }
    ensures first { (state_in result).first ≡ written.first }
    ensures passes { (state_in result).passes ≡ written.passes }
    ensures shut { IfErr result (λ refused. GaveShut (view_of seat.new) refused.1) }
    ensures cause { UsedAs (λ lent given. HasBookCause lent given (fault_in result) × Unsynced lent given) (view_of seat.old) (view_of seat.new) }
    ensures fits { (made : Made) → ArePassesFor P.seen made written.first (map ended written.entries) written.passes → ArePassesFor P.seen made written.first (state_in result).entries (state_in result).passes }
{
    let mut book = table.take_book(rt, seat);
    let answer = end_write(written, &mut book);
    table.give_book(seat, book);
    answer
}

/// Makes the block at one place of the run bad.
///
/// Refused exactly where the book refused, with its fault; the run then has the entries that the book has, and the block counts as made
/// bad where the record was appended all the same.
pub fn make_bad<P: Pass, B: Book, R: Wait>(
    rt: &R,
    table: &ClaimTable<P, B>,
    seat: &mut ClaimSeat,
    held: Run<P>,
    at: u32,
) -> Result<Run<P>, (Run<P>, BookFault)>
    requires of { IsSeatOf table.now seat.old }
    requires holds { HoldsRun (view_of seat.old) held.first.0 held.entries.items }
    requires at { at < length held.entries.items }
    requires live { IsLive (entry_at held.entries.items at) }
    ensures of { IsSeatOf table.now seat.new }
    ensures holds { HoldsRun (view_of seat.new) held.first.0 (run_in result).entries }
    ensures marked { IfOk result (λ run. (run.entries.items ≡ slice_set held.entries.items at Bad) × UsedBook (view_of seat.old) (view_of seat.new) [] ((held.first.0 + at) ∷ [])) }
    ensures refused { IfErr result (λ refused. ((refused.0.entries.items ≡ held.entries.items) × UsedBook (view_of seat.old) (view_of seat.new) [] []) ⊎ ((refused.0.entries.items ≡ slice_set held.entries.items at Bad) × UsedBook (view_of seat.old) (view_of seat.new) [] ((held.first.0 + at) ∷ []))) }
    ensures first { (run_in result).first ≡ held.first.0 }
    ensures passes { (run_in result).passes ≡ held.passes.items }
    ensures shut { IfErr result (λ refused. GaveShut (view_of seat.new) refused.1) }
    ensures cause { UsedAs (λ lent given. HasBookCause lent given (fault_in result) × Unsynced lent given) (view_of seat.old) (view_of seat.new) }
    ensures fits { (made : Made) → ArePassesFor P.seen made held.first.0 held.entries.items held.passes.items → ArePassesFor P.seen made held.first.0 (run_in result).entries (run_in result).passes }
{
    let mut book = table.take_book(rt, seat);
    let answer = mark_bad(held, at, &mut book);
    table.give_book(seat, book);
    answer
}
