// The states of the write of a run of blocks, and the steps from one to the next. Each state owns the run, and no other module makes one.
ghost use Rattle.std.specs.Prelude.{◌≡◌, ◌+◌, ◌*◌, ◌<◌, ◌≤◌, true, length, map, slice_set, IfOk, IfErr, MatchResult, OnOk, OnErr};
ghost use Rattle.vd_outside.specs.Causes.{HasCause, StaysSure};
ghost use Rattle.key_state.specs.Entries.{begun, ended, entry_at};
ghost use Rattle.key_state.specs.Books.{HasBookCause, HasFlushCause, Kept, Unsynced};
ghost use Rattle.key_state.specs.declared.entry.Entry.TheVariants.{Bad};
ghost use Rattle.claim_table.specs.Sums.{Each};
ghost use Rattle.claim_table.specs.Runs.{ArePassesFor};
ghost use Rattle.claim_table.specs.declared.view.Made.{Made};
ghost use Rattle.block_ops.specs.Runs.{AreSafe, HasRun, IsLive, IsBegun, held_run};
ghost use Rattle.block_ops.specs.Acts.{Acted};
ghost use Rattle.vd_arm.specs.Transfers.{SameBlocks, Writes};
ghost use Rattle.block_ops.specs.Transfers.{ArePassesOf, MayHaveStamps, WroteStamps};
ghost use Rattle.block_ops.specs.Answers.{HasBeginCause, HasQueueCause, IsEither, fault_in, held_in, left_in, run_in, state_in};

use crate::bytes::stamp_run;
use crate::records::{append_begin, append_end, as_in, has_settled};
use claim_table::Run;
use key_state::{Book, BookFault};
use std::marker::Model;
use vd_arm::{Arm, Pass};
use vd_base::{BlockNo, StoreId};
use vd_outside::Failed;

/// The write of each block was begun in the book, and a stop may take that back. Contracts see the run.
#[derive(Drop)]
pub struct Queued<P> {
    run: Run<P>,
}

/// The write of each block was begun in the book, and no stop can take that back. Contracts see the run.
#[derive(Drop)]
pub struct Begun<P> {
    run: Run<P>,
}

/// The device has answered that it wrote each block. Contracts see the run, with the entries that the book has.
#[derive(Drop)]
pub struct Written<P> {
    run: Run<P>,
}

/// The write of each block was ended in the book. Contracts see the run.
#[derive(Drop)]
pub struct Ended<P> {
    run: Run<P>,
}

impl<P> Model for Queued<P> {
    ghost use Rattle.std.specs.Prelude.{ℕ, ◌<◌, length};
    ghost use Rattle.claim_table.specs.Sums.{Each};
    ghost use Rattle.block_ops.specs.Runs.{HeldRun, IsBegun, held_run};

    ghost Value = { HeldRun P };

    ghost view = { λ queued. held_run queued.run };

    ghost invariant = { λ queued. (0 < length queued.run.entries.items) × Each IsBegun queued.run.entries.items };
}

impl<P> Model for Begun<P> {
    ghost use Rattle.std.specs.Prelude.{ℕ, ◌<◌, length};
    ghost use Rattle.claim_table.specs.Sums.{Each};
    ghost use Rattle.block_ops.specs.Runs.{HeldRun, IsBegun, held_run};

    ghost Value = { HeldRun P };

    ghost view = { λ begun. held_run begun.run };

    ghost invariant = { λ begun. (0 < length begun.run.entries.items) × Each IsBegun begun.run.entries.items };
}

impl<P> Model for Written<P> {
    ghost use Rattle.std.specs.Prelude.{ℕ, ◌<◌, length};
    ghost use Rattle.block_ops.specs.Runs.{HeldRun, held_run};

    ghost Value = { HeldRun P };

    ghost view = { λ written. held_run written.run };

    ghost invariant = { λ written. 0 < length written.run.entries.items };
}

impl<P> Model for Ended<P> {
    ghost use Rattle.block_ops.specs.Runs.{HeldRun, held_run};

    ghost Value = { HeldRun P };

    ghost view = { λ ended. held_run ended.run };
}

/// Begins the write of each block of a run in the book, by one record where some block is settled, and by none where the write of each
/// was begun before. The record may not be synced yet: without a turnover nothing more is synced than was.
///
/// Refused exactly where the book refused, with the book's fault. The run then has the entries that the book has: those that went in,
/// or, where the record was appended all the same, those whose write was begun.
pub fn queue_begin<P: Pass, B: Book>(
    held: Run<P>,
    book: &mut B,
) -> Result<Queued<P>, (Run<P>, BookFault)>
    requires some { 0 < length held.entries.items }
    requires live { Each IsLive held.entries.items }
    requires entries { HasRun (B.seen book.old) held.first.0 held.entries.items }
    ensures acted { Acted held.first.0 held.entries.items (held_in result).entries (B.seen book.old) (B.seen book.new) }
    ensures first { (held_in result).first ≡ held.first.0 }
    ensures passes { (held_in result).passes ≡ held.passes.items }
    ensures queued { IfOk result (λ queued. queued.entries ≡ map begun held.entries.items) }
    ensures refused { IfErr result (λ refused. IsEither held.entries.items (map begun held.entries.items) refused.0.entries.items) }
    ensures shut { OnErr result ((B.seen book.new).shut ≡ true) }
    ensures unsynced { Unsynced (B.seen book.old) (B.seen book.new) }
    ensures cause { HasQueueCause held.entries.items (B.seen book.old) (B.seen book.new) (fault_in result) }
    ensures fits { (made : Made) → ArePassesFor P.seen made held.first.0 held.entries.items held.passes.items → ArePassesFor P.seen made held.first.0 (held_in result).entries (held_in result).passes }
{
    if !has_settled(&held.entries) {
        return Ok(Queued { run: held });
    }
    let appended = append_begin(held.first, &held.entries, book);
    let run = as_in(held, book);
    match appended {
        Ok(()) => Ok(Queued { run }),
        Err(fault) => Err((run, fault)),
    }
}

/// Makes the beginning of the write outlive a stop, by a flush of the book. After Ok each block is pending in what is synced, which is
/// what the book has.
///
/// Refused exactly where the flush was, with its fault. The run is as it was in either case.
pub fn confirm<P: Pass, B: Book>(
    queued: Queued<P>,
    book: &mut B,
) -> Result<Begun<P>, (Run<P>, BookFault)>
    requires { HasRun (B.seen book.old) queued.first queued.entries }
    ensures acted { Acted queued.first queued.entries queued.entries (B.seen book.old) (B.seen book.new) }
    ensures kept { Kept (B.seen book.old) (B.seen book.new) }
    ensures same { held_in result ≡ queued }
    ensures synced { OnOk result ((B.seen book.new).synced ≡ (B.seen book.new).now) }
    ensures safe { OnOk result (AreSafe (B.seen book.new) queued.first queued.entries) }
    ensures shut { OnErr result ((B.seen book.new).shut ≡ true) }
    ensures cause { HasFlushCause (B.seen book.old) (B.seen book.new) (fault_in result) }
{
    let Queued { run } = queued;
    match book.flush() {
        Ok(()) => Ok(Begun { run }),
        Err(fault) => Err((run, fault)),
    }
}

/// `queue_begin`, and then `confirm`.
pub fn begin_write<P: Pass, B: Book>(
    held: Run<P>,
    book: &mut B,
) -> Result<Begun<P>, (Run<P>, BookFault)>
    requires some { 0 < length held.entries.items }
    requires live { Each IsLive held.entries.items }
    requires entries { HasRun (B.seen book.old) held.first.0 held.entries.items }
    ensures acted { Acted held.first.0 held.entries.items (held_in result).entries (B.seen book.old) (B.seen book.new) }
    ensures first { (held_in result).first ≡ held.first.0 }
    ensures passes { (held_in result).passes ≡ held.passes.items }
    ensures begun { IfOk result (λ begun_run. begun_run.entries ≡ map begun held.entries.items) }
    ensures refused { IfErr result (λ refused. IsEither held.entries.items (map begun held.entries.items) refused.0.entries.items) }
    ensures synced { OnOk result ((B.seen book.new).synced ≡ (B.seen book.new).now) }
    ensures safe { OnOk result (AreSafe (B.seen book.new) held.first.0 (map begun held.entries.items)) }
    ensures shut { OnErr result ((B.seen book.new).shut ≡ true) }
    ensures cause { HasBeginCause held.entries.items (B.seen book.old) (B.seen book.new) (fault_in result) }
    ensures fits { (made : Made) → ArePassesFor P.seen made held.first.0 held.entries.items held.passes.items → ArePassesFor P.seen made held.first.0 (held_in result).entries (held_in result).passes }
{
    match queue_begin(held, book) {
        Ok(queued) => confirm(queued, book),
        Err(refused) => Err(refused),
    }
}

/// Stamps each block with its own pending key, and writes the run by one call of the arm. `buf`, of the size of all the blocks together,
/// is where the bytes are made.
///
/// The Err gives back what went in, and comes only where the arm's count of faults rose; each entry stays pending. Then each sector of a
/// block is the one from before or the stamped one.
pub fn write_block<A: Arm>(
    arm: &mut A,
    store: &StoreId,
    begun: Begun<A::Pass>,
    buf: &mut [u8],
) -> Result<Written<A::Pass>, Begun<A::Pass>>
    requires range { begun.first + length begun.entries ≤ store.now.geometry.blocks }
    requires passes { ArePassesOf store.now begun.first (map A.Pass.seen begun.passes) }
    requires size { length buf.old ≡ length begun.entries * store.now.geometry.block_size }
    ensures first { (left_in result).first ≡ begun.first }
    ensures entries { (left_in result).entries ≡ begun.entries }
    ensures blocks { SameBlocks (map A.Pass.seen begun.passes) (map A.Pass.seen (left_in result).passes) }
    ensures written { OnOk result (WroteStamps store.now begun.first begun.entries (map A.Pass.seen begun.passes) (map A.Pass.seen (left_in result).passes)) }
    ensures torn { OnErr result (MayHaveStamps store.now begun.first begun.entries (map A.Pass.seen begun.passes) (map A.Pass.seen (left_in result).passes)) }
    ensures fits { (made : Made) → made.store ≡ store.now → ArePassesFor A.Pass.seen made begun.first begun.entries begun.passes → MatchResult result (λ written. ArePassesFor A.Pass.seen made begun.first (map ended begun.entries) written.passes) (λ left. ArePassesFor A.Pass.seen made begun.first begun.entries left.passes) }
    ensures cause { HasCause (A.seen arm.old).faults (A.seen arm.new).faults result }
    ensures counts { Writes (length begun.entries) (A.seen arm.old) (A.seen arm.new) result }
    ensures sure { StaysSure (A.seen arm.old).sure (A.seen arm.new).sure (A.seen arm.old).faults (A.seen arm.new).faults }
{
    let Begun { run } = begun;
    let Run {
        first,
        entries,
        mut passes,
    } = run;
    stamp_run(store, first, &entries, buf);
    let wrote = arm.write_run(&mut passes, buf);
    let run = Run {
        first,
        entries,
        passes,
    };
    match wrote {
        Ok(()) => Ok(Written { run }),
        Err(Failed) => Err(Begun { run }),
    }
}

/// Ends the write of each block in the book, by one record. The book has each block pending, as it was written.
///
/// Refused exactly where the book refused, with the book's fault. The run then has the entries that the book has: the pending ones, or,
/// where the record was appended all the same, those settled at their new keys.
pub fn end_write<P: Pass, B: Book>(
    written: Written<P>,
    book: &mut B,
) -> Result<Ended<P>, (Written<P>, BookFault)>
    requires begun { Each IsBegun written.entries }
    requires entries { HasRun (B.seen book.old) written.first written.entries }
    ensures acted { Acted written.first written.entries (state_in result).entries (B.seen book.old) (B.seen book.new) }
    ensures first { (state_in result).first ≡ written.first }
    ensures passes { (state_in result).passes ≡ written.passes }
    ensures ended { IfOk result (λ ended_run. ended_run.entries ≡ map ended written.entries) }
    ensures refused { IfErr result (λ refused. IsEither written.entries (map ended written.entries) refused.0.entries) }
    ensures shut { OnErr result ((B.seen book.new).shut ≡ true) }
    ensures unsynced { Unsynced (B.seen book.old) (B.seen book.new) }
    ensures cause { HasBookCause (B.seen book.old) (B.seen book.new) (fault_in result) }
    ensures fits { (made : Made) → ArePassesFor P.seen made written.first (map ended written.entries) written.passes → ArePassesFor P.seen made written.first (state_in result).entries (state_in result).passes }
{
    let Written { run } = written;
    let appended = append_end(run.first, &run.entries, book);
    let run = as_in(run, book);
    match appended {
        Ok(()) => Ok(Ended { run }),
        Err(fault) => Err((Written { run }, fault)),
    }
}

/// Makes the block at one place of a run bad in the book.
///
/// Refused exactly where the book refused, with the book's fault. The run then has the entries that the book has: those that went in,
/// or, where the record was appended all the same, with the block bad.
pub fn mark_bad<P: Pass, B: Book>(
    held: Run<P>,
    at: u32,
    book: &mut B,
) -> Result<Run<P>, (Run<P>, BookFault)>
    requires at { at < length held.entries.items }
    requires live { IsLive (entry_at held.entries.items at) }
    requires entries { HasRun (B.seen book.old) held.first.0 held.entries.items }
    ensures acted { Acted held.first.0 held.entries.items (run_in result).entries (B.seen book.old) (B.seen book.new) }
    ensures first { (run_in result).first ≡ held.first.0 }
    ensures passes { (run_in result).passes ≡ held.passes.items }
    ensures marked { IfOk result (λ run. run.entries.items ≡ slice_set held.entries.items at Bad) }
    ensures refused { IfErr result (λ refused. IsEither held.entries.items (slice_set held.entries.items at Bad) refused.0.entries.items) }
    ensures shut { OnErr result ((B.seen book.new).shut ≡ true) }
    ensures unsynced { Unsynced (B.seen book.old) (B.seen book.new) }
    ensures cause { HasBookCause (B.seen book.old) (B.seen book.new) (fault_in result) }
    ensures fits { (made : Made) → ArePassesFor P.seen made held.first.0 held.entries.items held.passes.items → ArePassesFor P.seen made held.first.0 (run_in result).entries (run_in result).passes }
{
    let appended = book.bad(BlockNo(held.first.0 + at));
    let run = as_in(held, book);
    match appended {
        Ok(()) => Ok(run),
        Err(fault) => Err((run, fault)),
    }
}

impl<P> Queued<P> {
    /// The run, whose write is given up; its blocks stay pending.
    pub fn back(self) -> Run<P>
        ensures { held_run result ≡ self }
    {
        self.run
    }
}

impl<P> Begun<P> {
    /// The run, whose write is given up; its blocks stay pending.
    pub fn back(self) -> Run<P>
        ensures { held_run result ≡ self }
    {
        self.run
    }
}

impl<P> Written<P> {
    /// The run, with the entries that the book has.
    pub fn back(self) -> Run<P>
        ensures { held_run result ≡ self }
    {
        self.run
    }
}

impl<P> Ended<P> {
    /// The run, whose blocks are settled.
    pub fn back(self) -> Run<P>
        ensures { held_run result ≡ self }
    {
        self.run
    }
}
