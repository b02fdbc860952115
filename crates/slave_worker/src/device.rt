// A run of blocks is read, checked and written by the worker's arm, with a look at the clock before the first call and the gate's two
// calls round each.
ghost use Rattle.std.specs.Prelude.{◌≡◌, ℕ, ◌+◌, ◌-◌, ◌*◌, ◌<◌, ◌≤◌, false, true, cond, length, map, IsTrue};
ghost use Rattle.claim_table.specs.Sums.{Each};
ghost use Rattle.claim_table.specs.Passes.{Fitted};
ghost use Rattle.claim_table.specs.declared.view.View.{View as AView};
ghost use Rattle.block_ops.specs.Runs.{IsLive, held_run};
ghost use Rattle.worker_tally.specs.declared.done.Put.TheVariants.{Ended};
ghost use Rattle.worker_tally.specs.Dones.{corrupt_in, ended_put, fault, good, unended_put};
ghost use Rattle.slave_worker.specs.Dids.{AreCorrupt, some_used};
ghost use Rattle.slave_worker.specs.Looks.{StartedAt, corrupt_run, found_by, started};
ghost use Rattle.slave_worker.specs.Standings.{ArmCalls, HoldsPasses, Ticked};

use crate::did::Rules;
use crate::watch::Watch;
use block_ops::read_block;
use block_verdict::Verdict;
use claim_table::Run;
use key_state::Entry;
use vd_arm::Arm;
use vd_base::StoreId;
use vd_outside::{Clock, Turnstile};
use worker_tally::{Look, Put};

/// Which turn of which worker calls its device.
#[derive(Clone, Copy, Debug, Drop)]
pub(crate) struct Caller {
    pub(crate) worker: u32,
    pub(crate) turn: u64,
}

/// Whether some block has an entry other than settled at 0.
pub(crate) fn is_some_used(entries: &[Entry]) -> bool
    ensures { result ≡ some_used entries.now }
{
    entries.iter().any(|entry| match entry {
        Entry::Settled(key) => key.get() != 0,
        _ => true,
    })
}

/// How many of the first blocks are corrupt.
pub(crate) fn count_corrupt(entries: &[Entry], verdicts: &[Verdict]) -> u32
    requires { length entries.now ≤ 64 }
    ensures { (first : ℕ) → result ≡ length (corrupt_run first entries.now verdicts.now) }
{
    let Some((_, blocks)) = entries.split_first() else {
        return 0;
    };
    let Some((verdict, others)) = verdicts.split_first() else {
        return 0;
    };
    let many = count_corrupt(blocks, others);
    match verdict {
        Verdict::Corrupt { .. } => many + 1,
        _ => many,
    }
}

/// Reads the run and judges each block.
pub(crate) fn look<A: Arm, C: Clock, T: Turnstile>(
    caller: Caller,
    store: &StoreId,
    arm: &mut A,
    clock: &mut C,
    gate: &T,
    watch: &mut Watch,
    held: &mut Run<A::Pass>,
    buf: &mut [u8],
    verdicts: &mut [Verdict; 64],
) -> Look
    requires has { (view : AView) × HoldsPasses A.Pass.seen store.now view (held_run held.old) }
    requires live { Each IsLive held.old.entries.items }
    requires size { length buf.old ≡ length held.old.entries.items * store.now.geometry.block_size }
    ensures same { held_run held.new ≡ held_run held.old }
    ensures size { length buf.new ≡ length buf.old }
    ensures once { good result + fault result ≡ 1 }
    ensures called { ArmCalls (length held.old.entries.items * good result) 0 (fault result) (A.seen arm.old) (A.seen arm.new) }
    ensures watch { started watch.new ≡ 1 }
    ensures clock { Ticked (1 - started watch.old) (C.seen clock.old).until (C.seen clock.old) (C.seen clock.new) }
    ensures at { IsTrue (C.seen clock.old).still → StartedAt (C.seen clock.old).last watch.old → StartedAt (C.seen clock.old).last watch.new }
    ensures corrupt { corrupt_in result ≡ length (found_by result held.old.first.0 held.old.entries.items verdicts.new) }
    ensures found { AreCorrupt store.now held.old.first.0 held.old.entries.items (found_by result held.old.first.0 held.old.entries.items verdicts.new) }
    ensures kept { good result ≡ 0 → verdicts.new ≡ verdicts.old }
    ensures clean { (view : AView) → HoldsPasses A.Pass.seen store.now view (held_run held.old) → Fitted view.made → corrupt_in result ≡ 0 }
{
    watch.start(clock);
    gate.before(caller.worker, caller.turn, false);
    let answer = read_block(arm, store, held, buf, verdicts);
    gate.after(caller.worker, caller.turn, false);
    match answer {
        Ok(()) => Look::Read {
            corrupt: count_corrupt(&held.entries, verdicts),
        },
        Err(_) => Look::Fault,
    }
}

/// What a turn reads at first: a read turn its blocks, and a write turn what was written before, where the plan says so.
pub(crate) fn first_look<A: Arm, C: Clock, T: Turnstile>(
    caller: Caller,
    read: bool,
    preread: bool,
    store: &StoreId,
    arm: &mut A,
    clock: &mut C,
    gate: &T,
    watch: &mut Watch,
    held: &mut Run<A::Pass>,
    buf: &mut [u8],
    verdicts: &mut [Verdict; 64],
) -> Look
    requires has { (view : AView) × HoldsPasses A.Pass.seen store.now view (held_run held.old) }
    requires live { Each IsLive held.old.entries.items }
    requires size { length buf.old ≡ length held.old.entries.items * store.now.geometry.block_size }
    ensures same { held_run held.new ≡ held_run held.old }
    ensures size { length buf.new ≡ length buf.old }
    ensures read { read ≡ true → good result + fault result ≡ 1 }
    ensures preread { read ≡ false → good result + fault result ≡ cond preread (cond (some_used held.old.entries.items) 1 0) 0 }
    ensures called { ArmCalls (length held.old.entries.items * good result) 0 (fault result) (A.seen arm.old) (A.seen arm.new) }
    ensures watch { started watch.old ≡ 0 → started watch.new ≡ good result + fault result }
    ensures clock { started watch.old ≡ 0 → Ticked (started watch.new) (C.seen clock.old).until (C.seen clock.old) (C.seen clock.new) }
    ensures at { IsTrue (C.seen clock.old).still → StartedAt (C.seen clock.old).last watch.old → StartedAt (C.seen clock.old).last watch.new }
    ensures corrupt { corrupt_in result ≡ length (found_by result held.old.first.0 held.old.entries.items verdicts.new) }
    ensures found { AreCorrupt store.now held.old.first.0 held.old.entries.items (found_by result held.old.first.0 held.old.entries.items verdicts.new) }
    ensures kept { good result ≡ 0 → verdicts.new ≡ verdicts.old }
    ensures clean { (view : AView) → HoldsPasses A.Pass.seen store.now view (held_run held.old) → Fitted view.made → corrupt_in result ≡ 0 }
{
    if !read && !(preread && is_some_used(&held.entries)) {
        return Look::Skipped;
    }
    look(caller, store, arm, clock, gate, watch, held, buf, verdicts)
}

/// What a turn reads again: what it wrote, where the plan says so and the end was recorded as it should be.
pub(crate) fn second_look<A: Arm, C: Clock, T: Turnstile>(
    caller: Caller,
    reread: bool,
    how: Put,
    store: &StoreId,
    arm: &mut A,
    clock: &mut C,
    gate: &T,
    watch: &mut Watch,
    held: &mut Run<A::Pass>,
    buf: &mut [u8],
    verdicts: &mut [Verdict; 64],
) -> Look
    requires has { (view : AView) × HoldsPasses A.Pass.seen store.now view (held_run held.old) }
    requires live { Each IsLive held.old.entries.items }
    requires size { length buf.old ≡ length held.old.entries.items * store.now.geometry.block_size }
    requires watch { how ≡ Ended → started watch.old ≡ 1 }
    ensures same { held_run held.new ≡ held_run held.old }
    ensures reread { good result + fault result + cond reread (unended_put how) 0 ≡ cond reread (ended_put how) 0 }
    ensures called { ArmCalls (length held.old.entries.items * good result) 0 (fault result) (A.seen arm.old) (A.seen arm.new) }
    ensures watch { started watch.new ≡ started watch.old }
    ensures clock { Ticked 0 (C.seen clock.old).until (C.seen clock.old) (C.seen clock.new) }
    ensures at { IsTrue (C.seen clock.old).still → StartedAt (C.seen clock.old).last watch.old → StartedAt (C.seen clock.old).last watch.new }
    ensures corrupt { corrupt_in result ≡ length (found_by result held.old.first.0 held.old.entries.items verdicts.new) }
    ensures found { AreCorrupt store.now held.old.first.0 held.old.entries.items (found_by result held.old.first.0 held.old.entries.items verdicts.new) }
    ensures kept { good result ≡ 0 → verdicts.new ≡ verdicts.old }
    ensures clean { (view : AView) → HoldsPasses A.Pass.seen store.now view (held_run held.old) → Fitted view.made → corrupt_in result ≡ 0 }
{
    if !reread || how != Put::Ended {
        return Look::Skipped;
    }
    look(caller, store, arm, clock, gate, watch, held, buf, verdicts)
}
