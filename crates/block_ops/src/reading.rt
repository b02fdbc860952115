// A run of blocks is read and judged.
ghost use Rattle.std.specs.Prelude.{◌≡◌, ◌+◌, ◌*◌, ◌<◌, ◌≤◌, ℕ, length, map, slice_get, OnOk, OnErr};
ghost use Rattle.vd_outside.specs.Causes.{HasCause, StaysSure};
ghost use Rattle.vd_arm.specs.Arm.{Reads};
ghost use Rattle.key_state.specs.Entries.{IsEntry};
ghost use Rattle.claim_table.specs.Sums.{Each};
ghost use Rattle.claim_table.specs.Passes.{Fitted};
ghost use Rattle.claim_table.specs.Runs.{ArePassesFor};
ghost use Rattle.claim_table.specs.declared.view.Made.{Made};
ghost use Rattle.block_ops.specs.Runs.{IsLive, held_run};
ghost use Rattle.vd_arm.specs.Transfers.{TellParts};
ghost use Rattle.block_ops.specs.Transfers.{ArePassesOf, AreVerdicts, NoneCorrupt};

use crate::bytes::judge_run;
use block_verdict::Verdict;
use claim_table::Run;
use vd_arm::{Arm, Pass};
use vd_base::StoreId;
use vd_outside::Failed;

/// Reads a run of 1 to 64 blocks by one call of the arm, and sets the verdict of each block's bytes beside its entry, of which none is
/// bad. It leaves the run and the other verdicts as they are. `buf` has the size of all the blocks together; after Ok it has their
/// bytes.
///
/// Failed only where the arm's count of faults rose; then no verdict is set.
pub fn read_block<A: Arm>(
    arm: &mut A,
    store: &StoreId,
    held: &mut Run<A::Pass>,
    buf: &mut [u8],
    verdicts: &mut [Verdict; 64],
) -> Result<(), Failed>
    requires some { 0 < length held.old.entries.items }
    requires range { held.old.first.0 + length held.old.entries.items ≤ store.now.geometry.blocks }
    requires live { Each IsLive held.old.entries.items }
    requires valid { Each IsEntry held.old.entries.items }
    requires passes { ArePassesOf store.now held.old.first.0 (map A.Pass.seen held.old.passes.items) }
    requires size { length buf.old ≡ length held.old.entries.items * store.now.geometry.block_size }
    ensures same { held_run held.new ≡ held_run held.old }
    ensures verdicts { OnOk result (AreVerdicts store.now held.old.first.0 held.old.entries.items buf.new verdicts.new) }
    ensures others { (i : ℕ) → length held.old.entries.items ≤ i → slice_get verdicts.new i ≡ slice_get verdicts.old i }
    ensures unread { OnErr result (verdicts.new ≡ verdicts.old) }
    ensures told { OnOk result (TellParts (map A.Pass.seen held.old.passes.items) buf.new) }
    ensures clean { (made : Made) → made.store ≡ store.now → Fitted made → ArePassesFor A.Pass.seen made held.old.first.0 held.old.entries.items held.old.passes.items → OnOk result (NoneCorrupt (length held.old.entries.items) verdicts.new) }
    ensures cause { HasCause (A.seen arm.old).faults (A.seen arm.new).faults result }
    ensures counts { Reads (length held.old.entries.items) (A.seen arm.old) (A.seen arm.new) result }
    ensures sure { StaysSure (A.seen arm.old).sure (A.seen arm.new).sure (A.seen arm.old).faults (A.seen arm.new).faults }
{
    match arm.read_run(&mut held.passes, buf) {
        Ok(()) => {
            judge_run(store, held.first, &held.entries, buf, verdicts);
            Ok(())
        }
        Err(Failed) => Err(Failed),
    }
}
