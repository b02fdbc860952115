// What was found is reported, and the corrupt blocks are made bad.
ghost use Rattle.std.specs.Prelude.{◌≡◌, ◌+◌, ◌<◌, ◌≤◌, ◌++◌, [], length, take, IfSome, IsSome, None};
ghost use Rattle.vd_base.specs.declared.geometry.StoreId.{StoreId as AStoreId};
ghost use Rattle.claim_table.specs.Sums.{Each};
ghost use Rattle.claim_table.specs.Seats.{view_of, IsSeatOf};
ghost use Rattle.block_ops.specs.Runs.{IsLive, held_run};
ghost use Rattle.slave_worker.specs.Dids.{AreSpoilt};
ghost use Rattle.slave_worker.specs.Looks.{corrupt_run, finding_by};
ghost use Rattle.slave_worker.specs.Standings.{Changed, GaveOpen, HoldsPasses, WasAnswered};

use block_verdict::{Finding, Verdict};
use claim_table::{ClaimSeat, ClaimTable, Run};
use key_state::{Book, BookFault, Entry};
use seat_ops::make_bad;
use std::sync::Wait;
use vd_arm::Pass;
use vd_base::BlockNo;
use worker_tally::Tally;

/// The finding of a block by its verdict.
fn finding_of(block: BlockNo, entry: Entry, verdict: Verdict) -> Option<Finding>
    ensures { result ≡ finding_by block entry verdict }
{
    match verdict {
        Verdict::Corrupt { sector, part } => Some(Finding::Corrupt {
            block,
            entry,
            sector,
            part,
        }),
        _ => None,
    }
}

/// Reports each corrupt block of a run and makes it bad, in rising order, until the book refuses: the block whose record it refuses is
/// reported, and those behind it aren't. It answers the run, how many were reported, and the book's fault.
pub(crate) fn report_corrupt<P: Pass, B: Book, R: Wait>(
    rt: &R,
    table: &ClaimTable<P, B>,
    seat: &mut ClaimSeat,
    held: Run<P>,
    verdicts: &[Verdict; 64],
    tally: &mut Tally,
) -> (Run<P>, u32, Option<BookFault>)
    requires of { IsSeatOf table.now seat.old }
    requires has { (store : AStoreId) × HoldsPasses P.seen store (view_of seat.old) (held_run held) }
    requires live { Each IsLive held.entries.items }
    requires room { length tally.old.findings + length (corrupt_run held.first.0 held.entries.items verdicts.now) ≤ tally.old.finding_room }
    ensures of { IsSeatOf table.now seat.new }
    ensures has { (store : AStoreId) → HoldsPasses P.seen store (view_of seat.old) (held_run held) → HoldsPasses P.seen store (view_of seat.new) (held_run result.0) }
    ensures first { result.0.first ≡ held.first }
    ensures many { result.1 ≤ length (corrupt_run held.first.0 held.entries.items verdicts.now) }
    ensures tally { tally.new ≡ record tally.old { findings = tally.old.findings ++ take result.1 (corrupt_run held.first.0 held.entries.items verdicts.now) } }
    ensures changed { (bad : _) × (spoilt : _) × AreSpoilt (take result.1 (corrupt_run held.first.0 held.entries.items verdicts.now)) bad spoilt × Changed result.1 (view_of seat.old) (view_of seat.new) [] spoilt × (result.1 ≤ bad + 1) × (result.2 ≡ None → (bad ≡ result.1) × (result.1 ≡ length (corrupt_run held.first.0 held.entries.items verdicts.now))) }
    ensures none { corrupt_run held.first.0 held.entries.items verdicts.now ≡ [] → (view_of seat.new ≡ view_of seat.old) × (result.2 ≡ None) }
    ensures fault { IfSome result.2 (λ fault. WasAnswered (view_of seat.new) fault) }
    ensures some { IsSome result.2 → 0 < result.1 }
    ensures goes_on { result.2 ≡ None → 0 < result.1 → GaveOpen (view_of seat.new) }
{
    let blocks = held.entries.len() as u32;
    let mut run = held;
    let mut many = 0;
    for at in 0..blocks {
        let block = BlockNo(run.first.0 + at);
        let entry = run.entries[at as usize];
        let Some(finding) = finding_of(block, entry, verdicts[at as usize]) else {
            continue;
        };
        tally.push(finding);
        many += 1;
        run = match make_bad(rt, table, seat, run, at) {
            Ok(marked) => marked,
            Err((left, fault)) => return (left, many, Some(fault)),
        };
    }
    (run, many, None)
}
