// Runs of blocks are claimed and released.
ghost use Rattle.std.specs.Prelude.{◌≡◌, ◌+◌, ◌≤◌, []};
ghost use Rattle.claim_table.specs.Views.{blocks_of, released};
ghost use Rattle.claim_table.specs.Seats.{view_of, IsSeatOf};
ghost use Rattle.claim_table.specs.Runs.{AreNewest, ArePassesFor, RunAnswers};

use crate::claim::Claim;
use crate::run::{Run, RunClaim};
use crate::table::{ClaimSeat, ClaimTable};
use key_state::Book;
use vd_arm::Pass;
use vd_base::BlockNo;

impl<P: Pass, B: Book> ClaimTable<P, B> {
    /// Claims so many blocks, 1 to 64, from the first on, all or none, for a seat that holds none. At the first block that is busy or
    /// bad it releases those that it had, and answers that block. The room is an empty run. To a seat that has the book, each block is
    /// as that book has it.
    ///
    /// It is made of `claim` and `release`: in the core's words it is a Claim of each block that it had, a Claim of the busy block that
    /// it answers, nothing for a bad one, and a Release of each block that it gives up. Their loads and exchanges are no events.
    pub fn claim_run(
        &self,
        seat: &mut ClaimSeat,
        first: BlockNo,
        many: u32,
        room: Run<P>,
    ) -> RunClaim<P>
        requires of { IsSeatOf self.now seat.old }
        requires many { (1 ≤ many) × (many ≤ 64) }
        requires blocks { first.0 + many ≤ blocks_of (view_of seat.old).made }
        requires none { (view_of seat.old).held ≡ [] }
        requires room { room.entries.items ≡ [] }
        ensures of { IsSeatOf self.now seat.new }
        ensures answer { RunAnswers P.seen (view_of seat.old) first.0 many result (view_of seat.new) }
    {
        let mut run = room.at(first);
        for k in 0..many {
            let block = BlockNo(first.0 + k);
            match self.claim(seat, block) {
                Claim::Claimed(held) => run = run.with(held),
                Claim::Busy { word } => {
                    let room = self.release_run(seat, run);
                    return RunClaim::Busy { room, block, word };
                }
                Claim::BadBlock => {
                    let room = self.release_run(seat, run);
                    return RunClaim::BadBlock { room, block };
                }
            }
        }
        RunClaim::Claimed(run)
    }

    /// Releases the blocks of a run, which are the newest that the seat holds, from the last to the first, and gives the empty run back.
    /// Each has its pass and the entry that the book has for it, as `release` asks.
    ///
    /// It is made of `release`: in the core's words it is a Release of each block, and before it a Fault where the block's write was begun
    /// and not ended. The loads and exchanges are no events.
    pub fn release_run(&self, seat: &mut ClaimSeat, run: Run<P>) -> Run<P>
        requires of { IsSeatOf self.now seat.old }
        requires newest { (others : _) × AreNewest run.first.0 run.entries.items (view_of seat.old).held others }
        requires fits { ArePassesFor P.seen (view_of seat.old).made run.first.0 run.entries.items run.passes.items }
        ensures of { IsSeatOf self.now seat.new }
        ensures gone { (others : _) → AreNewest run.first.0 run.entries.items (view_of seat.old).held others → view_of seat.new ≡ released (view_of seat.old) others }
        ensures empty { result.entries.items ≡ [] }
    {
        let many = run.entries.len();
        let mut left = run;
        for _ in 0..many {
            let (rest, held) = left.split_last();
            left = rest;
            self.release(seat, held);
        }
        left
    }
}
