// One turn of a worker.
ghost use Rattle.std.specs.Prelude.{◌≡◌, ◌<◌, ◌≤◌, ◌+◌, ◌*◌, ◌/◌, ◌^◌, Contains};
ghost use Rattle.workload_gen.specs.Task.{IsTransfer, weight_of};
ghost use Rattle.workload_gen.specs.Turns.{chosen, due_at, next_block, position_behind, random_block};

use crate::task::{StoreShare, Task};
use vd_base::BlockNo;

/// What a worker does next: it reads or writes a transfer of whole blocks.
#[derive(Clone, Copy, Debug, PartialEq, Eq, Drop)]
pub struct Turn {
    /// The first block.
    pub block: BlockNo,
    /// The number of blocks, 1 to 64.
    pub many: u32,
    /// Whether they are read; else they are written.
    pub read: bool,
    /// When it is due, in microseconds from the run's start.
    pub due: u64,
    /// The place of its share in the run's shares.
    pub share: u32,
}

/// The first share with which the weights, added from the first on, are above `n`.
pub(crate) fn chosen(shares: &[StoreShare], n: u64) -> StoreShare
    requires above { n < weight_of shares.now }
    requires fits { weight_of shares.now < 2 ^ 64 }
    ensures value { result ≡ chosen shares.now n }
    ensures among { Contains shares.now result }
{
    let mut weight = 0;
    for share in shares {
        weight += u64::from(share.weight);
        if n < weight {
            return *share;
        }
    }
    unreachable!()
}

/// The block that a word names, where transfers of `many` blocks stand side by side from block 0 on.
pub(crate) fn random_block(blocks: u32, many: u32, word: u32) -> u32
    requires many { 0 < many }
    requires within { many ≤ blocks }
    ensures value { result ≡ random_block blocks many word }
    ensures inside { result + many ≤ blocks }
{
    word % (blocks / many) * many
}

/// Where a transfer in order begins: at the position, or at block 0 where it would reach past the end.
pub(crate) fn next_block(blocks: u32, many: u32, position: u32) -> u32
    requires few { blocks ≤ 16777216 }
    requires within { many ≤ blocks }
    requires position { position < blocks }
    ensures value { result ≡ next_block blocks many position }
    ensures inside { result + many ≤ blocks }
{
    if position + many <= blocks {
        position
    } else {
        0
    }
}

/// The position behind a transfer, which after the last block is 0.
pub(crate) fn position_behind(blocks: u32, many: u32, block: u32) -> u32
    requires some { 0 < blocks }
    requires inside { block + many ≤ blocks }
    ensures value { result ≡ position_behind blocks many block }
    ensures inside { result < blocks }
{
    if block + many == blocks {
        0
    } else {
        block + many
    }
}

impl Task {
    /// When turn `turn` is due, in microseconds from the run's start.
    #[tactic(auto, using(crate::proofs::Bounds::few_before, crate::proofs::Bounds::quotient_below))]
    pub(crate) fn due_at(&self, turn: u64) -> u64
        requires turn { turn < 2 ^ 32 }
        requires workers { self.now.workers ≤ 512 }
        ensures value { result ≡ due_at self.now turn }
        ensures bound { result < 2 ^ 61 }
    {
        if self.rate == 0 {
            return 0;
        }
        let worker = self.worker;
        let before = turn * u64::from(self.workers) + u64::from(worker);
        before * 1_000_000 / u64::from(self.rate)
    }
}
