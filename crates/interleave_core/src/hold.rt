// What a worker holds.
ghost use Rattle.std.specs.Prelude.{◌≡◌, ◌≢◌, ◌↔◌, ◌<◌, ◌≤◌, ◌+◌, ℕ, IsTrue, length, replicate, slice_index_or};
ghost use Rattle.interleave_core.specs.declared.hold.Stage.TheVariants as stages;
ghost use Rattle.interleave_core.specs.Event.{IsLoose, IsOpen, MayAdd, MayFail, fewer, with_block};
ghost use Rattle.interleave_core.specs.World.{Lists, no_hold};

use vd_base::BlockNo;

/// How far an operation has come.
#[derive(Clone, Copy, Debug, PartialEq, Eq, Drop)]
pub enum Stage {
    /// There is none.
    Free,
    /// Its blocks are claimed.
    Claimed,
    /// The record of its beginning was made.
    Queued,
    /// Some sector was written.
    Writing,
    /// Every sector was written.
    Acked,
    /// The record of its end was made, or it was given up.
    Done,
}

/// A worker's operation and the blocks that it lists: `many` of them from `first` on, none where it is free.
#[derive(Clone, Copy, Debug, PartialEq, Eq, Drop)]
pub struct Hold {
    pub stage: Stage,
    pub first: BlockNo,
    pub many: u32,
}

impl Stage {
    /// Whether there is no operation.
    pub(crate) fn is_free(self) -> bool
        ensures { IsTrue result ↔ (self ≡ stages.Free) }
    {
        matches!(self, Stage::Free)
    }

    /// Whether the blocks are claimed, and nothing else was done.
    pub(crate) fn is_claimed(self) -> bool
        ensures { IsTrue result ↔ (self ≡ stages.Claimed) }
    {
        matches!(self, Stage::Claimed)
    }

    /// Whether some sector was written, and not yet all as far as the worker knows.
    pub(crate) fn is_writing(self) -> bool
        ensures { IsTrue result ↔ (self ≡ stages.Writing) }
    {
        matches!(self, Stage::Writing)
    }

    /// Whether every sector was written, and nothing else was done since.
    pub(crate) fn is_acked(self) -> bool
        ensures { IsTrue result ↔ (self ≡ stages.Acked) }
    {
        matches!(self, Stage::Acked)
    }

    /// Whether a write may follow.
    pub(crate) fn is_open(self) -> bool
        ensures { IsTrue result ↔ IsOpen self }
    {
        matches!(self, Stage::Queued | Stage::Writing)
    }

    /// Whether a write may fail.
    pub(crate) fn may_fail(self) -> bool
        ensures { IsTrue result ↔ MayFail self }
    {
        matches!(self, Stage::Queued | Stage::Writing | Stage::Acked)
    }

    /// Whether no write is under way, though blocks are held.
    pub(crate) fn is_loose(self) -> bool
        ensures { IsTrue result ↔ IsLoose self }
    {
        matches!(self, Stage::Claimed | Stage::Done)
    }
}

impl Hold {
    /// The hold of a worker that holds nothing.
    pub(crate) fn none() -> Hold
        ensures { result ≡ no_hold }
    {
        Hold {
            stage: Stage::Free,
            first: BlockNo(0),
            many: 0,
        }
    }

    /// Whether the hold lists the block.
    pub(crate) fn lists(self, block: BlockNo) -> bool
        ensures { IsTrue result ↔ Lists self block.0 }
    {
        self.first.0 <= block.0 && block.0 - self.first.0 < self.many
    }

    /// Whether the hold may take the block.
    pub(crate) fn may_add(self, block: BlockNo) -> bool
        ensures { IsTrue result ↔ MayAdd self block }
    {
        match self.stage {
            Stage::Free => true,
            Stage::Claimed => self.many < 64
                && u64::from(block.0) == u64::from(self.first.0) + u64::from(self.many),
            Stage::Queued | Stage::Writing | Stage::Acked | Stage::Done => false,
        }
    }

    /// The hold with one block more.
    pub(crate) fn with_block(self, block: BlockNo) -> Hold
        requires may { MayAdd self block }
        requires free { self.stage ≡ stages.Free ↔ (self.many ≡ 0) }
        ensures value { result ≡ with_block self block }
        ensures last { result.first.0 + result.many ≡ block.0 + 1 }
        ensures free { result.stage ≡ stages.Free ↔ (result.many ≡ 0) }
        ensures few { result.many ≤ 64 }
    {
        let first = if self.many == 0 { block } else { self.first };
        Hold {
            stage: Stage::Claimed,
            first,
            many: self.many + 1,
        }
    }

    /// The hold without its last block.
    pub(crate) fn fewer(self) -> Hold
        requires some { 1 ≤ self.many }
        requires busy { self.stage ≢ stages.Free }
        ensures value { result ≡ fewer self }
        ensures less { result.first.0 + result.many + 1 ≡ self.first.0 + self.many }
        ensures free { result.stage ≡ stages.Free ↔ (result.many ≡ 0) }
        ensures few { result.many + 1 ≡ self.many }
    {
        let stage = if self.many == 1 {
            Stage::Free
        } else {
            self.stage
        };
        Hold {
            stage,
            first: self.first,
            many: self.many - 1,
        }
    }
}

/// Whether another worker holds the block.
pub(crate) fn is_busy(holds: &[Hold], worker: u32, block: BlockNo) -> bool
    ensures { IsTrue result ↔ ((c : ℕ) × (c ≢ worker) × Lists (slice_index_or holds.now c no_hold) block.0) }
{
    for c in 0..holds.len() {
        if c != worker as usize && holds[c].lists(block) {
            return true;
        }
    }
    false
}

/// Every worker lets its blocks go.
pub(crate) fn free_all(holds: &mut [Hold])
    ensures { holds.new ≡ replicate (length holds.old) no_hold }
{
    holds.fill(Hold::none());
}
