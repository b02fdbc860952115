// What may happen in a world.
use vd_base::BlockNo;

/// One event. Workers are numbered from 0, as are the sectors of a block.
#[derive(Clone, Copy, Debug, PartialEq, Eq, Drop)]
pub enum Event {
    /// The worker claims a block: its first one, or the one behind those that it claimed.
    Claim {
        worker: u32,
        block: BlockNo,
    },
    /// The worker records that it begins to write its blocks.
    Begin {
        worker: u32,
    },
    /// Every record reaches the journal's disk.
    Sync,
    /// The worker writes a sector of one of its blocks.
    Write {
        worker: u32,
        block: BlockNo,
        sector: u32,
    },
    /// The worker has written every sector of its blocks.
    Ack {
        worker: u32,
    },
    /// A write of the worker failed.
    Fault {
        worker: u32,
    },
    /// The worker records that its blocks are written.
    End {
        worker: u32,
    },
    /// The worker records that one of its blocks is corrupt.
    Bad {
        worker: u32,
        block: BlockNo,
    },
    /// The worker records that its blocks are as if they were never written.
    Clear {
        worker: u32,
    },
    /// The worker lets the last of its blocks go.
    Release {
        worker: u32,
    },
    /// The journal begins anew with the entries now.
    Turnover,
    /// The machine stops. So many records are found after it.
    Stop {
        keep: u64,
    },
    /// The machine starts again: the journal begins anew with the entries that the sectors confirm.
    Recover,
}
