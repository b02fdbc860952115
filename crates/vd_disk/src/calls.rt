// Which calls of a disk in memory fail.
ghost use Rattle.std.specs.Prelude.{◌≡◌, IfOk, None, Some};
ghost use Rattle.vd_disk.specs.Calls.{fails_now, no_calls, one_more, read_more, sync_more, write_more};

use std::alloc::Global;
use std::marker::Model;
use vd_outside::NoMemory;

/// Numbers the calls of a disk from 0, and says of each whether it fails: those of a list do, and all once a fuse has burnt down.
/// Contracts see the list, how many calls were made (held at the greatest u64), and how many more the fuse lets go on.
#[derive(Drop)]
pub struct CallPlan {
    failing: Vec<u64>,
    made: u64,
    fuse: Option<u64>,
}

impl Model for CallPlan {
    ghost use Rattle.vd_disk.specs.Calls.{Calls};

    ghost Value = { Calls };

    ghost view = { λ plan. record { failing = plan.failing.items; made = plan.made; fuse = plan.fuse } };
}

impl CallPlan {
    /// No call was made, and no fuse is set.
    pub fn new(failing: Vec<u64>) -> CallPlan
        ensures { result ≡ record { failing = failing.items; made = 0; fuse = None } }
    {
        CallPlan {
            failing,
            made: 0,
            fuse: None,
        }
    }

    /// Counts a call, and says whether it fails.
    pub fn next_fails(&mut self) -> bool
        ensures answer { result ≡ fails_now self.old }
        ensures counted { self.new ≡ one_more self.old }
    {
        let listed = self.failing.contains(&self.made);
        self.made = self.made.saturating_add(1);
        match self.fuse {
            None => listed,
            Some(left) => {
                self.fuse = Some(left.saturating_sub(1));
                left == 0 || listed
            }
        }
    }

    /// Lets so many more calls go on; every later one fails.
    pub fn set_fuse(&mut self, calls: u64)
        ensures { self.new ≡ record self.old { fuse = Some calls } }
    {
        self.fuse = Some(calls);
    }

    /// The same plan once more.
    pub fn copy(&self, alloc: Global) -> Result<CallPlan, NoMemory>
        ensures { IfOk result (λ plan. plan ≡ self.now) }
    {
        Ok(CallPlan {
            failing: self.failing.to_vec(alloc)?,
            made: self.made,
            fuse: self.fuse,
        })
    }
}

/// How many reads, writes and syncs were made, each held at the greatest u64.
#[derive(Clone, Copy, Drop)]
pub struct CallCounts {
    pub reads: u64,
    pub writes: u64,
    pub syncs: u64,
}

impl CallCounts {
    /// No call was made.
    pub fn new() -> CallCounts
        ensures { result ≡ no_calls }
    {
        CallCounts {
            reads: 0,
            writes: 0,
            syncs: 0,
        }
    }

    /// One read more.
    pub fn count_read(&mut self)
        ensures { self.new ≡ read_more self.old }
    {
        self.reads = self.reads.saturating_add(1);
    }

    /// One write more.
    pub fn count_write(&mut self)
        ensures { self.new ≡ write_more self.old }
    {
        self.writes = self.writes.saturating_add(1);
    }

    /// One sync more.
    pub fn count_sync(&mut self)
        ensures { self.new ≡ sync_more self.old }
    {
        self.syncs = self.syncs.saturating_add(1);
    }
}
