// What a turn did that had its blocks, and its numbers.
ghost use Rattle.std.specs.Prelude.{◌≡◌, ◌+◌, ◌*◌, ◌^◌, ◌<◌, ◌≤◌};
ghost use Rattle.worker_tally.specs.Dones.{bytes_of, corrupt_in, corrupt_of, fault, fault_put, faults_of, good, good_writes_of, has_called, prereads_of, reads_of, rereads_of, writes_of};

/// What reading the blocks gave.
#[derive(Clone, Copy, Debug, PartialEq, Eq, Drop)]
pub enum Look {
    /// They weren't read.
    Skipped,
    /// The device failed.
    Fault,
    /// The device answered, and so many of the blocks are corrupt.
    Read { corrupt: u32 },
}

/// How far the write of the blocks came.
#[derive(Clone, Copy, Debug, PartialEq, Eq, Drop)]
pub enum Put {
    /// None was asked for, or what was read forbade it.
    Skipped,
    /// The book refused its beginning.
    Refused,
    /// The device failed.
    Fault,
    /// The device answered, and the book refused the end: `appended` says whether the end was recorded all the same.
    Unended { appended: bool },
    /// The device answered, and the end was recorded.
    Ended,
}

/// Why a turn had none of its blocks.
#[derive(Clone, Copy, Debug, PartialEq, Eq, Drop)]
pub enum Refusal {
    /// Another worker held one of them.
    Busy,
    /// One of them is bad.
    Bad,
}

/// The clock round a turn's transfers, in microseconds.
#[derive(Clone, Copy, Debug, PartialEq, Eq, Drop)]
pub struct Timed {
    /// Before the first one.
    pub before: u64,
    /// After the last one.
    pub after: u64,
}

/// What a turn did that had all its blocks.
#[derive(Clone, Copy, Debug, PartialEq, Eq, Drop)]
pub struct Done {
    /// Its blocks, 1 to 64.
    pub many: u32,
    /// Whether it was to read; else it was to write.
    pub read: bool,
    /// What was read at first: what a read turn is for, or what a write turn checks before it writes.
    pub first: Look,
    /// How far its write came.
    pub put: Put,
    /// What was read again after the write.
    pub again: Look,
    /// When its transfers were made. It counts only where one was made.
    pub timed: Timed,
}

/// The blocks of a look that the device answered, of so many.
fn blocks_read(many: u32, look: Look) -> u64
    ensures value { result ≡ many * good look }
    ensures most { result ≤ many }
{
    match look {
        Look::Read { .. } => many as u64,
        Look::Skipped | Look::Fault => 0,
    }
}

/// 1 for a look that failed.
fn fault(look: Look) -> u64
    ensures value { result ≡ fault look }
    ensures most { result ≤ 1 }
{
    match look {
        Look::Fault => 1,
        Look::Skipped | Look::Read { .. } => 0,
    }
}

/// The corrupt blocks of a look.
fn corrupt_in(look: Look) -> u64
    ensures value { result ≡ corrupt_in look }
    ensures most { result < 2 ^ 32 }
{
    match look {
        Look::Read { corrupt } => corrupt as u64,
        Look::Skipped | Look::Fault => 0,
    }
}

/// 1 for a write that failed.
fn fault_put(put: Put) -> u64
    ensures value { result ≡ fault_put put }
    ensures most { result ≤ 1 }
{
    match put {
        Put::Fault => 1,
        Put::Skipped | Put::Refused | Put::Unended { .. } | Put::Ended => 0,
    }
}

impl Done {
    /// The blocks that a read turn read.
    pub(crate) fn reads(&self) -> u64
        ensures value { result ≡ reads_of self.now }
        ensures most { result ≤ self.now.many }
    {
        if self.read {
            blocks_read(self.many, self.first)
        } else {
            0
        }
    }

    /// The blocks that a write turn read before it wrote.
    pub(crate) fn prereads(&self) -> u64
        ensures value { result ≡ prereads_of self.now }
        ensures most { result ≤ self.now.many }
    {
        if self.read {
            0
        } else {
            blocks_read(self.many, self.first)
        }
    }

    /// The blocks that were read again.
    pub(crate) fn rereads(&self) -> u64
        ensures value { result ≡ rereads_of self.now }
        ensures most { result ≤ self.now.many }
    {
        blocks_read(self.many, self.again)
    }

    /// The blocks whose write was ended.
    pub(crate) fn writes(&self) -> u64
        ensures value { result ≡ writes_of self.now }
        ensures most { result ≤ self.now.many }
    {
        match self.put {
            Put::Ended | Put::Unended { appended: true } => self.many as u64,
            Put::Skipped | Put::Refused | Put::Fault | Put::Unended { appended: false } => 0,
        }
    }

    /// The blocks that the device wrote well.
    fn good_writes(&self) -> u64
        ensures value { result ≡ good_writes_of self.now }
        ensures most { result ≤ self.now.many }
    {
        match self.put {
            Put::Ended | Put::Unended { .. } => self.many as u64,
            Put::Skipped | Put::Refused | Put::Fault => 0,
        }
    }

    /// The bytes of all transfers that the device answered, in blocks of this size.
    pub(crate) fn bytes(&self, size: u32) -> u64
        requires many { self.now.many ≤ 64 }
        requires size { size ≤ 1048576 }
        ensures value { result ≡ bytes_of size self.now }
        ensures most { result ≤ 201326592 }
    {
        let read = blocks_read(self.many, self.first) + blocks_read(self.many, self.again);
        size as u64 * (read + self.good_writes())
    }

    /// The calls of the device that failed.
    pub(crate) fn faults(&self) -> u64
        ensures value { result ≡ faults_of self.now }
        ensures most { result ≤ 3 }
    {
        fault(self.first) + fault_put(self.put) + fault(self.again)
    }

    /// The corrupt blocks.
    pub(crate) fn corrupt(&self) -> u64
        ensures { result ≡ corrupt_of self.now }
    {
        corrupt_in(self.first) + corrupt_in(self.again)
    }

    /// Whether it called its device.
    pub(crate) fn has_called(&self) -> bool
        ensures { result ≡ has_called self.now }
    {
        let looked = !matches!(self.first, Look::Skipped) || !matches!(self.again, Look::Skipped);
        looked || !matches!(self.put, Put::Skipped | Put::Refused)
    }
}
