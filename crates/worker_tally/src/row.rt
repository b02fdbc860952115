// The rows of a run's report, one for each interval.
ghost use Rattle.std.specs.Prelude.{◌≡◌, ◌<◌, ◌≤◌, ◌+◌, ◌-◌, ◌^◌, ◌++◌, All, length, replicate};
ghost use Rattle.std.specs.Vec.{vec_capacity, vec_len};
ghost use Rattle.worker_tally.specs.Rows.{both, empty_row, place_of, row_added, row_of};
ghost use Rattle.worker_tally.specs.Tallies.{IsRowWithin};

use crate::done::Done;

/// What ended in one interval.
#[derive(Clone, Copy, Debug, PartialEq, Eq, Drop)]
pub struct IntervalRow {
    /// Turns that made transfers.
    pub turns: u64,
    /// Blocks that read turns read.
    pub reads: u64,
    /// Blocks whose write was ended.
    pub writes: u64,
    /// Bytes of all transfers that the device answered.
    pub bytes: u64,
    /// The time from before each turn's first transfer until after its last, added up and held at the greatest u64.
    pub micros: u64,
}

/// How a run's time is divided.
#[derive(Clone, Copy, Debug, PartialEq, Eq, Drop)]
pub struct Intervals {
    /// When the run began, in microseconds.
    pub start: u64,
    /// How long one interval is, in microseconds; at least 1.
    pub length: u64,
    /// How many intervals there are; at least 1.
    pub many: u32,
}

const EMPTY: IntervalRow = IntervalRow {
    turns: 0,
    reads: 0,
    writes: 0,
    bytes: 0,
    micros: 0,
};

impl Intervals {
    /// The place of the row in which a time falls.
    pub(crate) fn place_of(&self, time: u64) -> usize
        requires length { 1 ≤ self.now.length }
        requires many { 1 ≤ self.now.many }
        ensures value { result ≡ place_of self.now time }
        ensures below { result < self.now.many }
    {
        let past = time.saturating_sub(self.start) / self.length;
        past.min(self.many as u64 - 1) as usize
    }
}

impl IntervalRow {
    /// What a turn adds to its row.
    pub(crate) fn of(size: u32, done: &Done) -> IntervalRow
        requires many { done.now.many ≤ 64 }
        requires size { size ≤ 1048576 }
        ensures value { result ≡ row_of size done.now }
        ensures small { IsRowWithin (2 ^ 28) result }
    {
        IntervalRow {
            turns: 1,
            reads: done.reads(),
            writes: done.writes(),
            bytes: done.bytes(size),
            micros: done.timed.after.saturating_sub(done.timed.before),
        }
    }

    /// Both in one row.
    fn plus(&self, more: &IntervalRow) -> IntervalRow
        requires small { IsRowWithin (2 ^ 63) self.now }
        requires more { IsRowWithin (2 ^ 28) more.now }
        ensures { result ≡ both self.now more.now }
    {
        IntervalRow {
            turns: self.turns + more.turns,
            reads: self.reads + more.reads,
            writes: self.writes + more.writes,
            bytes: self.bytes + more.bytes,
            micros: self.micros.saturating_add(more.micros),
        }
    }
}

/// Makes them at least so many, with empty ones behind.
fn grow(rows: &mut Vec<IntervalRow>, many: usize)
    requires { many ≤ vec_capacity rows.old }
    ensures items { rows.new.items ≡ rows.old.items ++ replicate (many - length rows.old.items) empty_row }
    ensures capacity { vec_capacity rows.new ≡ vec_capacity rows.old }
{
    for _ in rows.len()..many {
        rows.push_reserved(EMPTY);
    }
}

/// Adds what a turn adds to the row at its place, with empty ones before it where there are none.
pub(crate) fn add_row(rows: &mut Vec<IntervalRow>, place: usize, more: &IntervalRow)
    requires room { place < vec_capacity rows.old }
    requires small { All (IsRowWithin (2 ^ 63)) rows.old.items }
    requires more { IsRowWithin (2 ^ 28) more.now }
    ensures items { rows.new.items ≡ row_added place more.now rows.old.items }
    ensures capacity { vec_capacity rows.new ≡ vec_capacity rows.old }
{
    grow(rows, place + 1);
    let row = rows[place];
    rows[place] = row.plus(more);
}
