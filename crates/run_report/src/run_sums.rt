// What the tallies of a run's workers add up to.
ghost use Rattle.std.specs.Prelude.{◌≡◌, ◌≤◌, ◌<◌, ◌+◌, ◌-◌, ◌^◌, ℕ, length, cond};
ghost use Rattle.std.specs.List.{zip};
ghost use Rattle.run_report.specs.Runs.{group_totals, is_of, most_rows, row_at as row_of, row_sums as sums_of};
ghost use Rattle.run_report.specs.RunSteps.{AreRowsUpTo, AreTotalsUpTo, with_numbers, with_row};

use plan_types::WorkerPlan;
use worker_tally::{IntervalRow, Numbers, Tally};

/// Some of a run's workers.
#[derive(Clone, Copy, Drop)]
pub enum Group {
    /// Those of the slave with this number.
    Slave(u32),
    /// Those of the store at this place of the plan's stores.
    Store(usize),
}

/// The rows of one interval, added up.
#[derive(Clone, Copy, Drop)]
pub(crate) struct RowSums {
    pub turns: u128,
    pub reads: u128,
    pub writes: u128,
    pub bytes: u128,
    pub micros: u128,
}

/// The numbers of some workers, added up.
#[derive(Clone, Copy, Drop)]
pub struct Totals {
    /// How many workers there are.
    pub workers: u64,
    pub turns: u128,
    pub reads: u128,
    pub prereads: u128,
    pub rereads: u128,
    pub writes: u128,
    pub busy: u128,
    pub badskip: u128,
    pub bytes: u128,
    pub faults: u128,
    pub corrupt: u128,
}

const EMPTY_ROW: IntervalRow = IntervalRow {
    turns: 0,
    reads: 0,
    writes: 0,
    bytes: 0,
    micros: 0,
};

const NO_ROWS: RowSums = RowSums {
    turns: 0,
    reads: 0,
    writes: 0,
    bytes: 0,
    micros: 0,
};

const NO_WORKERS: Totals = Totals {
    workers: 0,
    turns: 0,
    reads: 0,
    prereads: 0,
    rereads: 0,
    writes: 0,
    busy: 0,
    badskip: 0,
    bytes: 0,
    faults: 0,
    corrupt: 0,
};

impl Group {
    fn has(self, worker: &WorkerPlan) -> bool
        ensures { result ≡ is_of self worker.now }
    {
        match self {
            Group::Slave(number) => worker.slave == number,
            Group::Store(place) => worker.store as usize == place,
        }
    }
}

impl RowSums {
    fn with(self, row: IntervalRow) -> RowSums
        requires small { AreRowsUpTo (2 ^ 64 - 1) self }
        ensures value { result ≡ with_row self row }
        ensures small { (n : ℕ) → AreRowsUpTo n self → AreRowsUpTo (n + 1) result }
    {
        RowSums {
            turns: self.turns + row.turns as u128,
            reads: self.reads + row.reads as u128,
            writes: self.writes + row.writes as u128,
            bytes: self.bytes + row.bytes as u128,
            micros: self.micros + row.micros as u128,
        }
    }
}

impl Totals {
    fn with(self, numbers: Numbers) -> Totals
        requires small { AreTotalsUpTo (2 ^ 64 - 2) self }
        ensures value { result ≡ with_numbers self numbers }
        ensures small { (n : ℕ) → AreTotalsUpTo n self → AreTotalsUpTo (n + 1) result }
    {
        Totals {
            workers: self.workers + 1,
            turns: self.turns + numbers.turns as u128,
            reads: self.reads + numbers.reads as u128,
            prereads: self.prereads + numbers.prereads as u128,
            rereads: self.rereads + numbers.rereads as u128,
            writes: self.writes + numbers.writes as u128,
            busy: self.busy + numbers.busy as u128,
            badskip: self.badskip + numbers.badskip as u128,
            bytes: self.bytes + numbers.bytes as u128,
            faults: self.faults + numbers.faults as u128,
            corrupt: self.corrupt + numbers.corrupt as u128,
        }
    }

    /// With a worker's numbers, where it belongs to the group.
    fn counted(self, group: Group, worker: &WorkerPlan, tally: &Tally) -> Totals
        requires small { AreTotalsUpTo (2 ^ 64 - 2) self }
        ensures value { result ≡ cond (is_of group worker.now) (with_numbers self tally.now.numbers) self }
        ensures small { (n : ℕ) → AreTotalsUpTo n self → AreTotalsUpTo (n + 1) result }
    {
        if group.has(worker) {
            self.with(tally.numbers())
        } else {
            self
        }
    }
}

fn row_at(tally: &Tally, place: usize) -> IntervalRow
    ensures { result ≡ row_of place tally.now }
{
    match tally.rows().get(place) {
        Some(row) => *row,
        None => EMPTY_ROW,
    }
}

/// The rows at a place of all tallies, added up.
pub(crate) fn row_sums(tallies: &[Tally], place: usize) -> RowSums
    ensures { result ≡ sums_of place tallies.now }
{
    let mut sums = NO_ROWS;
    for tally in tallies {
        sums = sums.with(row_at(tally, place));
    }
    sums
}

/// How many rows the longest tally has.
pub(crate) fn rows_of_longest(tallies: &[Tally]) -> usize
    ensures { result ≡ most_rows tallies.now }
{
    let mut most = 0;
    for tally in tallies {
        let many = tally.rows().len();
        if most < many {
            most = many;
        }
    }
    most
}

/// The numbers of a group's workers, added up.
pub(crate) fn totals_of(workers: &[WorkerPlan], tallies: &[Tally], group: Group) -> Totals
    requires { length tallies.now ≡ length workers.now }
    ensures { result ≡ group_totals group (zip workers.now tallies.now) }
{
    let mut totals = NO_WORKERS;
    for (i, worker) in workers.iter().enumerate() {
        totals = totals.counted(group, worker, &tallies[i]);
    }
    totals
}
