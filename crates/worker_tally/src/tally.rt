// The tally of a worker.
ghost use Rattle.std.specs.Prelude.{◌≡◌, ◌<◌, ◌≤◌, ◌^◌, ◌+◌, ◌*◌, IfOk, [], length};
ghost use Rattle.std.specs.Vec.{vec_capacity, vec_len};
ghost use Rattle.worker_tally.specs.Dones.{corrupt_of};
ghost use Rattle.worker_tally.specs.Tallies.{AreWithin, IsSmall, no_numbers, numbers_with, turned_away, with_done, with_finding};

use crate::done::{Done, Refusal};
use crate::row::{IntervalRow, Intervals, add_row};
use block_verdict::Finding;
use key_state::Entry;
use std::alloc::Global;
use std::marker::Model;
use vd_outside::NoMemory;

/// The numbers of a worker's turns.
#[derive(Clone, Copy, Debug, PartialEq, Eq, Drop)]
pub struct Numbers {
    /// The turns that were drawn.
    pub turns: u64,
    /// The blocks that read turns read well, whatever they hold.
    pub reads: u64,
    /// The blocks that write turns read well before they wrote.
    pub prereads: u64,
    /// The blocks that were read well again after they were written.
    pub rereads: u64,
    /// The blocks whose write was ended.
    pub writes: u64,
    /// The turns that met a block that another worker held.
    pub busy: u64,
    /// The turns that met a bad block.
    pub badskip: u64,
    /// The bytes of all transfers that the device answered.
    pub bytes: u64,
    /// The calls of the device that failed.
    pub faults: u64,
    /// The corrupt blocks.
    pub corrupt: u64,
}

/// What a worker's turns in a run add up to. Contracts see its numbers, rows and findings, and for how many of these it has room.
#[derive(Drop)]
pub struct Tally {
    numbers: Numbers,
    rows: Vec<IntervalRow>,
    findings: Vec<Finding>,
}

impl Model for Tally {
    ghost use Rattle.std.specs.Vec.{vec_capacity};
    ghost use Rattle.worker_tally.specs.Tallies.{Tallied};

    ghost Value = { Tallied };

    ghost view = { λ tally. record {
      numbers = tally.numbers;
      rows = tally.rows.items;
      findings = tally.findings.items;
      row_room = vec_capacity tally.rows;
      finding_room = vec_capacity tally.findings;
    } };
}

impl Numbers {
    /// The numbers with those of a turn, in blocks of this size.
    fn with(&self, size: u32, done: &Done) -> Numbers
        requires small { AreWithin (2 ^ 63) self.now }
        requires size { size ≤ 1048576 }
        requires many { done.now.many ≤ 64 }
        requires corrupt { corrupt_of done.now ≤ 128 }
        ensures { result ≡ numbers_with size done.now self.now }
    {
        Numbers {
            turns: self.turns + 1,
            reads: self.reads + done.reads(),
            prereads: self.prereads + done.prereads(),
            rereads: self.rereads + done.rereads(),
            writes: self.writes + done.writes(),
            busy: self.busy,
            badskip: self.badskip,
            bytes: self.bytes + done.bytes(size),
            faults: self.faults + done.faults(),
            corrupt: self.corrupt + done.corrupt(),
        }
    }
}

impl Tally {
    /// A tally of no turns, with room for so many rows and findings.
    pub fn new(alloc: Global, rows: u32, findings: u32) -> Result<Tally, NoMemory>
        ensures numbers { IfOk result (λ tally. tally.numbers ≡ no_numbers) }
        ensures rows { IfOk result (λ tally. (tally.rows ≡ []) × (rows ≤ tally.row_room)) }
        ensures findings { IfOk result (λ tally. (tally.findings ≡ []) × (findings ≤ tally.finding_room)) }
    {
        let rows = Vec::with_capacity(alloc, rows as usize)?;
        let findings = Vec::with_capacity(alloc, findings as usize)?;
        Ok(Tally {
            numbers: Numbers {
                turns: 0,
                reads: 0,
                prereads: 0,
                rereads: 0,
                writes: 0,
                busy: 0,
                badskip: 0,
                bytes: 0,
                faults: 0,
                corrupt: 0,
            },
            rows,
            findings,
        })
    }

    /// Counts a turn that had all its blocks, of this size, and puts it into the row of its interval where it made a transfer.
    pub fn add(&mut self, intervals: &Intervals, size: u32, done: &Done)
        requires small { IsSmall self.old }
        requires size { size ≤ 1048576 }
        requires many { done.now.many ≤ 64 }
        requires corrupt { corrupt_of done.now ≤ 128 }
        requires intervals { (1 ≤ intervals.now.length) × (1 ≤ intervals.now.many) }
        requires rows { (length self.old.rows ≤ intervals.now.many) × (intervals.now.many ≤ self.old.row_room) }
        ensures { self.new ≡ with_done intervals.now size done.now self.old }
    {
        self.numbers = self.numbers.with(size, done);
        if done.has_called() {
            let place = intervals.place_of(done.timed.after);
            add_row(&mut self.rows, place, &IntervalRow::of(size, done));
        }
    }

    /// Counts a turn that had none of its blocks.
    pub fn turn_away(&mut self, refusal: Refusal)
        requires { IsSmall self.old }
        ensures { self.new ≡ turned_away refusal self.old }
    {
        self.numbers.turns += 1;
        match refusal {
            Refusal::Busy => self.numbers.busy += 1,
            Refusal::Bad => self.numbers.badskip += 1,
        }
    }

    /// Keeps a finding.
    pub fn push(&mut self, finding: Finding)
        requires { length self.old.findings < self.old.finding_room }
        ensures { self.new ≡ with_finding finding self.old }
    {
        // The check looks for the types in a finding among those that the body names.
        let _entry: Option<Entry> = None;
        self.findings.push_reserved(finding);
    }

    /// The numbers.
    pub fn numbers(&self) -> Numbers
        ensures { result ≡ self.now.numbers }
    {
        self.numbers
    }

    /// The rows from the first interval on, up to the last one in which a transfer ended.
    pub fn rows(&self) -> &[IntervalRow]
        ensures { result.now ≡ self.now.rows }
    {
        &self.rows
    }

    /// The findings in the order in which they were made.
    pub fn findings(&self) -> &[Finding]
        ensures { result.now ≡ self.now.findings }
    {
        &self.findings
    }
}
