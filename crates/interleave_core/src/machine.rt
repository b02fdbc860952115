// The machine inside a world, and its events.
ghost use Rattle.std.specs.Prelude.{◌≡◌, ◌≢◌, ◌↔◌, ◌<◌, ◌≤◌, ◌+◌, ◌*◌, ◌^◌, ◌++◌, ◌∷◌, [], ℕ, true, false, length, take, drop, replicate, slice_set, IsTrue, IfOk, OnOk, OnErr, MatchOption};
ghost use Rattle.interleave_core.specs.declared.event.Event.TheVariants as events;
ghost use Rattle.interleave_core.specs.declared.hold.Stage.TheVariants as stages;
ghost use Rattle.interleave_core.specs.Event.{Appends, Does, Enabled, IsAcked, IsAllWritten, IsAt, IsClaimed, IsSafe, SomeSettled, at_stage, begin_record, end_record, pending_key, unwritten};
ghost use Rattle.interleave_core.specs.World.{Lists, entry_of, first_world, hold_of, is_written, key_of, no_hold, place};

use crate::entries::{is_bad, pending_key};
use crate::hold::{free_all, is_busy};
use crate::journal::Journal;
use crate::{Event, Hold, Stage};
use key_state::{Entry, Record};
use std::alloc::Global;
use std::marker::Model;
use vd_base::{BlockNo, Key};
use vd_outside::NoMemory;

/// Workers, a journal and a device. Contracts see its parts as those of a world.
#[derive(Drop)]
pub struct Machine {
    sectors: u32,
    journal: Journal,
    holds: Vec<Hold>,
    keys: Vec<Key>,
    written: Vec<bool>,
    stopped: bool,
}

impl Model for Machine {
    ghost use Rattle.interleave_core.specs.World.{World};

    ghost Value = { World };

    ghost use Rattle.interleave_core.specs.MachineInside.{view_of, IsWhole};

    ghost view = { view_of };

    ghost invariant = { IsWhole };
}

/// Takes the marks of so many sectors away.
fn unmark(written: &mut [bool], from: usize, many: usize)
    requires { from + many ≤ length written.old }
    ensures { written.new ≡ take from written.old ++ (replicate many false ++ drop (from + many) written.old) }
{
    written[from..from + many].fill(false);
}

/// Holds of nothing.
fn no_holds(alloc: Global, workers: u32) -> Result<Vec<Hold>, NoMemory>
    ensures { IfOk result (λ all. all.items ≡ replicate workers no_hold) }
{
    Ok(Vec::from_elem(alloc, Hold::none(), workers as usize)?)
}

/// The keys of sectors that were never stamped.
fn no_keys(alloc: Global, sectors: u32) -> Result<Vec<Key>, NoMemory>
    ensures { IfOk result (λ all. all.items ≡ replicate sectors 0) }
{
    Ok(Vec::from_elem(alloc, Key::never(), sectors as usize)?)
}

/// The marks of sectors that no operation has written.
fn no_marks(alloc: Global, sectors: u32) -> Result<Vec<bool>, NoMemory>
    ensures { IfOk result (λ all. all.items ≡ replicate sectors false) }
{
    Ok(Vec::from_elem(alloc, false, sectors as usize)?)
}

impl Machine {
    /// A machine as it begins: no block was ever written, and nobody holds one.
    pub fn new(alloc: Global, blocks: u32, sectors: u32, workers: u32) -> Result<Machine, NoMemory>
        requires blocks { 1 ≤ blocks }
        requires sectors { 1 ≤ sectors }
        requires workers { 1 ≤ workers }
        requires size { blocks * sectors ≤ 1048576 }
        ensures { IfOk result (λ w. w ≡ first_world blocks sectors workers) }
    {
        let journal = Journal::new(alloc, blocks)?;
        let holds = no_holds(alloc, workers)?;
        let keys = no_keys(alloc, blocks * sectors)?;
        let written = no_marks(alloc, blocks * sectors)?;
        Ok(Machine {
            sectors,
            journal,
            holds,
            keys,
            written,
            stopped: false,
        })
    }

    /// The block's entry.
    pub fn entry(&self, block: BlockNo) -> Entry
        requires { block.0 < length self.now.base }
        ensures { result ≡ entry_of self.now block.0 }
    {
        self.journal.entry(block)
    }

    /// How many records there are since the journal began anew.
    pub fn records(&self) -> u64
        ensures value { result ≡ length self.now.records }
        ensures synced { self.now.synced ≤ result }
        ensures few { result < 2 ^ 63 }
    {
        self.journal.len()
    }

    /// How many of them are synced.
    pub fn synced(&self) -> u64
        ensures { result ≡ self.now.synced }
    {
        self.journal.synced()
    }

    /// How many blocks there are.
    pub fn blocks(&self) -> u32
        ensures value { result ≡ length self.now.base }
        ensures few { length self.now.base * self.now.sectors < 2 ^ 32 }
    {
        let _ = &self.sectors;
        self.journal.blocks()
    }

    /// How many sectors a block has.
    pub fn sectors(&self) -> u32
        ensures { result ≡ self.now.sectors }
    {
        self.sectors
    }

    /// The key of a sector.
    pub fn key(&self, block: BlockNo, sector: u32) -> Key
        requires block { block.0 < length self.now.base }
        requires sector { sector < self.now.sectors }
        ensures { result ≡ key_of self.now block.0 sector }
    {
        self.keys[self.place(block, sector)]
    }

    /// What the worker holds: nothing where there is no such worker.
    pub fn hold_or_none(&self, worker: u32) -> Hold
        ensures { result ≡ hold_of self.now worker }
    {
        if worker as usize >= self.holds.len() {
            return Hold::none();
        }
        self.holds[worker as usize]
    }

    /// Whether the machine runs and the worker is there.
    fn is_there(&self, worker: u32) -> bool
        ensures { IsTrue result ↔ ((self.now.stopped ≡ false) × (worker < length self.now.holds)) }
    {
        !self.stopped && (worker as usize) < self.holds.len()
    }

    /// What the worker holds.
    fn hold(&self, worker: u32) -> Hold
        requires { worker < length self.now.holds }
        ensures value { result ≡ hold_of self.now worker }
        ensures inside { result.first.0 + result.many ≤ length self.now.base }
        ensures free { result.stage ≡ stages.Free ↔ (result.many ≡ 0) }
        ensures few { result.many ≤ 64 }
    {
        let _ = &self.sectors;
        self.holds[worker as usize]
    }

    /// Where a sector stands among all of the device.
    fn place(&self, block: BlockNo, sector: u32) -> usize
        requires block { block.0 < length self.now.base }
        requires sector { sector < self.now.sectors }
        ensures value { result ≡ place self.now block.0 sector }
        ensures keys { result < length self.now.keys }
        ensures written { result < length self.now.written }
    {
        let _ = &self.sectors;
        block.0 as usize * self.sectors as usize + sector as usize
    }

    /// The worker holds this from now on.
    fn set_hold(&mut self, worker: u32, hold: Hold)
        requires within { worker < length self.old.holds }
        requires inside { hold.first.0 + hold.many ≤ length self.old.base }
        requires free { hold.stage ≡ stages.Free ↔ (hold.many ≡ 0) }
        requires few { hold.many ≤ 64 }
        ensures { self.new ≡ record self.old { holds = slice_set self.old.holds worker hold } }
    {
        self.holds[worker as usize] = hold;
    }

    /// The worker goes to another stage.
    fn set_stage(&mut self, worker: u32, stage: Stage)
        requires within { worker < length self.old.holds }
        requires was { (hold_of self.old worker).stage ≢ stages.Free }
        requires busy { stage ≢ stages.Free }
        ensures { self.new ≡ record self.old { holds = at_stage self.old worker stage } }
    {
        self.holds[worker as usize].stage = stage;
    }

    /// Appends a record for the worker, which goes to another stage.
    fn append_for(&mut self, worker: u32, made: Record, stage: Stage) -> Result<(), NoMemory>
        requires within { worker < length self.old.holds }
        requires was { (hold_of self.old worker).stage ≢ stages.Free }
        requires busy { stage ≢ stages.Free }
        ensures ok { OnOk result (self.new ≡ record self.old { records = self.old.records ++ made ∷ []; holds = at_stage self.old worker stage }) }
        ensures err { OnErr result (self.new ≡ self.old) }
    {
        self.journal.append(made)?;
        self.holds[worker as usize].stage = stage;
        Ok(())
    }

    /// No sector of a listed block is marked from now on.
    #[tactic(auto, using(crate::proofs::Sectors::rows_fit))]
    fn unmark(&mut self, hold: Hold)
        requires { hold.first.0 + hold.many ≤ length self.old.base }
        ensures { self.new ≡ record self.old { written = unwritten self.old hold } }
    {
        let sectors = self.sectors as usize;
        unmark(
            &mut self.written,
            hold.first.0 as usize * sectors,
            hold.many as usize * sectors,
        );
    }

    /// The worker writes a sector with a key.
    fn stamp(&mut self, worker: u32, place: usize, key: Key)
        requires within { worker < length self.old.holds }
        requires was { (hold_of self.old worker).stage ≢ stages.Free }
        requires keys { place < length self.old.keys }
        requires written { place < length self.old.written }
        ensures { self.new ≡ record self.old {
          holds = at_stage self.old worker stages.Writing;
          keys = slice_set self.old.keys place key;
          written = slice_set self.old.written place true;
        } }
    {
        self.keys[place] = key;
        self.written[place] = true;
        self.holds[worker as usize].stage = Stage::Writing;
    }

    /// A worker claims a block.
    fn claim(&mut self, worker: u32, block: BlockNo) -> bool
        ensures { Does self.old (events.Claim worker block) result self.new }
    {
        if !self.is_there(worker) || block.0 >= self.journal.blocks() {
            return false;
        }
        let hold = self.hold(worker);
        if is_bad(self.journal.entry(block)) || !hold.may_add(block) {
            return false;
        }
        if is_busy(&self.holds, worker, block) {
            return true;
        }
        self.set_hold(worker, hold.with_block(block));
        true
    }

    /// The last block of a worker is free again.
    fn release(&mut self, worker: u32) -> bool
        ensures { Does self.old (events.Release worker) result self.new }
    {
        if !self.is_there(worker) {
            return false;
        }
        let hold = self.hold(worker);
        if !hold.stage.is_loose() {
            return false;
        }
        self.set_hold(worker, hold.fewer());
        true
    }

    /// Whether the machine runs and the worker has claimed its list, and no more.
    fn has_claimed(&self, worker: u32) -> bool
        ensures { IsTrue result ↔ IsAt self.now worker IsClaimed }
    {
        self.is_there(worker) && self.hold(worker).stage.is_claimed()
    }

    /// Whether the machine runs and the worker has written all of its list.
    fn has_acked(&self, worker: u32) -> bool
        ensures { IsTrue result ↔ IsAt self.now worker IsAcked }
    {
        self.is_there(worker) && self.hold(worker).stage.is_acked()
    }

    /// The record that begins the listed blocks, where one of them is settled.
    fn begin_record(&self, hold: Hold) -> Option<Record>
        requires { hold.first.0 + hold.many ≤ length self.now.base }
        ensures { MatchOption result (SomeSettled (entry_of self.now) hold → ⊥)
            (λ made. SomeSettled (entry_of self.now) hold × (made ≡ begin_record (entry_of self.now) hold)) }
    {
        self.journal.begin_record(hold)
    }

    /// A worker records that it begins to write what it claimed.
    fn begin(&mut self, worker: u32) -> Result<bool, NoMemory>
        ensures ok { IfOk result (λ taken. Does self.old (events.Begin worker) taken self.new) }
        ensures err { OnErr result (self.new ≡ self.old) }
        ensures memory { OnErr result (Enabled self.old (events.Begin worker) × Appends self.old (events.Begin worker)) }
    {
        if !self.has_claimed(worker) {
            return Ok(false);
        }
        let hold = self.hold(worker);
        if let Some(made) = self.begin_record(hold) {
            self.append_for(worker, made, Stage::Queued)?;
            self.unmark(hold);
            return Ok(true);
        }
        self.set_stage(worker, Stage::Queued);
        self.unmark(hold);
        Ok(true)
    }

    /// Whether each listed block is pending by the base and the synced records.
    fn are_safe(&self, hold: Hold) -> bool
        requires { hold.first.0 + hold.many ≤ length self.now.base }
        ensures { IsTrue result ↔ ((b : ℕ) → Lists hold b → IsSafe (entry_of self.now b) (drop self.now.synced self.now.records) b) }
    {
        self.journal.are_safe(hold)
    }

    /// Whether the worker may write the sector.
    fn may_write(&self, worker: u32, block: BlockNo, sector: u32) -> bool
        ensures { IsTrue result ↔ Enabled self.now (events.Write worker block sector) }
    {
        if !self.is_there(worker) {
            return false;
        }
        let hold = self.hold(worker);
        if !hold.stage.is_open() {
            return false;
        }
        if !hold.lists(block) {
            return false;
        }
        if sector >= self.sectors {
            return false;
        }
        self.are_safe(hold)
    }

    /// A worker writes a sector of what it began.
    fn write(&mut self, worker: u32, block: BlockNo, sector: u32) -> bool
        ensures { Does self.old (events.Write worker block sector) result self.new }
    {
        if !self.may_write(worker, block, sector) {
            return false;
        }
        let _hold = self.hold(worker);
        let place = self.place(block, sector);
        let key = pending_key(self.entry(block));
        self.stamp(worker, place, key);
        true
    }

    /// Whether each sector of a block is marked.
    fn is_row_written(&self, block: BlockNo) -> bool
        requires { block.0 < length self.now.base }
        ensures { IsTrue result ↔ ((s : ℕ) → s < self.now.sectors → is_written self.now block.0 s ≡ true) }
    {
        for sector in 0..self.sectors {
            if !self.written[self.place(block, sector)] {
                return false;
            }
        }
        true
    }

    /// Whether each sector of each listed block is marked.
    fn are_written(&self, hold: Hold) -> bool
        requires { hold.first.0 + hold.many ≤ length self.now.base }
        ensures { IsTrue result ↔ IsAllWritten self.now hold }
    {
        let _ = &self.sectors;
        for at in 0..hold.many {
            if !self.is_row_written(BlockNo(hold.first.0 + at)) {
                return false;
            }
        }
        true
    }

    /// Whether the worker has written all that it began.
    fn may_ack(&self, worker: u32) -> bool
        ensures { IsTrue result ↔ Enabled self.now (events.Ack worker) }
    {
        if !self.is_there(worker) {
            return false;
        }
        let hold = self.hold(worker);
        if !hold.stage.is_writing() {
            return false;
        }
        self.are_written(hold)
    }

    /// A worker has written all that it began.
    fn ack(&mut self, worker: u32) -> bool
        ensures { Does self.old (events.Ack worker) result self.new }
    {
        if !self.may_ack(worker) {
            return false;
        }
        self.set_stage(worker, Stage::Acked);
        true
    }

    /// A worker's write failed.
    fn fault(&mut self, worker: u32) -> bool
        ensures { Does self.old (events.Fault worker) result self.new }
    {
        if !self.is_there(worker) || !self.hold(worker).stage.may_fail() {
            return false;
        }
        self.set_stage(worker, Stage::Done);
        true
    }

    /// The record that ends the listed blocks.
    fn end_record(&self, hold: Hold) -> Record
        requires some { 1 ≤ hold.many }
        requires inside { hold.first.0 + hold.many ≤ length self.now.base }
        ensures { result ≡ end_record (entry_of self.now) hold }
    {
        self.journal.end_record(hold)
    }

    /// A worker records that its blocks are written.
    fn end(&mut self, worker: u32) -> Result<bool, NoMemory>
        ensures ok { IfOk result (λ taken. Does self.old (events.End worker) taken self.new) }
        ensures err { OnErr result (self.new ≡ self.old) }
        ensures memory { OnErr result (Enabled self.old (events.End worker)) }
    {
        if !self.has_acked(worker) {
            return Ok(false);
        }
        let made = self.end_record(self.hold(worker));
        self.append_for(worker, made, Stage::Done)?;
        Ok(true)
    }

    /// A worker records that a block that it holds is corrupt.
    fn mark_bad(&mut self, worker: u32, block: BlockNo) -> Result<bool, NoMemory>
        ensures ok { IfOk result (λ taken. Does self.old (events.Bad worker block) taken self.new) }
        ensures err { OnErr result (self.new ≡ self.old) }
        ensures memory { OnErr result (Enabled self.old (events.Bad worker block)) }
    {
        if !self.is_there(worker) {
            return Ok(false);
        }
        let hold = self.hold(worker);
        if !hold.stage.is_loose() || !hold.lists(block) || is_bad(self.entry(block)) {
            return Ok(false);
        }
        self.append_for(worker, Record::Bad { block }, Stage::Done)?;
        Ok(true)
    }

    /// A worker records that its blocks are as if they were never written.
    fn clear(&mut self, worker: u32) -> Result<bool, NoMemory>
        ensures ok { IfOk result (λ taken. Does self.old (events.Clear worker) taken self.new) }
        ensures err { OnErr result (self.new ≡ self.old) }
        ensures memory { OnErr result (Enabled self.old (events.Clear worker)) }
    {
        if !self.has_claimed(worker) {
            return Ok(false);
        }
        let hold = self.hold(worker);
        let made = Record::Clear {
            first: hold.first,
            many: hold.many,
        };
        self.append_for(worker, made, Stage::Done)?;
        Ok(true)
    }

    /// All records are synced.
    fn sync(&mut self) -> bool
        ensures { Does self.old events.Sync result self.new }
    {
        if self.stopped {
            return false;
        }
        self.journal.sync();
        true
    }

    /// The journal begins anew with the entries now.
    #[tactic(auto, using(crate::proofs::Kept::states_length))]
    fn turn_over(&mut self) -> bool
        ensures { Does self.old events.Turnover result self.new }
    {
        if self.stopped {
            return false;
        }
        self.journal.turn_over();
        true
    }

    /// The machine stops, and so many records are kept.
    pub fn stop(&mut self, keep: u64) -> bool
        ensures { Does self.old (events.Stop keep) result self.new }
    {
        if self.stopped || keep < self.journal.synced() || keep > self.journal.len() {
            return false;
        }
        self.journal.cut(keep);
        free_all(&mut self.holds);
        self.stopped = true;
        true
    }

    /// The journal begins anew with the entries that the sectors confirm.
    pub fn recover(&mut self) -> bool
        ensures { Does self.old events.Recover result self.new }
    {
        if !self.stopped {
            return false;
        }
        self.journal.recover(&self.keys, self.sectors);
        self.stopped = false;
        true
    }

    /// Takes one event. True where it may happen, and then the world changes as the event says; false where it may not, and then
    /// nothing changes. Where memory runs out nothing changes.
    pub fn step(&mut self, event: &Event) -> Result<bool, NoMemory>
        ensures ok { IfOk result (λ taken. Does self.old event.now taken self.new) }
        ensures err { OnErr result (self.new ≡ self.old) }
        ensures memory { OnErr result (Enabled self.old event.now × Appends self.old event.now) }
    {
        match event {
            Event::Claim { worker, block } => Ok(self.claim(*worker, *block)),
            Event::Begin { worker } => self.begin(*worker),
            Event::Sync => Ok(self.sync()),
            Event::Write {
                worker,
                block,
                sector,
            } => Ok(self.write(*worker, *block, *sector)),
            Event::Ack { worker } => Ok(self.ack(*worker)),
            Event::Fault { worker } => Ok(self.fault(*worker)),
            Event::End { worker } => self.end(*worker),
            Event::Clear { worker } => self.clear(*worker),
            Event::Bad { worker, block } => self.mark_bad(*worker, *block),
            Event::Release { worker } => Ok(self.release(*worker)),
            Event::Turnover => Ok(self.turn_over()),
            Event::Stop { keep } => Ok(self.stop(*keep)),
            Event::Recover => Ok(self.recover()),
        }
    }
}
