// A journal in memory, with each block's entry now beside its records.
ghost use Rattle.std.specs.Prelude.{◌≡◌, ◌↔◌, ◌^◌, ◌<◌, ◌≤◌, ◌+◌, ◌*◌, ◌++◌, ◌∷◌, [], ℕ, true, false, replicate, length, take, drop, slice_index_or, IsTrue, IfOk, OnOk, OnErr, MatchOption};
ghost use Rattle.key_state.specs.declared.entry.Entry.TheVariants as entries;
ghost use Rattle.key_state.specs.Entries.{entry_at, leaves, records_of, state, states};
ghost use Rattle.interleave_core.specs.Event.{IsSafe, SomeSettled, begin_record, end_record};
ghost use Rattle.interleave_core.specs.Fits.{Settles};
ghost use Rattle.interleave_core.specs.Journal.{IsStepped, entry_in, now_of};
ghost use Rattle.interleave_core.specs.World.{Lists};

use crate::Hold;
use crate::entries::{is_pending, is_settled, leaves, names, pending_key, settle, settled_key};
use key_state::{Entry, Record};
use std::alloc::Global;
use std::marker::Model;
use vd_base::{BlockNo, Key, next_key};
use vd_outside::NoMemory;

/// A journal of so many blocks. Contracts see the entries as it began, the records since, and how many of them are synced.
#[derive(Drop)]
pub struct Journal {
    base: Vec<Entry>,
    current: Vec<Entry>,
    records: Vec<Record>,
    synced: usize,
}

impl Model for Journal {
    ghost use Rattle.interleave_core.specs.Journal.{Ledger};

    ghost Value = { Ledger };

    ghost use Rattle.interleave_core.specs.JournalInside.{ledger_of, IsCurrent};

    ghost view = { ledger_of };

    ghost invariant = { IsCurrent };
}

/// Each block of the record takes its step.
fn step_all(current: &mut [Entry], made: &Record)
    ensures { IsStepped made.now current.old current.new (length current.old) }
{
    let first = made.first().0 as usize;
    let end = current.len().min(first + made.many() as usize);
    for block in first..end {
        current[block] = leaves(made, current[block]);
    }
}

/// Whether none of the records is the block's own.
fn none_of(records: &[Record], block: BlockNo) -> bool
    ensures { IsTrue result ↔ (records_of block.0 records.now ≡ []) }
{
    for made in records {
        if names(made, block) {
            return false;
        }
    }
    true
}

/// The entries after the records.
fn replay(current: &mut [Entry], base: &[Entry], records: &[Record])
    requires { length current.old ≡ length base.now }
    ensures size { length current.new ≡ length base.now }
    ensures each { (b : ℕ) → b < length base.now → entry_in current.new b ≡ state base.now records.now b }
{
    current.copy_from_slice(base);
    for made in records {
        step_all(current, made);
    }
}

/// Settles each entry by its sectors.
fn settle_all(current: &[Entry], base: &mut [Entry], keys: &[Key], sectors: u32)
    requires sizes { length base.old ≡ length current.now }
    requires keys { length keys.now ≡ length current.now * sectors }
    ensures size { length base.new ≡ length base.old }
    ensures each { (b : ℕ) → b < length current.now
        → Settles (λ s. slice_index_or keys.now (b * sectors + s) 0) sectors (entry_in current.now b) (entry_in base.new b) }
{
    for block in 0..current.len() {
        base[block] = settle(current[block], keys, block * sectors as usize, sectors);
    }
}

/// The entries of blocks that were never written.
fn never_written(alloc: Global, blocks: u32) -> Result<Vec<Entry>, NoMemory>
    ensures { IfOk result (λ all. all.items ≡ replicate blocks (entries.Settled 0)) }
{
    Ok(Vec::from_elem(alloc, Entry::Settled(Key::never()), blocks as usize)?)
}

impl Journal {
    /// A journal of blocks that were never written.
    pub fn new(alloc: Global, blocks: u32) -> Result<Journal, NoMemory>
        ensures { IfOk result (λ j. j ≡ record { base = replicate blocks (entries.Settled 0); records = []; synced = 0 }) }
    {
        let base = never_written(alloc, blocks)?;
        let current = never_written(alloc, blocks)?;
        Ok(Journal {
            base,
            current,
            records: Vec::new(alloc),
            synced: 0,
        })
    }

    /// The block's entry now.
    pub fn entry(&self, block: BlockNo) -> Entry
        requires { block.0 < length self.now.base }
        ensures { result ≡ now_of self.now block.0 }
    {
        self.current[block.0 as usize]
    }

    /// How many blocks there are.
    pub fn blocks(&self) -> u32
        ensures { result ≡ length self.now.base }
    {
        self.base.len() as u32
    }

    /// How many records there are.
    pub fn len(&self) -> u64
        ensures value { result ≡ length self.now.records }
        ensures synced { self.now.synced ≤ result }
        ensures few { result < 2 ^ 63 }
    {
        self.records.len() as u64
    }

    /// How many records are synced.
    pub fn synced(&self) -> u64
        ensures { result ≡ self.now.synced }
    {
        self.synced as u64
    }

    /// Whether some listed block is settled.
    fn some_settled(&self, hold: Hold) -> bool
        requires { hold.first.0 + hold.many ≤ length self.now.base }
        ensures { IsTrue result ↔ SomeSettled (now_of self.now) hold }
    {
        let _ = &self.base;
        for at in 0..hold.many {
            if is_settled(self.entry(BlockNo(hold.first.0 + at))) {
                return true;
            }
        }
        false
    }

    /// The record that begins the listed blocks, where one of them is settled.
    pub fn begin_record(&self, hold: Hold) -> Option<Record>
        requires { hold.first.0 + hold.many ≤ length self.now.base }
        ensures { MatchOption result (SomeSettled (now_of self.now) hold → ⊥)
            (λ made. SomeSettled (now_of self.now) hold × (made ≡ begin_record (now_of self.now) hold)) }
    {
        if !self.some_settled(hold) {
            return None;
        }
        if hold.many != 1 {
            return Some(Record::BeginRun {
                first: hold.first,
                many: hold.many,
            });
        }
        let old = settled_key(self.entry(hold.first));
        Some(Record::Begin {
            block: hold.first,
            old,
            new: next_key(old),
        })
    }

    /// The record that ends the listed blocks.
    pub fn end_record(&self, hold: Hold) -> Record
        requires some { 1 ≤ hold.many }
        requires inside { hold.first.0 + hold.many ≤ length self.now.base }
        ensures { result ≡ end_record (now_of self.now) hold }
    {
        if hold.many != 1 {
            return Record::EndRun {
                first: hold.first,
                many: hold.many,
            };
        }
        Record::End {
            block: hold.first,
            key: pending_key(self.entry(hold.first)),
        }
    }

    /// Whether the block is pending by the base and the synced records.
    fn is_safe(&self, block: BlockNo) -> bool
        requires { block.0 < length self.now.base }
        ensures { IsTrue result ↔ IsSafe (now_of self.now block.0) (drop self.now.synced self.now.records) block.0 }
    {
        let _ = &self.base;
        if !is_pending(self.entry(block)) {
            return false;
        }
        none_of(&self.records[self.synced..], block)
    }

    /// Whether each listed block is pending by the base and the synced records.
    pub fn are_safe(&self, hold: Hold) -> bool
        requires { hold.first.0 + hold.many ≤ length self.now.base }
        ensures { IsTrue result ↔ ((b : ℕ) → Lists hold b → IsSafe (now_of self.now b) (drop self.now.synced self.now.records) b) }
    {
        let _ = &self.base;
        for at in 0..hold.many {
            if !self.is_safe(BlockNo(hold.first.0 + at)) {
                return false;
            }
        }
        true
    }

    /// Appends a record.
    pub fn append(&mut self, made: Record) -> Result<(), NoMemory>
        ensures ok { OnOk result (self.new ≡ record self.old { records = self.old.records ++ made ∷ [] }) }
        ensures err { OnErr result (self.new ≡ self.old) }
    {
        if self.records.push(made).is_err() {
            return Err(NoMemory);
        }
        step_all(&mut self.current, &made);
        Ok(())
    }

    /// Syncs all records.
    pub fn sync(&mut self)
        ensures { self.new ≡ record self.old { synced = length self.old.records } }
    {
        self.synced = self.records.len();
    }

    /// Keeps so many of the records.
    pub fn cut(&mut self, keep: u64)
        requires synced { self.old.synced ≤ keep }
        requires inside { keep ≤ length self.old.records }
        ensures { self.new ≡ record self.old { records = take keep self.old.records } }
    {
        self.records.truncate(keep as usize);
        replay(&mut self.current, &self.base, &self.records);
    }

    /// Begins anew with the entries now.
    pub fn turn_over(&mut self)
        ensures { self.new ≡ record { base = states self.old.base self.old.records; records = []; synced = 0 } }
    {
        self.base.copy_from_slice(&self.current);
        self.records.clear();
        self.synced = 0;
    }

    /// Begins anew with the entries that the sectors confirm: a row of so many for each block.
    pub fn recover(&mut self, keys: &[Key], sectors: u32)
        requires { length keys.now ≡ length self.old.base * sectors }
        ensures same { self.new ≡ record { base = self.new.base; records = []; synced = 0 } }
        ensures size { length self.new.base ≡ length self.old.base }
        ensures each { (b : ℕ) → b < length self.old.base
            → Settles (λ s. slice_index_or keys.now (b * sectors + s) 0) sectors (now_of self.old b) (entry_at self.new.base b) }
    {
        settle_all(&self.current, &mut self.base, keys, sectors);
        self.current.copy_from_slice(&self.base);
        self.records.clear();
        self.synced = 0;
    }
}
