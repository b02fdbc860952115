// The journal of a store as a book.
ghost use Rattle.std.specs.Prelude.{◌≡◌, ◌<◌, ◌≤◌, ◌+◌, ◌-◌, ◌*◌, ◌%◌, ◌^◌, ◌⊎◌, ⊤, if◌then◌else◌, [], length, replicate, true, false, IfErr, IfOk, OnErr, OnOk, None};
ghost use Rattle.std.proofs.Props.{props};
ghost use Rattle.vd_outside.specs.Causes.{HasCause, Rose};
ghost use Rattle.vd_disk.specs.Disk.{Extends, WhenTold};
ghost use Rattle.key_state.specs.Books.{Steps, clears_of};
ghost use Rattle.key_state.specs.Entries.{AreEntries, IsLegalOn, ends_of};
ghost use Rattle.key_state.specs.Facts.{is_entry_prop};
ghost use Rattle.journal_layout.specs.Gate.{IsWithinLimits};
ghost use Rattle.key_state.specs.declared.entry.Entry.TheVariants.{Settled};
ghost use Rattle.journal_layout.specs.Log.{IsSpelled};
ghost use Rattle.journal_layout.specs.Places.{end_of};
ghost use Rattle.journal_core.specs.Parts.{AllFit, IsSectorOf};
ghost use Rattle.journal_core.specs.Writes.{HasLive, IsSynced};
ghost use Rattle.journal_layout.specs.Recovery.{blocks_of, gate_of_live, journal_end};
ghost use Rattle.journal_core.specs.Keeps.{HasSome, HasStory, Shape, Story, first_live, new_live, new_memory, next_of};
ghost use Rattle.journal_core.specs.Opening.{Opens};

use crate::device::{begin_epoch, make_new, reopen};
use crate::fault::{OpenFault, OpenRefused};
use crate::places::log_sector;
use crate::records::{cleared_by, ended_by};
use crate::sector::{add_record, blank};
use journal_layout::Live;
use key_state::{Book, BookFault, Entry, Record, take_step};
use std::alloc::{AllocError, Global};
use std::snapshot::Snapshot;
use vd_base::{BlockNo, Key, Sector, StoreId};
use vd_disk::Disk;

/// The open journal of a store: the entries, the records of its epoch that aren't written yet, and its disk.
#[derive(Drop)]
pub struct JournalBook<D: Disk> {
    disk: D,
    live: Live,
    entries: Vec<Entry>,
    /// The log sector in hand, its place in the log, and how many records it has.
    sector: Sector,
    place: u32,
    count: u8,
    /// How many records the epoch has, how many of them were written, and how many of these stay.
    records: u64,
    written: u64,
    synced: u64,
    stopped: bool,
    ends: u64,
    clears: u64,
    /// The disk as the opening began and as it ended, what was opened, and whether a turnover was asked for since.
    began: Snapshot<D>,
    opened: Snapshot<D>,
    first_epoch: Snapshot<u64>,
    first_entries: Snapshot<Vec<Entry>>,
    asked: bool,
    /// The entries that a stop can't take back.
    kept: Snapshot<Vec<Entry>>,
    ghost limits: { IsWithinLimits (gate_of_live live) } by { Prim.hlevel props },
    ghost version: { live.version ≡ 2 },
    ghost room: { journal_end live ≤ (D.seen disk).sectors },
    ghost one_each: { length entries.items ≡ blocks_of live },
    ghost valid: { AreEntries entries.items } by { Prim.hlevel (props, is_entry_prop) },
    ghost kept_each: { length kept.value.items ≡ length entries.items },
    ghost kept_valid: { AreEntries kept.value.items } by { Prim.hlevel (props, is_entry_prop) },
    ghost short: { stopped ≡ false → count < 30 },
    ghost shaped: { stopped ≡ false → Shape live.log_sectors place count records written synced } by { Prim.hlevel props },
    ghost later: { (D.seen began.value).faults ≤ (D.seen disk).faults },
    ghost cause: { stopped ≡ true → Rose (D.seen began.value).faults (D.seen disk).faults },
    ghost opening: { ∥ Opens (first_live live first_epoch.value) first_entries.value.items (D.seen began.value).told (D.seen began.value).moments (D.seen opened.value).moments ∥₁ },
    ghost grown: { Extends (D.seen opened.value).moments (D.seen disk).moments } by { Prim.hlevel props },
    ghost ends_range: { ends < 2 ^ 64 },
    ghost clears_range: { clears < 2 ^ 64 },
    ghost keeps: { HasSome (D.seen disk) (record {
      live = live;
      entries = entries.items;
      sector = sector;
      place = place;
      count = count;
      records = records;
      written = written;
      synced = synced;
      stopped = stopped;
      ends = ends;
      clears = clears;
      asked = asked;
      kept = kept.value.items;
      start = length (D.seen opened.value).moments - 1;
      first_epoch = first_epoch.value;
      first_entries = first_entries.value.items;
    }) },
}

/// The greatest epoch.
const LAST_EPOCH: u64 = 9_223_372_036_854_775_807;

/// Takes a record into the entries and the counts.
fn note(entries: &mut Vec<Entry>, ends: &mut u64, clears: &mut u64, made: &Record)
    requires valid { AreEntries entries.old.items }
    requires legal { IsLegalOn entries.old.items made.now }
    requires spelled { IsSpelled 2 made.now }
    ensures steps { Steps made.now entries.old.items entries.new.items }
    ensures valid { AreEntries entries.new.items }
    ensures ends { ends.new ≡ (ends.old + ends_of made.now) % 2 ^ 64 }
    ensures clears { clears.new ≡ (clears.old + clears_of entries.old.items made.now) % 2 ^ 64 }
{
    *clears = clears.wrapping_add(cleared_by(entries, made));
    *ends = ends.wrapping_add(ended_by(made));
    take_step(entries, made);
}

fn never_written(alloc: Global, blocks: u32) -> Result<Vec<Entry>, AllocError>
    ensures { IfOk result (λ entries. entries.items ≡ replicate blocks (Settled 0)) }
{
    let mut entries = Vec::new(alloc);
    for _i in 0..blocks {
        let key = Key::never();
        entries.push(Entry::Settled(key))?;
    }
    Ok(entries)
}

fn refuse<D: Disk>(disk: D, why: OpenFault) -> OpenRefused<D>
    ensures { (result.disk ≡ disk) × (result.why ≡ why) }
{
    OpenRefused { disk, why }
}

impl<D: Disk> JournalBook<D> {
    ghost use Rattle.key_state.specs.Books.{Appended, Follows, HasBookCause, HasFlushCause, Kept, Shuts, Unsynced};
    ghost use Rattle.journal_core.specs.Book.{began_of, disk_of, memory_of, opened_of, seen_of};
    ghost use Rattle.journal_core.specs.Calls.{AddsAtMost, all_synced, Answers, Continues, GoesOn, IsClosed, IsGivenUp, IsOpened, IsStopped, NotMade, NotOpened, OneMore, OneTurn, Renews, SameStory, StaysAppended, StaysInHand, TurnCause, Turns};
    ghost use Rattle.journal_core.specs.History.{KeepsAll, KeepsOver, closed, given_up};
    ghost use Rattle.journal_core.specs.Seen.{last_epoch};
    ghost use Rattle.key_state.specs.declared.fault.BookFault.TheVariants.{Failed as FailedFault};

    /// The epoch.
    pub fn epoch(&self) -> u64
        ensures { result ≡ (seen_of self.now).epoch }
    {
        self.live.epoch
    }

    /// A book whose epoch has no records.
    fn open(disk: D, live: Live, entries: Vec<Entry>, began: Snapshot<D>) -> JournalBook<D>
        requires limits { IsWithinLimits (gate_of_live live) }
        requires version { live.version ≡ 2 }
        requires room { journal_end live ≤ (D.seen disk).sectors }
        requires one_each { length entries.items ≡ blocks_of live }
        requires valid { AreEntries entries.items }
        requires later { (D.seen began.value).faults ≤ (D.seen disk).faults }
        requires fits { IsSynced (D.seen disk) (AllFit (IsSectorOf live entries.items [])) }
        requires opening { Opens live entries.items (D.seen began.value).told (D.seen began.value).moments (D.seen disk).moments }
        ensures began { result.began.value ≡ began.value }
        ensures opened { result.opened.value ≡ disk }
        ensures same { result.disk ≡ disk }
        ensures memory { memory_of result ≡ new_memory live entries.items (replicate 512 0) (length (D.seen disk).moments - 1) }
    {
        let opened = Snapshot::of(&disk);
        let first_epoch = Snapshot::of(&live.epoch);
        let first_entries = Snapshot::of(&entries);
        let kept = Snapshot::of(&entries);
        JournalBook {
            disk,
            live,
            entries,
            sector: blank(),
            place: 0,
            count: 0,
            records: 0,
            written: 0,
            synced: 0,
            stopped: false,
            ends: 0,
            clears: 0,
            began,
            opened,
            first_epoch,
            first_entries,
            asked: false,
            kept,
        }
    }

    /// What recovery gives of its disk, where that tells its sectors. In every image since the opening ended it is an epoch of the
    /// book's story with the first of its records. No image falls back behind what all images of an earlier moment show, and those of
    /// now have every synced record; once the last record is synced they have them all. Within the opening, where the disk was at rest as
    /// it began, each image gave what the disk gave before, no journal where epoch 0 was made, or what was opened.
    pub fn one_history(&self)
        ensures some { HasSome (disk_of self.now) (memory_of self.now) }
        ensures over { (so_far : Story) → HasStory (disk_of self.now) (memory_of self.now) so_far → KeepsOver (seen_of self.now) so_far (memory_of self.now).records (memory_of self.now).synced (disk_of self.now) }
        ensures all { (memory_of self.now).synced ≡ (memory_of self.now).records → (so_far : Story) → HasStory (disk_of self.now) (memory_of self.now) so_far → KeepsAll (seen_of self.now) so_far (memory_of self.now).records (disk_of self.now) }
    {}

    /// How many blocks it has entries of.
    pub fn blocks(&self) -> usize
        ensures { result ≡ length (seen_of self.now).now }
    {
        self.entries.len()
    }

    /// Makes a new journal: epoch 0, no records, and no block was ever written.
    pub fn create(
        alloc: Global,
        mut disk: D,
        id: &StoreId,
        log_sectors: u32,
    ) -> Result<JournalBook<D>, OpenRefused<D>>
        requires logs { (0 < log_sectors) × (log_sectors ≤ 65536) }
        requires room { end_of id.now.geometry.blocks log_sectors ≤ (D.seen disk).sectors }
        ensures opened { IfOk result (λ book. IsOpened (D.seen disk) (began_of book) (opened_of book) (disk_of book) (memory_of book)
            (new_live id.now log_sectors) (replicate id.now.geometry.blocks (Settled 0))) }
        ensures ready { IfOk result (λ book. (seen_of book).shut ≡ false) }
        ensures refused { IfErr result (λ refused. NotMade (new_live id.now log_sectors) (replicate id.now.geometry.blocks (Settled 0)) (D.seen disk) (D.seen refused.disk) refused.why) }
    {
        let began = Snapshot::of(&disk);
        let Ok(entries) = never_written(alloc, id.geometry.blocks()) else {
            return Err(refuse(disk, OpenFault::NoMemory));
        };
        let live = Live {
            version: 2,
            epoch: 0,
            id: *id,
            log_sectors,
        };
        if make_new(&mut disk, &live).is_err() {
            return Err(refuse(disk, OpenFault::Failed));
        }
        Ok(Self::open(disk, live, entries, began))
    }

    /// Opens a journal in the next epoch, with these entries and no records.
    pub fn open_after(
        mut disk: D,
        live: &Live,
        entries: Vec<Entry>,
    ) -> Result<JournalBook<D>, OpenRefused<D>>
        requires limits { IsWithinLimits (gate_of_live live.now) }
        requires room { journal_end live.now ≤ (D.seen disk).sectors }
        requires one_each { length entries.items ≡ blocks_of live.now }
        requires valid { AreEntries entries.items }
        requires found { WhenTold (D.seen disk).told (HasLive live.now) }
        ensures opened { IfOk result (λ book. IsOpened (D.seen disk) (began_of book) (opened_of book) (disk_of book) (memory_of book) (next_of live.now) entries.items) }
        ensures low { OnOk result (live.now.epoch < last_epoch) }
        ensures ready { IfOk result (λ book. (seen_of book).shut ≡ false) }
        ensures refused { IfErr result (λ refused. NotOpened live.now entries.items (D.seen disk) (D.seen refused.disk) refused.why) }
    {
        let began = Snapshot::of(&disk);
        if live.epoch == LAST_EPOCH {
            let epoch = live.epoch;
            return Err(refuse(disk, OpenFault::EpochEnd { epoch }));
        }
        let next = Live {
            version: 2,
            epoch: live.epoch + 1,
            id: live.id,
            log_sectors: live.log_sectors,
        };
        if reopen(&mut disk, live, &next, &entries).is_err() {
            return Err(refuse(disk, OpenFault::Failed));
        }
        Ok(Self::open(disk, next, entries, began))
    }

    /// Makes all records stay, and gives the disk back.
    pub fn close(mut self) -> Result<D, D>
        ensures closed { IfOk result (λ disk. IsClosed (disk_of self) (D.seen disk) (memory_of self)) }
        ensures given_up { IfErr result (λ disk. IsGivenUp (began_of self) (disk_of self) (D.seen disk) (memory_of self)) }
        ensures all { IfOk result (λ disk. (so_far : Story) → HasStory (disk_of self) (memory_of self) so_far → KeepsAll (closed (seen_of self) (D.seen disk)) so_far (memory_of self).records (D.seen disk)) }
        ensures over { IfErr result (λ disk. (so_far : Story) → HasStory (disk_of self) (memory_of self) so_far
            → KeepsOver (given_up (memory_of self).records (seen_of self) (D.seen disk)) so_far (memory_of self).records (memory_of self).synced (D.seen disk)) }
        // Where no call had failed before, one failed in this call.
        ensures now { IfErr result (λ disk. (seen_of self).stopped ≡ None → Rose (disk_of self).faults (D.seen disk).faults) }
    {
        if self.keep_all().is_err() {
            return Err(self.disk);
        }
        Ok(self.disk)
    }

    /// How many records the epoch has.
    pub fn records(&self) -> u64
        ensures { result ≡ (memory_of self.now).records }
    {
        self.records
    }

    /// How many records the epoch had when a call failed, where one did.
    pub fn stopped_at(&self) -> Option<u64>
        ensures { result ≡ (seen_of self.now).stopped }
    {
        if self.stopped {
            Some(self.records)
        } else {
            None
        }
    }

    /// Adds a record that doesn't fill its sector.
    fn put(&mut self, made: &Record)
        requires running { (memory_of self.old).stopped ≡ false }
        requires room { (memory_of self.old).place < (memory_of self.old).live.log_sectors }
        requires short { (memory_of self.old).count < 29 }
        requires legal { IsLegalOn (memory_of self.old).entries made.now }
        requires spelled { IsSpelled 2 made.now }
        ensures appended { Appended made.now (seen_of self.old) (seen_of self.new) }
        ensures unsynced { Unsynced (seen_of self.old) (seen_of self.new) }
        ensures cause { HasBookCause (seen_of self.old) (seen_of self.new) (Ok (tt {0})) }
        ensures story { Continues made.now (disk_of self.old) (memory_of self.old) (disk_of self.new) (memory_of self.new) (Ok (tt {0})) }
        ensures live { (memory_of self.new).live ≡ (memory_of self.old).live }
        ensures records { (memory_of self.new).records ≡ (memory_of self.old).records + 1 }
        ensures runs { (memory_of self.new).stopped ≡ false }
        ensures same { (disk_of self.new ≡ disk_of self.old) × ((memory_of self.new).synced ≡ (memory_of self.old).synced) }
    {
        add_record(&mut self.sector, &self.live, self.place, self.count, made);
        self.count += 1;
        note(&mut self.entries, &mut self.ends, &mut self.clears, made);
        self.records += 1;
    }

    /// Adds the record that fills its sector, and writes the sector.
    fn fill(&mut self, made: &Record) -> Result<(), BookFault>
        requires running { (memory_of self.old).stopped ≡ false }
        requires room { (memory_of self.old).place < (memory_of self.old).live.log_sectors }
        requires last { (memory_of self.old).count ≡ 29 }
        requires legal { IsLegalOn (memory_of self.old).entries made.now }
        requires spelled { IsSpelled 2 made.now }
        ensures appended { Appended made.now (seen_of self.old) (seen_of self.new) }
        ensures unsynced { Unsynced (seen_of self.old) (seen_of self.new) }
        ensures cause { HasBookCause (seen_of self.old) (seen_of self.new) result }
        ensures more { OneMore (memory_of self.old) (memory_of self.new) result }
        ensures story { Continues made.now (disk_of self.old) (memory_of self.old) (disk_of self.new) (memory_of self.new) result }
        ensures fault { IfErr result (λ fault. fault ≡ FailedFault) }
        ensures goes_on { GoesOn (journal_end (memory_of self.old).live) (disk_of self.old) (disk_of self.new) }
        ensures few { AddsAtMost 1 (disk_of self.old) (disk_of self.new) }
    {
        add_record(&mut self.sector, &self.live, self.place, self.count, made);
        self.count = 30;
        note(&mut self.entries, &mut self.ends, &mut self.clears, made);
        self.records += 1;
        let filled = log_sector(&self.live, self.place);
        if self.disk.write(filled, &self.sector).is_err() {
            self.stopped = true;
            return Err(BookFault::Failed);
        }
        self.written = self.records;
        self.sector = blank();
        self.place += 1;
        self.count = 0;
        Ok(())
    }

    /// Appends to a log that is full: the map of the next epoch holds the record.
    fn append_over(&mut self, made: &Record) -> Result<(), BookFault>
        requires running { (memory_of self.old).stopped ≡ false }
        requires full { (memory_of self.old).place ≡ (memory_of self.old).live.log_sectors }
        requires low { (memory_of self.old).live.epoch < 9223372036854775807 }
        requires legal { IsLegalOn (memory_of self.old).entries made.now }
        requires spelled { IsSpelled 2 made.now }
        ensures appended { Appended made.now (seen_of self.old) (seen_of self.new) }
        ensures unsynced { Unsynced (seen_of self.old) (seen_of self.new) }
        ensures cause { HasBookCause (seen_of self.old) (seen_of self.new) result }
        ensures more { OneMore (memory_of self.old) (memory_of self.new) result }
        ensures story { Continues made.now (disk_of self.old) (memory_of self.old) (disk_of self.new) (memory_of self.new) result }
        ensures fault { IfErr result (λ fault. fault ≡ FailedFault) }
        ensures goes_on { GoesOn (journal_end (memory_of self.old).live) (disk_of self.old) (disk_of self.new) }
    {
        let after = Live {
            version: 2,
            epoch: self.live.epoch + 1,
            id: self.live.id,
            log_sectors: self.live.log_sectors,
        };
        note(&mut self.entries, &mut self.ends, &mut self.clears, made);
        self.records += 1;
        if begin_epoch(&mut self.disk, &after, &self.entries).is_err() {
            self.stopped = true;
            return Err(BookFault::Failed);
        }
        self.live = after;
        self.sector = blank();
        self.place = 0;
        self.count = 0;
        self.records = 0;
        self.written = 0;
        self.synced = 0;
        self.kept = Snapshot::of(&self.entries);
        Ok(())
    }

    /// Appends a record: to the log, or to the map of the next epoch where the log is full.
    fn append(&mut self, made: &Record) -> Result<(), BookFault>
        requires legal { IsLegalOn (memory_of self.old).entries made.now }
        requires spelled { IsSpelled 2 made.now }
        ensures ok { OnOk result (Appended made.now (seen_of self.old) (seen_of self.new)) }
        ensures err { OnErr result (Shuts made.now (seen_of self.old) (seen_of self.new)) }
        ensures appended { StaysAppended made.now (seen_of self.old) (seen_of self.new) result }
        ensures unsynced { Unsynced (seen_of self.old) (seen_of self.new) }
        ensures cause { HasBookCause (seen_of self.old) (seen_of self.new) result }
        ensures more { OneMore (memory_of self.old) (memory_of self.new) result }
        ensures story { Continues made.now (disk_of self.old) (memory_of self.old) (disk_of self.new) (memory_of self.new) result }
        ensures still { StaysInHand (memory_of self.old) → disk_of self.new ≡ disk_of self.old }
        ensures goes_on { GoesOn (journal_end (memory_of self.old).live) (disk_of self.old) (disk_of self.new) }
        ensures few { (memory_of self.old).records < 30 * (memory_of self.old).live.log_sectors → AddsAtMost 1 (disk_of self.old) (disk_of self.new) }
    {
        if self.stopped {
            return Err(BookFault::Stopped {
                records: self.records,
            });
        }
        if self.place < self.live.log_sectors {
            if self.count == 29 {
                return self.fill(made);
            }
            self.put(made);
            return Ok(());
        }
        if self.live.epoch == LAST_EPOCH {
            return Err(BookFault::EpochEnd {
                epoch: self.live.epoch,
            });
        }
        self.append_over(made)
    }

    /// Begins the next epoch, with the entries as they are and no records. A book whose last epoch is open, or that is stopped, stays
    /// as it is.
    pub fn turnover(&mut self) -> Result<(), BookFault>
        ensures follows { Turns (seen_of self.old) (seen_of self.new) }
        ensures cause { TurnCause (disk_of self.old) (disk_of self.new) result }
        ensures turn { OneTurn (memory_of self.old) (memory_of self.new) result }
        ensures story { Renews (disk_of self.old) (memory_of self.old) (disk_of self.new) (memory_of self.new) result }
        ensures ready { OnOk result ((seen_of self.new).shut ≡ false) }
        ensures answers { Answers ⊤ (memory_of self.old) result }
        ensures goes_on { GoesOn (journal_end (memory_of self.old).live) (disk_of self.old) (disk_of self.new) }
    {
        if self.stopped {
            return Err(BookFault::Stopped {
                records: self.records,
            });
        }
        if self.live.epoch == LAST_EPOCH {
            return Err(BookFault::EpochEnd {
                epoch: self.live.epoch,
            });
        }
        let next = Live {
            version: 2,
            epoch: self.live.epoch + 1,
            id: self.live.id,
            log_sectors: self.live.log_sectors,
        };
        self.asked = true;
        if begin_epoch(&mut self.disk, &next, &self.entries).is_err() {
            self.stopped = true;
            return Err(BookFault::Failed);
        }
        self.live = next;
        self.sector = blank();
        self.place = 0;
        self.count = 0;
        self.records = 0;
        self.written = 0;
        self.synced = 0;
        self.kept = Snapshot::of(&self.entries);
        Ok(())
    }

    /// Writes the records in hand, where one isn't written.
    fn write_part(&mut self) -> Result<(), BookFault>
        requires running { (memory_of self.old).stopped ≡ false }
        ensures ok { OnOk result (memory_of self.new ≡ record (memory_of self.old) { written = (memory_of self.old).records }) }
        ensures err { OnErr result (memory_of self.new ≡ record (memory_of self.old) { stopped = true }) }
        ensures fault { IfErr result (λ fault. fault ≡ FailedFault) }
        ensures live { (memory_of self.new).live ≡ (memory_of self.old).live }
        ensures same { (began_of self.new ≡ began_of self.old) × (opened_of self.new ≡ opened_of self.old) }
        ensures cause { HasCause (disk_of self.old).faults (disk_of self.new).faults result }
        ensures story { SameStory (disk_of self.old) (memory_of self.old) (disk_of self.new) (memory_of self.new) }
        ensures still { (memory_of self.old).written ≡ (memory_of self.old).records → disk_of self.new ≡ disk_of self.old }
        ensures goes_on { GoesOn (journal_end (memory_of self.old).live) (disk_of self.old) (disk_of self.new) }
        ensures few { AddsAtMost 1 (disk_of self.old) (disk_of self.new) }
    {
        if self.written == self.records {
            return Ok(());
        }
        let at = log_sector(&self.live, self.place);
        if self.disk.write(at, &self.sector).is_err() {
            self.stopped = true;
            return Err(BookFault::Failed);
        }
        self.written = self.records;
        Ok(())
    }

    /// Makes what was written stay, where some of it doesn't.
    fn sync_log(&mut self) -> Result<(), BookFault>
        requires running { (memory_of self.old).stopped ≡ false }
        requires all { (memory_of self.old).written ≡ (memory_of self.old).records }
        ensures ok { OnOk result (memory_of self.new ≡ record (memory_of self.old) { synced = (memory_of self.old).records; kept = (memory_of self.old).entries }) }
        ensures err { OnErr result (memory_of self.new ≡ record (memory_of self.old) { stopped = true }) }
        ensures fault { IfErr result (λ fault. fault ≡ FailedFault) }
        ensures same { (began_of self.new ≡ began_of self.old) × (opened_of self.new ≡ opened_of self.old) }
        ensures cause { HasCause (disk_of self.old).faults (disk_of self.new).faults result }
        ensures story { SameStory (disk_of self.old) (memory_of self.old) (disk_of self.new) (memory_of self.new) }
        ensures still { (memory_of self.old).synced ≡ (memory_of self.old).records → disk_of self.new ≡ disk_of self.old }
        ensures goes_on { GoesOn (journal_end (memory_of self.old).live) (disk_of self.old) (disk_of self.new) }
        ensures few { AddsAtMost 1 (disk_of self.old) (disk_of self.new) }
    {
        if self.synced == self.records {
            return Ok(());
        }
        if self.disk.sync().is_err() {
            self.stopped = true;
            return Err(BookFault::Failed);
        }
        self.synced = self.records;
        self.kept = Snapshot::of(&self.entries);
        Ok(())
    }

    /// Makes all records stay.
    fn keep_all(&mut self) -> Result<(), BookFault>
        ensures kept { Kept (seen_of self.old) (seen_of self.new) }
        ensures ok { OnOk result ((seen_of self.new).synced ≡ (seen_of self.new).now) }
        ensures err { OnErr result ((seen_of self.new).shut ≡ true) }
        ensures cause { HasFlushCause (seen_of self.old) (seen_of self.new) result }
        ensures all { OnOk result (((memory_of self.old).stopped ≡ false) × (memory_of self.new ≡ all_synced (memory_of self.old))) }
        ensures stops { OnErr result (IsStopped (memory_of self.old) (memory_of self.new)) }
        ensures same { (began_of self.new ≡ began_of self.old) × (opened_of self.new ≡ opened_of self.old) }
        ensures story { SameStory (disk_of self.old) (memory_of self.old) (disk_of self.new) (memory_of self.new) }
        ensures still { (memory_of self.old).synced ≡ (memory_of self.old).records → disk_of self.new ≡ disk_of self.old }
        ensures goes_on { GoesOn (journal_end (memory_of self.old).live) (disk_of self.old) (disk_of self.new) }
        ensures few { AddsAtMost 2 (disk_of self.old) (disk_of self.new) }
    {
        if self.stopped {
            return Err(BookFault::Stopped {
                records: self.records,
            });
        }
        self.write_part()?;
        self.sync_log()
    }
}

impl<D: Disk + Send> Book for JournalBook<D> {
    ghost use Rattle.key_state.specs.Books.{Appended, HasBookCause, HasFlushCause, Kept, MayAppend, Shuts, Unsynced};
    ghost use Rattle.key_state.specs.declared.record.Record.TheVariants.{Begin, End, Bad as BadRecord, BeginRun, EndRun, Clear};
    ghost use Rattle.journal_core.specs.Book.{disk_of, memory_of, seen_of, journal_is_book};
    ghost use Rattle.journal_core.specs.Calls.{AddsAtMost, all_synced, Continues, GoesOn, IsStopped, OneMore, SameStory, StaysAppended, StaysInHand};

    ghost seen = { seen_of };

    ghost is_book = { journal_is_book };

    fn begin(&mut self, block: BlockNo, old: Key, new: Key) -> Result<(), BookFault>
        requires { MayAppend (seen_of self.old) (Begin block old new) }
        ensures ok { OnOk result (Appended (Begin block old new) (seen_of self.old) (seen_of self.new)) }
        ensures err { OnErr result (Shuts (Begin block old new) (seen_of self.old) (seen_of self.new)) }
        ensures appended { StaysAppended (Begin block old new) (seen_of self.old) (seen_of self.new) result }
        ensures unsynced { Unsynced (seen_of self.old) (seen_of self.new) }
        ensures cause { HasBookCause (seen_of self.old) (seen_of self.new) result }
        ensures more { OneMore (memory_of self.old) (memory_of self.new) result }
        ensures story { Continues (Begin block old new) (disk_of self.old) (memory_of self.old) (disk_of self.new) (memory_of self.new) result }
        ensures still { StaysInHand (memory_of self.old) → disk_of self.new ≡ disk_of self.old }
        ensures goes_on { GoesOn (journal_end (memory_of self.old).live) (disk_of self.old) (disk_of self.new) }
        ensures few { (memory_of self.old).records < 30 * (memory_of self.old).live.log_sectors → AddsAtMost 1 (disk_of self.old) (disk_of self.new) }
    {
        self.append(&Record::Begin { block, old, new })
    }

    fn end(&mut self, block: BlockNo, key: Key) -> Result<(), BookFault>
        requires { MayAppend (seen_of self.old) (End block key) }
        ensures ok { OnOk result (Appended (End block key) (seen_of self.old) (seen_of self.new)) }
        ensures err { OnErr result (Shuts (End block key) (seen_of self.old) (seen_of self.new)) }
        ensures appended { StaysAppended (End block key) (seen_of self.old) (seen_of self.new) result }
        ensures unsynced { Unsynced (seen_of self.old) (seen_of self.new) }
        ensures cause { HasBookCause (seen_of self.old) (seen_of self.new) result }
        ensures more { OneMore (memory_of self.old) (memory_of self.new) result }
        ensures story { Continues (End block key) (disk_of self.old) (memory_of self.old) (disk_of self.new) (memory_of self.new) result }
        ensures still { StaysInHand (memory_of self.old) → disk_of self.new ≡ disk_of self.old }
        ensures goes_on { GoesOn (journal_end (memory_of self.old).live) (disk_of self.old) (disk_of self.new) }
        ensures few { (memory_of self.old).records < 30 * (memory_of self.old).live.log_sectors → AddsAtMost 1 (disk_of self.old) (disk_of self.new) }
    {
        self.append(&Record::End { block, key })
    }

    fn bad(&mut self, block: BlockNo) -> Result<(), BookFault>
        requires { MayAppend (seen_of self.old) (BadRecord block) }
        ensures ok { OnOk result (Appended (BadRecord block) (seen_of self.old) (seen_of self.new)) }
        ensures err { OnErr result (Shuts (BadRecord block) (seen_of self.old) (seen_of self.new)) }
        ensures appended { StaysAppended (BadRecord block) (seen_of self.old) (seen_of self.new) result }
        ensures unsynced { Unsynced (seen_of self.old) (seen_of self.new) }
        ensures cause { HasBookCause (seen_of self.old) (seen_of self.new) result }
        ensures more { OneMore (memory_of self.old) (memory_of self.new) result }
        ensures story { Continues (BadRecord block) (disk_of self.old) (memory_of self.old) (disk_of self.new) (memory_of self.new) result }
        ensures still { StaysInHand (memory_of self.old) → disk_of self.new ≡ disk_of self.old }
        ensures goes_on { GoesOn (journal_end (memory_of self.old).live) (disk_of self.old) (disk_of self.new) }
        ensures few { (memory_of self.old).records < 30 * (memory_of self.old).live.log_sectors → AddsAtMost 1 (disk_of self.old) (disk_of self.new) }
    {
        self.append(&Record::Bad { block })
    }

    fn begin_run(&mut self, first: BlockNo, many: u32) -> Result<(), BookFault>
        requires many { (2 ≤ many) × (many ≤ 64) }
        requires legal { MayAppend (seen_of self.old) (BeginRun first many) }
        ensures ok { OnOk result (Appended (BeginRun first many) (seen_of self.old) (seen_of self.new)) }
        ensures err { OnErr result (Shuts (BeginRun first many) (seen_of self.old) (seen_of self.new)) }
        ensures appended { StaysAppended (BeginRun first many) (seen_of self.old) (seen_of self.new) result }
        ensures unsynced { Unsynced (seen_of self.old) (seen_of self.new) }
        ensures cause { HasBookCause (seen_of self.old) (seen_of self.new) result }
        ensures more { OneMore (memory_of self.old) (memory_of self.new) result }
        ensures story { Continues (BeginRun first many) (disk_of self.old) (memory_of self.old) (disk_of self.new) (memory_of self.new) result }
        ensures still { StaysInHand (memory_of self.old) → disk_of self.new ≡ disk_of self.old }
        ensures goes_on { GoesOn (journal_end (memory_of self.old).live) (disk_of self.old) (disk_of self.new) }
        ensures few { (memory_of self.old).records < 30 * (memory_of self.old).live.log_sectors → AddsAtMost 1 (disk_of self.old) (disk_of self.new) }
    {
        self.append(&Record::BeginRun { first, many })
    }

    fn end_run(&mut self, first: BlockNo, many: u32) -> Result<(), BookFault>
        requires many { (2 ≤ many) × (many ≤ 64) }
        requires legal { MayAppend (seen_of self.old) (EndRun first many) }
        ensures ok { OnOk result (Appended (EndRun first many) (seen_of self.old) (seen_of self.new)) }
        ensures err { OnErr result (Shuts (EndRun first many) (seen_of self.old) (seen_of self.new)) }
        ensures appended { StaysAppended (EndRun first many) (seen_of self.old) (seen_of self.new) result }
        ensures unsynced { Unsynced (seen_of self.old) (seen_of self.new) }
        ensures cause { HasBookCause (seen_of self.old) (seen_of self.new) result }
        ensures more { OneMore (memory_of self.old) (memory_of self.new) result }
        ensures story { Continues (EndRun first many) (disk_of self.old) (memory_of self.old) (disk_of self.new) (memory_of self.new) result }
        ensures still { StaysInHand (memory_of self.old) → disk_of self.new ≡ disk_of self.old }
        ensures goes_on { GoesOn (journal_end (memory_of self.old).live) (disk_of self.old) (disk_of self.new) }
        ensures few { (memory_of self.old).records < 30 * (memory_of self.old).live.log_sectors → AddsAtMost 1 (disk_of self.old) (disk_of self.new) }
    {
        self.append(&Record::EndRun { first, many })
    }

    fn clear_run(&mut self, first: BlockNo, many: u32) -> Result<(), BookFault>
        requires many { (1 ≤ many) × (many ≤ 64) }
        requires legal { MayAppend (seen_of self.old) (Clear first many) }
        ensures ok { OnOk result (Appended (Clear first many) (seen_of self.old) (seen_of self.new)) }
        ensures err { OnErr result (Shuts (Clear first many) (seen_of self.old) (seen_of self.new)) }
        ensures appended { StaysAppended (Clear first many) (seen_of self.old) (seen_of self.new) result }
        ensures unsynced { Unsynced (seen_of self.old) (seen_of self.new) }
        ensures cause { HasBookCause (seen_of self.old) (seen_of self.new) result }
        ensures more { OneMore (memory_of self.old) (memory_of self.new) result }
        ensures story { Continues (Clear first many) (disk_of self.old) (memory_of self.old) (disk_of self.new) (memory_of self.new) result }
        ensures still { StaysInHand (memory_of self.old) → disk_of self.new ≡ disk_of self.old }
        ensures goes_on { GoesOn (journal_end (memory_of self.old).live) (disk_of self.old) (disk_of self.new) }
        ensures few { (memory_of self.old).records < 30 * (memory_of self.old).live.log_sectors → AddsAtMost 1 (disk_of self.old) (disk_of self.new) }
    {
        self.append(&Record::Clear { first, many })
    }

    /// Makes all records stay. It adds at most two moments to the disk's, by a write and a sync; where no record is unsynced it makes no
    /// call of the disk.
    fn flush(&mut self) -> Result<(), BookFault>
        ensures kept { Kept (seen_of self.old) (seen_of self.new) }
        ensures ok { OnOk result ((seen_of self.new).synced ≡ (seen_of self.new).now) }
        ensures err { OnErr result ((seen_of self.new).shut ≡ true) }
        ensures cause { HasFlushCause (seen_of self.old) (seen_of self.new) result }
        ensures all { OnOk result (((memory_of self.old).stopped ≡ false) × (memory_of self.new ≡ all_synced (memory_of self.old))) }
        ensures stops { OnErr result (IsStopped (memory_of self.old) (memory_of self.new)) }
        ensures story { SameStory (disk_of self.old) (memory_of self.old) (disk_of self.new) (memory_of self.new) }
        ensures still { (memory_of self.old).synced ≡ (memory_of self.old).records → disk_of self.new ≡ disk_of self.old }
        ensures goes_on { GoesOn (journal_end (memory_of self.old).live) (disk_of self.old) (disk_of self.new) }
        ensures few { AddsAtMost 2 (disk_of self.old) (disk_of self.new) }
    {
        self.keep_all()
    }

    fn entry(&self, block: BlockNo) -> Entry {
        self.entries[block.0 as usize]
    }

    fn ends(&self) -> u64 {
        self.ends
    }
}
