// Journals written over disks in memory, and what a stop leaves of them.
use crate::{JournalBook, OpenFault};
use journal_layout::{Gate, Places, put_gate};
use journal_recover::{RecoverFault, Recovered, recovered};
use key_state::{Book, BookFault, Entry};
use std::alloc::Global;
use std::process::Abort;
use vd_base::{BlockNo, Geometry, Sector, StoreId, StoreName, next_key};
use vd_disk::{Disk, MemDisk};

fn store(rt: &impl Abort) -> StoreId {
    StoreId {
        name: StoreName::read(b"sd1".as_slice()).expect(rt, "a name"),
        geometry: Geometry::new(16, 4096).expect(rt, "a geometry"),
    }
}

/// A disk of zeros for a journal of 16 blocks and one log sector: two gates, two maps, two logs.
fn zeros(rt: &impl Abort, alloc: Global) -> MemDisk {
    MemDisk::new(alloc, 6, Vec::new(alloc)).expect(rt, "memory")
}

fn over(rt: &impl Abort, alloc: Global, sectors: Vec<Sector>) -> MemDisk {
    MemDisk::of(alloc, sectors, Vec::new(alloc)).expect(rt, "memory")
}

/// A disk that was left so, as an image.
fn left(rt: &impl Abort, alloc: Global, disk: &MemDisk, pick: u64) -> MemDisk {
    over(rt, alloc, disk.image(alloc, pick).expect(rt, "memory"))
}

/// What recovery gives of an image.
fn found(
    rt: &impl Abort,
    alloc: Global,
    disk: &MemDisk,
    pick: u64,
) -> Result<Recovered, RecoverFault> {
    let mut disk = left(rt, alloc, disk, pick);
    recovered(alloc, &mut disk, &store(rt))
}

/// Begins the next write of a block, or ends the one that was begun.
fn step(rt: &impl Abort, book: &mut JournalBook<MemDisk>, block: BlockNo) -> Result<(), BookFault> {
    assert!(rt; (block.0 as usize) < book.blocks());
    match book.entry(block) {
        Entry::Settled(old) => book.begin(block, old, next_key(old)),
        Entry::Pending { new, .. } => book.end(block, new),
        Entry::Bad => Ok(()),
    }
}

fn go_on(rt: &impl Abort, book: &mut JournalBook<MemDisk>, block: BlockNo) -> bool {
    step(rt, book, block).is_ok()
}

fn create(rt: &impl Abort, alloc: Global, disk: MemDisk) -> Result<JournalBook<MemDisk>, MemDisk> {
    let id = store(rt);
    let end = Places::new(id.geometry.blocks(), 1).end();
    assert!(rt; end <= disk.sectors());
    match JournalBook::create(alloc, disk, &id, 1) {
        Ok(book) => Ok(book),
        Err(refused) => {
            assert_eq!(rt; refused.why, OpenFault::Failed);
            Err(refused.disk)
        }
    }
}

/// Appends so many records: each write of a block begins and ends, block after block.
fn append(rt: &impl Abort, book: &mut JournalBook<MemDisk>, records: u32) {
    for i in 0..records {
        assert!(rt; go_on(rt, book, BlockNo(i / 2 % 16)));
    }
}

/// Whether this is the entry of a block after so many of these records.
fn is_after(entry: Entry, block: u32, records: u64) -> bool {
    let steps = 2 * (records / 32) + (records % 32).saturating_sub(2 * block as u64).min(2);
    match entry {
        Entry::Settled(key) => steps % 2 == 0 && key.get() as u64 == steps / 2,
        Entry::Pending { old, new } => {
            steps % 2 == 1 && old.get() as u64 == steps / 2 && new.get() as u64 == steps / 2 + 1
        }
        Entry::Bad => false,
    }
}

fn are_after(entries: &[Entry], records: u64) -> bool {
    let mut block = 0u32;
    for entry in entries {
        if !is_after(*entry, block, records) {
            return false;
        }
        block = block.saturating_add(1);
    }
    block == 16
}

/// The reads, writes and syncs of making a journal, of so many records with one flush, and of a turnover where one is asked for.
fn calls_of(rt: &impl Abort, alloc: Global, records: u32, turnover: bool) -> (u64, u64, u64) {
    let mut book = create(rt, alloc, zeros(rt, alloc))
        .ok()
        .expect(rt, "no call is to fail");
    append(rt, &mut book, records);
    assert!(rt; book.flush().is_ok());
    if turnover {
        assert!(rt; book.turnover().is_ok());
    }
    assert_eq!(rt;
        (book.stopped_at(), book.ends()),
        (None, (records / 2) as u64)
    );
    book.close().ok().expect(rt, "no call is to fail").calls()
}

#[test]
fn calls_are_shared(rt: HostRuntime) {
    // Made: 2 reads; a write and a sync for each gate; 4 writes and a sync; a write and a sync for the new gate.
    for (records, turnover, calls) in [
        (0, false, (2, 7, 4)),
        (1, false, (2, 8, 5)),
        (3, false, (2, 8, 5)),
        // The 30th record fills its sector, which is written once.
        (30, false, (2, 8, 5)),
        // The 31st begins an epoch, by a map, a sync, a gate and a sync, and leaves nothing to flush.
        (31, false, (2, 10, 6)),
        (32, false, (2, 11, 7)),
        (3, true, (2, 10, 7)),
    ] {
        let used = calls_of(&rt, rt.alloc(), records, turnover);
        assert_eq!(rt; used, calls, "{records} records");
    }
}

#[test]
fn a_begin_is_left_once_it_was_flushed(rt: HostRuntime) {
    let alloc = rt.alloc();
    // Making a journal takes thirteen calls, a flush two: with the last of them the begin stays.
    for (calls, records) in [(13, 0), (14, 0), (15, 1)] {
        let mut disk = zeros(&rt, alloc);
        disk.fuse(calls);
        let mut book = create(&rt, alloc, disk)
            .ok()
            .expect(&rt, "thirteen calls are to go on");
        append(&rt, &mut book, 1);
        let flushed = book.flush().is_ok();
        assert_eq!(rt; flushed, records == 1);
        let disk = match book.close() {
            Ok(disk) => disk,
            Err(disk) => disk,
        };
        let left = found(&rt, alloc, &disk, 0).expect(&rt, "a journal");
        assert_eq!(rt;
            (left.live.epoch, left.records),
            (0, records),
            "{calls} calls"
        );
        assert!(rt; are_after(&left.entries, records));
    }
}

#[test]
fn an_append_past_a_full_log_begins_an_epoch(rt: HostRuntime) {
    let alloc = rt.alloc();
    for (records, epoch, stored) in [(30, 0, 30), (31, 1, 0), (32, 1, 1)] {
        let mut book = create(&rt, alloc, zeros(&rt, alloc))
            .ok()
            .expect(&rt, "no call is to fail");
        append(&rt, &mut book, records);
        assert_eq!(rt; book.epoch(), epoch);
        let disk = book.close().ok().expect(&rt, "no call is to fail");
        let left = found(&rt, alloc, &disk, 0).expect(&rt, "a journal");
        assert_eq!(rt; (left.live.epoch, left.records), (epoch, stored));
        assert!(rt; are_after(&left.entries, records as u64));
    }
}

#[test]
fn a_turnover_that_fails_in_an_append_leaves_one_record_more(rt: HostRuntime) {
    let alloc = rt.alloc();
    // Making takes 13 calls, the 30th record one, the 31st four: a map, a sync, a gate, a sync.
    for calls in 14..18 {
        let mut disk = zeros(&rt, alloc);
        disk.fuse(calls);
        let mut book = create(&rt, alloc, disk)
            .ok()
            .expect(&rt, "thirteen calls are to go on");
        append(&rt, &mut book, 30);
        let failed = step(&rt, &mut book, BlockNo(15));
        assert_eq!(rt; failed, Err(BookFault::Failed), "{calls} calls");
        let seen = (book.stopped_at(), book.epoch(), book.ends());
        assert_eq!(rt; seen, (Some(31), 0, 15), "{calls} calls");
        let stopped = Err(BookFault::Stopped { records: 31 });
        let ended = step(&rt, &mut book, BlockNo(15));
        let asked = book.turnover();
        let flushed = book.flush();
        assert_eq!(rt;
            (ended, asked, flushed),
            (stopped, stopped, stopped),
            "{calls} calls"
        );
    }
}

/// Opens what a disk gives in the next epoch.
fn reopen(
    rt: &impl Abort,
    alloc: Global,
    mut disk: MemDisk,
) -> Result<JournalBook<MemDisk>, (MemDisk, Option<OpenFault>)> {
    let Ok(left) = recovered(alloc, &mut disk, &store(rt)) else {
        return Err((disk, None));
    };
    let live = left.live;
    match JournalBook::open_after(disk, &live, left.entries) {
        Ok(book) => Ok(book),
        Err(refused) => Err((refused.disk, Some(refused.why))),
    }
}

const LAST_EPOCH: u64 = 9_223_372_036_854_775_807;

/// A journal without records, of the last epoch but one.
fn late(rt: &impl Abort, alloc: Global) -> MemDisk {
    let blank = zeros(rt, alloc);
    let mut sectors = Vec::from_slice(alloc, blank.contents()).expect(rt, "memory");
    let gate = Gate {
        version: 2,
        epoch: LAST_EPOCH - 1,
        id: store(rt),
        log_sectors: 1,
    };
    put_gate(&gate, sectors.get_mut(0).expect(rt, "the gate of area 0"));
    over(rt, alloc, sectors)
}

#[test]
fn the_last_epoch_takes_records_until_its_log_is_full(rt: HostRuntime) {
    let alloc = rt.alloc();
    let mut book = reopen(&rt, alloc, late(&rt, alloc))
        .ok()
        .expect(&rt, "one epoch is left");
    let end = Err(BookFault::EpochEnd { epoch: LAST_EPOCH });
    let asked = book.turnover();
    append(&rt, &mut book, 30);
    let one_more = step(&rt, &mut book, BlockNo(15));
    assert_eq!(rt; (asked, one_more), (end, end));
    let seen = (book.stopped_at(), book.epoch(), book.ends());
    assert_eq!(rt; seen, (None, LAST_EPOCH, 15));
    let disk = book.close().ok().expect(&rt, "no call is to fail");
    let left = found(&rt, alloc, &disk, 0).expect(&rt, "a journal");
    assert_eq!(rt; (left.live.epoch, left.records), (LAST_EPOCH, 30));
    let why = match reopen(&rt, alloc, disk) {
        Ok(_) => None,
        Err((_, why)) => why,
    };
    assert_eq!(rt; why, Some(OpenFault::EpochEnd { epoch: LAST_EPOCH }));
}

/// The sectors of a journal of epoch 0 without records, whose log sectors are those of a journal that went on to epoch 2: each
/// has a record of a later epoch.
fn stale(rt: &impl Abort, alloc: Global) -> Vec<Sector> {
    let mut book = create(rt, alloc, zeros(rt, alloc))
        .ok()
        .expect(rt, "no call is to fail");
    append(rt, &mut book, 32);
    assert!(rt; book.flush().is_ok() && book.turnover().is_ok());
    append(rt, &mut book, 1);
    assert_eq!(rt; book.epoch(), 2);
    let later = book.close().ok().expect(rt, "no call is to fail");
    let new = create(rt, alloc, zeros(rt, alloc))
        .ok()
        .expect(rt, "no call is to fail");
    let disk = new.close().ok().expect(rt, "no call is to fail");
    let mut sectors = Vec::from_slice(alloc, disk.contents()).expect(rt, "memory");
    let places = Places::new(16, 1);
    for area in 0..2u8 {
        let at = places.log_at(area, 0) as usize;
        let log = *later.contents().get(at).expect(rt, "the log of an area");
        *sectors.get_mut(at).expect(rt, "the log of an area") = log;
    }
    sectors
}

#[test]
fn an_opening_takes_away_records_of_later_epochs(rt: HostRuntime) {
    let alloc = rt.alloc();
    for turnover in [false, true] {
        let disk = over(&rt, alloc, stale(&rt, alloc));
        let before = found(&rt, alloc, &disk, 0).expect(&rt, "a journal");
        assert_eq!(rt; (before.live.epoch, before.records), (0, 0));
        let mut book = reopen(&rt, alloc, disk)
            .ok()
            .expect(&rt, "no call is to fail");
        if turnover {
            assert!(rt; book.turnover().is_ok());
        }
        let epoch = book.epoch();
        assert_eq!(rt; epoch, 1 + turnover as u64);
        let disk = book.close().ok().expect(&rt, "no call is to fail");
        let left = found(&rt, alloc, &disk, 0).expect(&rt, "a journal");
        assert_eq!(rt; (left.live.epoch, left.records), (epoch, 0));
        assert!(rt; are_after(&left.entries, 0));
    }
}

/// The epoch of a book, and how many of all records a stop can't take back.
#[derive(Clone, Copy)]
struct Kept {
    epoch: u64,
    records: u64,
}

/// Forty records with a flush behind each fifth, then a turnover; what was kept then.
fn play(rt: &impl Abort, book: &mut JournalBook<MemDisk>) -> Kept {
    let mut kept = Kept {
        epoch: book.epoch(),
        records: 0,
    };
    for i in 0..40u32 {
        let epoch = book.epoch();
        if !go_on(rt, book, BlockNo(i / 2 % 16)) {
            return kept;
        }
        if book.epoch() != epoch || (i % 5 == 4 && book.flush().is_ok()) {
            kept = Kept {
                epoch: book.epoch(),
                records: i as u64 + 1,
            };
        }
    }
    if book.turnover().is_ok() {
        kept.epoch = book.epoch();
    }
    kept
}

/// How many of all records are in what was recovered: the 31st ends epoch 0, and the 40th epoch 1.
fn records_in(left: &Recovered) -> u64 {
    let before = match left.live.epoch {
        0 => 0,
        1 => 31,
        _ => 40,
    };
    left.records.saturating_add(before)
}

/// An image gives a journal with what was kept, or none where no gate was synced yet; and what it gives can be opened.
fn expect_kept(rt: &impl Abort, alloc: Global, image: MemDisk, kept: Option<Kept>) {
    let mut image = image;
    let left = match recovered(alloc, &mut image, &store(rt)) {
        Ok(left) => left,
        Err(why) => {
            assert_eq!(rt; why, RecoverFault::NoJournal);
            assert!(rt; kept.is_none());
            return;
        }
    };
    let records = records_in(&left);
    if let Some(kept) = kept {
        assert!(rt; kept.epoch <= left.live.epoch && kept.records <= records);
    }
    assert!(rt; are_after(&left.entries, records));
    let epoch = left.live.epoch;
    let book = reopen(rt, alloc, image)
        .ok()
        .expect(rt, "no call is to fail");
    let disk = book.close().ok().expect(rt, "no call is to fail");
    let again = found(rt, alloc, &disk, 0).expect(rt, "a journal");
    assert_eq!(rt;
        (again.live.epoch.checked_sub(epoch), again.records),
        (Some(1), 0)
    );
    assert!(rt; are_after(&again.entries, records));
}

fn expect_all(rt: &impl Abort, alloc: Global, disk: &MemDisk, kept: Option<Kept>) {
    for pick in 0..8 {
        expect_kept(rt, alloc, left(rt, alloc, disk, pick), kept);
    }
}

/// The disk of a journal that was turned over twice, so that both its gates are valid.
fn turned_twice(rt: &impl Abort, alloc: Global) -> MemDisk {
    let mut book = create(rt, alloc, zeros(rt, alloc))
        .ok()
        .expect(rt, "no call is to fail");
    let kept = play(rt, &mut book);
    assert_eq!(rt; (kept.epoch, kept.records), (2, 40));
    let disk = book.close().ok().expect(rt, "no call is to fail");
    left(rt, alloc, &disk, 0)
}

/// A whole life of a journal, made on a disk that lets so many calls go on; whether all went on.
fn whole_life(rt: &impl Abort, alloc: Global, disk: MemDisk, calls: u64) -> bool {
    let mut disk = disk;
    disk.fuse(calls);
    let mut book = match create(rt, alloc, disk) {
        Ok(book) => book,
        Err(disk) => {
            expect_all(rt, alloc, &disk, None);
            return false;
        }
    };
    let kept = play(rt, &mut book);
    let disk = match book.close() {
        Ok(disk) => disk,
        Err(disk) => {
            expect_all(rt, alloc, &disk, Some(kept));
            return false;
        }
    };
    expect_all(rt, alloc, &disk, Some(kept));
    match reopen(rt, alloc, disk) {
        Ok(book) => {
            assert_eq!(rt; book.epoch().checked_sub(kept.epoch), Some(1));
            true
        }
        Err((disk, _)) => {
            expect_all(rt, alloc, &disk, Some(kept));
            false
        }
    }
}

#[test]
fn a_stop_anywhere_loses_nothing_that_was_kept(rt: HostRuntime) {
    // Making takes 13 calls, the first 30 records 12, the 31st 4, the rest 4, the turnover 4, recovery 4, opening 6.
    for calls in 0..50 {
        let alloc = rt.alloc();
        let done = whole_life(&rt, alloc, zeros(&rt, alloc), calls);
        assert_eq!(rt; done, 47 <= calls, "{calls} calls");
    }
}

#[test]
fn a_stop_anywhere_leaves_what_an_old_journal_had_until_it_is_gone(rt: HostRuntime) {
    let alloc = rt.alloc();
    for calls in 0..50 {
        let done = whole_life(&rt, alloc, turned_twice(&rt, alloc), calls);
        assert_eq!(rt; done, 47 <= calls, "{calls} calls");
    }
}
