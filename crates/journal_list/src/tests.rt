// Listings and audits of journals on disks in memory.
ghost use Rattle.std.specs.Prelude.{◌≡◌, ◌≤◌, length};

use crate::{Audit, Listing, audit, list};
use journal_layout::{Damage, Gate, put_entry, put_gate, put_log_head, put_record};
use journal_recover::RecoverFault;
use key_state::{Entry, Record};
use std::alloc::Global;
use std::process::Abort;
use vd_base::{BlockNo, Geometry, Key, Sector, StoreId, StoreName, next_key};
use vd_disk::{Disk, MemDisk};

fn store(rt: &impl Abort, name: &str) -> StoreId {
    StoreId {
        name: StoreName::read(name.as_bytes()).expect(rt, "a name"),
        geometry: Geometry::new(16, 4096).expect(rt, "a geometry"),
    }
}

fn put(rt: &impl Abort, disk: &mut MemDisk, at: u64, sector: &Sector) {
    assert!(rt; at < disk.sectors());
    disk.write(at, sector).expect(rt, "no call is to fail");
}

fn put_the_gate(rt: &impl Abort, disk: &mut MemDisk, id: StoreId, version: u8, epoch: u64) {
    assert!(rt; 1 <= version && version <= 2 && epoch < 100);
    let gate = Gate {
        version,
        epoch,
        id,
        log_sectors: 8,
    };
    let mut sector = [0; 512];
    put_gate(&gate, &mut sector);
    put(rt, disk, epoch % 2, &sector);
}

/// A disk of a journal of 16 blocks, 8 log sectors, one gate and no records. Map and log begin at sectors 2 and 3 in area 0, at 11 and
/// 12 in area 1.
fn journal(rt: &impl Abort, alloc: Global, version: u8, epoch: u64) -> MemDisk {
    let mut disk = MemDisk::new(alloc, 20, Vec::new(alloc)).expect(rt, "memory");
    put_the_gate(rt, &mut disk, store(rt, "sd1"), version, epoch);
    disk
}

fn key(rt: &impl Abort, number: u8) -> Key
    ensures { result ≡ number }
{
    Key::of(number).expect(rt, "a key")
}

fn begin(rt: &impl Abort, block: u32, old: u8) -> Record {
    let old = key(rt, old);
    Record::Begin {
        block: BlockNo(block),
        old,
        new: next_key(old),
    }
}

fn end(rt: &impl Abort, block: u32, number: u8) -> Record {
    Record::End {
        block: BlockNo(block),
        key: key(rt, number),
    }
}

/// The head of a log sector, and no records.
fn head(rt: &impl Abort, version: u8, epoch: u64, place: u32, count: u8) -> Sector {
    assert!(rt; 1 <= version && version <= 2 && 1 <= count && count <= 30);
    let mut sector = [0; 512];
    put_log_head(&mut sector, version, epoch, place, count);
    sector
}

fn put_begin(rt: &impl Abort, sector: &mut Sector, index: usize, block: u32, old: u8) {
    assert!(rt; index < 30);
    let old = key(rt, old);
    let made = Record::Begin {
        block: BlockNo(block),
        old,
        new: next_key(old),
    };
    put_record(sector, index, &made);
}

fn put_end(rt: &impl Abort, sector: &mut Sector, index: usize, block: u32, number: u8) {
    assert!(rt; index < 30 && 1 <= number);
    let made = Record::End {
        block: BlockNo(block),
        key: key(rt, number),
    };
    put_record(sector, index, &made);
}

/// The listing of a journal, and the audit of its records.
fn listed(alloc: Global, disk: &mut MemDisk, id: &StoreId) -> Option<(Listing, Audit)> {
    match list(alloc, disk, id) {
        Ok(found) => {
            let done = audit(&found.base, &found.records);
            Some((found, done))
        }
        Err(_) => None,
    }
}

/// The audit of other records over the map of a journal.
fn audited(
    alloc: Global,
    disk: &mut MemDisk,
    id: &StoreId,
    records: &[(u64, u32, Record)],
) -> Option<Audit>
    requires { length records.now ≤ 5 }
{
    match list(alloc, disk, id) {
        Ok(found) => Some(audit(&found.base, records)),
        Err(_) => None,
    }
}

/// Why a journal isn't listed, and how many records come before.
fn refused(alloc: Global, disk: &mut MemDisk, id: &StoreId) -> Option<(usize, RecoverFault)> {
    match list(alloc, disk, id) {
        Ok(_) => None,
        Err(fault) => Some((fault.records.len(), fault.why)),
    }
}

#[test]
fn a_run_of_four_writes_whose_third_begin_failed(rt: HostRuntime) {
    let alloc = rt.alloc();
    let mut disk = journal(&rt, alloc, 2, 0);
    let mut sector = head(&rt, 2, 0, 0, 5);
    put_begin(&rt, &mut sector, 0, 0, 0);
    put_end(&rt, &mut sector, 1, 0, 1);
    put_begin(&rt, &mut sector, 2, 1, 0);
    put_end(&rt, &mut sector, 3, 1, 1);
    put_begin(&rt, &mut sector, 4, 2, 0);
    put(&rt, &mut disk, 3, &sector);
    let id = store(&rt, "sd1");
    let (found, done) = listed(alloc, &mut disk, &id).expect(&rt, "a journal");
    let expected = [
        (3, 0, begin(&rt, 0, 0)),
        (3, 1, end(&rt, 0, 1)),
        (3, 2, begin(&rt, 1, 0)),
        (3, 3, end(&rt, 1, 1)),
        (3, 4, begin(&rt, 2, 0)),
    ];
    assert!(rt; found.records.as_slice() == expected.as_slice());
    assert_eq!(rt; (found.live.version, found.live.epoch), (2, 0));
    assert!(rt; found.unused.is_empty() && found.handover.is_none());
    let legal = Audit::Legal {
        ends: 2,
        pending: 1,
        bad: 0,
    };
    assert_eq!(rt; done, legal);
}

#[test]
fn a_log_with_a_hole(rt: HostRuntime) {
    // Log sectors 0 to 4 have the begins and ends of block 0 for keys 1 to 75, sector 5 is zeros, sector 6 is full too.
    let alloc = rt.alloc();
    let mut disk = journal(&rt, alloc, 1, 0);
    let mut old = 0;
    for place in [0, 1, 2, 3, 4, 6] {
        let mut sector = head(&rt, 1, 0, place, 30);
        for pair in 0..15 {
            put_begin(&rt, &mut sector, 2 * pair, 0, old);
            assert!(rt; old < 126);
            old += 1;
            put_end(&rt, &mut sector, 2 * pair + 1, 0, old);
        }
        put(&rt, &mut disk, 3 + place as u64, &sector);
    }
    let id = store(&rt, "sd1");
    let (found, done) = listed(alloc, &mut disk, &id).expect(&rt, "a journal");
    assert_eq!(rt; (found.live.version, found.records.len()), (1, 150));
    let last = (7, 29, end(&rt, 0, 75));
    assert!(rt; found.records.last() == Some(&last));
    assert!(rt; found.unused.as_slice() == [9].as_slice());
    let legal = Audit::Legal {
        ends: 75,
        pending: 0,
        bad: 0,
    };
    assert_eq!(rt; done, legal);
}

#[test]
fn records_before_a_wrong_one(rt: HostRuntime) {
    // So many good records stand before an End of block 2, which has no Begin.
    let alloc = rt.alloc();
    let id = store(&rt, "sd1");
    for good in 0..4u32 {
        let mut disk = journal(&rt, alloc, 1, 0);
        let mut sector = head(&rt, 1, 0, 0, good as u8 + 1);
        for block in 0..good {
            put_begin(&rt, &mut sector, block as usize, 8 + block, 0);
        }
        put_end(&rt, &mut sector, good as usize, 2, 1);
        put(&rt, &mut disk, 3, &sector);
        let damaged = RecoverFault::Damaged {
            sector: 3,
            what: Damage::Record,
            at: good,
        };
        assert_eq!(rt;
            refused(alloc, &mut disk, &id),
            Some((good as usize, damaged))
        );
    }
}

#[test]
fn journals_that_are_not_there(rt: HostRuntime) {
    let alloc = rt.alloc();
    let id = store(&rt, "sd1");
    let mut none = MemDisk::new(alloc, 20, Vec::new(alloc)).expect(&rt, "memory");
    let no_journal = Some((0, RecoverFault::NoJournal));
    assert_eq!(rt; refused(alloc, &mut none, &id), no_journal);
    let mut other = journal(&rt, alloc, 1, 0);
    let wanted = store(&rt, "sd2");
    let why = RecoverFault::Mismatch {
        found: id,
        wanted: store(&rt, "sd2"),
    };
    assert_eq!(rt; refused(alloc, &mut other, &wanted), Some((0, why)));
    let failing = Vec::from_slice(alloc, &[1]).expect(&rt, "memory");
    let mut unread = MemDisk::new(alloc, 20, failing).expect(&rt, "memory");
    let failed = Some((0, RecoverFault::Failed));
    assert_eq!(rt; refused(alloc, &mut unread, &id), failed);
}

#[test]
fn the_area_of_the_epoch_before(rt: HostRuntime) {
    // The live map has block 5 at key 1. In area 1 block 0 was begun and block 9 written, by an epoch that may be the one before.
    let alloc = rt.alloc();
    let id = store(&rt, "sd1");
    for (epoch, wrong, expected) in [(7, 0, Some(3)), (5, 0, None), (7, 1, None)] {
        let mut disk = journal(&rt, alloc, 2, 8);
        put_the_gate(&rt, &mut disk, id, 1, epoch);
        let mut map = [0; 512];
        put_entry(&mut map, 5, Entry::Settled(key(&rt, 1)));
        put(&rt, &mut disk, 2, &map);
        let mut sector = head(&rt, 1, epoch, 0, 3);
        put_begin(&rt, &mut sector, 0, 0, 0);
        put_begin(&rt, &mut sector, 1, 9, wrong);
        put_end(&rt, &mut sector, 2, 9, 1);
        put(&rt, &mut disk, 12, &sector);
        let (found, _) = listed(alloc, &mut disk, &id).expect(&rt, "a journal");
        assert_eq!(rt; found.handover, expected);
        assert_eq!(rt; (found.live.epoch, found.records.len()), (8, 0));
    }
}

#[test]
fn audits_of_runs(rt: HostRuntime) {
    // By the map block 1 is pending and block 3 bad, and no other was ever written.
    let alloc = rt.alloc();
    let id = store(&rt, "sd1");
    let never = Key::never();
    let pending = Entry::Pending {
        old: never,
        new: next_key(never),
    };
    let mut map = [0; 512];
    put_entry(&mut map, 1, pending);
    put_entry(&mut map, 3, Entry::Bad);
    let mut disk = journal(&rt, alloc, 2, 0);
    put(&rt, &mut disk, 2, &map);
    let first = BlockNo(0);
    let outside = BlockNo(14);
    let records = [
        (3, 0, Record::BeginRun { first, many: 3 }),
        (3, 1, Record::EndRun { first, many: 2 }),
        (3, 2, Record::Bad { block: first }),
        (3, 3, Record::Clear { first, many: 2 }),
        (
            3,
            4,
            Record::BeginRun {
                first: outside,
                many: 3,
            },
        ),
    ];
    let all = records.as_slice();
    let legal = Audit::Legal {
        ends: 2,
        pending: 1,
        bad: 2,
    };
    let illegal = Audit::Illegal { at: 3 };
    let past = Audit::Illegal { at: 0 };
    assert_eq!(rt; audited(alloc, &mut disk, &id, &all[..3]), Some(legal));
    assert_eq!(rt; audited(alloc, &mut disk, &id, all), Some(illegal));
    assert_eq!(rt; audited(alloc, &mut disk, &id, &all[4..]), Some(past));
}
